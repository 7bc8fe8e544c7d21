// patchwalk: reads one patch record on standard input, walks from its placing surface over all surfaces that flips reach, and prints them.
// The lines of the report are proved functions of the bytes read (crates/report). Here they are read and written, a part at a time, and what is written is proved to be the report; where a read or
// a write fails, a front of it, and not all of it.
#![tactic(auto)]

ghost use Rattle.std.specs.Prelude.{IfSome, OnErr, OnOk};
ghost use Rattle.std.specs.Io.KnownBytes.{Appends};
ghost use Rattle.records.specs.Fields.{Bytes};
ghost use Rattle.report.specs.Report.{report_of};
ghost use Rattle.streams.specs.Written.{StopsShort};

use arrayvec::ArrayString;
use std::io;
use std::io::{Read, Write};

// One byte more than the longest record, so that what is longer is seen to be.
const INPUT_MOST: usize = 65538;

// Prints the report of the bytes, a part at a time.
fn print<W: Write>(out: &mut W, bytes: &[u8]) -> io::Result<()>
    ensures all { OnOk result
        (Appends (W.contents out.old) (W.contents out.new) (report_of bytes.now)) }
    ensures front { OnErr result
        (StopsShort (W.contents out.old) (W.contents out.new) (report_of bytes.now)) }
{
    let mut table = [0u64; report::TABLE_WORDS];
    let found = report::walked::find(bytes, &mut table);
    let lines = report::lines::count(found);
    let mut text = ArrayString::new();
    for from in (0..lines).step_by(report::PART_LINES) {
        let to = from + report::PART_LINES.min(lines - from);
        report::lines::part(bytes, &table, found, from, to, &mut text);
        streams::put(out, text.as_bytes())?;
    }
    Ok(())
}

// Reads a record and prints its report.
fn run<R: Read, W: Write>(input: &mut R, out: &mut W) -> io::Result<()>
    ensures all { OnOk result (IfSome (R.remaining input.old)
        (λ bs. Bytes bs → Appends (W.contents out.old) (W.contents out.new) (report_of bs))) }
    ensures front { OnErr result (IfSome (R.remaining input.old)
        (λ bs. Bytes bs → StopsShort (W.contents out.old) (W.contents out.new) (report_of bs))) }
{
    let mut room = [0u8; INPUT_MOST];
    let n = streams::load(input, &mut room)?;
    print(out, &room[..n])
}

fn main(rt: HostRuntime) -> io::Result<()> {
    run(&mut rt.stdin(), &mut rt.stdout())
}
