// runcases: reads a stream of cases on standard input and prints for each what the call answered and what it left in all that it was lent. docs/CASES.md has the form of both.
#![tactic(auto)]

ghost use Rattle.std.specs.Prelude.{◌<◌, IfOk, length, take};
ghost use Rattle.std.specs.Io.{ReadsAtMost};
ghost use Rattle.std.specs.Io.KnownBytes.{Consumes, IsAtEnd};

use std::io;
use std::io::{Read, Write};

mod calls;
mod parse;
mod show;

// The longest stream, run of coordinates, run of doubles, run of bytes, and table. The room for the stream is one byte more, so that what is longer is seen to be.
const STREAM_MOST: usize = 524288;

const STREAM_ROOM: usize = STREAM_MOST + 1;

const SHOTS_ROOM: usize = 64;

const VALUES_ROOM: usize = 64;

const BYTES_ROOM: usize = 65600;

const TABLE_ROOM: usize = 131080;

// The stream, as far as there is room; how many bytes it has there.
fn load<R: Read>(input: &mut R, stream: &mut [u8; STREAM_ROOM]) -> io::Result<usize>
    ensures within { ReadsAtMost result stream.new }
    ensures bytes { IfOk result
        (λ n. Consumes (R.remaining input.old) (R.remaining input.new) (take n stream.new)) }
    ensures end { IfOk result (λ n. n < length stream.new → IsAtEnd (R.remaining input.new)) }
{
    streams::load(input, stream)
}

// The cases, line by line.
fn all<W: Write>(
    out: &mut W,
    stream: &[u8],
    cells: &mut [u64; TABLE_ROOM],
    bytes: &mut [u8; BYTES_ROOM],
    more: &mut [u8; BYTES_ROOM],
) -> io::Result<()> {
    for line in stream.split(|c| *c == b'\n') {
        calls::case(out, line, cells, bytes, more)?;
    }
    Ok(())
}

fn main(rt: HostRuntime) -> io::Result<()> {
    let mut stream = [0u8; STREAM_ROOM];
    let n = load(&mut rt.stdin(), &mut stream)?;
    let mut out = rt.stdout();
    if STREAM_MOST < n {
        return show::text(&mut out, b"stream too long\n");
    }
    let mut cells = [0u64; TABLE_ROOM];
    let mut bytes = [0u8; BYTES_ROOM];
    let mut more = [0u8; BYTES_ROOM];
    all(&mut out, &stream[..n], &mut cells, &mut bytes, &mut more)
}
