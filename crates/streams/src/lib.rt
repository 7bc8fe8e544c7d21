// Streams: reading to the end, as far as there is room, and writing all, or a front where a write fails. What a signal cuts off is done again. It has no call of its own;
// `patchwalk` and `runcases` read and write by it. Where a reader's or a writer's bytes are known, the contracts say what becomes of them.
#![tactic(auto)]

ghost use Rattle.std.specs.Prelude.{◌<◌, IfOk, OnErr, OnOk, length, take};
ghost use Rattle.std.specs.Io.{ReadsAtMost, WritesAtMost};
ghost use Rattle.std.specs.Io.KnownBytes.{Appends, Consumes, IsAtEnd, ReadConsumes, WriteAppends};
ghost use Rattle.streams.specs.Written.{StopsShort};

use std::io;
use std::io::{ErrorKind, Read, Write};

fn read_some<R: Read>(input: &mut R, room: &mut [u8]) -> io::Result<usize>
    ensures within { ReadsAtMost result room.new }
    ensures bytes { ReadConsumes (R.remaining input.old) (R.remaining input.new) result room.new }
{
    for _ in 0..u64::MAX {
        match input.read(room) {
            Err(e) if e.kind() == ErrorKind::Interrupted => {}
            answer => return answer,
        }
    }
    input.read(room)
}

// Reads until the room is full or the input ends; how many bytes came.
pub fn load<R: Read>(input: &mut R, room: &mut [u8]) -> io::Result<usize>
    ensures within { ReadsAtMost result room.new }
    ensures bytes { IfOk result (λ n. Consumes (R.remaining input.old) (R.remaining input.new) (take n room.new)) }
    ensures end { IfOk result (λ n. n < length room.new → IsAtEnd (R.remaining input.new)) }
{
    // how many came is the answer, so the loop keeps that, and not the rest of the room
    let mut done = 0;
    while done < room.len() {
        let n = read_some(input, &mut room[done..])?;
        if n == 0 {
            return Ok(done);
        }
        done += n;
    }
    Ok(done)
}

fn write_some<W: Write>(out: &mut W, text: &[u8]) -> io::Result<usize>
    ensures within { WritesAtMost result text.now }
    ensures bytes { WriteAppends (W.contents out.old) (W.contents out.new) result text.now }
{
    for _ in 0..u64::MAX {
        match out.write(text) {
            Err(e) if e.kind() == ErrorKind::Interrupted => {}
            answer => return answer,
        }
    }
    out.write(text)
}

// Writes the text, until it is written or a write fails or takes nothing.
pub fn put<W: Write>(out: &mut W, text: &[u8]) -> io::Result<()>
    ensures all { OnOk result (Appends (W.contents out.old) (W.contents out.new) text.now) }
    ensures front { OnErr result (StopsShort (W.contents out.old) (W.contents out.new) text.now) }
{
    // `write_all` of std does not say what is written where it fails
    let mut rest = text;
    while !rest.is_empty() {
        let n = write_some(out, rest)?;
        if n == 0 {
            return Err(io::Error::from(ErrorKind::WriteZero));
        }
        rest = &rest[n..];
    }
    Ok(())
}
