// What a case prints.
use shots::{Refusal, SHOTS_MOST};
use std::fmt::Display;
use std::io;
use std::io::Write;
use triples::Triples;
use walks::Walk;

pub fn text<W: Write>(out: &mut W, s: &[u8]) -> io::Result<()> {
    out.write_all(s)
}

pub fn number<W: Write>(out: &mut W, n: u64) -> io::Result<()> {
    write!(out, "{n}")
}

// A text and a number behind it.
pub fn field<W: Write>(out: &mut W, s: &[u8], n: u64) -> io::Result<()> {
    text(out, s)?;
    number(out, n)
}

pub fn refused<W: Write>(out: &mut W, refusal: Refusal) -> io::Result<()> {
    field(out, b" refused ", u64::from(u8::from(refusal)))
}

// A text and a number behind it that may be negative.
pub fn signed_field<W: Write>(out: &mut W, s: &[u8], z: i64) -> io::Result<()> {
    text(out, s)?;
    write!(out, "{z}")
}

pub fn list<W: Write>(out: &mut W, t: Triples) -> io::Result<()> {
    field(out, b" list ", triples::sets::word(t, 0))?;
    field(out, b" ", triples::sets::word(t, 1))
}

// The shots of a mask, as digits.
pub fn side<W: Write>(out: &mut W, mask: u16) -> io::Result<()> {
    text(out, b" ")?;
    for i in 0..SHOTS_MOST {
        if triples::holding::on(mask, i) {
            write!(out, "{i}")?;
        }
    }
    Ok(())
}

// What stands before place i of a run.
fn before<W: Write>(out: &mut W, i: usize) -> io::Result<()> {
    if i == 0 {
        text(out, b" [")
    } else {
        text(out, b" ")
    }
}

// What stands behind a run of n.
fn behind<W: Write>(out: &mut W, n: usize) -> io::Result<()> {
    if n == 0 {
        text(out, b" []")
    } else {
        text(out, b"]")
    }
}

// A run of numbers.
fn run<W: Write, T: Copy + Display>(out: &mut W, s: &[T]) -> io::Result<()> {
    for (i, x) in s.iter().enumerate() {
        before(out, i)?;
        write!(out, "{}", *x)?;
    }
    behind(out, s.len())
}

pub fn signs<W: Write>(out: &mut W, s: &[i8]) -> io::Result<()> {
    run(out, s)
}

pub fn coordinates<W: Write>(out: &mut W, s: &[i32]) -> io::Result<()> {
    run(out, s)
}

pub fn bytes<W: Write>(out: &mut W, s: &[u8]) -> io::Result<()> {
    run(out, s)
}

// Equal words in a row are printed once, with their number.
pub fn table<W: Write>(out: &mut W, s: &[u64]) -> io::Result<()> {
    for (i, alike) in s.chunk_by(|a, b| *a == *b).enumerate() {
        before(out, i)?;
        if let Some(word) = alike.first() {
            number(out, *word)?;
        }
        if alike.len() > 1 {
            field(out, b"*", alike.len() as u64)?;
        }
    }
    behind(out, s.len())
}

// The walk record and the table.
pub fn walk<W: Write>(out: &mut W, w: Walk, s: &[u64]) -> io::Result<()> {
    field(out, b" rows ", w.rows as u64)?;
    field(out, b" step ", w.step as u64)?;
    table(out, s)
}
