// A case: the call that its word names, on what its line holds.
ghost use Rattle.std.specs.Prelude.{◌<◌, ◌≤◌, length};

use super::parse::NUMBERS_MOST;
use super::{SHOTS_ROOM, VALUES_ROOM, parse, show};
use circuits::Sides;
use intake::Shot;
use outline::{Facing, Lengths};
use shots::{COORDINATES_MOST, Handed, Refusal, SHOTS_MOST};
use std::io;
use std::io::Write;
use triples::Triples;
use walks::{Progress, Walk};

// A call that gives nothing but that it is not refused.
fn said<W: Write>(out: &mut W, word: &[u8], answer: Result<(), Refusal>) -> io::Result<()> {
    match answer {
        Ok(()) => show::text(out, word),
        Err(refusal) => show::refused(out, refusal),
    }
}

// A call that gives a number.
fn numbered<W: Write>(out: &mut W, word: &[u8], answer: Result<u64, Refusal>) -> io::Result<()> {
    match answer {
        Ok(number) => show::field(out, word, number),
        Err(refusal) => show::refused(out, refusal),
    }
}

fn counted<W: Write>(out: &mut W, word: &[u8], answer: Result<usize, Refusal>) -> io::Result<()> {
    numbered(out, word, answer.map(|count| count as u64))
}

fn oriented<W: Write>(out: &mut W, answer: Result<i64, Refusal>) -> io::Result<()> {
    match answer {
        Ok(area) => show::signed_field(out, b" area ", area),
        Err(refusal) => show::refused(out, refusal),
    }
}

fn split<W: Write>(out: &mut W, answer: Result<Sides, Refusal>) -> io::Result<()> {
    match answer {
        Ok(sides) => {
            show::text(out, b" sides")?;
            show::side(out, sides.plus)?;
            show::side(out, sides.minus)
        }
        Err(refusal) => show::refused(out, refusal),
    }
}

fn surface<W: Write>(out: &mut W, answer: Result<Triples, Refusal>) -> io::Result<()> {
    match answer {
        Ok(list) => show::list(out, list),
        Err(refusal) => show::refused(out, refusal),
    }
}

fn stepped<W: Write>(out: &mut W, answer: Result<Progress, Refusal>) -> io::Result<()> {
    match answer {
        Ok(Progress::Made) => show::text(out, b" made"),
        Ok(Progress::Done) => show::text(out, b" done"),
        Err(refusal) => show::refused(out, refusal),
    }
}

// Where the call is refused, the array that would hold the coordinates is printed as zeros.
fn handed<W: Write>(out: &mut W, answer: Result<Handed, Refusal>) -> io::Result<()> {
    match answer {
        Ok(patch) => {
            show::field(out, b" shots ", patch.count as u64)?;
            show::coordinates(out, &patch.coordinates)
        }
        Err(refusal) => {
            show::refused(out, refusal)?;
            show::coordinates(out, &[0; COORDINATES_MOST])
        }
    }
}

fn outlined<W: Write>(out: &mut W, answer: Result<Lengths, Refusal>) -> io::Result<()> {
    match answer {
        Ok(lengths) => {
            show::field(out, b" lengths ", lengths.south as u64)?;
            show::field(out, b" ", lengths.north as u64)
        }
        Err(refusal) => show::refused(out, refusal),
    }
}

fn list_of(low: u64, high: u64) -> Triples {
    Triples { words: [low, high] }
}

// ---- the calls on shots alone

// Where the call is refused, the array that would hold the signs is printed as zeros.
fn show_cocircuit<W: Write>(out: &mut W, shots: &[i32], i: usize, j: usize) -> io::Result<()> {
    match shots::cocircuit(shots, i, j) {
        Ok(signs) => {
            show::text(out, b" accepted")?;
            show::signs(out, &signs)
        }
        Err(refusal) => {
            show::refused(out, refusal)?;
            show::signs(out, &[0; SHOTS_MOST])
        }
    }
}

// Whether the line's word is one of these; then its answer is printed.
fn of_shots<W: Write>(
    out: &mut W,
    line: &[u8],
    shots: &[i32],
    a: usize,
    b: usize,
    c: usize,
) -> io::Result<bool> {
    if parse::is(line, b"accept") {
        said(out, b" accepted", shots::accept(shots))?;
        return Ok(true);
    }
    if parse::is(line, b"orientation") {
        oriented(out, shots::orientation(shots, a, b, c))?;
        return Ok(true);
    }
    if parse::is(line, b"double_area") {
        numbered(out, b" area ", shots::double_area(shots, a, b, c))?;
        return Ok(true);
    }
    if parse::is(line, b"cocircuit") {
        show_cocircuit(out, shots, a, b)?;
        return Ok(true);
    }
    if parse::is(line, b"border") {
        counted(out, b" count ", shots::border(shots))?;
        return Ok(true);
    }
    Ok(false)
}

// ---- circuits, lists and surfaces

fn of_lists<W: Write>(
    out: &mut W,
    line: &[u8],
    shots: &[i32],
    a: usize,
    list: Triples,
    z: usize,
) -> io::Result<bool> {
    if parse::is(line, b"circuits") {
        counted(out, b" count ", circuits::count(shots))?;
        return Ok(true);
    }
    if parse::is(line, b"circuit") {
        split(out, circuits::circuit(shots, a))?;
        return Ok(true);
    }
    if parse::is(line, b"test") {
        said(out, b" accepted", lists::test(shots, list))?;
        return Ok(true);
    }
    if parse::is(line, b"placing") {
        surface(out, surfaces::placing(shots))?;
        return Ok(true);
    }
    if parse::is(line, b"flip") {
        surface(out, surfaces::flip(shots, list, z))?;
        return Ok(true);
    }
    Ok(false)
}

// ---- the walk

fn show_start<W: Write>(
    out: &mut W,
    shots: &[i32],
    list: Triples,
    table: &mut [u64],
    walk: Walk,
) -> io::Result<()> {
    let mut walk = walk;
    said(
        out,
        b" started",
        walks::start(shots, list, table, &mut walk),
    )?;
    show::walk(out, walk, table)
}

fn show_step<W: Write>(
    out: &mut W,
    shots: &[i32],
    table: &mut [u64],
    walk: Walk,
) -> io::Result<()> {
    let mut walk = walk;
    stepped(out, walks::step(shots, table, &mut walk))?;
    show::walk(out, walk, table)
}

fn show_run<W: Write>(
    out: &mut W,
    shots: &[i32],
    table: &mut [u64],
    walk: Walk,
    b: usize,
) -> io::Result<()> {
    let mut walk = walk;
    stepped(out, walks::run(shots, table, &mut walk, b))?;
    show::walk(out, walk, table)
}

fn walk_of(rows: u64, step: u64) -> Walk {
    Walk {
        rows: rows as usize,
        step: step as usize,
    }
}

fn of_walks<W: Write>(
    out: &mut W,
    line: &[u8],
    shots: &[i32],
    table: &mut [u64],
    numbers: &[u64; NUMBERS_MOST],
) -> io::Result<bool> {
    if parse::is(line, b"start") {
        show_start(
            out,
            shots,
            list_of(numbers[0], numbers[1]),
            table,
            walk_of(numbers[2], numbers[3]),
        )?;
        return Ok(true);
    }
    if parse::is(line, b"step") {
        show_step(out, shots, table, walk_of(numbers[0], numbers[1]))?;
        return Ok(true);
    }
    if parse::is(line, b"run") {
        show_run(
            out,
            shots,
            table,
            walk_of(numbers[0], numbers[1]),
            numbers[2] as usize,
        )?;
        return Ok(true);
    }
    Ok(false)
}

// ---- records

fn of_records<W: Write>(
    out: &mut W,
    line: &[u8],
    shots: &[i32],
    bytes: &mut [u8],
    list: Triples,
) -> io::Result<bool> {
    if parse::is(line, b"read_patch") {
        handed(out, records::read_patch(bytes))?;
        return Ok(true);
    }
    if parse::is(line, b"write_patch") {
        counted(out, b" bytes ", records::write_patch(shots, bytes))?;
        show::bytes(out, bytes)?;
        return Ok(true);
    }
    if parse::is(line, b"read_surface") {
        surface(out, records::read_surface(shots, bytes))?;
        return Ok(true);
    }
    if parse::is(line, b"write_surface") {
        counted(out, b" bytes ", records::write_surface(shots, list, bytes))?;
        show::bytes(out, bytes)?;
        return Ok(true);
    }
    Ok(false)
}

// ---- the outline

fn show_chains<W: Write>(
    out: &mut W,
    shots: &[i32],
    south: &mut [u8],
    north: &mut [u8],
) -> io::Result<()> {
    outlined(out, outline::chains(shots, south, north))?;
    show::bytes(out, south)?;
    show::bytes(out, north)
}

fn show_part<'a, W: Write>(
    out: &mut W,
    facing: Facing,
    south: &'a [u8],
    north: &'a [u8],
    lengths: Lengths,
) -> io::Result<()> {
    show::text(out, b" bytes")?;
    show::bytes(out, outline::part(facing, south, north, lengths))
}

fn of_outline<W: Write>(
    out: &mut W,
    line: &[u8],
    shots: &[i32],
    south: &mut [u8],
    north: &mut [u8],
    lengths: Lengths,
) -> io::Result<bool> {
    if parse::is(line, b"chains") {
        show_chains(out, shots, south, north)?;
        return Ok(true);
    }
    if parse::is(line, b"south_part") {
        show_part(out, Facing::South, south, north, lengths)?;
        return Ok(true);
    }
    if parse::is(line, b"north_part") {
        show_part(out, Facing::North, south, north, lengths)?;
        return Ok(true);
    }
    Ok(false)
}

// ---- the intake

// A shot's unit; past the run, 0.
fn unit(units: &[u8], i: usize) -> u8 {
    units.get(i).copied().unwrap_or(0)
}

fn shot(units: &[u8], values: &[f64; VALUES_ROOM], i: usize) -> Shot
    requires { i < 10 }
{
    let east = values[2 * i];
    let north = values[2 * i + 1];
    if unit(units, i) == 0 {
        Shot::Metres(east, north)
    } else {
        Shot::Feet(east, north)
    }
}

// The ten shots; past their run, the values are 0.
fn ten_shots(units: &[u8], values: &[f64; VALUES_ROOM]) -> [Shot; SHOTS_MOST] {
    std::array::from_fn(|i| shot(units, values, i))
}

// The patterns of the values stand where a table does, in the line's second run.
fn of_intake<W: Write>(
    out: &mut W,
    line: &[u8],
    edition: usize,
    units: &[u8],
    patterns: &[u64],
    count: usize,
) -> io::Result<bool> {
    let mut values = [0.0; VALUES_ROOM];
    let n = parse::doubles(patterns, &mut values);
    if parse::is(line, b"take") {
        handed(out, intake::take(edition, ten_shots(units, &values), count))?;
        return Ok(true);
    }
    if parse::is(line, b"take_runs") {
        handed(out, intake::take_runs(edition, units, &values[..n]))?;
        return Ok(true);
    }
    Ok(false)
}

// ---- a line

// Whether the line's word is a call's; then it is made, and its answer is printed.
fn called<W: Write>(
    out: &mut W,
    line: &[u8],
    shots: &[i32],
    table: &mut [u64],
    bytes: &mut [u8],
    more: &mut [u8],
) -> io::Result<bool> {
    let numbers = parse::numbers(line);
    let a = numbers[0] as usize;
    let b = numbers[1] as usize;
    let c = numbers[2] as usize;
    let list = list_of(numbers[0], numbers[1]);
    if of_shots(out, line, shots, a, b, c)? {
        return Ok(true);
    }
    if of_lists(out, line, shots, a, list, c)? {
        return Ok(true);
    }
    if of_walks(out, line, shots, table, &numbers)? {
        return Ok(true);
    }
    if of_records(out, line, shots, bytes, list)? {
        return Ok(true);
    }
    if of_outline(
        out,
        line,
        shots,
        bytes,
        more,
        Lengths { south: a, north: b },
    )? {
        return Ok(true);
    }
    of_intake(out, line, a, bytes, table, b)
}

// The word, the answer, and what was left; an unknown word is said to be so.
fn answer<W: Write>(
    out: &mut W,
    line: &[u8],
    shots: &[i32],
    table: &mut [u64],
    bytes: &mut [u8],
    more: &mut [u8],
) -> io::Result<()> {
    show::text(out, parse::word(line))?;
    if !called(out, line, shots, table, bytes, more)? {
        show::text(out, b" unknown")?;
    }
    show::text(out, b"\n")
}

// The shots of a case: the line's first run; cells hold it on the way.
fn shots_of(line: &[u8], cells: &mut [u64], shots: &mut [i32]) -> usize
    ensures { result ≤ length shots.new }
{
    let k = parse::gather(line, 1, cells);
    parse::coordinates(cells, k, shots)
}

// A run of a line as bytes, as far as there is room; cells hold it on the way.
fn bytes_of(line: &[u8], run: usize, cells: &mut [u64], bytes: &mut [u8]) -> usize
    ensures { result ≤ length bytes.new }
{
    let k = parse::gather(line, run, cells);
    parse::bytes(cells, k, bytes)
}

// Which run of a line is the first of bytes: a call that takes no shots begins with it, the others have it behind them.
fn bytes_run(line: &[u8]) -> usize
    ensures { result ≤ 2 }
{
    let words: [&[u8]; 5] = [
        b"read_patch",
        b"south_part",
        b"north_part",
        b"take",
        b"take_runs",
    ];
    if words.iter().any(|word| parse::is(line, *word)) {
        1
    } else {
        2
    }
}

// A case's line; a remark and an empty line are none. The cells hold each run in turn, the table last.
pub fn case<W: Write>(
    out: &mut W,
    line: &[u8],
    cells: &mut [u64],
    bytes: &mut [u8],
    more: &mut [u8],
) -> io::Result<()> {
    if line.is_empty() || line.starts_with(b"#") {
        return Ok(());
    }
    let mut shots = [0i32; SHOTS_ROOM];
    let n = shots_of(line, cells, &mut shots);
    let run = bytes_run(line);
    let size = bytes_of(line, run, cells, bytes);
    let rest = bytes_of(line, run + 1, cells, more);
    let m = parse::gather(line, 2, cells);
    answer(
        out,
        line,
        &shots[..n],
        &mut cells[..m],
        &mut bytes[..size],
        &mut more[..rest],
    )
}
