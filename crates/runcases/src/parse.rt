// A case's line: its word, its numbers, and its runs of numbers.
ghost use Rattle.std.specs.Prelude.{◌<◌, ◌≤◌, length};

// A line has at most so many numbers outside its runs.
pub const NUMBERS_MOST: usize = 8;

// A line has at most so many runs.
const RUNS_MOST: usize = 3;

// Where in a line a byte stands: behind how many opening brackets, and whether inside.
#[derive(Clone, Copy)]
struct Place {
    runs: usize,
    inside: bool,
}

// A number that is being read: its digits so far and its sign; where a `*` has come, what stood before it.
#[derive(Clone, Copy)]
struct Scan {
    value: u64,
    negative: bool,
    some: bool,
    held: u64,
    times: bool,
}

// Whether the line's word is this one.
pub fn is(line: &[u8], word: &[u8]) -> bool {
    line.strip_prefix(word)
        .is_some_and(|rest| rest.starts_with(b" "))
}

// The line's word: what stands before its first blank.
pub fn word(line: &[u8]) -> &[u8] {
    match line.iter().position(|c| *c == b' ') {
        Some(end) => &line[..end],
        None => line,
    }
}

fn fresh() -> Scan {
    Scan {
        value: 0,
        negative: false,
        some: false,
        held: 0,
        times: false,
    }
}

fn signed(value: u64, negative: bool) -> u64 {
    if negative {
        value.wrapping_neg()
    } else {
        value
    }
}

// Ten times the value and a digit; a number that does not fit starts anew. `parse` of std refuses such a number, and the program prints what came of it.
fn with_digit(value: u64, c: u8) -> u64
    requires { (48 ≤ c) × (c < 58) }
{
    match value.checked_mul(10) {
        Some(tens) => tens.wrapping_add(u64::from(c - b'0')),
        None => 0,
    }
}

fn read(s: Scan, c: u8) -> Scan {
    match c {
        b'0'..=b'9' => Scan {
            value: with_digit(s.value, c),
            some: true,
            ..s
        },
        b'-' => Scan {
            value: 0,
            negative: true,
            some: false,
            ..s
        },
        b'*' => Scan {
            held: signed(s.value, s.negative),
            times: true,
            ..fresh()
        },
        _ => fresh(),
    }
}

// The value that a number stands for, and how often.
fn item(s: Scan) -> u64 {
    if s.times {
        s.held
    } else {
        signed(s.value, s.negative)
    }
}

fn times(s: Scan) -> u64 {
    if s.times { s.value } else { 1 }
}

// Puts a value so many times behind the first len cells, as far as there is room.
fn push(cells: &mut [u64], len: usize, value: u64, times: u64) -> usize
    requires { len ≤ length cells.old }
    ensures { result ≤ length cells.new }
{
    let end = len + (cells.len() - len).min(times as usize);
    cells[len..end].fill(value);
    end
}

// Whether a byte ends a number.
fn ends(c: u8) -> bool {
    matches!(c, b' ' | b']' | b'\n')
}

// The place behind a byte.
fn moved(p: Place, c: u8) -> Place {
    match c {
        b'[' if p.runs < RUNS_MOST => Place {
            runs: p.runs + 1,
            inside: true,
        },
        b']' => Place { inside: false, ..p },
        _ => p,
    }
}

// The run that a place is in: 1 for the first, or 0 outside.
fn run_of(p: Place) -> usize {
    if p.inside { p.runs } else { 0 }
}

// Takes the number that ends here, if one does and it is wanted.
fn taken(cells: &mut [u64], len: usize, s: Scan, c: u8, wanted: bool) -> usize
    requires { len ≤ length cells.old }
    ensures { result ≤ length cells.new }
{
    if s.some && ends(c) && wanted {
        push(cells, len, item(s), times(s))
    } else {
        len
    }
}

// The numbers of a line's run, 1 for the first, or for 0 those outside all runs, into cells, as far as there is room; how many there are.
pub fn gather(line: &[u8], run: usize, cells: &mut [u64]) -> usize
    ensures { result ≤ length cells.new }
{
    let mut len = 0;
    let mut p = Place {
        runs: 0,
        inside: false,
    };
    let mut s = fresh();
    for c in line {
        len = taken(cells, len, s, *c, run_of(p) == run);
        p = moved(p, *c);
        s = read(s, *c);
    }
    taken(cells, len, s, b'\n', run_of(p) == run)
}

// The numbers outside the runs.
pub fn numbers(line: &[u8]) -> [u64; NUMBERS_MOST] {
    let mut cells = [0u64; NUMBERS_MOST];
    gather(line, 0, &mut cells);
    cells
}

// A coordinate: the low 32 bits, in two's complement.
fn narrow(x: u64) -> i32 {
    ((x % 4294967296) as u32).cast_signed()
}

// The first cells as coordinates, as far as there is room; how many there are.
pub fn coordinates(cells: &[u64], len: usize, out: &mut [i32]) -> usize
    requires { len ≤ length cells.now }
    ensures { result ≤ length out.new }
{
    for (place, cell) in out.iter_mut().zip(&cells[..len]) {
        *place = narrow(*cell);
    }
    len.min(out.len())
}

// The first cells as bytes, as far as there is room; how many there are.
pub fn bytes(cells: &[u64], len: usize, out: &mut [u8]) -> usize
    requires { len ≤ length cells.now }
    ensures { result ≤ length out.new }
{
    for (place, cell) in out.iter_mut().zip(&cells[..len]) {
        *place = (*cell % 256) as u8;
    }
    len.min(out.len())
}

// The double of a pattern. Less its sign's bit, the pattern of a NaN is above that of an infinity; any such gives one and the same NaN.
fn double(pattern: u64) -> f64 {
    if pattern % 0x8000_0000_0000_0000 > 0x7ff0_0000_0000_0000 {
        f64::NAN
    } else {
        f64::from_bits(pattern)
    }
}

// The cells as doubles, as far as there is room; how many there are.
pub fn doubles(cells: &[u64], out: &mut [f64]) -> usize
    ensures { result ≤ length out.new }
{
    for (place, cell) in out.iter_mut().zip(cells) {
        *place = double(*cell);
    }
    cells.len().min(out.len())
}
