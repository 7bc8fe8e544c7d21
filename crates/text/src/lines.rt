// The lines, each put behind a text with room for the longest.
ghost use Rattle.std.specs.Prelude.{◌≡◌, ◌++◌, ◌+◌, ◌*◌, ◌≤◌, ◌<◌, [], ◌∷◌, length};
ghost use Rattle.arrayvec.specs.ArrayString.{array_string_len};
ghost use Rattle.algebra.specs.Writing.{decimal_of};
ghost use Rattle.shots.specs.Sizes.{shots_most};
ghost use Rattle.triples.specs.Sizes.{word_count, triples_most};
ghost use Rattle.triples.specs.Ranks.{triple_count, triple_at};
ghost use Rattle.triples.specs.Sets.{words_of, Holding};
ghost use Rattle.text.specs.Sizes.{decimal_most, line_most};
ghost use Rattle.text.specs.Lines.{triple_text, triples_text, patch_line, row_line, end_word, last_line, refused_line};

use super::{counts, put};
use arrayvec::ArrayString;
use triples::{Triples, holding, ranks, sets};

// The first line: shots, circuits, sides, double area.
#[tactic(auto, unfolding(crate::specs::Lines::patch_line))]
pub fn patch<const N: usize>(
    out: &mut ArrayString<N>,
    n: usize,
    circuits: usize,
    border: usize,
    area: u64,
)
    requires { array_string_len out.old + line_most ≤ N }
    ensures text { out.new.bytes ≡ out.old.bytes ++ patch_line n circuits border area }
    ensures len { array_string_len out.new ≤ array_string_len out.old + line_most }
{
    put::field(out, "patch ", n as u64);
    put::field(out, " circuits ", circuits as u64);
    put::field(out, " border ", border as u64);
    put::field(out, " area2 ", area);
    out.push_str("\n");
}

// A shot, which is one digit.
fn digit<const N: usize>(out: &mut ArrayString<N>, shot: usize)
    requires { (shot < shots_most) × (array_string_len out.old + 1 ≤ N) }
    ensures text { out.new.bytes ≡ out.old.bytes ++ (48 + shot) ∷ [] }
    ensures len { array_string_len out.new ≡ array_string_len out.old + 1 }
{
    out.push(char::from(b'0' + shot as u8));
}

// A blank, and the shots of the triple of rank r.
#[tactic(auto, using(triples::proofs::RankLaws::triple_shots), unfolding(crate::specs::Lines::triple_text, crate::specs::Lines::shots_text))]
fn triple<const N: usize>(out: &mut ArrayString<N>, n: usize, r: usize)
    requires { (n ≤ shots_most) × (r < triple_count n) × (array_string_len out.old + 4 ≤ N) }
    ensures text { out.new.bytes ≡ out.old.bytes ++ triple_text (triple_at n r) }
    ensures len { array_string_len out.new ≡ array_string_len out.old + 4 }
{
    let s = ranks::triple_at(n, r);
    out.push_str(" ");
    digit(out, s.i);
    digit(out, s.j);
    digit(out, s.k);
}

// The triples of the list, in the order of their ranks.
#[tactic(auto, using(triples::proofs::RankLaws::triples_few), unfolding(crate::specs::Lines::triples_text))]
fn triples_of<const N: usize>(out: &mut ArrayString<N>, n: usize, list: Triples)
    requires { (n ≤ shots_most) × (array_string_len out.old + 4 * triples_most ≤ N) }
    ensures text { out.new.bytes ≡ out.old.bytes ++ triples_text n (words_of list) }
    ensures len { array_string_len out.new ≤ array_string_len out.old + 4 * triples_most }
{
    let count = ranks::count(n);
    // not a range of ranks: `from` steps over those that are not in the list
    let mut r = sets::from(list, 0);
    while r < count {
        triple(out, n, r);
        r = sets::from(list, r + 1);
    }
}

// The line of row p: row, triples, shots used, triples.
#[tactic(auto, unfolding(crate::specs::Lines::row_line))]
pub fn row<const N: usize>(
    out: &mut ArrayString<N>,
    held: &[u64],
    n: usize,
    p: usize,
    list: Triples,
)
    requires { (n ≤ shots_most) × (word_count * n ≤ length held.now) × Holding n held.now × (array_string_len out.old + line_most ≤ N) }
    ensures text { out.new.bytes ≡ out.old.bytes ++ row_line n p (words_of list) }
    ensures len { array_string_len out.new ≤ array_string_len out.old + line_most }
{
    let size = holding::size(n, list);
    let used = counts::used(held, n, list);
    put::decimal(out, p as u64);
    put::field(out, " ", size as u64);
    put::field(out, " ", used as u64);
    triples_of(out, n, list);
    out.push_str("\n");
}

// The last line: how the walk ended, rows and steps.
#[tactic(auto, unfolding(crate::specs::Lines::last_line))]
pub fn last<const N: usize>(out: &mut ArrayString<N>, done: bool, rows: usize, steps: usize)
    requires { array_string_len out.old + line_most ≤ N }
    ensures text { out.new.bytes ≡ out.old.bytes ++ last_line done rows steps }
    ensures len { array_string_len out.new ≤ array_string_len out.old + line_most }
{
    put::field(out, end(done), rows as u64);
    put::field(out, " ", steps as u64);
    out.push_str("\n");
}

// How the walk ended.
#[tactic(auto, unfolding(crate::specs::Lines::end_word))]
fn end(done: bool) -> &'static str
    ensures word { result.now ≡ end_word done }
    ensures len { length result.now ≡ 5 }
{
    if done { "done " } else { "full " }
}

// The one line of a refused patch.
#[tactic(auto, unfolding(crate::specs::Lines::refused_line))]
pub fn refused<const N: usize>(out: &mut ArrayString<N>, number: u8)
    requires { array_string_len out.old + line_most ≤ N }
    ensures text { out.new.bytes ≡ out.old.bytes ++ refused_line number }
    ensures len { array_string_len out.new ≤ array_string_len out.old + line_most }
{
    put::field(out, "refused ", u64::from(number));
    out.push_str("\n");
}
