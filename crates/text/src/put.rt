// Numbers put behind a text.
ghost use Rattle.std.specs.Prelude.{◌≡◌, ◌++◌, ◌+◌, ◌≤◌, length};
ghost use Rattle.arrayvec.specs.ArrayString.{array_string_len};
ghost use Rattle.algebra.specs.Writing.{decimal_of};
ghost use Rattle.text.specs.Sizes.{decimal_most};

use arrayvec::ArrayString;
use itoa::Buffer;

// A number in decimal digits.
#[tactic(auto, using(crate::proofs::DecimalLaws::decimal_same))]
pub fn decimal<const N: usize>(out: &mut ArrayString<N>, n: u64)
    requires { array_string_len out.old + decimal_most ≤ N }
    ensures text { out.new.bytes ≡ out.old.bytes ++ decimal_of n }
    ensures len { array_string_len out.new ≤ array_string_len out.old + decimal_most }
{
    let mut digits = Buffer::new();
    out.push_str(digits.format(n));
}

// A word and a number behind it.
pub fn field<const N: usize>(out: &mut ArrayString<N>, word: &str, n: u64)
    requires { array_string_len out.old + length word.now + decimal_most ≤ N }
    ensures text { out.new.bytes ≡ out.old.bytes ++ (word.now ++ decimal_of n) }
    ensures len { array_string_len out.new ≤ array_string_len out.old + length word.now + decimal_most }
{
    out.push_str(word);
    decimal(out, n);
}
