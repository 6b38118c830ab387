// Kinds of values, and integers.
#![tactic(auto, using(crate::proofs::Counting::counting, crate::proofs::Sorts::kinds), unfolding(crate::specs::Tree::capped))]

ghost use Rattle.std.specs.Prelude.{◌≡◌, ◌+◌, ◌-◌, ◌*◌, ◌≤◌, ◌<◌, ℕ, length, slice_index};
ghost use Rattle.jsontext.specs.Reading.{number_at};
ghost use Rattle.values.specs.Tree.{tree_at, is_null, is_bool, is_string, is_array, is_object, end_of, decimal, capped, count_of};
ghost use Rattle.values.specs.Rules.{within};

use jsontext::numbers::{digits, number};
use text::bytes::{byte_at, is_digit};

// The kinds by the first byte. Each is one comparison, and its promise names its own definition: a function of the byte would be no
// plainer.
pub fn is_string(s: &[u8], at: usize, depth: usize) -> bool
    ensures { result ≡ is_string (tree_at depth s.now at) }
{
    byte_at(s, at) == b'"'
}

pub fn is_array(s: &[u8], at: usize, depth: usize) -> bool
    ensures { result ≡ is_array (tree_at depth s.now at) }
{
    byte_at(s, at) == b'['
}

pub fn is_object(s: &[u8], at: usize, depth: usize) -> bool
    ensures { result ≡ is_object (tree_at depth s.now at) }
{
    byte_at(s, at) == b'{'
}

pub fn is_null(s: &[u8], at: usize, depth: usize) -> bool
    ensures { result ≡ is_null (tree_at depth s.now at) }
{
    byte_at(s, at) == b'n'
}

// Is it true or false?
pub fn is_bool(s: &[u8], at: usize, depth: usize) -> bool
    ensures { result ≡ is_bool (tree_at depth s.now at) }
{
    let b = byte_at(s, at);
    b == b't' || b == b'f'
}

// Where a number ends.
fn number_end(s: &[u8], at: usize) -> usize
    ensures { result ≡ end_of (number_at s.now at) }
{
    number(s, at).unwrap_or_else(|b| b.at)
}

// At most 1000000.
fn cap(n: u64) -> u64
    ensures { result ≡ capped n }
{
    n.min(1000000)
}

// One digit more.
fn plus(n: u64, b: u8) -> u64
    requires { (n ≤ 1000000) × (48 ≤ b) }
    ensures { result ≡ capped (n * 10 + (b - 48)) }
{
    cap(n * 10 + u64::from(b - 48))
}

// The number that these digits give.
fn digits_value(digits: &[u8]) -> u64
    requires { (k : ℕ) → k < length digits.now → 48 ≤ slice_index digits.now k }
    ensures { result ≡ capped (decimal 0 digits.now) }
{
    let mut n = 0;
    for b in digits {
        n = plus(n, *b);
    }
    n
}

// An integer: digits, with no sign, fraction or exponent.
pub fn integer(s: &[u8], at: usize, depth: usize) -> Option<u64>
    ensures { result ≡ count_of (tree_at depth s.now at) }
{
    if !is_digit(byte_at(s, at)) {
        return None;
    }
    let e = digits(s, at);
    if number_end(s, at) == e {
        Some(digits_value(&s[at..e]))
    } else {
        None
    }
}

// Is an integer from `low` to `high`?
pub fn in_range(c: Option<u64>, low: u64, high: u64) -> bool
    ensures { result ≡ within low high c }
{
    c.is_some_and(|n| low <= n && n <= high)
}
