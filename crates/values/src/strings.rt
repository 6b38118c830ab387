// Strings: where one stands, and comparing them while they are decoded.
#![tactic(auto, using(crate::proofs::Comparing::comparing, crate::proofs::Ordering::ordering, crate::proofs::Patterns::string_places))]

ghost use Rattle.std.specs.Prelude.{◌≡◌};
ghost use Rattle.text.specs.Words.{same_bytes};
ghost use Rattle.values.specs.Decode.{bytes_at, rest_of};
ghost use Rattle.values.specs.Clean.{all_bytes};
ghost use Rattle.values.specs.Names.{Later, order_of};
ghost use Rattle.values.specs.Rules.{StringAt};

use super::Piece;
use super::decode::{begun, common, first, piece, raw, rest};
use std::cmp::Ordering;
use text::bytes::byte_at;

// The first character of the string that was found; the end of the text, where nothing stands, if there is none. A place and no
// Option: its promise (`StringAt`) is of the bytes that stand there, none at the end, so that callers compare without a case of
// their own.
pub fn string_place(s: &[u8], found: Option<usize>) -> usize
    ensures { StringAt s.now found result }
{
    match found {
        Some(p) if byte_at(s, p) == b'"' => p + 1,
        _ => s.len(),
    }
}

// Does the string whose first character stands at `at` stand for the bytes of `w`?
pub fn string_is(s: &[u8], at: usize, w: &[u8]) -> bool
    ensures { result ≡ same_bytes (bytes_at s.now at) w.now }
{
    let n = begun(s, at, w);
    let mut p = piece(s, at + n);
    for b in &w[n..] {
        if first(p) != Some(u32::from(*b)) {
            return false;
        }
        p = rest(s, p);
    }
    first(p).is_none()
}

// How does one string stand to another? Where one ends first, it comes first.
pub(crate) fn order(s: &[u8], i: usize, j: usize) -> Ordering
    ensures { result ≡ order_of (bytes_at s.now i) (bytes_at s.now j) }
{
    let n = common(s, i, j);
    let mut p = piece(s, i + n);
    let mut q = piece(s, j + n);
    loop {
        let (a, b) = (first(p), first(q));
        if a.is_none() || a != b {
            return a.cmp(&b);
        }
        p = rest(s, p);
        q = rest(s, q);
    }
}

// Do two strings stand for the same bytes?
pub fn same_string(s: &[u8], i: usize, j: usize) -> bool
    ensures { result ≡ same_bytes (bytes_at s.now i) (bytes_at s.now j) }
{
    order(s, i, j).is_eq()
}

// What is left after the first byte, without the bytes that stand for themselves: they need no test.
fn later(s: &[u8], p: Piece) -> Piece
    ensures { Later s.now (rest_of s.now p) result }
{
    match p {
        Piece::One(_, n) => piece(s, raw(s, n)),
        _ => rest(s, p),
    }
}

// Has a string no surrogate without its partner?
pub fn all_bytes(s: &[u8], at: usize) -> bool
    ensures { result ≡ all_bytes (bytes_at s.now at) }
{
    let mut p = piece(s, raw(s, at));
    while let Some(a) = first(p) {
        if a >= 256 {
            return false;
        }
        p = later(s, p);
    }
    true
}
