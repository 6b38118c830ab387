// The bytes that a string stands for (RFC 8259, section 7). A string is read as a stream whose state is a value, so that two
// strings are compared while they are decoded and nothing is copied.
#![tactic(auto, using(crate::proofs::Decoding::spelling), unfolding(crate::specs::Decode::digit_of, crate::specs::Decode::unit_at, crate::specs::Decode::letter_of, crate::specs::Decode::utf8, crate::specs::Decode::utf8_long, crate::specs::Decode::pair_of, crate::specs::Decode::low_at, crate::specs::Decode::partner_at, crate::specs::Decode::escaped_at, crate::specs::Decode::unicode_at, crate::specs::Decode::piece_at, crate::specs::Decode::is_raw))]

ghost use Rattle.std.specs.Prelude.{◌≡◌, ◌+◌, ◌≤◌, ◌<◌, length, zip};
ghost use Rattle.std.specs.List.{prefix_len};
ghost use Rattle.values.specs.Decode.{digit_of, unit_at, letter_of, utf8, utf8_long, is_high, is_low, pair_of, low_at, partner_at, escaped_at, unicode_at, piece_at, is_raw, Common, Begun, first_of, rest_of};
ghost use Rattle.values.specs.Names.{raw_in_both};
ghost use Rattle.jsontext.specs.Reading.{span_at};

use super::Piece;
use jsontext::scan::span;
use jsontext::strings::{hex, is_escape};
use text::bytes::{byte_at, from, is_between, is_digit};

// The number that a digit of base 16 stands for.
fn digit(b: u8) -> u32
    ensures value { result ≡ digit_of b }
    ensures upper_bound { result < 256 }
{
    let n = u32::from(b);
    if is_digit(b) {
        n - 0x30
    } else if b < b'a' {
        n.saturating_sub(0x37)
    } else {
        n - 0x57
    }
}

// The number that four digits of base 16 give.
fn unit(s: &[u8], at: usize) -> u32
    requires { at + 4 ≤ length s.now }
    ensures { result ≡ unit_at s.now at }
{
    digit(s[at]) * 4096 + digit(s[at + 1]) * 256 + digit(s[at + 2]) * 16 + digit(s[at + 3])
}

// The byte that a letter after a backslash stands for.
fn letter(c: u8) -> u32
    ensures { result ≡ letter_of c }
{
    match c {
        b'b' => 0x08,
        b'f' => 0x0C,
        b'n' => 0x0A,
        b'r' => 0x0D,
        b't' => 0x09,
        _ => u32::from(c),
    }
}

// UTF-8 of a number that needs at most three bytes.
fn encode(u: u32, next: usize) -> Piece
    ensures { result ≡ utf8 u next }
{
    if u < 0x80 {
        Piece::One(u, next)
    } else if u < 0x800 {
        Piece::Two(0xC0 + u / 64, 0x80 + u % 64, next)
    } else {
        Piece::Three(0xE0 + u / 4096, 0x80 + u / 64 % 64, 0x80 + u % 64, next)
    }
}

// UTF-8 of a number that needs four.
fn encode_long(u: u32, next: usize) -> Piece
    ensures { result ≡ utf8_long u next }
{
    Piece::Four(
        0xF0 + u / 262144,
        0x80 + u / 4096 % 64,
        0x80 + u / 64 % 64,
        0x80 + u % 64,
        next,
    )
}

// The first of a pair of surrogates?
fn is_high(u: u32) -> bool
    ensures { result ≡ is_high u }
{
    matches!(u, 0xD800..=0xDBFF)
}

// The second?
fn is_low(u: u32) -> bool
    ensures { result ≡ is_low u }
{
    matches!(u, 0xDC00..=0xDFFF)
}

// The number of a pair of surrogates.
fn pair(u: u32, v: u32) -> u32
    requires { (0xD800 ≤ u) × (u ≤ 0xDBFF) × (0xDC00 ≤ v) × (v ≤ 0xDFFF) }
    ensures { result ≡ pair_of u v }
{
    0x10000 + (u - 0xD800) * 1024 + (v - 0xDC00)
}

// Do the digits of the second of a pair stand here?
fn low(s: &[u8], at: usize) -> bool
    ensures { result ≡ low_at s.now at }
{
    hex(s, at, 4).is_ok() && is_low(unit(s, at))
}

// Does an escape by number stand here, of the second of a pair?
fn partner(s: &[u8], at: usize) -> bool
    ensures { result ≡ partner_at s.now at }
{
    byte_at(s, at) == b'\\' && byte_at(s, at + 1) == b'u' && low(s, at + 2)
}

// The character of an escape by the number `u` that ends at `at`.
fn escaped(s: &[u8], at: usize, u: u32) -> Piece
    ensures { result ≡ escaped_at u s.now at }
{
    if is_high(u) && partner(s, at) {
        encode_long(pair(u, unit(s, at + 2)), at + 6)
    } else if is_high(u) || is_low(u) {
        Piece::One(u, at)
    } else {
        encode(u, at)
    }
}

// The character of an escape by number, whose digits begin at `at`.
fn unicode(s: &[u8], at: usize) -> Piece
    ensures { result ≡ unicode_at s.now at }
{
    match hex(s, at, 4) {
        Ok(e) => escaped(s, e, unit(s, at)),
        Err(_) => Piece::Stop,
    }
}

// The character at a place of a string.
pub fn piece(s: &[u8], at: usize) -> Piece
    ensures { result ≡ piece_at s.now at }
{
    let b = byte_at(s, at);
    if b < 0x20 || b == b'"' {
        return Piece::Stop;
    }
    if b != b'\\' {
        return Piece::One(u32::from(b), at + 1);
    }
    let c = byte_at(s, at + 1);
    // each returned by itself: as one expression, six registers are saved before the first test, and judging took a fifth longer
    if c == b'u' {
        return unicode(s, at + 2);
    }
    if is_escape(c) {
        return Piece::One(letter(c), at + 2);
    }
    Piece::Stop
}

// A byte of a string that stands for itself. By `is_between` no byte costs a branch; `matches!` took a third longer.
fn is_raw(b: u8) -> bool
    ensures { result ≡ is_raw b }
{
    is_between(b, 0x20, 0x21) || is_between(b, 0x23, 0x5B) || is_between(b, 0x5D, 0xFF)
}

// The place of the first byte at or after `at` that does not stand for itself.
pub fn raw(s: &[u8], at: usize) -> usize
    ensures { result ≡ span_at is_raw s.now at }
{
    span(s, at, is_raw)
}

// How many places from the front on two texts have one byte in common, which stands for itself.
fn alike(a: &[u8], b: &[u8]) -> usize
    ensures { result ≡ prefix_len raw_in_both (zip a.now b.now) }
{
    a.iter()
        .zip(b)
        .take_while(|(x, y)| is_raw(**x) && x == y)
        .count()
}

// How many bytes two strings begin with in common, as long as they stand for themselves. Comparing goes on by pieces from
// there: most strings have no escapes, and are compared here.
pub fn common(s: &[u8], i: usize, j: usize) -> usize
    ensures { Common s.now i j result }
{
    alike(from(s, i), from(s, j))
}

// How many bytes a string begins with in common with `w`, as long as they stand for themselves.
pub fn begun(s: &[u8], i: usize, w: &[u8]) -> usize
    ensures { Begun s.now i w.now result }
{
    alike(from(s, i), w)
}

// The first byte of what is left of a string.
pub fn first(p: Piece) -> Option<u32>
    ensures { result ≡ first_of p }
{
    match p {
        Piece::Stop => None,
        Piece::One(a, _) => Some(a),
        Piece::Two(a, _, _) => Some(a),
        Piece::Three(a, _, _, _) => Some(a),
        Piece::Four(a, _, _, _, _) => Some(a),
    }
}

// What is left after the first byte.
pub fn rest(s: &[u8], p: Piece) -> Piece
    ensures { result ≡ rest_of s.now p }
{
    match p {
        Piece::Stop => Piece::Stop,
        Piece::One(_, n) => piece(s, n),
        Piece::Two(_, b, n) => Piece::One(b, n),
        Piece::Three(_, b, c, n) => Piece::Two(b, c, n),
        Piece::Four(_, b, c, d, n) => Piece::Three(b, c, d, n),
    }
}
