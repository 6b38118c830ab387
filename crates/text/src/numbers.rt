// Decimal numbers and dotted quads, read at a place of a text.
#![tactic(auto, using(crate::proofs::NumberLaws::reading), unfolding(crate::specs::Numbers::number_at, crate::specs::Numbers::closed_by, crate::specs::Numbers::quad_at))]

ghost use Rattle.std.specs.Prelude.{◌≡◌, ◌+◌, ◌*◌, ◌-◌, ◌≤◌};
ghost use Rattle.text.specs.Numbers.{number_at, closed_by, closed_at, quad_at, closed_quad_at};

use crate::bytes;

// The value of a digit, wide enough for ten times any number of 32 bits.
fn value(b: u8) -> u64
    requires { 0x30 ≤ b }
    ensures { result ≡ b - 0x30 }
{
    u64::from(b - b'0')
}

// The decimal number at a place, of at most `max` and without a zero in front, and the place after it. It stops at the first
// number above `max`, so that a long row of digits never wraps.
pub fn number(s: &[u8], at: usize, max: u32) -> Option<(u32, usize)>
    ensures { result ≡ number_at max s.now at }
{
    let b = bytes::byte_at(s, at);
    if b == b'0' {
        if bytes::is_digit(bytes::byte_at(s, at + 1)) {
            return None;
        }
        return Some((0, at + 1));
    }
    if !bytes::is_digit(b) {
        return None;
    }
    let mut v = value(b);
    // past the end stands no digit: the last turn returns
    for i in at + 1..=s.len() {
        if v > u64::from(max) {
            return None;
        }
        let c = bytes::byte_at(s, i);
        if !bytes::is_digit(c) {
            return Some((v as u32, i));
        }
        v = v * 10 + value(c);
    }
    None
}

// A number that was read, if the byte `close` follows it.
fn ended(s: &[u8], found: Option<(u32, usize)>, close: u8) -> Option<(u32, usize)>
    ensures { result ≡ closed_by close s.now found }
{
    let (v, i) = found?;
    if bytes::is_at(s, i, close) {
        return Some((v, i + 1));
    }
    None
}

// A number and the byte `close` after it.
pub fn closed(s: &[u8], at: usize, max: u32, close: u8) -> Option<(u32, usize)>
    ensures { result ≡ closed_at max close s.now at }
{
    ended(s, number(s, at, max), close)
}

fn joined(a: u32, b: u32, c: u32, d: u32) -> u32
    requires { (a ≤ 255) × (b ≤ 255) × (c ≤ 255) × (d ≤ 255) }
    ensures { result ≡ ((a * 256 + b) * 256 + c) * 256 + d }
{
    ((a * 256 + b) * 256 + c) * 256 + d
}

// A dotted quad. What may follow it is the caller's to test.
pub fn quad(s: &[u8], at: usize) -> Option<(u32, usize)>
    ensures { result ≡ quad_at s.now at }
{
    let (a, i) = closed(s, at, 255, b'.')?;
    let (b, j) = closed(s, i, 255, b'.')?;
    let (c, k) = closed(s, j, 255, b'.')?;
    let (d, n) = number(s, k, 255)?;
    Some((joined(a, b, c, d), n))
}

// A dotted quad and the byte `close` after it.
pub fn closed_quad(s: &[u8], at: usize, close: u8) -> Option<(u32, usize)>
    ensures { result ≡ closed_quad_at close s.now at }
{
    ended(s, quad(s, at), close)
}
