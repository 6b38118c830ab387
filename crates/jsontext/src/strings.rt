// Strings (RFC 8259, section 7), with the UTF-8 in them (RFC 3629, section 4).
#![tactic(auto, unfolding(text::specs::Bytes::between, crate::specs::Reading::is_hex, crate::specs::Reading::is_escape, crate::specs::Reading::is_plain, crate::specs::Reading::wide_at, crate::specs::Reading::escape_at, crate::specs::Reading::char_at))]

ghost use Rattle.std.specs.Prelude.{◌≡◌, ◌<◌};
ghost use Rattle.jsontext.specs.Reading.{is_hex, is_escape, is_plain, span_at, times_at, tails_at, wide_at, escape_at, char_at, string_at};

use super::Bad;
use super::scan::{one, span, times};
use text::bytes::{byte_at, is_between, is_digit};

// By `is_between`, which is out at the first range that has the byte: `is_ascii_hexdigit` asks for all three, and texts full of escapes took
// twice as long.
fn is_hex(b: u8) -> bool
    ensures { result ≡ is_hex b }
{
    is_digit(b) || is_between(b, b'A', b'F') || is_between(b, b'a', b'f')
}

// A character of one byte that stands for itself.
fn is_plain(b: u8) -> bool
    ensures { result ≡ is_plain b }
{
    is_between(b, 0x20, 0x21) || is_between(b, 0x23, 0x5B) || is_between(b, 0x5D, 0x7F)
}

pub fn is_escape(b: u8) -> bool
    ensures { result ≡ is_escape b }
{
    matches!(b, b'"' | b'\\' | b'/' | b'b' | b'f' | b'n' | b'r' | b't')
}

// The place of the first byte at or after `at` that is no plain character. Most bytes of a string are passed here, in a
// loop that does nothing else.
fn plain(s: &[u8], at: usize) -> usize
    ensures { result ≡ span_at is_plain s.now at }
{
    span(s, at, is_plain)
}

// `n` digits of base 16.
pub fn hex(s: &[u8], at: usize, n: usize) -> Result<usize, Bad>
    ensures { result ≡ times_at is_hex n s.now at }
{
    times(s, at, n, is_hex)
}

// A byte of a range, then `n` following bytes of UTF-8.
fn tails(s: &[u8], at: usize, low: u8, high: u8, n: usize) -> Result<usize, Bad>
    requires { 0 < low }
    ensures { result ≡ tails_at low high n s.now at }
{
    let i = one(s, at, |b| is_between(b, low, high))?;
    times(s, i, n, |b| is_between(b, 0x80, 0xBF))
}

// A character of more than one byte: which ranges may follow is a matter of its first byte, so that no form is overlong,
// no surrogate, and none above 10FFFF.
fn wide(s: &[u8], at: usize) -> Result<usize, Bad>
    ensures { result ≡ wide_at s.now at }
{
    match byte_at(s, at) {
        0xC2..=0xDF => tails(s, at + 1, 0x80, 0xBF, 0),
        0xE0 => tails(s, at + 1, 0xA0, 0xBF, 1),
        0xE1..=0xEC => tails(s, at + 1, 0x80, 0xBF, 1),
        0xED => tails(s, at + 1, 0x80, 0x9F, 1),
        0xEE..=0xEF => tails(s, at + 1, 0x80, 0xBF, 1),
        0xF0 => tails(s, at + 1, 0x90, 0xBF, 2),
        0xF1..=0xF3 => tails(s, at + 1, 0x80, 0xBF, 2),
        0xF4 => tails(s, at + 1, 0x80, 0x8F, 2),
        _ => Err(Bad { at }),
    }
}

// What follows a backslash.
fn escape(s: &[u8], at: usize) -> Result<usize, Bad>
    ensures { result ≡ escape_at s.now at }
{
    let b = byte_at(s, at);
    if is_escape(b) {
        Ok(at + 1)
    } else if b == b'u' {
        hex(s, at + 1, 4)
    } else {
        Err(Bad { at })
    }
}

// A character of a string.
fn character(s: &[u8], at: usize) -> Result<usize, Bad>
    ensures { result ≡ char_at s.now at }
{
    let b = byte_at(s, at);
    if is_plain(b) {
        Ok(at + 1)
    } else if b == b'\\' {
        escape(s, at + 1)
    } else {
        wide(s, at)
    }
}

// The rest of a string, after its quote.
pub fn string(s: &[u8], at: usize) -> Result<usize, Bad>
    ensures { result ≡ string_at s.now at }
{
    let mut i = at;
    loop {
        let k = plain(s, i);
        if byte_at(s, k) == b'"' {
            return Ok(k + 1);
        }
        i = character(s, k)?;
    }
}
