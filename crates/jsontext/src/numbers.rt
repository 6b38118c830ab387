// Numbers (RFC 8259, section 6).
#![tactic(auto, unfolding(text::specs::Bytes::between, crate::specs::Reading::minus_at, crate::specs::Reading::sign_at, crate::specs::Reading::int_at, crate::specs::Reading::fraction_at, crate::specs::Reading::is_e, crate::specs::Reading::exponent_at, crate::specs::Reading::number_at))]

ghost use Rattle.std.specs.Prelude.{◌≡◌};
ghost use Rattle.text.specs.Bytes.{is_digit};
ghost use Rattle.jsontext.specs.Reading.{span_at, some_at, minus_at, sign_at, int_at, fraction_at, exponent_at, number_at};

use super::Bad;
use super::scan::{some, span};
use text::bytes::{byte_at, is_between, is_digit};

// The place of the first byte at or after `at` that is no digit.
pub fn digits(s: &[u8], at: usize) -> usize
    ensures { result ≡ span_at is_digit s.now at }
{
    span(s, at, is_digit)
}

// One digit or more.
fn some_digits(s: &[u8], at: usize) -> Result<usize, Bad>
    ensures { result ≡ some_at is_digit is_digit s.now at }
{
    some(s, at, is_digit, is_digit)
}

fn minus(s: &[u8], at: usize) -> usize
    ensures { result ≡ minus_at s.now at }
{
    if byte_at(s, at) == b'-' { at + 1 } else { at }
}

fn sign(s: &[u8], at: usize) -> usize
    ensures { result ≡ sign_at s.now at }
{
    if byte_at(s, at) == b'+' {
        at + 1
    } else {
        minus(s, at)
    }
}

// The whole part: no zero stands in front of other digits.
fn int(s: &[u8], at: usize) -> Result<usize, Bad>
    ensures { result ≡ int_at s.now at }
{
    if byte_at(s, at) == b'0' {
        Ok(at + 1)
    } else {
        some(s, at, |b| is_between(b, b'1', b'9'), is_digit)
    }
}

fn fraction(s: &[u8], at: usize) -> Result<usize, Bad>
    ensures { result ≡ fraction_at s.now at }
{
    if byte_at(s, at) == b'.' {
        some_digits(s, at + 1)
    } else {
        Ok(at)
    }
}

fn exponent(s: &[u8], at: usize) -> Result<usize, Bad>
    ensures { result ≡ exponent_at s.now at }
{
    if matches!(byte_at(s, at), b'e' | b'E') {
        some_digits(s, sign(s, at + 1))
    } else {
        Ok(at)
    }
}

pub fn number(s: &[u8], at: usize) -> Result<usize, Bad>
    ensures { result ≡ number_at s.now at }
{
    let i = int(s, minus(s, at))?;
    let j = fraction(s, i)?;
    exponent(s, j)
}
