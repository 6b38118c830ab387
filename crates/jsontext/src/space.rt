// White space, and the bytes that structure a text (RFC 8259, section 2).
#![tactic(auto, unfolding(crate::specs::Reading::is_space, crate::specs::Reading::skip_at, crate::specs::Reading::token_at, crate::specs::Reading::next_at))]

ghost use Rattle.std.specs.Prelude.{◌≡◌};
ghost use Rattle.jsontext.specs.Reading.{is_space, span_at, token_at, next_at};

use super::scan::{byte, span};
use super::{Bad, Next};
use text::bytes::byte_at;

fn is_space(b: u8) -> bool
    ensures { result ≡ is_space b }
{
    // not `matches!`, whose code asks for all four at once: whole texts then took 6 percent longer
    b == b' ' || b == b'\t' || b == b'\n' || b == b'\r'
}

// The place of the first byte at or after `at` that is no white space.
pub fn skip(s: &[u8], at: usize) -> usize
    ensures { result ≡ span_at is_space s.now at }
{
    span(s, at, is_space)
}

// After white space, the byte `b`.
pub fn token(s: &[u8], at: usize, b: u8) -> Result<usize, Bad>
    ensures { result ≡ token_at b s.now at }
{
    byte(s, skip(s, at), b)
}

// After white space, the byte `close` or a comma.
pub fn follow(s: &[u8], at: usize, close: u8) -> Result<Next, Bad>
    ensures { result ≡ next_at close s.now at }
{
    let k = skip(s, at);
    let b = byte_at(s, k);
    // past the end nothing follows, whatever `close` is
    if b == close && b != 0 {
        Ok(Next::Done(k + 1))
    } else if b == b',' {
        Ok(Next::More(k + 1))
    } else {
        Err(Bad { at: k })
    }
}
