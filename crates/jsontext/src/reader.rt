// Values and the whole text (RFC 8259, sections 2 to 5). `value`, `array` and `object` call each other; the depth that is
// left falls with each bracket that is opened, and within one depth the loops fall by the bytes that are left.
// `array` and `object` stay two functions with a loop each: the project's scope asks for this cycle of three.
#![tactic(auto, using(crate::proofs::Nesting::nesting), unfolding(text::specs::Bytes::between, crate::specs::Reading::start_of, crate::specs::Reading::key_at))]

ghost use Rattle.std.specs.Prelude.{◌≡◌};
ghost use Rattle.jsontext.specs.Reading.{key_at, start_of, array_at, object_at, value_at};
ghost use Rattle.jsontext.specs.Judged.{Answer};

use super::numbers::number;
use super::scan::word;
use super::space::{follow, skip, token};
use super::strings::string;
use super::{Bad, Next, Start};
use text::bytes::byte_at;

fn start_of(b: u8) -> Start
    ensures { result ≡ start_of b }
{
    match b {
        b'[' => Start::Array,
        b'{' => Start::Object,
        b'"' => Start::Text,
        b't' => Start::True,
        b'f' => Start::False,
        b'n' => Start::Null,
        b'-' | b'0'..=b'9' => Start::Number,
        _ => Start::Nothing,
    }
}

// A member's name, with its colon.
pub fn key(s: &[u8], at: usize) -> Result<usize, Bad>
    ensures { result ≡ key_at s.now at }
{
    let q = token(s, at, b'"')?;
    let e = string(s, q)?;
    token(s, e, b':')
}

// The rest of an array, after its bracket.
#[cycle(array_object_value)]
fn array(s: &[u8], at: usize, depth: usize) -> Result<usize, Bad>
    ensures { result ≡ array_at (value_at depth s.now) s.now at }
{
    if let Ok(e) = token(s, at, b']') {
        return Ok(e);
    }
    let mut j = at;
    loop {
        let e = value(s, skip(s, j), depth)?;
        match follow(s, e, b']')? {
            Next::Done(k) => return Ok(k),
            Next::More(k) => j = k,
        }
    }
}

// The rest of an object, after its bracket.
#[cycle(array_object_value)]
fn object(s: &[u8], at: usize, depth: usize) -> Result<usize, Bad>
    ensures { result ≡ object_at (value_at depth s.now) s.now at }
{
    if let Ok(e) = token(s, at, b'}') {
        return Ok(e);
    }
    let mut j = at;
    loop {
        let v = key(s, j)?;
        let e = value(s, skip(s, v), depth)?;
        match follow(s, e, b'}')? {
            Next::Done(k) => return Ok(k),
            Next::More(k) => j = k,
        }
    }
}

// A value, in which arrays and objects are nested at most `depth` deep.
#[cycle(array_object_value)]
pub fn value(s: &[u8], at: usize, depth: usize) -> Result<usize, Bad>
    ensures { result ≡ value_at depth s.now at }
{
    match start_of(byte_at(s, at)) {
        Start::Array if depth > 0 => array(s, at + 1, depth - 1),
        Start::Object if depth > 0 => object(s, at + 1, depth - 1),
        Start::Text => string(s, at + 1),
        Start::True => word(s, at, b"true"),
        Start::False => word(s, at, b"false"),
        Start::Null => word(s, at, b"null"),
        Start::Number => number(s, at),
        Start::Array | Start::Object | Start::Nothing => Err(Bad { at }),
    }
}

// A whole text, nested at most `depth` deep. The answer is the text's length, or the place at which it stops to begin any
// such text.
pub fn whole_text(s: &[u8], depth: usize) -> Result<usize, Bad>
    ensures { Answer depth s.now result }
{
    let at = skip(s, 0);
    let e = value(s, at, depth)?;
    let k = skip(s, e);
    if k < s.len() {
        Err(Bad { at: k })
    } else {
        Ok(k)
    }
}
