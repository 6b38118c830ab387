// Single bytes of a text.
#![tactic(auto, unfolding(crate::specs::Bytes::is_at, crate::specs::Bytes::between))]

ghost use Rattle.std.specs.Prelude.{◌≡◌, drop};
ghost use Rattle.text.specs.Bytes.{byte_at, is_at, between, is_digit};

// The byte at a place, and 0 past the end: a reader then needs no test of its own for the end.
pub fn byte_at(s: &[u8], at: usize) -> u8
    ensures { result ≡ byte_at s.now at }
{
    if at < s.len() { s[at] } else { 0 }
}

// The bytes from a place on, and none past the end.
pub fn from(s: &[u8], at: usize) -> &[u8]
    ensures { result.now ≡ drop at s.now }
{
    s.get(at..).unwrap_or(&[])
}

// Whether `b` stands at a place: past the end nothing does, not even 0.
pub fn is_at(s: &[u8], at: usize, b: u8) -> bool
    ensures { result ≡ is_at s.now at b }
{
    at < s.len() && s[at] == b
}

pub fn is_between(b: u8, low: u8, high: u8) -> bool
    ensures { result ≡ between low high b }
{
    low <= b && b <= high
}

pub fn is_digit(b: u8) -> bool
    ensures { result ≡ is_digit b }
{
    b.is_ascii_digit()
}
