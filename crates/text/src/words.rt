// Fixed byte strings, compared with parts of a lent text.
#![tactic(auto, using(crate::proofs::WordLaws::comparing))]

ghost use Rattle.std.specs.Prelude.{◌≡◌};
ghost use Rattle.text.specs.Words.{has_at, same_bytes};

use crate::bytes::from;

// Whether `word` stands in `s` at a place.
pub fn begins(s: &[u8], at: usize, word: &[u8]) -> bool
    ensures { result ≡ has_at s.now at word.now }
{
    from(s, at).starts_with(word)
}

// Whether two texts are the same, byte for byte.
pub fn same(a: &[u8], b: &[u8]) -> bool
    ensures { result ≡ same_bytes a.now b.now }
{
    a == b
}
