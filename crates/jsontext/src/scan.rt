// Bytes that pass a test, which is lent as a closure. What stands past the end of a text reads as 0, so that of a closure that
// takes 0 nothing is promised.
#![tactic(auto, unfolding(crate::specs::Reading::one_at))]

ghost use Rattle.std.specs.Prelude.{◌≡◌, ℕ, Bool};
ghost use Rattle.jsontext.specs.Reading.{Tests, is, one_at, span_at, times_at, some_at, word_at};

use super::Bad;

// The place after a byte that passes the test.
pub fn one<F: Fn(u8) -> bool>(s: &[u8], at: usize, test: F) -> Result<usize, Bad>
    requires { F.IsAlwaysCallable test }
    ensures { (p : ℕ → Bool) → Tests (F.post test) p → result ≡ one_at p s.now at }
{
    match s.get(at) {
        Some(b) if test(*b) => Ok(at + 1),
        _ => Err(Bad { at }),
    }
}

// The byte `b`, which is not there where it is 0.
pub fn byte(s: &[u8], at: usize, b: u8) -> Result<usize, Bad>
    ensures { result ≡ one_at (is b) s.now at }
{
    one(s, at, |x| b != 0 && x == b)
}

// The bytes of `w`.
pub fn word(s: &[u8], at: usize, w: &[u8]) -> Result<usize, Bad>
    ensures { result ≡ word_at w.now s.now at }
{
    let mut i = at;
    for b in w {
        i = byte(s, i, *b)?;
    }
    Ok(i)
}

// `n` bytes that pass the test.
pub fn times<F: Fn(u8) -> bool>(s: &[u8], at: usize, n: usize, test: F) -> Result<usize, Bad>
    requires { F.IsAlwaysCallable test }
    ensures { (p : ℕ → Bool) → Tests (F.post test) p → result ≡ times_at p n s.now at }
{
    let mut i = at;
    for _ in 0..n {
        i = one(s, i, &test)?;
    }
    Ok(i)
}

// The place of the first byte at or after `at` that fails the test.
pub fn span<F: Fn(u8) -> bool>(s: &[u8], at: usize, test: F) -> usize
    requires { F.IsAlwaysCallable test }
    ensures { (p : ℕ → Bool) → Tests (F.post test) p → result ≡ span_at p s.now at }
{
    for i in at..s.len() {
        if !test(s[i]) {
            return i;
        }
    }
    at.max(s.len())
}

// A byte that passes the first test, and as many as there are that pass the second.
pub fn some<F: Fn(u8) -> bool, G: Fn(u8) -> bool>(
    s: &[u8],
    at: usize,
    first: F,
    rest: G,
) -> Result<usize, Bad>
    requires first { F.IsAlwaysCallable first }
    requires rest { G.IsAlwaysCallable rest }
    ensures { (p q : ℕ → Bool) → Tests (F.post first) p → Tests (G.post rest) q → result ≡ some_at p q s.now at }
{
    let i = one(s, at, first)?;
    Ok(span(s, i, rest))
}
