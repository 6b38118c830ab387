// Reading networks and rules. A rule's place is that of its first word.
#![tactic(auto, using(crate::proofs::Words::words, crate::proofs::Masks::ruled_rules))]

ghost use Rattle.std.specs.Prelude.{◌≡◌, [], ◌∷◌, ℕ, Bool, ◌+◌, ◌<◌, ◌≤◌, take, drop, get_or};
ghost use Rattle.flows.specs.Table.{in_range};
ghost use Rattle.flows.specs.Rules.{in_some, in_all};
ghost use Rattle.builder.specs.Encoding.{low_of, high_of, range_of, limits_of, at_most_seven, ruled};
ghost use Rattle.builder.specs.Cells.{mask_from, near_of, meets_all};

use crate::{BASE, RULES, Work};

// The ends of a range, and whether it holds a value.
pub fn low(w: u64) -> u64
    ensures { result ≡ low_of w }
{
    w / BASE
}

pub fn high(w: u64) -> u64
    ensures { result ≡ high_of w }
{
    w % BASE
}

#[tactic(auto, unfolding(flows::specs::Table::in_range))]
pub fn holds(w: u64, v: u64) -> bool
    ensures { result ≡ in_range (low_of w) (high_of w) v }
{
    low(w) <= v && v <= high(w)
}

// A word of the networks and rules.
pub fn word(work: &Work, x: usize) -> u64
    requires { x < 1555 }
    ensures { result ≡ get_or (ruled work.now) x 0 }
{
    work[x]
}

// The mask of those of n things that pass a test, the last one's bit first.
pub fn mask<P: Fn(usize) -> bool>(n: usize, passes: P) -> u64
    requires few { n ≤ 64 }
    requires callable { (i : ℕ) → i < n → P.pre passes i }
    ensures { (p : ℕ → Bool) → ((i : ℕ) (b : Bool) → i < n → P.post passes i b → b ≡ p i) → result ≡ mask_from 0 n p }
{
    let mut m: u64 = 0;
    for i in (0..n).rev() {
        m = 2 * m + u64::from(passes(i));
    }
    m
}

// The mask of the networks that hold v.
pub fn near(work: &Work, v: u64) -> u64
    ensures { result ≡ near_of (take 64 (ruled work.now)) v }
{
    mask(RULES, |i| holds(word(work, i), v))
}

// Whether each of k masks from x on has a network of `near`.
fn names_meet(work: &Work, x: usize, k: usize, near: u64) -> bool
    requires { x + k ≤ 1555 }
    ensures { result ≡ meets_all k (drop x (ruled work.now)) near }
{
    work[x..x + k].iter().all(|m| m & near != 0)
}

// A rule has room for seven names.
fn at_most_seven(k: u64) -> usize
    ensures { result ≡ at_most_seven k }
{
    k.min(7) as usize
}

// Whether one of the two ranges from x on holds v.
#[tactic(auto, unfolding(flows::specs::Rules::in_some))]
fn one_holds(work: &Work, x: usize, v: u64) -> bool
    requires { x + 1 < 1555 }
    ensures { result ≡ in_some (range_of (get_or (ruled work.now) x 0) ∷ (range_of (get_or (ruled work.now) (x + 1) 0) ∷ [])) v }
{
    holds(word(work, x), v) || holds(word(work, x + 1), v)
}

// Whether the rule at p holds v in dimension d; `near` is the mask of the networks that hold v where that is the address.
pub fn rule_holds(work: &Work, p: usize, d: usize, v: u64, near: u64) -> bool
    requires { (d < 6) × (p + 21 ≤ 1555) × (d ≡ 3 → near ≡ near_of (take 64 (ruled work.now)) v) }
    ensures { result ≡ in_all (limits_of (take 64 (ruled work.now)) (drop p (ruled work.now)) d) v }
{
    one_holds(work, p + 2 * d + 1, v)
        && (d != 3 || names_meet(work, p + 14, at_most_seven(word(work, p + 13)), near))
}
