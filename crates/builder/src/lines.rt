// Lines of three words: put a range into them, compare groups of them.
#![tactic(auto, using(crate::proofs::Laid::stamping))]

ghost use Rattle.std.specs.Prelude.{◌≡◌, [], ◌∷◌, ◌++◌, ◌+◌, ◌-◌, ◌*◌, ◌<◌, ◌≤◌, take, drop};
ghost use Rattle.builder.specs.Encoding.{column_of, word_of};
ghost use Rattle.builder.specs.Cells.{top_of};
ghost use Rattle.builder.specs.Post.{same_words, part, stamp_n, ClosedTo};

use crate::Work;

// The word of a line that has dimension d.
#[tactic(auto, unfolding(crate::specs::Encoding::column_of))]
pub fn column(d: usize) -> usize
    ensures { (result ≡ column_of d) × (result ≤ 2) }
{
    match d {
        0 | 1 | 2 => 0,
        3 => 1,
        _ => 2,
    }
}

// The run lo..hi as that word has it.
#[tactic(auto, using(crate::proofs::Laid::tops), unfolding(crate::specs::Encoding::word_of, crate::specs::Encoding::base_of, crate::specs::Encoding::factor_of))]
pub fn run_word(d: usize, lo: u64, hi: u64) -> u64
    requires { (d < 6) × (lo ≤ top_of d) × (hi ≤ top_of d) }
    ensures { result ≡ word_of d lo hi }
{
    match d {
        0 => (lo * 256 + hi) * 4294967296,
        1 => (lo * 256 + hi) * 65536,
        2 => lo * 256 + hi,
        3 => lo * 4294967296 + hi,
        4 => (lo * 65536 + hi) * 4294967296,
        _ => lo * 65536 + hi,
    }
}

// Puts x into word c of the lines from a up to e.
fn stamp(work: &mut Work, a: usize, e: usize, c: usize, x: u64)
    requires { (a ≤ e) × (c ≤ 2) × (3 * e ≤ 16290) }
    ensures { work.new ≡ stamp_n c x (e - a) a work.old }
{
    for i in a..e {
        work[3 * i + c] |= x;
    }
}

// Puts the run lo..hi of dimension d before the lines from a up to e.
pub fn close(work: &mut Work, a: usize, e: usize, d: usize, lo: u64, hi: u64)
    requires { (a ≤ e) × (3 * e ≤ 16290) × (d < 6) × (lo ≤ top_of d) × (hi ≤ top_of d) }
    ensures { work.new ≡ stamp_n (column_of d) (word_of d lo hi) (e - a) a work.old }
{
    stamp(work, a, e, column(d), run_word(d, lo, hi));
}

// Whether the lines from a up to e are those from e up to z.
fn same_lines(work: &Work, a: usize, e: usize, z: usize) -> bool
    requires { (a ≤ e) × (e ≤ z) × (3 * z ≤ 16290) }
    ensures { result ≡ same_words (part a e work.now) (part e z work.now) }
{
    work[3 * a..3 * e] == work[3 * e..3 * z]
}

// Compares the lines from a up to e with those from e up to z, and where they differ closes the run of the first.
pub fn settle(work: &mut Work, a: usize, e: usize, z: usize, d: usize, lo: u64, hi: u64) -> bool
    requires { (a ≤ e) × (e ≤ z) × (3 * z ≤ 16290) × (d < 6) × (lo ≤ top_of d) × (hi ≤ top_of d) }
    ensures { ClosedTo a e z (column_of d) (word_of d lo hi) work.old work.new result }
{
    if same_lines(work, a, e, z) {
        return true;
    }
    close(work, a, e, d, lo, hi);
    false
}

// Writes a line of zeros.
pub fn blank(work: &mut Work, at: usize)
    requires { 3 * at + 3 ≤ 16290 }
    ensures { work.new ≡ (take (3 * at) work.old ++ (0 ∷ (0 ∷ (0 ∷ [])))) ++ drop (3 * at + 3) work.old }
{
    work[3 * at..3 * at + 3].fill(0);
}
