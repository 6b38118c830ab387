// Whether the lines of a text are the table of some set, tested over the dimensions, six to none. Each line has a mark of 32 bits: 64 times the place
// where it ends, 8 times how its range stands to that of the line before it in the first dimension in which they differ, and that dimension.
#![tactic(auto, using(crate::proofs::WordLaws::relating, crate::proofs::Tails::comparing))]

ghost use Rattle.std.specs.Prelude.{◌≡◌, reverse, ◌-◌, ◌≤◌, ◌<◌, ◌/◌, length, get_or, take};
ghost use Rattle.flows.specs.Table.{eq_table};
ghost use Rattle.flows.specs.Flow.{widths};
ghost use Rattle.flows.specs.Canonical.{canonical};
ghost use Rattle.stored.specs.Line.{ranges};
ghost use Rattle.stored.specs.Stored.{lines};
ghost use Rattle.stored.specs.Words.{range_of};
ghost use Rattle.stored.specs.Groups.{row, rows, under, follow_at, Grouped, Next};
ghost use Rattle.stored.specs.Marks.{step_of, Related, Marked, marked_in, same_back, tabs_of};

use crate::BASE;
use crate::lines::Line;

// The lines of a text, each by its mark.
#[derive(Clone, Copy)]
struct Table<'a> {
    s: &'a [u8],
    marks: &'a [u32],
    ghost marked: { ∥ Marked s.now marks.now (lines s.now 0) (length marks.now) ∥₁ },
}

// How a range stands to the one before it: 0 not above it, 1 next to it, 2 further up. (A number, since a mark packs it into 32 bits.)
#[tactic(auto, unfolding(crate::specs::Marks::step_of))]
fn step(x: u64, y: u64) -> u32
    ensures { (result ≡ step_of (range_of x) (range_of y)) × (result ≤ 2) }
{
    let end = x % BASE;
    let next = y / BASE;
    if next <= end {
        0
    } else if next - end == 1 {
        1
    } else {
        2
    }
}

// The first dimension in which two lines differ, and 8 times how the ranges stand there; 6 where they differ in none.
pub fn relate(a: Line, b: Line) -> u32
    ensures { Related (ranges a) (ranges b) result }
{
    let xs = a.words();
    let ys = b.words();
    for d in 0..6 {
        if xs[d] != ys[d] {
            return step(xs[d], ys[d]) * 8 + d as u32;
        }
    }
    6
}

// Whether two texts are the same from their ends on, up to as many tabs.
// (No `for`: over `a.iter().rev().zip(b.iter().rev())` it was tried, and the proof did not close.)
fn alike_bytes(a: &[u8], b: &[u8], tabs: usize) -> bool
    ensures { result ≡ same_back tabs (reverse a.now) (reverse b.now) }
{
    let mut xs = a;
    let mut ys = b;
    let mut left = tabs;
    while left > 0 {
        let (Some((x, p)), Some((y, q))) = (xs.split_last(), ys.split_last()) else {
            return false;
        };
        if x != y {
            return false;
        }
        if *x == b'\t' {
            left -= 1;
        }
        xs = p;
        ys = q;
    }
    true
}

// A `for` over eight bytes becomes code without a branch. (`filter` and `count` do not: tried, a tenth slower on the slowest table.)
fn tabs_in(s: &[u8; 8]) -> usize
    ensures { result ≡ tabs_of s.now }
{
    let mut n = 0;
    for b in s {
        if *b == b'\t' {
            n += 1;
        }
    }
    n
}

// As `alike_bytes`, but eight bytes at once as long as they agree: so the last dimensions of two lines are compared without looking for where they begin.
fn alike(a: &[u8], b: &[u8], tabs: usize) -> bool
    ensures { result ≡ same_back tabs (reverse a.now) (reverse b.now) }
{
    let mut xs = a;
    let mut ys = b;
    let mut left = tabs;
    while let (Some((p, x)), Some((q, y))) = (
        xs.split_last_chunk::<8>(),
        ys.split_last_chunk::<8>(),
    ) {
        if x != y {
            break;
        }
        let n = tabs_in(x);
        if left <= n {
            return true;
        }
        left -= n;
        xs = p;
        ys = q;
    }
    alike_bytes(xs, ys, left)
}

impl Table<'_> {
    // The text as far as the end of a line.
    fn up_to(&self, k: usize) -> &[u8]
        requires { k < length self.now.marks.now }
        ensures { result.now ≡ take (get_or self.now.marks.now k 0 / 64) self.now.s.now }
    {
        &self.s[..(self.marks[k] / 64) as usize]
    }

    // Whether there is a line at `at` that is the same as the one before it, before dimension `d`.
    #[tactic(auto, unfolding(crate::specs::Marks::marked_in))]
    fn member(&self, at: usize, d: usize) -> bool
        ensures { result ≡ marked_in d self.now.marks.now (length self.now.marks.now) at }
    {
        at < self.marks.len() && d <= (self.marks[at] % 8) as usize
    }

    // Whether the groups of the lines at `a` and `b`, each of lines that are the same before dimension `d`, are the same from `d` on.
    #[tactic(auto, using(crate::proofs::Turning::pairing))]
    fn same(&self, a: usize, b: usize, d: usize) -> bool
        requires { (a < b) × (b < length self.now.marks.now) × (0 < d) × (d ≤ 6) }
        ensures { result ≡ eq_table (under d (row (lines self.now.s.now 0) a) (rows (lines self.now.s.now 0) a)) (under d (row (lines self.now.s.now 0) b) (rows (lines self.now.s.now 0) b)) }
    {
        let mut i = a;
        let mut j = b;
        // No `for`: two places move at once, and the marks say where each group ends.
        loop {
            if !alike(self.up_to(i), self.up_to(j), 6 - d) {
                return false;
            }
            i += 1;
            j += 1;
            let more = self.member(i, d);
            if more != self.member(j, d) {
                return false;
            }
            if !more {
                return true;
            }
        }
    }

    // Whether the run of the line at `k` may follow that of the line at `i` in dimension `d`.
    #[tactic(auto, using(crate::proofs::Turning::following))]
    fn follows(&self, i: usize, k: usize, d: usize) -> bool
        requires { Next d (lines self.now.s.now 0) i k }
        ensures { result ≡ follow_at d (lines self.now.s.now 0) i k }
    {
        match self.marks[k] / 8 % 8 {
            0 => false,
            1 => !self.same(i, k, d + 1),
            _ => true,
        }
    }

    // The group of one line, that no other line may be the same as.
    #[tactic(auto, using(crate::proofs::Turning::walking))]
    fn single(&self, at: usize) -> Option<usize>
        requires { at < length self.now.marks.now }
        ensures { Grouped 6 (row (lines self.now.s.now 0) at) (lines self.now.s.now 0) at result }
    {
        if self.member(at + 1, 6) {
            return None;
        }
        Some(at + 1)
    }

    // The place after the group of the lines from `at` on that are the same before dimension `d`, if it is a table's: its runs in
    // dimension `d` rise, none is alike to one that it touches, and each is a table of one dimension fewer.
    #[tactic(auto, using(crate::proofs::Turning::walking))]
    fn group(&self, at: usize, d: usize) -> Option<usize>
        requires { (d ≤ 6) × (at < length self.now.marks.now) }
        ensures { Grouped d (row (lines self.now.s.now 0) at) (lines self.now.s.now 0) at result }
    {
        if d == 6 {
            return self.single(at);
        }
        let mut i = at;
        loop {
            let k = self.group(i, d + 1)?;
            if !self.member(k, d) {
                return Some(k);
            }
            if !self.follows(i, k, d) {
                return None;
            }
            i = k;
        }
    }
}

// Whether the lines of a text are the table of some set. The first `n` marks are theirs. (`n` beside the marks, since the promise is by it; a
// `Table` has just its own.)
#[tactic(auto, using(crate::proofs::Turning::walking))]
pub fn is_table(s: &[u8], marks: &[u32], n: usize) -> bool
    requires { Marked s.now marks.now (lines s.now 0) n }
    ensures { result ≡ canonical widths (lines s.now 0) }
{
    let table = Table {
        s,
        marks: &marks[..n],
    };
    n == 0 || table.group(0, 0).is_some()
}
