// Live rules, as two masks of 64: those that hold the values chosen so far.
#![tactic(auto, using(crate::proofs::Chosen::firsts))]

ghost use Rattle.std.specs.Prelude.{◌≡◌, true, false, ◌+◌, ◌≤◌};
ghost use Rattle.std.specs.Int.Bits.{bit_and};
ghost use Rattle.builder.specs.Cells.{first_or};
ghost use Rattle.builder.specs.Post.{CellRead, JudgedRead, Known, Longer};

use crate::Work;
use crate::encoding::{high, low};

// A set of rules, as two masks of 64.
#[derive(Clone, Copy, PartialEq, Eq)]
pub struct Live {
    pub first: u64,
    pub others: u64,
}

impl Live {
    pub const ALL: Live = Live {
        first: u64::MAX,
        others: u64::MAX,
    };

    // Those that both sets have.
    pub fn meet(self, other: Live) -> Live
        ensures { (result.first ≡ bit_and self.first other.first) × (result.others ≡ bit_and self.others other.others) }
    {
        Live {
            first: self.first & other.first,
            others: self.others & other.others,
        }
    }

    pub fn is_empty(self) -> bool
        ensures { result ≡ true → (self.first ≡ 0) × (self.others ≡ 0) }
    {
        self.first == 0 && self.others == 0
    }
}

// The verdict of the first live rule, or z where there is none.
fn first(ok: u64, live: u64, z: bool) -> bool
    ensures { result ≡ first_or 64 ok live z }
{
    let i = live.trailing_zeros();
    if i < 64 { (ok >> i) % 2 == 1 } else { z }
}

// Whether the first live rule is one that accepts; where none is live, no.
pub fn accepts(accepting: Live, live: Live) -> bool
    ensures { result ≡ first_or 64 accepting.first live.first (first_or 64 accepting.others live.others false) }
{
    if live.first.trailing_zeros() < 64 {
        first(accepting.first, live.first, false)
    } else {
        first(accepting.others, live.others, false)
    }
}

// Whether no live rule accepts.
pub fn none_accepts(accepting: Live, live: Live) -> bool
    ensures { result ≡ true → (bit_and live.first accepting.first ≡ 0) × (bit_and live.others accepting.others ≡ 0) }
{
    live.meet(accepting).is_empty()
}

// Values, and the live rules that hold them; another set is known to have the same lines. Cells often alternate between a few sets.
#[derive(Clone, Copy)]
pub struct Run {
    pub low: u64,
    pub high: u64,
    pub live: Live,
    pub also: Live,
}

// The cell at place x, with those of the live rules that hold it.
pub fn cell_at(work: &Work, x: usize, live: Live) -> Run
    requires { x + 3 ≤ 16290 }
    ensures { CellRead live.first live.others x work.now result }
{
    let live = live.meet(Live {
        first: work[x + 1],
        others: work[x + 2],
    });
    Run {
        low: low(work[x]),
        high: high(work[x]),
        live,
        also: live,
    }
}

// Whether the live rules of a cell are among those of a run.
pub fn is_known(cell: Run, run: Run) -> bool
    ensures { result ≡ true → Known run cell }
{
    cell.live == run.live || cell.live == run.also
}

// A run with one more cell, whose lines are the same. Of the live rules, those used last are kept.
pub fn longer(run: Run, cell: Run) -> Run
    ensures { Longer run cell result }
{
    if cell.live == run.live {
        return Run {
            high: cell.high,
            ..run
        };
    }
    Run {
        low: run.low,
        also: run.live,
        ..cell
    }
}

// A run of the last dimension, and whether the first of the live rules that hold it accepts. (No `Option`: it has values either way.)
#[derive(Clone, Copy)]
pub struct Judged {
    pub low: u64,
    pub high: u64,
    pub ok: bool,
}

// The cell at place x, judged.
pub fn judged_at(work: &Work, x: usize, live: Live, accepting: Live) -> Judged
    requires { x + 3 ≤ 16290 }
    ensures { JudgedRead live.first live.others accepting.first accepting.others x work.now result }
{
    let cell = cell_at(work, x, live);
    Judged {
        low: cell.low,
        high: cell.high,
        ok: accepts(accepting, cell.live),
    }
}
