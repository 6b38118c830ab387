// The verdict of a stored table on a flow.
#![tactic(auto, using(crate::proofs::Gathering::judging), unfolding(flows::specs::Table::in_range))]

ghost use Rattle.std.specs.Prelude.{◌≡◌, ◌/◌, ◌%◌, ◌≤◌, length, drop, fold, bit_or};
ghost use Rattle.flows.specs.Table.{in_range, in_line};
ghost use Rattle.flows.specs.Numbers.{point_of};
ghost use Rattle.stored.specs.Line.{ranges};
ghost use Rattle.stored.specs.Stored.{all_zero, verdict_of};
ghost use Rattle.stored.specs.Marks.{Related, AllGathered};

use crate::answer::{Refusal, Verdict};
use crate::lines::Line;
use crate::{BASE, groups, lines};
use text::bytes::from;

// How many lines have marks, where the lines of the text end, and whether a line holds the flow.
#[derive(Clone, Copy)]
pub struct Gathered {
    pub count: usize,
    pub stop: usize,
    pub hit: bool,
}

fn is_in(n: u64, x: u64) -> bool
    ensures { result ≡ in_range (x / 4294967296) (x % 4294967296) n }
{
    x / BASE <= n && n <= x % BASE
}

#[tactic(auto, unfolding(crate::specs::Line::ranges, flows::specs::Table::in_line))]
fn holds(l: Line, f: flows::Numbers) -> bool
    ensures { result ≡ in_line (ranges l) (point_of f) }
{
    is_in(f.direction.into(), l.direction)
        && is_in(f.protocol.0.into(), l.protocol)
        && is_in(f.opener.into(), l.opener)
        && is_in(f.address.0.into(), l.address)
        && is_in(f.remote.0.into(), l.remote)
        && is_in(f.device.0.into(), l.device)
}

// The mark of a line that ends at a place, after the line `before`.
fn mark(before: Line, l: Line, end: usize) -> u32
    requires { end ≤ 36864 }
    ensures { (result / 64 ≡ end) × Related (ranges before) (ranges l) (result % 64) }
{
    end as u32 * 64 + groups::relate(before, l)
}

// The lines of the text, at most 512, each by its mark.
#[tactic(auto, using(crate::proofs::Gathering::gathering))]
fn gather(s: &[u8], marks: &mut [u32; 512], f: flows::Numbers) -> Gathered
    requires { length s.now ≡ 36864 }
    ensures { AllGathered s.now (point_of f) marks.new result }
{
    let mut at = 0;
    let mut before = Line::default();
    let mut hit = false;
    for n in 0..512 {
        let Some((l, next)) = lines::line_at(s, at) else {
            return Gathered {
                count: n,
                stop: at,
                hit,
            };
        };
        marks[n] = mark(before, l, next);
        hit |= holds(l, f);
        before = l;
        at = next;
    }
    Gathered {
        count: 512,
        stop: at,
        hit,
    }
}

// The bits that stand in some byte of a text: no byte is an exit, so that the compiler takes many at once.
fn bits_in(s: &[u8]) -> u8
    ensures { result ≡ fold bit_or 0 s.now }
{
    s.iter().fold(0, |bits, b| bits | *b)
}

// Whether the bytes from a place on are zeros: a block at a time, so that bytes which are no table's are soon refused.
fn zeros(s: &[u8], at: usize) -> bool
    ensures { result ≡ all_zero (drop at s.now) }
{
    let mut left = from(s, at);
    while let Some((block, behind)) = left.split_first_chunk::<256>() {
        if bits_in(block) != 0 {
            return false;
        }
        left = behind;
    }
    bits_in(left) == 0
}

// 13, then 14, or accept or drop: the answers in the order of their numbers.
pub fn verdict(stored: &[u8], asked: flows::Numbers) -> Result<Verdict, Refusal>
    ensures { result ≡ verdict_of stored.now asked }
{
    if stored.len() != 36864 {
        return Err(Refusal::NotTable);
    }
    let mut marks = [0; 512];
    let g = gather(stored, &mut marks, asked);
    if !zeros(stored, g.stop) || !groups::is_table(stored, &marks, g.count) {
        return Err(Refusal::NotTable);
    }
    if !flows::is_flow(asked) {
        return Err(Refusal::NotFlow);
    }
    Ok(if g.hit {
        Verdict::Accept
    } else {
        Verdict::Drop
    })
}
