// The lines of a cross section, one dimension fewer with each call, from six to none.
#![tactic(auto, using(crate::proofs::Ports::scanning))]

ghost use Rattle.std.specs.Prelude.{◌≡◌, Some, ◌+◌, ◌-◌, ◌*◌, ◌≤◌};
ghost use Rattle.builder.specs.Encoding.{ruled};
ghost use Rattle.builder.specs.Cells.{top_of, table_left, Ready};
ghost use Rattle.builder.specs.Post.{BuiltTo, RunPut};

use crate::Work;
use crate::cells::{place, top};
use crate::lines::{blank, close, settle};
use crate::live::{Live, accepts, cell_at, is_known, judged_at, longer, none_accepts};

// A table of more lines is refused.
const MOST_LINES: usize = 512;

// No dimension left: one line or none. (Not met by `build`, which has six: the recursion is total.)
fn leaf(work: &mut Work, n: usize, at: usize, live: Live, accepting: Live) -> usize
    requires { (3 * at + 3 ≤ 16290) × Ready n accepting.first accepting.others (ruled work.old) work.old }
    ensures { BuiltTo (table_left 0 n (ruled work.old) live.first live.others) at 6 work.old work.new (Some result) }
{
    if accepts(accepting, live) {
        blank(work, at);
        1
    } else {
        0
    }
}

// Puts a run of the last dimension down as line `at`, if it is accepted; where the next line goes. Runs are fewer than cells: inlined, it takes the
// registers of the loop over the cells; and a `Judged` would be lent, and stored at each cell.
#[inline(never)]
fn put_run(work: &mut Work, at: usize, low: u64, high: u64, ok: bool) -> usize
    requires { (3 * at + 3 ≤ 16290) × (low ≤ top_of 5) × (high ≤ top_of 5) }
    ensures { RunPut at low high ok work.old work.new result }
{
    if !ok {
        return at;
    }
    blank(work, at);
    close(work, at, at + 1, 5, low, high);
    at + 1
}

// One dimension left: cells whose verdicts are the same are one run, and need no lines to compare. Most of a build is spent here.
// There are never too many lines: a dimension has at most 285 cells. The last cell is the one that ends at the largest value: how many there are
// is written nowhere.
fn last_section(work: &mut Work, n: usize, at: usize, live: Live, accepting: Live) -> usize
    requires { (2357 ≤ at) × (3 * (at + 512) + 3 ≤ 16290) × Ready n accepting.first accepting.others (ruled work.old) work.old }
    ensures { BuiltTo (table_left 1 n (ruled work.old) live.first live.others) at 5 work.old work.new (Some result) }
{
    let mut x = place(5);
    let mut run = judged_at(work, x, live, accepting);
    let mut end = at;
    while run.high < 65535 {
        x += 3;
        let next = judged_at(work, x, live, accepting);
        if next.ok == run.ok {
            run.high = next.high;
        } else {
            end = put_run(work, end, run.low, run.high, run.ok);
            run = next;
        }
    }
    put_run(work, end, run.low, run.high, run.ok) - at
}

// The lines of the live rules with `left` dimensions left, from line `at` on. Each cell's section is built behind the pending run's,
// and dropped where it is the same; a run's ends are put before its lines when it is over.
pub fn section(
    work: &mut Work,
    n: usize,
    at: usize,
    left: usize,
    live: Live,
    accepting: Live,
) -> Option<usize>
    requires { (left ≤ 6) × (2357 ≤ at) × (3 * (at + 512 * left) + 3 ≤ 16290) × Ready n accepting.first accepting.others (ruled work.old) work.old }
    ensures { BuiltTo (table_left left n (ruled work.old) live.first live.others) at (6 - left) work.old work.new result }
{
    if none_accepts(accepting, live) {
        return Some(0);
    }
    if left == 0 {
        return Some(leaf(work, n, at, live, accepting));
    }
    if left == 1 {
        return Some(last_section(work, n, at, live, accepting));
    }
    let k = left - 1;
    let d = 6 - left;
    let last = top(d);
    let mut x = place(d);
    let mut run = cell_at(work, x, live);
    let first = section(work, n, at, k, run.live, accepting)?;
    let mut kept = at;
    let mut end = at + first;
    while run.high < last {
        x += 3;
        let next = cell_at(work, x, live);
        if is_known(next, run) {
            run = longer(run, next);
        } else {
            let more = section(work, n, end, k, next.live, accepting)?;
            let z = end + more;
            if settle(work, kept, end, z, d, run.low, run.high) {
                run = longer(run, next);
            } else {
                if MOST_LINES < z - at {
                    return None;
                }
                kept = end;
                end = z;
                run = next;
            }
        }
    }
    close(work, kept, end, d, run.low, run.high);
    Some(end - at)
}
