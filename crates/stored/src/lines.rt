// One line of a stored table, read at a place.
#![tactic(auto, using(crate::proofs::BitLaws::telling), unfolding(crate::specs::Line::ends_of, crate::specs::Line::pair_at, crate::specs::Line::fields_at, crate::specs::Line::keep_flows, crate::specs::Line::line_at, flows::specs::Canonical::flow_ends))]

ghost use Rattle.std.specs.Prelude.{◌≡◌, ℕ, Option, ◌&&◌, ◌/◌, ◌%◌, eqb};
ghost use Rattle.stored.specs.Line.{ends_of, pair_at, range_at, quads_at, flows_of, line_at, words};
ghost use Rattle.stored.specs.Reads.{Reader};

use crate::BASE;
use text::numbers;

// A line: a word for each range, low * BASE + high. (One word and no struct of two halves: it is returned and stored as a whole.)
#[derive(Clone, Copy, Default)]
pub struct Line {
    pub direction: u64,
    pub protocol: u64,
    pub opener: u64,
    pub address: u64,
    pub remote: u64,
    pub device: u64,
}

impl Line {
    // The words, in the order of the dimensions.
    pub(crate) fn words(self) -> [u64; 6]
        ensures { result ≡ words self }
    {
        [
            self.direction,
            self.protocol,
            self.opener,
            self.address,
            self.remote,
            self.device,
        ]
    }
}

// The range low-high, where low is not above high.
fn in_order(low: u32, high: u32, at: usize) -> Option<(u64, usize)>
    ensures { result ≡ ends_of low high at }
{
    if low <= high {
        Some((u64::from(low) * BASE + u64::from(high), at))
    } else {
        None
    }
}

// `low-high` and the byte `close`, each end as `read` reads it with the byte after it; then the place after them.
fn pair<F: Fn(usize, u8) -> Option<(u32, usize)>>(
    at: usize,
    close: u8,
    read: F,
) -> Option<(u64, usize)>
    requires { F.IsAlwaysCallable read }
    ensures { (r : ℕ → ℕ → Option (ℕ × ℕ)) → Reader (F.post read) r → result ≡ pair_at r close at }
{
    let (low, i) = read(at, b'-')?;
    let (high, j) = read(i, close)?;
    in_order(low, high, j)
}

// Of numbers to `max`.
fn range(s: &[u8], at: usize, max: u32, close: u8) -> Option<(u64, usize)>
    ensures { result ≡ range_at max close s.now at }
{
    pair(at, close, |i, c| numbers::closed(s, i, max, c))
}

// Of dotted quads.
fn quads(s: &[u8], at: usize, close: u8) -> Option<(u64, usize)>
    ensures { result ≡ quads_at close s.now at }
{
    pair(at, close, |i, c| numbers::closed_quad(s, i, c))
}

// The same of numbers to 1 and a tab, told by four bytes at once.
fn bits(s: &[u8], at: usize) -> Option<(u64, usize)>
    ensures { result ≡ range_at 1 0x09 s.now at }
{
    let b = s.get(at..)?.first_chunk::<4>()?;
    if b == b"0-0\t" {
        Some((0, at + 4))
    } else if b == b"0-1\t" {
        Some((1, at + 4))
    } else if b == b"1-1\t" {
        Some((BASE + 1, at + 4))
    } else {
        None
    }
}

// Whether a range is of one number alone.
fn only(x: u64, k: u64) -> bool
    ensures { result ≡ (eqb (x / 4294967296) k && eqb (x % 4294967296) k) }
{
    x / BASE == k && x % BASE == k
}

// Whether the line has flows only.
fn flows_only(l: Line) -> bool
    ensures { result ≡ flows_of l }
{
    let tcp = only(l.protocol, 6);
    (tcp || l.opener % BASE == 0)
        && (tcp || only(l.protocol, 17) || l.remote % BASE == 0 && l.device % BASE == 0)
}

// The line at a place, if it has flows only, and the place after it.
pub fn line_at(s: &[u8], at: usize) -> Option<(Line, usize)>
    ensures { result ≡ line_at s.now at }
{
    let (direction, i) = bits(s, at)?;
    let (protocol, j) = range(s, i, 255, b'\t')?;
    let (opener, k) = bits(s, j)?;
    let (address, m) = quads(s, k, b'\t')?;
    let (remote, n) = range(s, m, 65535, b'\t')?;
    let (device, after) = range(s, n, 65535, b'\n')?;
    let l = Line {
        direction,
        protocol,
        opener,
        address,
        remote,
        device,
    };
    if flows_only(l) {
        Some((l, after))
    } else {
        None
    }
}
