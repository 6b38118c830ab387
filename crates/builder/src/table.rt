// Reading the lines that `build` left.
#![tactic(auto, using(crate::proofs::Reading::range_read), unfolding(crate::specs::Encoding::low_in, crate::specs::Encoding::high_in, crate::specs::Encoding::factor_of, crate::specs::Encoding::base_of))]

ghost use Rattle.std.specs.Prelude.{◌≡◌, ◌<◌, ◌≤◌, length, get_or};
ghost use Rattle.builder.specs.Encoding.{range_of, low_in, high_in, range_in, line_at};

use crate::LINES;
use crate::lines::column;

// The low end of dimension d, out of the word of a line that has it. Dimensions are numbers: `range`, which is public, takes the
// number. Each has constants of its own here, since a base and a factor by number would have the machine divide.
fn low_in(d: usize, w: u64) -> u64
    requires { d < 6 }
    ensures { (result ≡ low_in d w) × (result < 4294967296) }
{
    match d {
        0 => w / 4294967296 / 256 % 256,
        1 => w / 65536 / 256 % 256,
        2 => w / 256 % 256,
        3 => w / 4294967296 % 4294967296,
        4 => w / 4294967296 / 65536 % 65536,
        _ => w / 65536 % 65536,
    }
}

// The high end.
fn high_in(d: usize, w: u64) -> u64
    requires { d < 6 }
    ensures { (result ≡ high_in d w) × (result < 4294967296) }
{
    match d {
        0 => w / 4294967296 % 256,
        1 => w / 65536 % 256,
        2 => w % 256,
        3 => w % 4294967296,
        4 => w / 4294967296 % 65536,
        _ => w % 65536,
    }
}

// The range of dimension d of line i: proofs/Reading.antt, `line_read`, says that it is that of the table's line.
pub fn range(work: &[u64], i: usize, d: usize) -> u64
    requires { (i < 512) × (d < 6) × (16290 ≤ length work.now) }
    ensures { range_of result ≡ range_in d (get_or work.now (line_at i d) 0) }
{
    let w = work[LINES + 3 * i + column(d)];
    low_in(d, w) * 4294967296 + high_in(d, w)
}
