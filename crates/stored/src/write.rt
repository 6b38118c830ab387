// A line of a table, written as text.
#![tactic(auto, using(crate::proofs::Putting::putting))]

ghost use Rattle.std.specs.Prelude.{◌+◌, ◌≤◌, length};
ghost use Rattle.text.specs.Written.{Put};
ghost use Rattle.stored.specs.Line.{ranges};
ghost use Rattle.stored.specs.Text.{line_text};
ghost use Rattle.stored.specs.Writing.{range_parts, quad_parts};

use crate::BASE;
use crate::lines::Line;
use text::written;

// `low-high` and the byte `close`.
fn put_range(buf: &mut [u8], at: usize, x: u64, close: u8) -> usize
    requires { at + length (range_parts close x) ≤ length buf.old }
    ensures { Put buf.old at (range_parts close x) result buf.new }
{
    let p = written::put_decimal(buf, at, (x / BASE) as u32);
    let q = written::put_byte(buf, p, b'-');
    let r = written::put_decimal(buf, q, (x % BASE) as u32);
    written::put_byte(buf, r, close)
}

// The same of dotted quads. (A trait for how an end is written would take more lines than the two that differ here.)
fn put_quads(buf: &mut [u8], at: usize, x: u64, close: u8) -> usize
    requires { at + length (quad_parts close x) ≤ length buf.old }
    ensures { Put buf.old at (quad_parts close x) result buf.new }
{
    let p = written::put_quad(buf, at, (x / BASE) as u32);
    let q = written::put_byte(buf, p, b'-');
    let r = written::put_quad(buf, q, (x % BASE) as u32);
    written::put_byte(buf, r, close)
}

// A line; the place after it.
pub fn put_line(buf: &mut [u8], at: usize, l: Line) -> usize
    requires { at + length (line_text (ranges l)) ≤ length buf.old }
    ensures { Put buf.old at (line_text (ranges l)) result buf.new }
{
    let i = put_range(buf, at, l.direction, b'\t');
    let j = put_range(buf, i, l.protocol, b'\t');
    let k = put_range(buf, j, l.opener, b'\t');
    let m = put_quads(buf, k, l.address, b'\t');
    let n = put_range(buf, m, l.remote, b'\t');
    put_range(buf, n, l.device, b'\n')
}
