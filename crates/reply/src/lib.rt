// The reply of a table that `build` left in the work buffer: its lines as text, then zeros.
#![tactic(auto, using(crate::proofs::Putting::putting))]

ghost use Rattle.std.specs.Prelude.{◌≡◌, ◌≤◌, ◌<◌, length};
ghost use Rattle.std.proofs.lemmas.List.Edits.{sets};
ghost use Rattle.stored.specs.Line.{ranges};
ghost use Rattle.stored.specs.Text.{table_text, reply_of};
ghost use Rattle.stored.specs.Words.{Fits};
ghost use Rattle.reply.specs.Lines.{line_in, lines_in};

use builder::table::range;
use stored::lines::Line;
use stored::write::put_line;

fn read_line(work: &[u64], i: usize) -> Line
    requires { (i < 512) × (16290 ≤ length work.now) }
    ensures { ranges result ≡ line_in work.now i }
{
    Line {
        direction: range(work, i, 0),
        protocol: range(work, i, 1),
        opener: range(work, i, 2),
        address: range(work, i, 3),
        remote: range(work, i, 4),
        device: range(work, i, 5),
    }
}

fn put_lines(buf: &mut [u8; 36864], work: &[u64], n: usize)
    requires { (n ≤ 512) × (16290 ≤ length work.now) × Fits (lines_in n work.now) }
    ensures { buf.new ≡ sets buf.old 0 (table_text (lines_in n work.now)) }
{
    let mut at = 0;
    for i in 0..n {
        at = put_line(buf, at, read_line(work, i));
    }
}

// Of the first n lines of the work buffer. proofs/Built.antt says that they are those of the table, and that they fit.
pub fn write(work: &[u64], n: usize, reply: &mut [u8; 36864])
    requires { (n ≤ 512) × (16290 ≤ length work.now) × Fits (lines_in n work.now) }
    ensures { reply.new ≡ reply_of (lines_in n work.now) }
{
    reply.fill(0);
    put_lines(reply, work, n);
}
