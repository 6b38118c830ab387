// Reading a JSON text, building lines from rules and writing them, each behind a C function of its own: for measuring, and no part of the library.
#![tactic(auto, using(crate::proofs::Laws::measuring), unfolding(crate::specs::Measured::sized, crate::specs::Measured::all_sized, crate::specs::Measured::lines_number))]

ghost use Rattle.std.specs.Prelude.{◌≡◌, ◌≤◌, length};
ghost use Rattle.flows.specs.Table.{table_of};
ghost use Rattle.flows.specs.Flow.{widths};
ghost use Rattle.flows.specs.Rules.{let_through};
ghost use Rattle.builder.specs.Encoding.{rules_of};
ghost use Rattle.jsontext.specs.Reading.{text_of};
ghost use Rattle.measured.specs.Measured.{text_number, sized, all_sized, lines_number, Written, Replied};

use builder::Work;
use jsontext::reader::whole_text;

// 1 for a JSON text that is nested at most 16 deep, else 0.
#[unsafe(no_mangle)]
pub extern "C" fn measured_text(text: &[u8]) -> usize
    ensures { result ≡ text_number (text_of 16 text.now) }
{
    usize::from(whole_text(text, 16).is_ok())
}

fn is_sized(work: usize, n: usize) -> bool
    ensures { result ≡ sized work n }
{
    work == 16290 && n <= 66
}

// The number of lines of the table of n rules, 513 for more than 512; 1,000,000 for a buffer or a number of rules of no use.
// (Numbers for refusals: these are for C.)
#[unsafe(no_mangle)]
pub extern "C" fn measured_lines(work: &mut [u64], n: usize) -> usize
    ensures { result ≡ lines_number (length work.old) n (table_of widths (let_through (rules_of n work.old))) }
{
    if !is_sized(work.len(), n) {
        return 1000000;
    }
    let Some(work) = work.as_mut_array() else {
        unreachable!()
    };
    builder::build(work, n).unwrap_or(513)
}

fn are_sized(reply: usize, work: usize, n: usize) -> bool
    ensures { result ≡ all_sized reply work n }
{
    reply == 36864 && is_sized(work, n)
}

// Builds, and writes the lines unless there are more than 512.
fn build_and_write(work: &mut Work, n: usize, reply: &mut [u8; 36864]) -> Option<usize>
    requires { n ≤ 66 }
    ensures { Written (table_of widths (let_through (rules_of n work.old))) reply.old result reply.new }
{
    let k = builder::build(work, n)?;
    reply::write(work, k, reply);
    Some(k)
}

// The same number, and the lines as text; a reply of another size than 36,864 bytes gives 1,000,000 too. `reply` is left alone where no lines
// are written.
#[unsafe(no_mangle)]
pub extern "C" fn measured_reply(work: &mut [u64], n: usize, reply: &mut [u8]) -> usize
    ensures { Replied (length work.old) n (table_of widths (let_through (rules_of n work.old))) reply.old result reply.new }
{
    if !are_sized(reply.len(), work.len(), n) {
        return 1000000;
    }
    let Some(work) = work.as_mut_array() else {
        unreachable!()
    };
    let Some(reply) = reply.as_mut_array() else {
        unreachable!()
    };
    build_and_write(work, n, reply).unwrap_or(513)
}
