// Runs the reader over the published files that `list` names, and writes a line for each: the name and the answer.
#![tactic(auto)]

ghost use Rattle.std.specs.Prelude.{◌≡◌, ◌≢◌, ℕ, ◌<◌, ◌≤◌, length, slice_index};
ghost use Rattle.jsonfiles.specs.Answers.{answer_of};

use files::load;
use std::io::{BufWriter, Write};
use std::rt::Files;
use std::{io, str};
use values::Fault;
use values::clean::judge;

// The numbers 4 to 6 of document 01, or 0: a number, since it is what is printed.
#[tactic(auto, using(crate::proofs::Laws::answering))]
fn answer(s: &[u8], area: &mut [u64]) -> u8
    ensures { result ≡ answer_of s.now }
{
    if 32768 < s.len() {
        return 4;
    }
    match judge(s, 16, area) {
        Ok(()) => 0,
        Err(Fault::Broken(_)) => 5,
        Err(Fault::Unclean) => 6,
    }
}

fn run_file(files: &impl Files, out: &mut impl Write, name: &[u8]) -> io::Result<()> {
    // one byte more than a file may have
    let mut file = [0u8; 32769];
    let n = match str::from_utf8(name) {
        Ok(path) => load(files, path, &mut file),
        Err(_) => 0,
    };
    // places for as many names as can stand open at a time in a file
    let mut area = [0u64; 4900];
    let number = answer(&file[..n], &mut area);
    out.write_all(name)?;
    writeln!(out, "\t{number}")
}

// Where the first line of a text ends: at its LF, or at the end of the text.
fn line_end(s: &[u8]) -> usize
    ensures within { result ≤ length s.now }
    ensures before { (k : ℕ) → k < result → slice_index s.now k ≢ 10 }
    ensures found { result < length s.now → slice_index s.now result ≡ 10 }
{
    s.iter().position(|b| *b == b'\n').unwrap_or(s.len())
}

// (No `split_inclusive`: of where it ends a line nothing would be promised here.)
fn run_list(files: &impl Files, out: &mut impl Write, list: &[u8]) -> io::Result<()> {
    let mut left = list;
    while !left.is_empty() {
        let end = line_end(left);
        run_file(files, out, &left[..end])?;
        let Some((_, behind)) = left[end..].split_first() else {
            break;
        };
        left = behind;
    }
    Ok(())
}

fn main(rt: HostRuntime) -> io::Result<()> {
    let mut list = [0u8; 16384];
    let n = load(&rt, "list", &mut list);
    let mut out = BufWriter::new(rt.alloc(), io::writer(&rt))?;
    run_list(&rt, &mut out, &list[..n])?;
    out.flush()
}
