// Builds the table of each set of rules in the file `cases`, and writes the case's name and the table's lines, or `over` for a longer one.
// A case is two bytes (the length of the name, the number of rules), 80 bytes that begin with the name, and words of eight bytes, high byte
// first: the 64 networks, then 21 for each rule.
#![tactic(auto)]

ghost use Rattle.std.specs.Prelude.{◌<◌, ◌≤◌};

use builder::Work;
use files::read_full;
use std::fs::File;
use std::io;
use std::io::{BufReader, BufWriter, Read, Write};
use std::net::Ipv4Addr;

// Fills the words from `from` to below `to`.
fn read_words(cases: &mut impl Read, work: &mut Work, from: usize, to: usize) -> io::Result<()>
    requires { to ≤ 1555 }
{
    for i in from..to {
        let mut b = [0u8; 8];
        read_full(cases, &mut b)?;
        work[i] = u64::from_be_bytes(b);
    }
    Ok(())
}

// An end of a range of dimension d, which is an address where d is 3.
fn put_end(out: &mut impl Write, d: usize, end: u32) -> io::Result<()> {
    if d == 3 {
        write!(out, "{}", Ipv4Addr::from(end))
    } else {
        write!(out, "{end}")
    }
}

fn put_line(out: &mut impl Write, work: &Work, i: usize) -> io::Result<()>
    requires { i < 512 }
{
    for d in 0..6 {
        let range = builder::table::range(work, i, d);
        out.write_all(b"\t")?;
        put_end(out, d, (range / 4294967296) as u32)?;
        out.write_all(b"-")?;
        put_end(out, d, (range % 4294967296) as u32)?;
    }
    out.write_all(b"\n")
}

fn put_lines(out: &mut impl Write, work: &Work, n: usize) -> io::Result<()> {
    out.write_all(b"\n")?;
    for i in 0..n.min(512) {
        put_line(out, work, i)?;
    }
    Ok(())
}

fn put_table(out: &mut impl Write, work: &mut Work, n: usize) -> io::Result<()>
    requires { n ≤ 66 }
{
    match builder::build(work, n) {
        None => out.write_all(b"\tover\n"),
        Some(k) => put_lines(out, work, k),
    }
}

// Writes the n first of the next 80 bytes.
fn put_name(cases: &mut impl Read, out: &mut impl Write, n: usize) -> io::Result<()> {
    let mut name = [0u8; 80];
    read_full(cases, &mut name)?;
    if n <= 80 {
        out.write_all(&name[..n])?;
    }
    Ok(())
}

// One case, and whether there was one.
fn run_case(cases: &mut impl Read, out: &mut impl Write) -> io::Result<bool> {
    let mut head = [0u8; 2];
    if read_full(cases, &mut head)? < 2 {
        return Ok(false);
    }
    put_name(cases, out, head[0].into())?;
    let rules = usize::from(head[1]);
    if 66 < rules {
        return Ok(false);
    }
    let mut work = [0u64; 16290];
    read_words(cases, &mut work, 0, 64)?;
    read_words(cases, &mut work, 169, 169 + 21 * rules)?;
    put_table(out, &mut work, rules)?;
    Ok(true)
}

// A bound: what a file gives is not known to end. A loop of its own, as in the other programs: a shared one over
// a closure could promise nothing of what it runs.
fn run_all(cases: &mut impl Read, out: &mut impl Write) -> io::Result<()> {
    for _ in 1..10000 {
        if !run_case(cases, out)? {
            break;
        }
    }
    Ok(())
}

fn main(rt: HostRuntime) -> io::Result<()> {
    let mut cases = BufReader::new(rt.alloc(), File::open(&rt, "cases")?)?;
    let mut out = BufWriter::new(rt.alloc(), io::writer(&rt))?;
    run_all(&mut cases, &mut out)?;
    out.flush()
}
