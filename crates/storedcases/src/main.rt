// Asks each stored table of the file `cases` about a flow, and writes a line for each: the case's name and the answer.
// A case is a head of 24 bytes (three lengths of four bytes: name, text and whole; then the flow in 11 bytes), the name and the text;
// zeros fill the text up to the whole length.
#![tactic(auto)]

ghost use Rattle.std.specs.Prelude.{◌≤◌, length, IfOk};

use files::read_full;
use std::fs::File;
use std::io;
use std::io::{BufReader, BufWriter, Read, Write};
use stored::answer::{Refusal, Verdict};

// A length of three bytes; the first of the four is 0.
fn length_at(head: &[u8; 24], at: usize) -> usize
    requires { at ≤ 8 }
{
    u32::from_be_bytes([0, head[at + 1], head[at + 2], head[at + 3]]) as usize
}

fn flow(head: &[u8; 24]) -> flows::Numbers {
    flows::Numbers {
        direction: head[12],
        protocol: flows::Protocol(head[13]),
        opener: head[14],
        address: flows::Address(u32::from_be_bytes([head[15], head[16], head[17], head[18]])),
        remote: flows::RemotePort(u16::from_be_bytes([head[19], head[20]])),
        device: flows::DevicePort(u16::from_be_bytes([head[21], head[22]])),
    }
}

// Fills the first n bytes of buf.
fn load(cases: &mut impl Read, buf: &mut [u8], n: usize) -> io::Result<usize>
    ensures { IfOk result (λ k. k ≤ length buf.new) }
{
    if buf.len() < n {
        return Ok(0);
    }
    read_full(cases, &mut buf[..n])
}

fn put_answer(out: &mut impl Write, answer: Result<Verdict, Refusal>) -> io::Result<()> {
    match answer {
        Ok(Verdict::Accept) => out.write_all(b"\taccept\n"),
        Ok(Verdict::Drop) => out.write_all(b"\tdrop\n"),
        Err(why) => writeln!(out, "\t{}", u8::from(why)),
    }
}

// One case, and whether there was one.
fn run_case(cases: &mut impl Read, out: &mut impl Write) -> io::Result<bool> {
    let mut head = [0u8; 24];
    if read_full(cases, &mut head)? < 24 {
        return Ok(false);
    }
    let mut name = [0u8; 80];
    let n = load(cases, &mut name, length_at(&head, 0))?;
    out.write_all(&name[..n])?;
    let mut stored = [0u8; 36865];
    load(cases, &mut stored, length_at(&head, 4))?;
    let whole = length_at(&head, 8);
    if 36865 < whole {
        return Ok(false);
    }
    put_answer(out, stored::verdict::verdict(&stored[..whole], flow(&head)))?;
    Ok(true)
}

// A bound: what a file gives is not known to end. A loop of its own, as in the other programs: a shared one over
// a closure could promise nothing of what it runs.
fn run_all(cases: &mut impl Read, out: &mut impl Write) -> io::Result<()> {
    for _ in 1..10000 {
        if !run_case(cases, out)? {
            break;
        }
    }
    Ok(())
}

fn main(rt: HostRuntime) -> io::Result<()> {
    let mut cases = BufReader::new(rt.alloc(), File::open(&rt, "cases")?)?;
    let mut out = BufWriter::new(rt.alloc(), io::writer(&rt))?;
    run_all(&mut cases, &mut out)?;
    out.flush()
}
