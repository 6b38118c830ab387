// Builds each case of the file `cases`, and writes its name, the answer's number and line count, and the lines of a build that was taken; then
// `not zero` where a byte after the lines, or a word of the work buffer, is not.
// A case is a head of 24 bytes and three texts: the name, the file and the site table. The head has numbers of two bytes, high byte first: the
// name's length; four places for the file and four for the site table; the lengths of the reply and of the work buffer; then the byte that
// both are filled with before the build, and a 0. A file and a site table each have a front, a block that is written once and repeated, and a
// back: the four places are where the front, the block, the repeated block and the whole end.
#![tactic(auto)]

ghost use Rattle.std.specs.Prelude.{◌≡◌, ◌≢◌, ◌↔◌, ℕ, ◌<◌, ◌≤◌, EachIndex, IfOk, IsTrue, length, slice_index};

use files::{first_zero, read_full};
use gateway::Reason;
use std::fs::File;
use std::io;
use std::io::{BufReader, BufWriter, Read, Write};

fn size_at(head: &[u8; 24], at: usize) -> usize
    requires { at ≤ 22 }
{
    u16::from_be_bytes([head[at], head[at + 1]]).into()
}

// Reads the bytes from a place to below another, where the buffer has them.
fn fill(cases: &mut impl Read, buf: &mut [u8], from: usize, to: usize) -> io::Result<()> {
    if from < to && to <= buf.len() {
        read_full(cases, &mut buf[from..to])?;
    }
    Ok(())
}

// Repeats the block from `start` to below `from` up to the place `to`.
fn repeat(buf: &mut [u8], start: usize, from: usize, to: usize) {
    if from < start {
        return;
    }
    let step = from - start;
    for i in from..to.min(buf.len()) {
        buf[i] = buf[i - step];
    }
}

// n, or 0 where the buffer has fewer bytes: such a text is empty.
fn within(buf: &[u8], n: usize) -> usize
    ensures bound { result ≤ length buf.now }
    ensures value { n ≤ length buf.now → result ≡ n }
{
    if n <= buf.len() { n } else { 0 }
}

// The text whose four places stand in the head; answers its length.
fn read_text(cases: &mut impl Read, head: &[u8; 24], at: usize, buf: &mut [u8]) -> io::Result<usize>
    requires { at ≤ 16 }
    ensures { IfOk result (λ n. n ≤ length buf.new) }
{
    let front = size_at(head, at);
    let block = size_at(head, at + 2);
    let repeated = size_at(head, at + 4);
    let end = size_at(head, at + 6);
    fill(cases, buf, 0, front)?;
    fill(cases, buf, front, block)?;
    repeat(buf, front, block, repeated);
    fill(cases, buf, repeated, end)?;
    Ok(within(buf, end))
}

// Writes the next n bytes, at most 100.
fn put_name(cases: &mut impl Read, out: &mut impl Write, n: usize) -> io::Result<()> {
    let mut name = [0u8; 100];
    fill(cases, &mut name, 0, n)?;
    out.write_all(name.get(..n).unwrap_or(&[]))
}

fn put_answer(out: &mut impl Write, number: u8, count: usize) -> io::Result<()> {
    writeln!(out, "\t{number}\t{count}")
}

fn zero_from(s: &[u8], at: usize) -> bool
    ensures { IsTrue result ↔ ((k : ℕ) → at ≤ k → k < length s.now → slice_index s.now k ≡ 0) }
{
    s.iter().skip(at).all(|b| *b == 0)
}

fn all_zero(words: &[u64]) -> bool
    ensures { IsTrue result ↔ EachIndex words.now (λ k. slice_index words.now k ≡ 0) }
{
    words.iter().all(|w| *w == 0)
}

// The lines, which a refused build has none of, and what stands after them.
fn put_reply(out: &mut impl Write, lines: usize, reply: &[u8], work: &[u64]) -> io::Result<()> {
    let n = within(reply, lines);
    out.write_all(&reply[..n])?;
    if !zero_from(reply, n) {
        out.write_all(b"not zero\n")?;
    }
    if !all_zero(work) {
        out.write_all(b"not zero\n")?;
    }
    Ok(())
}

fn put_built(
    out: &mut impl Write,
    built: Result<usize, Reason>,
    reply: &[u8],
    work: &[u64],
) -> io::Result<()> {
    match built {
        Ok(count) => {
            put_answer(out, 0, count)?;
            put_reply(out, first_zero(reply), reply, work)
        }
        Err(why) => {
            put_answer(out, why.into(), 0)?;
            put_reply(out, 0, reply, work)
        }
    }
}

// One build in lent buffers.
fn build_in(
    out: &mut impl Write,
    file: &[u8],
    site: &[u8],
    reply: &mut [u8],
    work: &mut [u64],
) -> io::Result<()> {
    let built = gateway::build(file, site, reply, work);
    put_built(out, built, reply, work)
}

// One build in buffers of these lengths, filled with that byte.
fn build_with(
    out: &mut impl Write,
    file: &[u8],
    site: &[u8],
    m: usize,
    n: usize,
    noise: u8,
) -> io::Result<()> {
    let mut reply = [noise; 36865];
    let mut work = [u64::from_be_bytes([noise; 8]); 16291];
    if 36865 < m || 16291 < n {
        return Ok(());
    }
    build_in(out, file, site, &mut reply[..m], &mut work[..n])
}

// One case, and whether there was one.
fn run_case(cases: &mut impl Read, out: &mut impl Write) -> io::Result<bool> {
    let mut head = [0u8; 24];
    if read_full(cases, &mut head)? < 24 {
        return Ok(false);
    }
    put_name(cases, out, size_at(&head, 0))?;
    let mut file = [0u8; 65536];
    let n = read_text(cases, &head, 2, &mut file)?;
    let mut site = [0u8; 65536];
    let m = read_text(cases, &head, 10, &mut site)?;
    let reply_len = size_at(&head, 18);
    let work_len = size_at(&head, 20);
    build_with(out, &file[..n], &site[..m], reply_len, work_len, head[22])?;
    Ok(true)
}

// Each program that runs cases has this loop: one for all would take a closure over a reader and a writer, and could promise nothing of
// what it runs.
fn run_all(cases: &mut impl Read, out: &mut impl Write) -> io::Result<()> {
    for _ in 1..100000 {
        if !run_case(cases, out)? {
            break;
        }
    }
    Ok(())
}

fn main(rt: HostRuntime) -> io::Result<()> {
    let mut cases = BufReader::new(rt.alloc(), File::open(&rt, "cases")?)?;
    let mut out = BufWriter::new(rt.alloc(), io::writer(&rt))?;
    run_all(&mut cases, &mut out)?;
    out.flush()
}
