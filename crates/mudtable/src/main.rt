// Reads `thing.json` and `site.txt` in the current folder, and writes number, tab, line count, LF, then the table's lines.
#![tactic(auto)]

ghost use Rattle.std.specs.Prelude.{◌≡◌, ◌≢◌, ℕ, ◌<◌, ◌≤◌, length, slice_index};

use files::{first_zero, load};
use std::io;

fn put_head(rt: &impl Print, number: u8, count: usize) -> io::Result<()> {
    println!(rt; "{number}\t{count}")
}

// The lines end at the first zero.
fn put_lines(rt: &impl Print, reply: &[u8]) -> io::Result<()> {
    rt.write_all(&reply[..first_zero(reply)])
}

fn put_answer(rt: &impl Print, file: &[u8], site: &[u8]) -> io::Result<()> {
    let mut reply = [0u8; 36864];
    let mut work = [0u64; 16290];
    match gateway::build(file, site, &mut reply, &mut work) {
        Err(why) => put_head(rt, why.into(), 0),
        Ok(count) => {
            put_head(rt, 0, count)?;
            put_lines(rt, &reply)
        }
    }
}

fn main(rt: HostRuntime) -> io::Result<()> {
    // one byte more than each may have, so that a longer one is seen as too long
    let mut file = [0u8; 32769];
    let mut site = [0u8; 8193];
    let n = load(&rt, "thing.json", &mut file);
    let m = load(&rt, "site.txt", &mut site);
    put_answer(&rt, &file[..n], &site[..m])
}
