// What the programs read: a buffer that is filled from a reader or from a file, and where its zeros begin. Programs read into arrays:
// a file that is too long is seen by one byte more, and no read can run out of memory.
#![tactic(auto)]

ghost use Rattle.std.specs.Prelude.{◌≡◌, ◌≢◌, ℕ, ◌<◌, ◌≤◌, length, slice_index, take, IfOk};
ghost use Rattle.std.specs.Io.KnownBytes.{Consumes, IsAtEnd};

use std::fs::File;
use std::io;
use std::io::Read;
use std::rt::Files;

// Fills the buffer as far as the input goes, and says in `done` how many bytes came, also before a read that failed.
fn fill<R: Read>(input: &mut R, buf: &mut [u8], done: &mut usize) -> io::Result<()>
    requires { done.old ≡ 0 }
    ensures within { done.new ≤ length buf.new }
    ensures bytes { IfOk result (λ _. Consumes (R.remaining input.old) (R.remaining input.new) (take done.new buf.new)) }
    ensures end { IfOk result (λ _. done.new < length buf.new → IsAtEnd (R.remaining input.new)) }
{
    while *done < buf.len() {
        let n = input.read(&mut buf[*done..])?;
        if n == 0 {
            break;
        }
        *done += n;
    }
    Ok(())
}

// Fills the buffer as far as the input goes, and answers how many bytes came.
pub fn read_full<R: Read>(input: &mut R, buf: &mut [u8]) -> io::Result<usize>
    ensures within { IfOk result (λ n. n ≤ length buf.new) }
    ensures bytes { IfOk result (λ n. Consumes (R.remaining input.old) (R.remaining input.new) (take n buf.new)) }
    ensures end { IfOk result (λ n. n < length buf.new → IsAtEnd (R.remaining input.new)) }
{
    let mut done = 0;
    fill(input, buf, &mut done)?;
    Ok(done)
}

// Fills `buf` from the file, and answers how many bytes came: none where it is missing, and those before a read that failed.
pub fn load(files: &impl Files, path: &str, buf: &mut [u8]) -> usize
    ensures { result ≤ length buf.new }
{
    let mut came = 0;
    if let Ok(mut file) = File::open(files, path) {
        // what the read said is of no account here: `came` has what counts
        let _ = fill(&mut file, buf, &mut came);
    }
    came
}

// How many bytes stand before the first 0.
pub fn first_zero(s: &[u8]) -> usize
    ensures within { result ≤ length s.now }
    ensures before { (k : ℕ) → k < result → slice_index s.now k ≢ 0 }
    ensures found { result < length s.now → slice_index s.now result ≡ 0 }
{
    s.iter().position(|b| *b == 0).unwrap_or(s.len())
}
