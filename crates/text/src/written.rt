// Bytes, decimal numbers and dotted quads, written at a place of a lent buffer.
// Each writer answers the place after what it wrote. Buffer and place are no struct: each contract would name both fields, before and
// after, for what `Put` says in four words.
#![tactic(auto, using(crate::proofs::WrittenLaws::writing))]

ghost use Rattle.std.specs.Prelude.{[], ◌∷◌, ◌++◌, ◌+◌, ◌/◌, ◌%◌, ◌≤◌, ◌<◌, length};
ghost use Rattle.text.specs.Written.{decimal, quad, Put};

pub fn put_byte(buf: &mut [u8], at: usize, b: u8) -> usize
    requires { at < length buf.old }
    ensures { Put buf.old at (b ∷ []) result buf.new }
{
    buf[at] = b;
    at + 1
}

fn put_digit(buf: &mut [u8], at: usize, d: u32) -> usize
    requires { (d < 10) × (at < length buf.old) }
    ensures { Put buf.old at ((0x30 + d) ∷ []) result buf.new }
{
    put_byte(buf, at, b'0' + d as u8)
}

// Three digits, zeros in front with them.
fn put_three(buf: &mut [u8], at: usize, n: u32) -> usize
    requires { (n < 1000) × (at + 3 ≤ length buf.old) }
    ensures { Put buf.old at ((0x30 + n / 100) ∷ ((0x30 + n / 10 % 10) ∷ ((0x30 + n % 10) ∷ []))) result buf.new }
{
    let p = put_digit(buf, at, n / 100);
    let q = put_digit(buf, p, n / 10 % 10);
    put_digit(buf, q, n % 10)
}

// The numbers of an address and most others are small: one to three digits, without a loop.
fn put_small(buf: &mut [u8], at: usize, n: u32) -> usize
    requires { (n < 1000) × (at + length (decimal n) ≤ length buf.old) }
    ensures { Put buf.old at (decimal n) result buf.new }
{
    if n < 10 {
        return put_digit(buf, at, n);
    }
    if n < 100 {
        let p = put_digit(buf, at, n / 10);
        return put_digit(buf, p, n % 10);
    }
    put_three(buf, at, n)
}

fn put_thousands(buf: &mut [u8], at: usize, n: u32) -> usize
    requires { (n < 1000000) × (at + length (decimal n) ≤ length buf.old) }
    ensures { Put buf.old at (decimal n) result buf.new }
{
    if n < 1000 {
        return put_small(buf, at, n);
    }
    let p = put_small(buf, at, n / 1000);
    put_three(buf, p, n % 1000)
}

pub fn put_decimal(buf: &mut [u8], at: usize, n: u32) -> usize
    requires { at + length (decimal n) ≤ length buf.old }
    ensures { Put buf.old at (decimal n) result buf.new }
{
    if n < 1000000 {
        return put_thousands(buf, at, n);
    }
    let k = n / 1000;
    let p = put_thousands(buf, at, k / 1000);
    let q = put_three(buf, p, k % 1000);
    put_three(buf, q, n % 1000)
}

fn put_dotted(buf: &mut [u8], at: usize, n: u32) -> usize
    requires { (n < 1000) × (at + length (decimal n) < length buf.old) }
    ensures { Put buf.old at (decimal n ++ (0x2E ∷ [])) result buf.new }
{
    let p = put_small(buf, at, n);
    put_byte(buf, p, b'.')
}

pub fn put_quad(buf: &mut [u8], at: usize, a: u32) -> usize
    requires { at + length (quad a) ≤ length buf.old }
    ensures { Put buf.old at (quad a) result buf.new }
{
    let p = put_dotted(buf, at, a / 16777216);
    let q = put_dotted(buf, p, a / 65536 % 256);
    let r = put_dotted(buf, q, a / 256 % 256);
    put_small(buf, r, a % 256)
}
