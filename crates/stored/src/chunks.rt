// Four and eight bytes as one number, the first the lowest: the compiler makes one load of them.
ghost use Rattle.std.specs.Prelude.{◌≡◌, ◌+◌, ◌≤◌, length};
ghost use Rattle.stored.specs.Chunks.{FourAt, EightAt};

use crate::BASE;

// Public, and named by docs/PROMISES.md: it stays, though `lines` reads its four bytes by the library.
pub fn four(s: &[u8], at: usize) -> u64
    requires { at + 4 ≤ length s.now }
    ensures { FourAt s.now at result }
{
    u32::from_le_bytes([s[at], s[at + 1], s[at + 2], s[at + 3]]).into()
}

// Public, and named by docs/PROMISES.md: it stays, though no function here calls it.
pub fn eight(s: &[u8], at: usize) -> u64
    requires { at + 8 ≤ length s.now }
    ensures { EightAt s.now at result }
{
    four(s, at) + four(s, at + 4) * BASE
}
