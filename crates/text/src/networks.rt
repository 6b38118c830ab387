// IPv4 networks, read at a place of a text.
#![tactic(auto, using(crate::proofs::NetworkLaws::finding), unfolding(crate::specs::Networks::network_at))]

ghost use Rattle.std.specs.Prelude.{◌≡◌, ◌≤◌};
ghost use Rattle.text.specs.Networks.{size_of, net_of, network_at};

use crate::{bytes, numbers};

// The first and the last address, and whether a length was given: a length of 32 may be given or not.
#[derive(Clone, Copy, Debug, PartialEq, Eq)]
pub struct Net {
    pub low: u32,
    pub high: u32,
    pub given: bool,
}

// How many addresses a network has: too many for 32 bits where the length is 0.
fn size(length: u32) -> u64
    requires { length ≤ 32 }
    ensures { result ≡ size_of length }
{
    1u64 << (32 - length)
}

// The network of `length` bits around an address.
fn around(address: u32, length: u32, given: bool) -> Net
    requires { length ≤ 32 }
    ensures { result ≡ net_of length address given }
{
    let a = u64::from(address);
    let n = size(length);
    let low = a - a % n;
    Net {
        low: low as u32,
        high: (low + (n - 1)) as u32,
        given,
    }
}

// A dotted quad with or without a length, and the place after it. What may follow is the caller's to test.
pub fn network(s: &[u8], at: usize) -> Option<(Net, usize)>
    ensures { result ≡ network_at s.now at }
{
    let (a, i) = numbers::quad(s, at)?;
    if bytes::is_at(s, i, b'/') {
        let (n, j) = numbers::number(s, i + 1, 32)?;
        return Some((around(a, n, true), j));
    }
    Some((around(a, 32, false), i))
}
