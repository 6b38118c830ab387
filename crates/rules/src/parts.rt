// The parts of an entry, one for each dimension, as ranges.
#![tactic(auto, using(crate::proofs::PartLaws::parting), unfolding(crate::specs::Parts::protocols, crate::specs::Parts::openers, crate::specs::Parts::networks, crate::specs::Parts::transport))]

ghost use Rattle.std.specs.Prelude.{◌≡◌};
ghost use Rattle.values.specs.Tree.{tree_at, seen};
ghost use Rattle.rules.specs.Parts.{between, number_or, protocol_in, protocols, opener_in, openers, network_in, networks, transport};

use entries::places::{Matches, Tcp, sides_of, tcp_at};
use flows::Direction;
use header::strings;
use text::bytes::byte_at;
use values::plain::integer;
use values::strings::string_is;

// A range of numbers, both ends in it.
#[derive(Clone, Copy, Debug, PartialEq, Eq)]
pub struct Between {
    pub low: u32,
    pub high: u32,
}

impl Between {
    pub const DIRECTIONS: Between = Between { low: 0, high: 1 };

    pub const PROTOCOLS: Between = Between { low: 0, high: 255 };

    pub const OPENERS: Between = Between { low: 0, high: 1 };

    pub const ADDRESSES: Between = Between {
        low: 0,
        high: u32::MAX,
    };

    pub fn only(n: u32) -> Between
        ensures { result ≡ between n n }
    {
        Between { low: n, high: n }
    }
}

// Every protocol, unless the number is one.
fn protocol_or_all(c: Option<u64>) -> Between
    ensures { result ≡ number_or c (between 0 255) }
{
    match c.and_then(|n| u8::try_from(n).ok()) {
        Some(n) => Between::only(n.into()),
        None => Between::PROTOCOLS,
    }
}

fn protocol_in(s: &[u8], found: Option<usize>) -> Between
    ensures { result ≡ protocol_in (seen (tree_at 7 s.now) found) }
{
    protocol_or_all(found.and_then(|p| integer(s, p, 7)))
}

pub fn protocols_of(m: &Matches) -> Between
    ensures { result ≡ protocols (seen (tree_at 9 m.now.s.now) m.now.found) }
{
    match (m.tcp, m.udp) {
        (Some(_), _) => Between::only(6),
        (None, Some(_)) => Between::only(17),
        (None, None) => protocol_in(m.s, m.ipv4.protocol),
    }
}

fn opener_in(s: &[u8], found: Option<usize>) -> Between
    ensures { result ≡ opener_in (seen (tree_at 7 s.now) found) }
{
    match found {
        None => Between::OPENERS,
        Some(p) if byte_at(s, p) == b'"' && string_is(s, p + 1, b"from-device") => Between::only(0),
        Some(_) => Between::only(1),
    }
}

// Who opens; `t` is `tcp` or `udp`, whichever is there.
pub fn openers_of(m: &Matches, t: &Tcp) -> Between
    requires { (t.now.s.now ≡ m.now.s.now) × (transport (seen (tree_at 9 m.now.s.now) m.now.found) ≡ seen (tree_at 8 m.now.s.now) t.now.found) }
    ensures { result ≡ openers (seen (tree_at 9 m.now.s.now) m.now.found) }
{
    match m.tcp {
        None => Between::OPENERS,
        Some(_) => opener_in(t.s, t.initiated),
    }
}

fn network_in(s: &[u8], found: Option<usize>) -> Between
    ensures { result ≡ network_in (seen (tree_at 7 s.now) found) }
{
    if let Some(p) = found
        && byte_at(s, p) == b'"'
        && let Some((net, _)) = strings::network(s, p + 1)
    {
        Between {
            low: net.low,
            high: net.high,
        }
    } else {
        Between::ADDRESSES
    }
}

pub fn networks_of(m: &Matches, d: Direction) -> Between
    ensures { result ≡ networks d (seen (tree_at 9 m.now.s.now) m.now.found) }
{
    network_in(m.s, sides_of(&m.ipv4, d).network)
}

// `tcp` or `udp`, whichever is there: the ports of a `udp` stand as those of a `tcp`.
pub fn transport_of<'a>(m: &Matches<'a>) -> Tcp<'a>
    ensures file { result.s.now ≡ m.now.s.now }
    ensures found { transport (seen (tree_at 9 m.now.s.now) m.now.found) ≡ seen (tree_at 8 m.now.s.now) result.found }
{
    tcp_at(m.s, m.tcp.or(m.udp))
}
