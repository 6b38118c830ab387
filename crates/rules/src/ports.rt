// Port objects as ranges.
#![tactic(auto, using(crate::proofs::PortLaws::porting), unfolding(crate::specs::Ports::by_operator, crate::specs::Ports::other_than, crate::specs::Ports::ports_of))]

ghost use Rattle.std.specs.Prelude.{◌≡◌};
ghost use Rattle.text.specs.Ascii.{ascii};
ghost use Rattle.values.specs.Decode.{bytes_at};
ghost use Rattle.values.specs.Tree.{tree_at, seen, count_of};
ghost use Rattle.rules.specs.Meaning.{operator_of};
ghost use Rattle.values.specs.Rules.{inside, under};
ghost use Rattle.rules.specs.Ports.{port_number, one_range, other_than, by_operator, ports_of, ports_in};

use entries::places::{Port, port_at};
use text::bytes::byte_at;
use values::plain::integer;
use values::strings::string_is;

// Two ranges, one of which must hold the port.
#[derive(Clone, Copy, Debug, PartialEq, Eq)]
pub struct Ports {
    pub low: u16,
    pub high: u16,
    pub other_low: u16,
    pub other_high: u16,
}

impl Ports {
    pub const ALL: Ports = Ports {
        low: 0,
        high: u16::MAX,
        other_low: 0,
        other_high: u16::MAX,
    };

    pub fn one_range(low: u16, high: u16) -> Ports
        ensures { result ≡ one_range low high }
    {
        Ports {
            low,
            high,
            other_low: low,
            other_high: high,
        }
    }

    pub fn only(n: u16) -> Ports
        ensures { result ≡ one_range n n }
    {
        Ports::one_range(n, n)
    }
}

fn port_number(c: Option<u64>) -> u16
    ensures { result ≡ port_number c }
{
    c.map_or(0, |n| u16::try_from(n).unwrap_or(u16::MAX))
}

fn port_number_at(s: &[u8], at: usize) -> u16
    ensures { result ≡ port_number (count_of (tree_at 6 s.now at)) }
{
    port_number(integer(s, at, 6))
}

// All ports but one, without an empty range at either end.
fn other_than(n: u16) -> Ports
    ensures { result ≡ other_than n }
{
    match n {
        0 => Ports::one_range(1, u16::MAX),
        u16::MAX => Ports::one_range(0, u16::MAX - 1),
        _ => Ports {
            low: 0,
            high: n - 1,
            other_low: n + 1,
            other_high: u16::MAX,
        },
    }
}

// The string `operator` whose first character stands at a place.
fn by_operator(s: &[u8], at: usize, n: u16) -> Ports
    ensures { result ≡ by_operator (bytes_at s.now at) n }
{
    if string_is(s, at, b"neq") {
        other_than(n)
    } else if string_is(s, at, b"lte") {
        Ports::one_range(0, n)
    } else if string_is(s, at, b"gte") {
        Ports::one_range(n, u16::MAX)
    } else {
        Ports::only(n)
    }
}

// The operator that was found; without one it is `eq`.
fn with_operator(s: &[u8], found: Option<usize>, n: u16) -> Ports
    ensures { result ≡ by_operator (operator_of (seen (tree_at 6 s.now) found)) n }
{
    match found {
        Some(p) if byte_at(s, p) == b'"' => by_operator(s, p + 1, n),
        _ => Ports::only(n),
    }
}

// Of a port object without a range.
fn by_port(p: &Port) -> Ports
    ensures { result ≡ inside (under (ascii "port") (seen (tree_at 7 p.now.s.now) p.now.found)) (λ n. by_operator (operator_of (under (ascii "operator") (seen (tree_at 7 p.now.s.now) p.now.found))) (port_number (count_of n))) (one_range 0 65535) }
{
    match p.port {
        None => Ports::ALL,
        Some(n) => with_operator(p.s, p.operator, port_number_at(p.s, n)),
    }
}

// The port object that was found.
pub fn ports_in(s: &[u8], found: Option<usize>) -> Ports
    ensures { result ≡ ports_in (seen (tree_at 7 s.now) found) }
{
    let p = port_at(s, found);
    match (p.lower, p.upper) {
        (Some(low), Some(high)) => Ports::one_range(
            port_number_at(s, low),
            port_number_at(s, high),
        ),
        (Some(_), None) => Ports::ALL,
        (None, _) => by_port(&p),
    }
}
