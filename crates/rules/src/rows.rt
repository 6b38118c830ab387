// An entry as a rule of the builder: at most 21 words from a place on.
#![tactic(auto, using(crate::proofs::RowLaws::rowing), unfolding(crate::specs::Rows::port_sides, crate::specs::Rows::row_of, crate::specs::Rows::rule_words, crate::specs::Meaning::entry_accepts))]

ghost use Rattle.std.specs.Prelude.{◌≡◌, ◌≤◌, ◌+◌, ◌*◌};
ghost use Rattle.text.specs.Written.{Put};
ghost use Rattle.values.specs.Decode.{bytes_at};
ghost use Rattle.values.specs.Tree.{tree_at, seen};
ghost use Rattle.rules.specs.Meaning.{entry_accepts};
ghost use Rattle.rules.specs.Rows.{ports_words, direction_span, port_sides, row_of, row_words, limit_words, rule_words};

use crate::Setting;
use crate::names::{put_names, put_word, put_words};
use crate::parts::{Between, networks_of, openers_of, protocols_of, transport_of};
use crate::ports::{Ports, ports_in};
use entries::places::{Entry, Matches, Tcp};
use flows::{Direction, by_side};
use naming::networks::word;
use text::bytes::byte_at;
use values::strings::string_is;
use values::walk::member;

// Whose ports they are.
#[derive(Clone, Copy, Debug, PartialEq, Eq)]
pub struct PortSides {
    pub remote: Ports,
    pub device: Ports,
}

// A range or two for each dimension.
#[derive(Clone, Copy, Debug, PartialEq, Eq)]
pub struct Row {
    pub accepts: bool,
    pub direction: Between,
    pub protocols: Between,
    pub openers: Between,
    pub networks: Between,
    pub ports: PortSides,
}

// The remote's ports and the device's, by the direction rule.
fn port_sides(t: &Tcp, d: Direction) -> PortSides
    ensures { result ≡ port_sides d (seen (tree_at 8 t.now.s.now) t.now.found) }
{
    let source = ports_in(t.s, t.source);
    let destination = ports_in(t.s, t.destination);
    let (remote, device) = by_side(d, source, destination);
    PortSides { remote, device }
}

fn is_accepted(e: &Entry) -> bool
    ensures { result ≡ entry_accepts (tree_at 10 e.now.s.now e.now.at) }
{
    let s = e.s;
    e.actions
        .and_then(|a| member(s, a, 9, b"forwarding"))
        .is_some_and(|p| byte_at(s, p) == b'"' && string_is(s, p + 1, b"accept"))
}

fn only(d: Direction) -> Between
    ensures { result ≡ direction_span d }
{
    Between::only(u8::from(d).into())
}

fn row_of(accepts: bool, m: &Matches, d: Direction) -> Row
    ensures { result ≡ row_of accepts d (seen (tree_at 9 m.now.s.now) m.now.found) }
{
    let t = transport_of(m);
    Row {
        accepts,
        direction: only(d),
        protocols: protocols_of(m),
        openers: openers_of(m, &t),
        networks: networks_of(m, d),
        ports: port_sides(&t, d),
    }
}

// From 1 to 0: no second range.
const EMPTY: u64 = 4294967296;

fn port_words(p: Ports) -> [u64; 2]
    ensures { result ≡ ports_words p }
{
    [
        word(p.low.into(), p.high.into()),
        word(p.other_low.into(), p.other_high.into()),
    ]
}

// Words 0 to 12: what the rule says, and two ranges for each dimension: direction, protocols, openers, networks, remote ports, device ports.
fn row_words(row: Row) -> [u64; 13]
    ensures { result ≡ row_words row }
{
    let [remote, other_remote] = port_words(row.ports.remote);
    let [device, other_device] = port_words(row.ports.device);
    [
        u64::from(row.accepts),
        word(row.direction.low, row.direction.high),
        EMPTY,
        word(row.protocols.low, row.protocols.high),
        EMPTY,
        word(row.openers.low, row.openers.high),
        EMPTY,
        word(row.networks.low, row.networks.high),
        EMPTY,
        remote,
        other_remote,
        device,
        other_device,
    ]
}

pub fn put_row(work: &mut [u64], at: usize, row: Row) -> usize
    requires { at ≤ 1800 }
    ensures put { Put work.old at (row_words row) result work.new }
    ensures value { result ≡ at + 13 }
{
    put_words(work, at, &row_words(row))
}

// Word 13 and those after it: how many names there are, and their masks.
fn put_limits(work: &mut [u64], at: usize, m: &Matches, to: &Setting) -> usize
    requires { at ≤ 1900 }
    ensures { Put work.old at (limit_words to.now.direction to.now.site.now (bytes_at m.now.s.now to.now.url) (seen (tree_at 9 m.now.s.now) m.now.found)) result work.new }
{
    let first = at + 1;
    let end = put_names(work, first, m, to);
    put_word(work, at, (end - first) as u64);
    end
}

// The rule of an entry; the place after it.
pub fn put_rule(work: &mut [u64], at: usize, e: &Entry, to: &Setting) -> usize
    requires { at ≤ 1800 }
    ensures { Put work.old at (rule_words to.now.direction to.now.site.now (bytes_at e.now.s.now to.now.url) (tree_at 10 e.now.s.now e.now.at)) result work.new }
{
    let m = e.matches;
    let row = row_of(is_accepted(e), &m, to.direction);
    let p = put_row(work, at, row);
    put_limits(work, p, &m, to)
}
