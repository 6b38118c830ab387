// Number 10: what an entry's members must be.
#![tactic(auto, using(crate::proofs::PlaceLaws::placing))]

ghost use Rattle.std.specs.Prelude.{◌≡◌};
ghost use Rattle.text.specs.Ascii.{ascii};
ghost use Rattle.values.specs.Tree.{tree_at, lookup, is_object, seen};
ghost use Rattle.values.specs.Rules.{must, may};
ghost use Rattle.entries.specs.Sound.{strings_ok, nulls_ok, mud_ok, sides_ok, ipv4_ok, tcp_ok, protocol_is, tcp_beside, udp_beside, matches_ok, actions_ok, entry_ok};

use crate::places::{Entry, Ipv4, Matches, Mud, Tcp, mud_at, sides_of, tcp_at};
use flows::Direction;
use header::asked::{Asked, Form, may_obey, must_be};
use values::plain;

pub(crate) fn may_be_object(s: &[u8], found: Option<usize>, depth: usize) -> bool
    ensures { result ≡ may (seen (tree_at depth s.now) found) is_object }
{
    found.is_none_or(|p| plain::is_object(s, p, depth))
}

impl Mud<'_> {
    fn are_strings(&self) -> bool
        ensures { result ≡ may (seen (tree_at 8 self.now.s.now) self.now.found) strings_ok }
    {
        may_obey(self.s, self.manufacturer, 7, Asked::Text)
            && may_obey(self.s, self.model, 7, Asked::Text)
            && may_obey(self.s, self.controller, 7, Asked::Text)
    }

    fn are_nulls(&self) -> bool
        ensures { result ≡ may (seen (tree_at 8 self.now.s.now) self.now.found) nulls_ok }
    {
        may_obey(self.s, self.kin, 7, Asked::Nulls)
            && may_obey(self.s, self.local, 7, Asked::Nulls)
            && may_obey(self.s, self.mine, 7, Asked::Nulls)
    }

    fn is_sound(&self) -> bool
        ensures { result ≡ may (seen (tree_at 8 self.now.s.now) self.now.found) mud_ok }
    {
        may_be_object(self.s, self.found, 8) && self.are_strings() && self.are_nulls()
    }
}

impl Ipv4<'_> {
    // A network and a name on the remote's side, and none on the device's.
    fn are_sides(&self, d: Direction) -> bool
        ensures { result ≡ may (seen (tree_at 8 self.now.s.now) self.now.found) (sides_ok d) }
    {
        let x = sides_of(self, d);
        may_obey(self.s, x.network, 7, Asked::Spelt(Form::Network))
            && may_obey(self.s, x.name, 7, Asked::Text)
            && x.elsewhere.is_none()
            && x.stranger.is_none()
    }

    fn is_sound(&self, d: Direction) -> bool
        ensures { result ≡ may (seen (tree_at 8 self.now.s.now) self.now.found) (ipv4_ok d) }
    {
        may_be_object(self.s, self.found, 8)
            && may_obey(self.s, self.protocol, 7, Asked::Integer(0, 255))
            && self.are_sides(d)
    }
}

impl Tcp<'_> {
    fn is_sound(&self) -> bool
        ensures { result ≡ may (seen (tree_at 8 self.now.s.now) self.now.found) tcp_ok }
    {
        self.are_ports() && may_obey(self.s, self.initiated, 7, Asked::Spelt(Form::Initiator))
    }
}

impl Matches<'_> {
    // Whether no other protocol than `n` stands in them.
    fn protocol_is(&self, n: u64) -> bool
        ensures { result ≡ may (seen (tree_at 9 self.now.s.now) self.now.found) (protocol_is n) }
    {
        may_obey(self.s, self.ipv4.protocol, 7, Asked::Integer(n, n))
    }

    fn may_be_tcp(&self) -> bool
        ensures { result ≡ may (seen (tree_at 9 self.now.s.now) self.now.found) (λ m. may (lookup (ascii "tcp") m) (tcp_beside m)) }
    {
        self.tcp.is_none()
            || tcp_at(self.s, self.tcp).is_sound() && self.udp.is_none() && self.protocol_is(6)
    }

    // The ports of a `udp` stand as those of a `tcp`.
    fn may_be_udp(&self) -> bool
        ensures { result ≡ may (seen (tree_at 9 self.now.s.now) self.now.found) (λ m. may (lookup (ascii "udp") m) (udp_beside m)) }
    {
        self.udp.is_none() || tcp_at(self.s, self.udp).are_ports() && self.protocol_is(17)
    }

    fn is_sound(&self, d: Direction) -> bool
        ensures { result ≡ may (seen (tree_at 9 self.now.s.now) self.now.found) (matches_ok d) }
    {
        may_be_object(self.s, self.found, 9)
            && mud_at(self.s, self.mud).is_sound()
            && self.ipv4.is_sound(d)
            && self.may_be_tcp()
            && self.may_be_udp()
    }
}

impl Entry<'_> {
    fn has_action(&self) -> bool
        ensures { result ≡ must (lookup (ascii "actions") (tree_at 10 self.now.s.now self.now.at)) actions_ok }
    {
        let s = self.s;
        self.actions.is_some_and(|p| must_be(
            s,
            p,
            9,
            b"forwarding",
            Asked::Spelt(Form::Forwarding),
        ))
    }

    // Whether it breaks, in a list of that direction, no rule but that of number 9.
    pub fn is_sound(&self, d: Direction) -> bool
        ensures { result ≡ entry_ok d (tree_at 10 self.now.s.now self.now.at) }
    {
        self.has_action() && self.matches.is_sound(d)
    }
}
