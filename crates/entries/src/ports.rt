// Ports: the two forms of a port object.
#![tactic(auto, using(crate::proofs::PlaceLaws::placing), unfolding(crate::specs::Sound::in_order))]

ghost use Rattle.std.specs.Prelude.{◌≡◌, ◌&&◌};
ghost use Rattle.text.specs.Ascii.{ascii};
ghost use Rattle.values.specs.Tree.{tree_at, seen};
ghost use Rattle.values.specs.Rules.{must, may};
ghost use Rattle.entries.specs.Sound.{not_above, in_order, is_range_form, is_operator_form, port_ok, ports_ok, ordered};

use crate::places::{Port, Tcp, port_at};
use crate::sound::may_be_object;
use header::asked::{Asked, Form, may_obey, must_obey, obeys};
use values::plain;

fn not_above(low: Option<u64>, high: Option<u64>) -> bool
    ensures { result ≡ not_above low high }
{
    matches!((low, high), (Some(a), Some(b)) if a <= b)
}

fn in_order(s: &[u8], low: usize, high: usize) -> bool
    ensures { result ≡ in_order (tree_at 6 s.now low) (tree_at 6 s.now high) }
{
    obeys(s, low, 6, Asked::Integer(0, 65535))
        && obeys(s, high, 6, Asked::Integer(0, 65535))
        && not_above(plain::integer(s, low, 6), plain::integer(s, high, 6))
}

impl Port<'_> {
    // `lower-port` and `upper-port`, both there and in order.
    fn ends_in_order(&self) -> bool
        ensures { result ≡ must (seen (tree_at 7 self.now.s.now) self.now.found) ordered }
    {
        match (self.lower, self.upper) {
            (Some(low), Some(high)) => in_order(self.s, low, high),
            _ => false,
        }
    }

    fn is_range_form(&self) -> bool
        ensures { result ≡ must (seen (tree_at 7 self.now.s.now) self.now.found) is_range_form }
    {
        self.ends_in_order() && self.port.is_none() && self.operator.is_none()
    }

    fn is_operator_form(&self) -> bool
        ensures { result ≡ must (seen (tree_at 7 self.now.s.now) self.now.found) is_operator_form }
    {
        must_obey(self.s, self.port, 6, Asked::Integer(0, 65535))
            && may_obey(self.s, self.operator, 6, Asked::Spelt(Form::Operator))
            && self.lower.is_none()
            && self.upper.is_none()
    }

    fn is_sound(&self) -> bool
        ensures { result ≡ must (seen (tree_at 7 self.now.s.now) self.now.found) port_ok }
    {
        self.is_range_form() || self.is_operator_form()
    }
}

fn may_be_port(s: &[u8], found: Option<usize>) -> bool
    ensures { result ≡ may (seen (tree_at 7 s.now) found) port_ok }
{
    found.is_none() || port_at(s, found).is_sound()
}

impl Tcp<'_> {
    // The members that `tcp` and `udp` have in common.
    pub(crate) fn are_ports(&self) -> bool
        ensures { result ≡ may (seen (tree_at 8 self.now.s.now) self.now.found) ports_ok }
    {
        may_be_object(self.s, self.found, 8)
            && may_be_port(self.s, self.source)
            && may_be_port(self.s, self.destination)
    }
}
