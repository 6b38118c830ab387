// Number 9: members that are not listed.
#![tactic(auto, using(crate::proofs::PlaceLaws::placing))]

ghost use Rattle.std.specs.Prelude.{◌≡◌, ◌&&◌};
ghost use Rattle.values.specs.Tree.{tree_at, seen};
ghost use Rattle.values.specs.Rules.{may};
ghost use Rattle.entries.specs.Known.{only, tcp_names, udp_names, port_names, ports_known, inside_known, entry_known};

use crate::places::{Entry, Matches, Tcp, Udp, mud_at, port_at, tcp_at, udp_at};

// The port objects of a `tcp` or `udp`.
fn are_listed(s: &[u8], source: Option<usize>, destination: Option<usize>) -> bool
    ensures { result ≡ (may (seen (tree_at 7 s.now) source) (only port_names) && may (seen (tree_at 7 s.now) destination) (only port_names)) }
{
    port_at(s, source).listed && port_at(s, destination).listed
}

// The same text for `tcp` and `udp`: each promises of its own names.
impl Tcp<'_> {
    fn is_known(&self) -> bool
        ensures { result ≡ may (seen (tree_at 8 self.now.s.now) self.now.found) (ports_known tcp_names) }
    {
        self.listed && are_listed(self.s, self.source, self.destination)
    }
}

impl Udp<'_> {
    fn is_known(&self) -> bool
        ensures { result ≡ may (seen (tree_at 8 self.now.s.now) self.now.found) (ports_known udp_names) }
    {
        self.listed && are_listed(self.s, self.source, self.destination)
    }
}

impl Matches<'_> {
    // In the objects that they hold.
    fn is_inside_known(&self) -> bool
        ensures { result ≡ may (seen (tree_at 9 self.now.s.now) self.now.found) inside_known }
    {
        mud_at(self.s, self.mud).listed
            && self.ipv4.listed
            && tcp_at(self.s, self.tcp).is_known()
            && udp_at(self.s, self.udp).is_known()
    }
}

impl Entry<'_> {
    // Whether it has only members that are listed, in `matches` and below.
    pub fn is_known(&self) -> bool
        ensures { result ≡ entry_known (tree_at 10 self.now.s.now self.now.at) }
    {
        self.matches.listed && self.matches.is_inside_known()
    }
}
