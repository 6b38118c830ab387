// The rules after all entries: DNS and NTP.
#![tactic(auto, using(crate::proofs::RowLaws::rowing))]

ghost use Rattle.std.specs.Prelude.{◌≡◌, ◌≤◌};
ghost use Rattle.text.specs.Written.{Put};
ghost use Rattle.rules.specs.Defaults.{default_row, default_words};

use crate::names::put_words;
use crate::parts::Between;
use crate::ports::Ports;
use crate::rows::{PortSides, Row, put_row};
use naming::masks::class_named;
use naming::networks::Site;

// Every flow of UDP with that remote port.
fn default_row(port: u16) -> Row
    ensures { result ≡ default_row port }
{
    Row {
        accepts: true,
        direction: Between::DIRECTIONS,
        protocols: Between::only(17),
        openers: Between::OPENERS,
        networks: Between::ADDRESSES,
        ports: PortSides {
            remote: Ports::only(port),
            device: Ports::ALL,
        },
    }
}

// "accept protocol 17 with remote port .. for class .."
pub fn put_default(site: &Site, work: &mut [u64], at: usize, class: &[u8], port: u16) -> usize
    requires { at ≤ 1800 }
    ensures { Put work.old at (default_words site.now class.now port) result work.new }
{
    let p = put_row(work, at, default_row(port));
    put_words(work, p, &[1, class_named(class, site)])
}
