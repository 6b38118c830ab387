// The site's lines, as words and places.
#![tactic(auto, using(crate::proofs::Masking::masking))]

ghost use Rattle.std.specs.Prelude.{ℕ, List, Ok, ◌≡◌, ◌++◌, ◌≤◌, ◌+◌, ◌*◌, length, drop};
ghost use Rattle.site.specs.Site.{judged};
ghost use Rattle.naming.specs.Masks.{place_of, network_words, PlacesOf};

use site::lines::{Kind, SiteLine, line_at};
use std::marker::Model;

// Where the name of a line stands in the site table, and of which kind it is.
#[derive(Clone, Copy, Debug, PartialEq, Eq)]
pub struct Place {
    pub kind: Kind,
    pub name: u16,
    pub end: u16,
}

// A sound site table, with the places of its names beside it, as `load` leaves them. In contracts it is its bytes.
#[derive(Drop)]
pub struct Site<'a> {
    pub text: &'a [u8],
    pub places: &'a [Option<Place>; 64],
}

impl<'a> Model for Site<'a> {
    ghost Value = { List ℕ };

    ghost view = { λ s. s.text.now };

    ghost invariant = { λ s. PlacesOf s.text.now s.places.now };
}

// A range as one word; `rules` writes its own ranges so.
pub fn word(low: u32, high: u32) -> u64
    ensures { result ≡ low * 4294967296 + high }
{
    u64::from(low) * 4294967296 + u64::from(high)
}

fn place_of(l: SiteLine) -> Place
    requires { (l.name ≤ 8192) × (l.end ≤ 8192) }
    ensures { result ≡ place_of l }
{
    Place {
        kind: l.kind,
        name: l.name as u16,
        end: l.end as u16,
    }
}

// The networks, and where the names stand, so that a name is found without reading the lines again.
pub fn load(site: &[u8], work: &mut [u64], places: &mut [Option<Place>; 64])
    requires { (judged site.now ≡ Ok tt) × (64 ≤ length work.old) }
    ensures work_after { work.new ≡ network_words site.now ++ drop 64 work.old }
    ensures places_of { PlacesOf site.now places.new }
{
    let mut at = 0;
    for i in 0..64 {
        match line_at(site, at) {
            Some(l) => {
                work[i] = word(l.low, l.high);
                places[i] = Some(place_of(l));
                at = l.after;
            }
            None => {
                work[i] = 0;
                places[i] = None;
            }
        }
    }
}
