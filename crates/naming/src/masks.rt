// Names as masks over the site's networks: bit j is for line j.
#![tactic(auto, using(crate::proofs::Masking::masking))]

ghost use Rattle.std.specs.Prelude.{◌≡◌, cond, ◌<◌, ◌^◌};
ghost use Rattle.site.specs.Url.{same_name};
ghost use Rattle.site.specs.declared.lines.Kind.TheVariants.{Class};
ghost use Rattle.naming.specs.Named.{names};
ghost use Rattle.naming.specs.Masks.{named_mask};
ghost use Rattle.naming.specs.Wanted.{kind_of, test_of};

use crate::networks::Site;
use crate::wanted::{Wanted, is_wanted};

fn bit(on: bool, j: u32) -> u64
    requires { j < 64 }
    ensures { result ≡ cond on (2 ^ j) 0 }
{
    if on { 1u64 << j } else { 0 }
}

// The lines that are wanted. (A loop of its own: builder's `mask` asks a number of items and tells of each by its number.)
pub fn mask(text: &[u8], wanted: Wanted, site: &Site) -> u64
    ensures { result ≡ named_mask (names (kind_of wanted) (test_of text.now wanted) site.now) site.now }
{
    let mut m: u64 = 0;
    for (j, place) in site.places.iter().enumerate() {
        let Some(p) = place else {
            break;
        };
        m += bit(is_wanted(text, wanted, site.text, Some(*p)), j as u32);
    }
    m
}

// The class of a fixed name.
pub fn class_named(name: &[u8], site: &Site) -> u64
    ensures { result ≡ named_mask (names Class (λ n. same_name n name.now) site.now) site.now }
{
    mask(name, Wanted::Named, site)
}
