// Which lines of the site are wanted.
#![tactic(auto, using(crate::proofs::Comparing::wanting), unfolding(site::specs::Url::ends_authority, crate::specs::Masks::names_at))]

ghost use Rattle.std.specs.Prelude.{◌≡◌, ◌≤◌, length, drop, IfSome};
ghost use Rattle.text.specs.Words.{same_bytes};
ghost use Rattle.values.specs.Decode.{bytes_at, before};
ghost use Rattle.site.specs.Url.{ends_authority, authority_of};
ghost use Rattle.naming.specs.Named.{kind_number};
ghost use Rattle.naming.specs.Masks.{wanted_at};
ghost use Rattle.naming.specs.Wanted.{kind_of, test_of};

use crate::networks::Place;
use site::lines::Kind;
use values::Piece;
use values::decode::{first, piece, rest};
use values::strings::string_is;

// By a string of the file (the place of its first character): a host, a class, a thing by its model or by its maker. By the file's
// URL: its own controllers, and things of the same maker. By nothing: local networks. By a text that is the name itself: a class.
// It is an enum, not a closure: the promises of `mask` and `is_wanted` name which lines these are, by `kind_of` and `test_of`.
#[derive(Clone, Copy, Debug, PartialEq, Eq)]
pub enum Wanted {
    Host(usize),
    Class(usize),
    Named,
    Mine(usize),
    Local,
    Model(usize),
    Maker(usize),
    Kin(usize),
}

// Public, and named by docs/PROMISES.md: it stays, though no function here calls it.
pub fn kind_number(kind: Kind) -> u64
    ensures value { result ≡ kind_number kind }
    ensures upper_bound { result ≤ 5 }
{
    match kind {
        Kind::Host => 1,
        Kind::Class => 2,
        Kind::Mine => 3,
        Kind::Local => 4,
        Kind::Thing => 5,
    }
}

fn kind_of(wanted: Wanted) -> Kind
    ensures { result ≡ kind_of wanted }
{
    match wanted {
        Wanted::Host(_) => Kind::Host,
        Wanted::Class(_) | Wanted::Named => Kind::Class,
        Wanted::Mine(_) => Kind::Mine,
        Wanted::Local => Kind::Local,
        Wanted::Model(_) | Wanted::Maker(_) | Wanted::Kin(_) => Kind::Thing,
    }
}

fn authority(url: &[u8]) -> &[u8]
    ensures { result.now ≡ authority_of url.now }
{
    url.get(8..8 + site::url::authority_length(url))
        .unwrap_or(&[])
}

// Of a decoded character, which may be past 255. Site's function of this name is for a byte and private: shared, it would be no plainer.
fn ends_authority(a: u32) -> bool
    ensures { result ≡ ends_authority a }
{
    matches!(a, 0x2f | 0x3f | 0x23)
}

// What is left of a URL after its first eight bytes.
fn past_scheme(file: &[u8], url: usize) -> Piece
    ensures { before result (bytes_at file.now) ≡ drop 8 (bytes_at file.now url) }
{
    let mut p = piece(file, url);
    for _ in 0..8usize {
        p = rest(file, p);
    }
    p
}

// Whether a URL of the file has this authority. It is compared while it is decoded.
fn has_authority(file: &[u8], url: usize, w: &[u8]) -> bool
    ensures { result ≡ same_bytes (authority_of (bytes_at file.now url)) w.now }
{
    let mut p = past_scheme(file, url);
    for b in w {
        let Some(a) = first(p) else {
            return false;
        };
        if ends_authority(a) || a != u32::from(*b) {
            return false;
        }
        p = rest(file, p);
    }
    first(p).is_none_or(ends_authority)
}

fn passes(text: &[u8], wanted: Wanted, name: &[u8]) -> bool
    ensures { result ≡ test_of text.now wanted name.now }
{
    match wanted {
        Wanted::Host(at) | Wanted::Class(at) | Wanted::Model(at) => string_is(text, at, name),
        Wanted::Named => text::words::same(name, text),
        Wanted::Mine(url) => string_is(text, url, name),
        Wanted::Local => true,
        Wanted::Maker(at) => string_is(text, at, authority(name)),
        Wanted::Kin(url) => has_authority(text, url, authority(name)),
    }
}

// Whether the line whose name stands at a place is wanted: none is, where there is no line. Kinds are compared before names.
pub fn is_wanted(text: &[u8], wanted: Wanted, site: &[u8], place: Option<Place>) -> bool
    requires { IfSome place (λ p. (p.name ≤ p.end) × (p.end ≤ length site.now)) }
    ensures { result ≡ wanted_at (kind_of wanted) (test_of text.now wanted) site.now place }
{
    match place {
        Some(p) => {
            p.kind == kind_of(wanted)
                && passes(text, wanted, &site[usize::from(p.name)..usize::from(p.end)])
        }
        None => false,
    }
}
