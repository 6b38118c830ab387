// Members of an object that have one of some names, found in one walk.
#![tactic(auto, using(crate::proofs::MemberLaws::noting), unfolding(crate::specs::Members::all_noted, header::specs::Asked::is_among))]

ghost use Rattle.std.specs.Prelude.{◌≡◌, ◌&&◌, true, None, length, map, replicate};
ghost use Rattle.text.specs.Words.{same_bytes};
ghost use Rattle.values.specs.Decode.{bytes_at};
ghost use Rattle.values.specs.Tree.{members_from};
ghost use Rattle.header.specs.Asked.{is_among};
ghost use Rattle.entries.specs.Members.{Begins, all_noted, MembersFrom, MembersOf};

use jsontext::Next;
use jsontext::reader::key;
use text::bytes::byte_at;
use values::strings::string_is;
use values::walk::{first_field, inner, member_after, name_place, value_place};

// Where the values of the members stand, a place for each name, and whether all members have one of the names.
#[derive(Clone, Copy)]
pub struct Members<const N: usize> {
    pub places: [Option<usize>; N],
    pub listed: bool,
}

// The first byte of a string, if it stands for itself.
fn head(s: &[u8], at: usize) -> Option<u8>
    ensures { Begins s.now at result }
{
    let b = byte_at(s, at);
    if b < 0x20 || b == b'"' || b == b'\\' {
        None
    } else {
        Some(b)
    }
}

// Most names differ in their first byte: the rest is compared where that is the same, or not known.
fn is_named(s: &[u8], at: usize, head: Option<u8>, w: &[u8]) -> bool
    requires { Begins s.now at head }
    ensures { result ≡ same_bytes (bytes_at s.now at) w.now }
{
    head.is_none_or(|b| b == byte_at(w, 0)) && string_is(s, at, w)
}

// What is known after the member whose name begins at i, and whose value stands at p: the first member of a name counts.
// The names are a slice: an array of slices whose length is a parameter has no proof yet. The places go by an index: tried,
// and of what is written under `iter_mut().zip(names)` nothing is known.
fn note_all<const N: usize>(
    s: &[u8],
    i: usize,
    names: &[&[u8]],
    m: Members<N>,
    p: usize,
) -> Members<N>
    requires { length names.now ≡ N }
    ensures places { result.places ≡ all_noted (bytes_at s.now i) p (map (λ w. w.now) names.now) m.entry.places }
    ensures listed { result.listed ≡ (m.entry.listed && is_among (bytes_at s.now i) (map (λ w. w.now) names.now)) }
{
    let h = head(s, i);
    let mut places = m.places;
    let mut listed = false;
    for (k, name) in names.iter().enumerate() {
        if is_named(s, i, h, name) {
            places[k] = places[k].or(Some(p));
            listed = true;
        }
    }
    Members {
        places,
        listed: m.listed && listed,
    }
}

// Among the members from the one that begins at a place on.
fn members_behind<const N: usize>(s: &[u8], at: usize, depth: usize, names: &[&[u8]]) -> Members<N>
    requires { length names.now ≡ N }
    ensures { MembersFrom depth s.now (map (λ w. w.now) names.now) (members_from depth s.now at) result.places result.listed }
{
    let mut m = Members {
        places: [None; N],
        listed: true,
    };
    let mut j = at;
    loop {
        let k = key(s, j);
        m = note_all(s, name_place(s, j), names, m, value_place(s, j, k));
        let Ok(Next::More(i)) = member_after(s, j, k, depth) else {
            return m;
        };
        j = i;
    }
}

// Of the object that was found. Where there are not as many names as places, none is looked for.
pub fn members_of<const N: usize>(
    s: &[u8],
    found: Option<usize>,
    depth: usize,
    names: &[&[u8]],
) -> Members<N>
    ensures each { length names.now ≡ N → MembersOf depth s.now (map (λ w. w.now) names.now) found result.places result.listed }
    ensures none { (length names.now ≡ N → ⊥) → (result.places ≡ replicate N None) × (result.listed ≡ true) }
{
    if names.len() == N
        && let Some(p) = found
        && let Some(j) = first_field(s, p, depth)
    {
        return members_behind(s, j, inner(depth), names);
    }
    Members {
        places: [None; N],
        listed: true,
    }
}
