// Members and elements. A walk stands at the place where a member or an element begins, white space before it included; the
// first begins after the opening bracket.
#![tactic(auto, using(crate::proofs::Walking::walking, crate::proofs::Walking::beginning), unfolding(crate::specs::Names::first_in, crate::specs::Tree::place_at, jsontext::specs::Reading::skip_at, jsontext::specs::Reading::element_at, jsontext::specs::Reading::member_at))]

ghost use Rattle.std.specs.Prelude.{◌≡◌, ◌-◌, ◌<◌};
ghost use Rattle.text.specs.Words.{same_bytes};
ghost use Rattle.jsontext.specs.Reading.{key_at, member_at, element_at, value_at};
ghost use Rattle.values.specs.Decode.{bytes_at};
ghost use Rattle.values.specs.Tree.{name_at, place_at, tree_at, items, fields, items_from, fields_from, members_from, find, lookup, seen};
ghost use Rattle.values.specs.Names.{first_in};

use super::strings::string_is;
use jsontext::reader::{key, value};
use jsontext::space::{follow, skip, token};
use jsontext::{Bad, Next};
use text::bytes::byte_at;

// The member after the one that begins at a place, whose key is read.
pub fn member_after(s: &[u8], at: usize, key: Result<usize, Bad>, depth: usize) -> Result<Next, Bad>
    requires { key ≡ key_at s.now at }
    ensures { result ≡ member_at (value_at depth s.now) s.now at }
{
    let e = value(s, skip(s, key?), depth)?;
    follow(s, e, b'}')
}

// The next member of an object, after the one that begins at a place.
pub fn next_member(s: &[u8], at: usize, depth: usize) -> Result<Next, Bad>
    ensures { result ≡ member_at (value_at depth s.now) s.now at }
{
    member_after(s, at, key(s, at), depth)
}

// The next element of an array, after the one that begins at a place.
pub fn next_element(s: &[u8], at: usize, depth: usize) -> Result<Next, Bad>
    ensures { result ≡ element_at (value_at depth s.now) s.now at }
{
    let e = value(s, skip(s, at), depth)?;
    follow(s, e, b']')
}

// Where the value of the member that begins at a place stands, after its key.
pub fn value_place(s: &[u8], at: usize, key: Result<usize, Bad>) -> usize
    requires { key ≡ key_at s.now at }
    ensures { result ≡ place_at s.now at }
{
    skip(s, key.unwrap_or_else(|b| b.at))
}

// Where the value of a member stands.
pub fn member_place(s: &[u8], at: usize) -> usize
    ensures { result ≡ place_at s.now at }
{
    value_place(s, at, key(s, at))
}

// Where the first character of a member's name stands; past the end, where nothing stands, if the text ends before it. A place and
// no Option: its promise is of the bytes that stand there, as that of `string_place`.
pub fn name_place(s: &[u8], at: usize) -> usize
    ensures { name_at s.now at ≡ bytes_at s.now result }
{
    let i = skip(s, at);
    if i < s.len() { i + 1 } else { i }
}

// Has the member that begins at a place the name `w`?
pub fn named(s: &[u8], at: usize, w: &[u8]) -> bool
    ensures { result ≡ same_bytes (name_at s.now at) w.now }
{
    string_is(s, name_place(s, at), w)
}

// The depth inside an array or an object.
pub fn inner(depth: usize) -> usize
    ensures { result ≡ depth - 1 }
{
    depth.saturating_sub(1)
}

// Where the first item begins of what stands at a place between the brackets `front` and `back`, if it has one.
fn first_in(s: &[u8], at: usize, depth: usize, front: u8, back: u8) -> Option<usize>
    requires { 0 < front }
    ensures { result ≡ first_in front back depth s.now at }
{
    if depth == 0 || byte_at(s, at) != front || token(s, at + 1, back).is_ok() {
        return None;
    }
    Some(at + 1)
}

// Where the first element of the array at a place begins, if it has one.
pub fn first_item(s: &[u8], at: usize, depth: usize) -> Option<usize>
    ensures { items (tree_at depth s.now at) ≡ items_from (depth - 1) s.now result }
{
    first_in(s, at, depth, b'[', b']')
}

// Where the first member of the object at a place begins, if it has one.
pub fn first_field(s: &[u8], at: usize, depth: usize) -> Option<usize>
    ensures { fields (tree_at depth s.now at) ≡ fields_from (depth - 1) s.now result }
{
    first_in(s, at, depth, b'{', b'}')
}

// Where the value of the member named `w` stands, among those from the one at a place on.
pub fn seek(s: &[u8], at: usize, depth: usize, w: &[u8]) -> Option<usize>
    ensures { find w.now (members_from depth s.now at) ≡ seen (tree_at depth s.now) result }
{
    let mut j = at;
    loop {
        if named(s, j, w) {
            return Some(member_place(s, j));
        }
        let Ok(Next::More(k)) = next_member(s, j, depth) else {
            return None;
        };
        j = k;
    }
}

// Where the value of the member named `w` of the object at a place stands.
pub fn member(s: &[u8], at: usize, depth: usize, w: &[u8]) -> Option<usize>
    ensures { lookup w.now (tree_at depth s.now at) ≡ seen (tree_at (depth - 1) s.now) result }
{
    let j = first_field(s, at, depth)?;
    seek(s, j, inner(depth), w)
}
