// Number 7: the outermost value and the header's members.
#![tactic(auto, using(crate::proofs::Laws::header_is), unfolding(crate::specs::Header::outermost_ok, values::specs::Tree::tree_of))]

ghost use Rattle.std.specs.Prelude.{◌≡◌, ◌&&◌};
ghost use Rattle.text.specs.Ascii.{ascii};
ghost use Rattle.values.specs.Tree.{tree_at, tree_of, lookup};
ghost use Rattle.values.specs.Rules.{must, may};
ghost use Rattle.header.specs.Asked.{obeys};
ghost use Rattle.header.specs.declared.asked.Asked.TheVariants.{Text, Boolean, Integer, Spelt};
ghost use Rattle.header.specs.declared.asked.Form.TheVariants.{Url};
ghost use Rattle.header.specs.Header.{header_ok, outermost_ok};

use super::asked::{Asked, Form, may_be, must_be};
use jsontext::space::skip;
use values::walk::member;

// Of which version the file is, and where it is from.
fn has_origin(s: &[u8], at: usize) -> bool
    ensures { result
        ≡ (must (lookup (ascii "mud-version") (tree_at 15 s.now at)) (obeys (Integer 1 1))
        && must (lookup (ascii "mud-url") (tree_at 15 s.now at)) (obeys (Spelt Url))) }
{
    must_be(s, at, 15, b"mud-version", Asked::Integer(1, 1))
        && must_be(s, at, 15, b"mud-url", Asked::Spelt(Form::Url))
}

// Since when it is so, and whether it is kept up.
fn has_state(s: &[u8], at: usize) -> bool
    ensures { result
        ≡ (must (lookup (ascii "last-update") (tree_at 15 s.now at)) (obeys Text)
        && must (lookup (ascii "is-supported") (tree_at 15 s.now at)) (obeys Boolean)) }
{
    must_be(s, at, 15, b"last-update", Asked::Text)
        && must_be(s, at, 15, b"is-supported", Asked::Boolean)
}

// The value at a place, under the outermost object, is a header.
pub fn is_header(s: &[u8], at: usize) -> bool
    ensures { result ≡ header_ok (tree_at 15 s.now at) }
{
    has_origin(s, at)
        && has_state(s, at)
        && may_be(s, at, 15, b"cache-validity", Asked::Integer(1, 168))
}

pub fn is_mud_file(s: &[u8]) -> bool
    ensures { result ≡ outermost_ok (tree_of 16 s.now) }
{
    member(s, skip(s, 0), 16, b"ietf-mud:mud").is_some_and(|at| is_header(s, at))
}
