// What a member's value may be asked to be.
#![tactic(auto, using(crate::proofs::Laws::asking))]

ghost use Rattle.std.specs.Prelude.{◌≡◌};
ghost use Rattle.values.specs.Decode.{bytes_at};
ghost use Rattle.values.specs.Tree.{tree_at, lookup, seen};
ghost use Rattle.values.specs.Rules.{must, may, text};
ghost use Rattle.header.specs.Asked.{is_null_array, is_network, spelt, obeys};

use super::strings;
use jsontext::Next;
use jsontext::space::skip;
use text::bytes::byte_at;
use values::plain;
use values::walk::{first_item, inner, member, next_element};

// The form of a string.
#[derive(Clone, Copy, Debug, PartialEq, Eq)]
pub enum Form {
    Url,
    Network,
    Forwarding,
    Operator,
    Initiator,
}

// A value and not a closure: the rules of specs/ name what is asked for, and callers prove by that name.
// `Nothing`, of a member that may not stand there, is named by the definition `absent` (entries); its callers write `is_none`.
#[derive(Clone, Copy, Debug, PartialEq, Eq)]
pub enum Asked {
    Text,
    Boolean,
    Nulls,
    Integer(u64, u64),
    Spelt(Form),
    Nothing,
}

fn is_network(s: &[u8], at: usize) -> bool
    ensures { result ≡ is_network (bytes_at s.now at) }
{
    strings::network(s, at).is_some()
}

// Whether the string whose first character stands at a place has a form.
fn is_spelt(s: &[u8], at: usize, form: Form) -> bool
    ensures { result ≡ spelt form (bytes_at s.now at) }
{
    match form {
        Form::Url => strings::is_url(s, at),
        Form::Network => is_network(s, at),
        Form::Forwarding => strings::is_forwarding(s, at),
        Form::Operator => strings::is_operator(s, at),
        Form::Initiator => strings::is_initiator(s, at),
    }
}

fn is_text(s: &[u8], at: usize, depth: usize, form: Form) -> bool
    ensures { result ≡ text (spelt form) (tree_at depth s.now at) }
{
    byte_at(s, at) == b'"' && is_spelt(s, at + 1, form)
}

fn is_null_array(s: &[u8], at: usize, depth: usize) -> bool
    ensures { result ≡ is_null_array (tree_at depth s.now at) }
{
    let d = inner(depth);
    first_item(s, at, depth).is_some_and(|j| plain::is_null(s, skip(s, j), d)
        && !matches!(next_element(s, j, d), Ok(Next::More(_))))
}

// Whether the value at a place is what is asked for.
pub fn obeys(s: &[u8], at: usize, depth: usize, asked: Asked) -> bool
    ensures { result ≡ obeys asked (tree_at depth s.now at) }
{
    match asked {
        Asked::Text => plain::is_string(s, at, depth),
        Asked::Boolean => plain::is_bool(s, at, depth),
        Asked::Nulls => is_null_array(s, at, depth),
        Asked::Integer(low, high) => plain::in_range(plain::integer(s, at, depth), low, high),
        Asked::Spelt(form) => is_text(s, at, depth, form),
        Asked::Nothing => false,
    }
}

// Whether something was found that is what is asked for.
// Two of each: the rules say `must` and `may`, and each promise is by its word.
pub fn must_obey(s: &[u8], found: Option<usize>, depth: usize, asked: Asked) -> bool
    ensures { result ≡ must (seen (tree_at depth s.now) found) (obeys asked) }
{
    found.is_some_and(|p| obeys(s, p, depth, asked))
}

// The same where nothing may have been found.
pub fn may_obey(s: &[u8], found: Option<usize>, depth: usize, asked: Asked) -> bool
    ensures { result ≡ may (seen (tree_at depth s.now) found) (obeys asked) }
{
    found.is_none_or(|p| obeys(s, p, depth, asked))
}

// Whether the object at a place has a member of that name, which is what is asked for.
pub fn must_be(s: &[u8], at: usize, depth: usize, name: &[u8], asked: Asked) -> bool
    ensures { result ≡ must (lookup name.now (tree_at depth s.now at)) (obeys asked) }
{
    must_obey(s, member(s, at, depth, name), inner(depth), asked)
}

// The same where the member may be missing.
pub fn may_be(s: &[u8], at: usize, depth: usize, name: &[u8], asked: Asked) -> bool
    ensures { result ≡ may (lookup name.now (tree_at depth s.now at)) (obeys asked) }
{
    may_obey(s, member(s, at, depth, name), inner(depth), asked)
}
