// Numbers 5 and 6: a text that is no JSON; an object with two members of one name, or a surrogate escape without its partner.
#![tactic(auto, using(crate::proofs::Cleaning::naming, crate::proofs::Cleaning::joining, crate::proofs::Cleaning::cleaning, crate::proofs::Cleaning::judging))]

ghost use Rattle.std.specs.Prelude.{◌≡◌, ◌&&◌, ◌≤◌, length};
ghost use Rattle.jsontext.specs.Reading.{string_at, array_at, object_at, value_at, text_of};
ghost use Rattle.values.specs.Decode.{bytes_at};
ghost use Rattle.values.specs.Tree.{name_at, tree_at, tree_of, elements_in, members_in, members_after};
ghost use Rattle.values.specs.Clean.{all_bytes, absent, clean, clean_elements, clean_members, verdict_of};
ghost use Rattle.values.specs.Names.{Below, Joined, Rising, checked_of, fine_of};

use super::names::{enter, grown};
use super::strings::{all_bytes, same_string};
use super::walk::{name_place, next_member};
use super::{Entry, Fault};
use jsontext::reader::{key, value};
use jsontext::space::{follow, skip, token};
use jsontext::strings::string;
use jsontext::{Bad, Next};
use text::bytes::byte_at;

// Have the members after the one at a place other names?
fn is_absent(s: &[u8], at: usize, depth: usize) -> bool
    ensures { result ≡ absent (name_at s.now at) (members_after depth s.now at) }
{
    let i = name_place(s, at);
    let mut j = at;
    while let Ok(Next::More(k)) = next_member(s, j, depth) {
        if same_string(s, i, name_place(s, k)) {
            return false;
        }
        j = k;
    }
    true
}

// The name of the member at a place, and those after it.
fn clean_name(s: &[u8], at: usize, depth: usize) -> bool
    ensures { result ≡ all_bytes (name_at s.now at) && absent (name_at s.now at) (members_after depth s.now at) }
{
    all_bytes(s, name_place(s, at)) && is_absent(s, at, depth)
}

// The name of the member at a place, after it was entered among those before it.
fn fine(s: &[u8], at: usize, depth: usize, r: Entry) -> bool
    ensures { result ≡ fine_of (all_bytes (name_at s.now at)) (absent (name_at s.now at) (members_after depth s.now at)) r }
{
    match r {
        Entry::Known => false,
        Entry::Kept => all_bytes(s, name_place(s, at)),
        Entry::Full => clean_name(s, at, depth),
    }
}

// The rest of a string, after its quote: the place after it, and whether it is clean.
fn check_string(s: &[u8], at: usize) -> Result<(usize, bool), Bad>
    ensures { result ≡ checked_of (string_at s.now at) (all_bytes (bytes_at s.now at)) }
{
    let e = string(s, at)?;
    Ok((e, all_bytes(s, at)))
}

// The rest of an array, after its bracket. From `lo` on the lent places are free to use.
#[cycle(checking)]
fn check_array(
    s: &[u8],
    at: usize,
    depth: usize,
    area: &mut [u64],
    lo: usize,
) -> Result<(usize, bool), Bad>
    requires { lo ≤ length area.old }
    ensures value { result ≡ checked_of (array_at (value_at depth s.now) s.now at) (clean_elements (elements_in depth s.now at)) }
    ensures below { Below lo area.old area.new }
{
    if let Ok(e) = token(s, at, b']') {
        return Ok((e, true));
    }
    let mut j = at;
    let mut good = true;
    loop {
        let (e, c) = check_value(s, skip(s, j), depth, area, lo)?;
        good &= c;
        match follow(s, e, b']')? {
            Next::Done(k) => return Ok((k, good)),
            Next::More(k) => j = k,
        }
    }
}

// The member that begins at `at`, whose value stands after `v`: the place after it, up to where names stand now, and whether it
// is clean. The places of the names before it stand from `lo` to `hi`; above them those of the objects in its value come and go.
#[cycle(checking)]
fn check_member(
    s: &[u8],
    at: usize,
    v: usize,
    depth: usize,
    area: &mut [u64],
    lo: usize,
    hi: usize,
) -> Result<(usize, usize, bool), Bad>
    requires { (lo ≤ hi) × (hi ≤ length area.old) × Rising s.now area.old lo hi }
    ensures { Joined depth s.now at v area.old lo hi area.new result }
{
    let r = enter(s, name_place(s, at), at, area, lo, hi);
    let name = fine(s, at, depth, r);
    let top = grown(hi, r);
    let (e, c) = check_value(s, skip(s, v), depth, area, top)?;
    Ok((e, top, name & c))
}

// The rest of an object, after its bracket.
#[cycle(checking)]
fn check_object(
    s: &[u8],
    at: usize,
    depth: usize,
    area: &mut [u64],
    lo: usize,
) -> Result<(usize, bool), Bad>
    requires { lo ≤ length area.old }
    ensures value { result ≡ checked_of (object_at (value_at depth s.now) s.now at) (clean_members (members_in depth s.now at)) }
    ensures below { Below lo area.old area.new }
{
    if let Ok(e) = token(s, at, b'}') {
        return Ok((e, true));
    }
    let mut j = at;
    let mut hi = lo;
    let mut good = true;
    loop {
        let v = key(s, j)?;
        let (e, top, c) = check_member(s, j, v, depth, area, lo, hi)?;
        hi = top;
        good &= c;
        match follow(s, e, b'}')? {
            Next::Done(k) => return Ok((k, good)),
            Next::More(k) => j = k,
        }
    }
}

// A value, in which arrays and objects are nested at most `depth` deep.
#[cycle(checking)]
fn check_value(
    s: &[u8],
    at: usize,
    depth: usize,
    area: &mut [u64],
    lo: usize,
) -> Result<(usize, bool), Bad>
    requires { lo ≤ length area.old }
    ensures value { result ≡ checked_of (value_at depth s.now at) (clean (tree_at depth s.now at)) }
    ensures below { Below lo area.old area.new }
{
    match byte_at(s, at) {
        b'"' => check_string(s, at + 1),
        b'[' | b'{' if depth == 0 => Err(Bad { at }),
        b'[' => check_array(s, at + 1, depth - 1, area, lo),
        b'{' => check_object(s, at + 1, depth - 1, area, lo),
        _ => {
            let e = value(s, at, depth)?;
            Ok((e, true))
        }
    }
}

// Numbers 5 and 6 of a whole text, in one pass over it. What `area` held is lost; of any length the answer is the same, and
// with as many places as an object has members it comes quickly.
pub fn judge(s: &[u8], depth: usize, area: &mut [u64]) -> Result<(), Fault>
    ensures { result ≡ verdict_of (text_of depth s.now) (clean (tree_of depth s.now)) }
{
    let (e, c) = check_value(s, skip(s, 0), depth, area, 0)?;
    let k = skip(s, e);
    if k < s.len() {
        Err(Fault::Broken(k))
    } else if c {
        Ok(())
    } else {
        Err(Fault::Unclean)
    }
}
