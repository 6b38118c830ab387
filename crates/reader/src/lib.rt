// "a reading position over the lent file, never a copy of it": the file and a place in it, held together. Each function takes
// the two apart for one call of a function on a slice and a number. Callers that have the file as a slice use `in_file`.
#![tactic(auto)]

ghost use Rattle.std.specs.Prelude.{◌≡◌, ◌-◌};
ghost use Rattle.jsontext.specs.Reading.{is_space, span_at};
ghost use Rattle.values.specs.Tree.{tree_at, tree_of, lookup, seen};

use jsontext::space::skip;

// The file, and where one stands in it.
#[derive(Clone, Copy)]
pub struct Reader<'a> {
    pub file: &'a [u8],
    pub at: usize,
}

// At the file's outermost value: every walk over a file begins there, after the white space in front.
pub fn start<'a>(file: &'a [u8]) -> Reader<'a>
    ensures { (result.file ≡ file.entry) × (result.at ≡ span_at is_space file.now 0) }
{
    Reader {
        file,
        at: skip(file, 0),
    }
}

// Where the value of the member named `name` of the object here stands. It is a place, not a reader: what follows goes on by slice
// and place.
pub fn member<'a, 'b>(r: Reader<'a>, depth: usize, name: &'b [u8]) -> Option<usize>
    ensures { lookup name.now (tree_at depth r.entry.file.now r.entry.at) ≡ seen (tree_at (depth - 1) r.entry.file.now) result }
{
    values::walk::member(r.file, r.at, depth, name)
}

// Where the value of a member of the outermost object stands, so that a caller needs neither the place nor the depth at which a
// file begins. Document 01 has 16 for the depth.
pub fn in_file<'a, 'b>(file: &'a [u8], name: &'b [u8]) -> Option<usize>
    ensures { lookup name.now (tree_of 16 file.now) ≡ seen (tree_at 15 file.now) result }
{
    member(start(file), 16, name)
}
