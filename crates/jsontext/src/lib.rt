// A reader of JSON texts (RFC 8259) in UTF-8 (RFC 3629). It keeps no tree and copies nothing: every function takes the whole
// text and a place in it, and answers with a place.
#![tactic(auto)]

pub mod scan; // bytes that pass a test
pub mod space; // white space, and the bytes that structure a text
pub mod strings; // strings, with the UTF-8 in them
pub mod numbers;
pub mod reader; // values, and the whole text

// The byte that a reader refuses. What is taken is answered by the place after it.
#[derive(Clone, Copy, Debug, PartialEq, Eq)]
pub struct Bad {
    pub at: usize,
}

// What follows an item of an array or an object: the end of it, or a further item. A type of its own: `Done` and `More` are the
// words of the promises (`next_at`), and `ControlFlow` is what `?` goes by.
#[derive(Clone, Copy, Debug, PartialEq, Eq)]
pub enum Next {
    Done(usize),
    More(usize),
}

// What a byte can begin. A type, where `value` alone could match on the byte: the definitions `value_at` and `tree_at` (values) go by it.
#[derive(Clone, Copy, Debug, PartialEq, Eq)]
pub enum Start {
    Array,
    Object,
    Text,
    True,
    False,
    Null,
    Number,
    Nothing,
}
