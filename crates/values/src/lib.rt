// What a JSON text stands for, read from the text itself by place: no tree is built and nothing is copied. The contracts
// speak of the tree (specs/Tree.antt) and hold for every text; of what is not JSON the tree says nothing of use. The text and a place
// in it are no struct: each answer would have to say that its text is still the same (the crate `reader` has that struct).
#![tactic(auto)]

ghost use Rattle.std.specs.Prelude.{◌≡◌};
ghost use Rattle.values.specs.declared.Fault.TheVariants.{Broken};

use jsontext::Bad;

pub mod decode; // the bytes that a string stands for, one by one
pub mod strings; // where a string stands, and comparing strings while they are decoded
pub mod walk; // members and elements
pub mod plain; // kinds of values, and integers
pub mod names; // names in rising order
pub mod clean; // number 6: names twice, and surrogates without partner

// What is left of a string: the bytes of a character, and the place after it. A byte is below 256; a surrogate without its partner
// is its own number, which no byte is.
#[derive(Clone, Copy, Debug, PartialEq, Eq)]
pub enum Piece {
    Stop,
    One(u32, usize),
    Two(u32, u32, usize),
    Three(u32, u32, u32, usize),
    Four(u32, u32, u32, u32, usize),
}

// A name among others: known before, kept now, or left out for want of room.
#[derive(Clone, Copy, Debug, PartialEq, Eq)]
pub enum Entry {
    Known,
    Kept,
    Full,
}

// Why a text is refused: it is no JSON from this place on, number 5; or it has a name twice or a surrogate escape without its
// partner, number 6.
#[derive(Clone, Copy, Debug, PartialEq, Eq)]
pub enum Fault {
    Broken(usize),
    Unclean,
}

impl From<Bad> for Fault {
    ghost from_gives = { λ b f. f ≡ Broken b.at };

    fn from(b: Bad) -> Fault {
        Fault::Broken(b.at)
    }
}
