// What a stored table answers on a flow; specs/Stored.antt has the numbers of the refusals.
ghost use Rattle.std.specs.Prelude.{◌≡◌};
ghost use Rattle.stored.specs.Stored.{refusal_number};

#[derive(Clone, Copy, Debug, PartialEq, Eq)]
pub enum Verdict {
    Accept,
    Drop,
}

// Why there is no verdict: the bytes are no table, or the numbers are no flow.
#[derive(Clone, Copy, Debug, PartialEq, Eq)]
pub enum Refusal {
    NotTable,
    NotFlow,
}

// Document 01's number for each.
impl From<Refusal> for u8 {
    ghost from_gives = { λ why n. n ≡ refusal_number why };

    fn from(why: Refusal) -> u8 {
        match why {
            Refusal::NotTable => 13,
            Refusal::NotFlow => 14,
        }
    }
}
