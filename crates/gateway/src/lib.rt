// The two public calls: `build`, from a MUD file and a site table to a reply, and `verdict`, from a stored reply and a flow to an answer.
// Neither asks anything of its caller; specs/Promise.antt has what they promise, for every input.
#![tactic(auto, using(crate::proofs::Stages::ending))]

ghost use Rattle.std.specs.Prelude.{◌≡◌, length};
ghost use Rattle.gateway.specs.Answer.{reason_number, file_reason, site_reason};
ghost use Rattle.gateway.specs.Promise.{BuildPromise, VerdictPromise};

use stored::answer::{Refusal, Verdict};

mod judging;

// Why a build is refused: document 01's numbers 1 to 12, in their order.
#[derive(Clone, Copy, Debug, PartialEq, Eq)]
pub enum Reason {
    Buffers,
    SiteTooLong,
    SiteMalformed,
    FileTooLong,
    NotJson,
    NamesOrSurrogates,
    Header,
    Lists,
    UnknownMember,
    BadEntry,
    TooManyEntries,
    TooManyLines,
}

// Document 01's number for each reason.
impl From<Reason> for u8 {
    ghost from_gives = { λ why n. n ≡ reason_number why };

    fn from(why: Reason) -> u8 {
        match why {
            Reason::Buffers => 1,
            Reason::SiteTooLong => 2,
            Reason::SiteMalformed => 3,
            Reason::FileTooLong => 4,
            Reason::NotJson => 5,
            Reason::NamesOrSurrogates => 6,
            Reason::Header => 7,
            Reason::Lists => 8,
            Reason::UnknownMember => 9,
            Reason::BadEntry => 10,
            Reason::TooManyEntries => 11,
            Reason::TooManyLines => 12,
        }
    }
}

impl From<site::table::Fault> for Reason {
    ghost from_gives = { λ fault why. why ≡ site_reason fault };

    fn from(fault: site::table::Fault) -> Reason {
        match fault {
            site::table::Fault::TooLong => Reason::SiteTooLong,
            site::table::Fault::MalformedAt(_) => Reason::SiteMalformed,
        }
    }
}

impl From<values::Fault> for Reason {
    ghost from_gives = { λ fault why. why ≡ file_reason fault };

    fn from(fault: values::Fault) -> Reason {
        match fault {
            values::Fault::Broken(_) => Reason::NotJson,
            values::Fault::Unclean => Reason::NamesOrSurrogates,
        }
    }
}

// The number of lines, or why there are none. The reply and the work buffer have one size each, 36,864 bytes and 16,290 words, and any other
// is refused. `work` is zeros at return.
pub fn build(file: &[u8], site: &[u8], reply: &mut [u8], work: &mut [u64]) -> Result<usize, Reason>
    ensures { BuildPromise file.now site.now (length reply.old) (length work.old) result reply.new work.new }
{
    let answer = judging::judge(file, site, work, reply);
    work.fill(0);
    if answer.is_err() {
        reply.fill(0);
    }
    answer
}

pub fn verdict(table: &[u8], asked: flows::Numbers) -> Result<Verdict, Refusal>
    ensures { VerdictPromise table.now asked result }
{
    stored::verdict::verdict(table, asked)
}
