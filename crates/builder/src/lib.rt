// From rules to the lines of the one table, in one lent work buffer of 16,290 words of 64 bits:
//     0      the site networks, 64 words: a range is one word, low * 2^32 + high
//    64      room for five rules of the builder's own, which drop what is no flow
//   169      the caller's rules, at most 66, 21 words each (specs/Encoding.antt says what each word is)
//  1555      the cells of the six dimensions, three words each
//  7071      the lines of the table, three words each
// Caller: write networks and rules, call `build`, read the lines by `table::range`, clear the buffer.
#![tactic(auto)]

ghost use Rattle.std.specs.Prelude.{◌≤◌};
ghost use Rattle.flows.specs.Table.{table_of};
ghost use Rattle.flows.specs.Flow.{widths};
ghost use Rattle.flows.specs.Rules.{let_through};
ghost use Rattle.builder.specs.Encoding.{rules_of};
ghost use Rattle.builder.specs.Promise.{BuiltIn};

mod cells;
mod drops;
mod encoding;
mod lines;
mod live;
mod sections;
pub mod table;

use live::Live;

// A work buffer, and where its parts stand: the rules behind as many networks, with the builder's own in front.
pub type Work = [u64; 16290];

// A range is one word, low * BASE + high.
const BASE: u64 = 4294967296;

const RULES: usize = 64;

const CELLS: usize = 1555;

const LINES: usize = 7071;

// A rule is so many words, and one mask has so many rules. Two masks have the rules of a table.
const RULE_LEN: usize = 21;

const FIRST: usize = 64;

const OTHERS: usize = RULES + FIRST * RULE_LEN;

// Builds the lines of the table of the flows that n rules let through, and returns their number; `None` for more than 512. There are at most 66
// rules, for 64 entries and two defaults.
pub fn build(work: &mut Work, n: usize) -> Option<usize>
    requires { n ≤ 66 }
    ensures { BuiltIn (table_of widths (let_through (rules_of n work.old))) work.new result }
{
    drops::put_flow_rules(work);
    let m = n + 5;
    cells::all_cells(work, m);
    let k = cells::others(m);
    let accepting = Live {
        first: cells::accept_mask(work, RULES, m - k),
        others: cells::accept_mask(work, OTHERS, k),
    };
    sections::section(work, m, LINES / 3, 6, Live::ALL, accepting)
}
