// The numbers in their order, each judged when no lower one holds. Each function goes on to the next, and ends with the reply written or a
// refusal; `work` is scratch in between.
#![tactic(auto, using(crate::proofs::Stages::judging), unfolding(crate::specs::Answer::answer_of, crate::specs::Answer::by_file, crate::specs::Answer::by_rules, crate::specs::Answer::sized))]

ghost use Rattle.std.specs.Prelude.{◌≡◌, ◌≤◌, length, Ok};
ghost use Rattle.flows.specs.Table.{table_of};
ghost use Rattle.flows.specs.Flow.{widths};
ghost use Rattle.flows.specs.Rules.{let_through};
ghost use Rattle.builder.specs.Encoding.{rules_of};
ghost use Rattle.values.specs.Tree.{tree_of};
ghost use Rattle.lists.specs.Lists.{lists_of};
ghost use Rattle.lists.specs.Index.{Indexed};
ghost use Rattle.site.specs.Site.{judged};
ghost use Rattle.gateway.specs.Answer.{table_for, by_length, by_entries, by_rules, by_file, sized, answer_of};
ghost use Rattle.gateway.specs.Stages.{Answered};

use crate::Reason;
use builder::Work;

type Reply = [u8; 36864];

// 12, or taken: the table of n rules, written.
fn by_length(work: &mut Work, n: usize, reply: &mut Reply) -> Result<usize, Reason>
    requires { n ≤ 66 }
    ensures { Answered (by_length (table_of widths (let_through (rules_of n work.old)))) (table_of widths (let_through (rules_of n work.old))) result reply.new }
{
    let Some(lines) = builder::build(work, n) else {
        return Err(Reason::TooManyLines);
    };
    reply::write(work, lines, reply);
    Ok(lines)
}

// 9 to 12.
fn by_entries(
    file: &[u8],
    site: &[u8],
    work: &mut Work,
    index: Option<usize>,
    reply: &mut Reply,
) -> Result<usize, Reason>
    requires { (judged site.now ≡ Ok tt) × Indexed file.now (lists_of (tree_of 16 file.now)) work.old index }
    ensures { Answered (by_entries (tree_of 16 file.now) (by_length (table_for file.now site.now))) (table_for file.now site.now) result reply.new }
{
    let t = reading::read(file, site, work, index);
    if !t.known {
        return Err(Reason::UnknownMember);
    }
    if !t.sound {
        return Err(Reason::BadEntry);
    }
    if t.count > 64 {
        return Err(Reason::TooManyEntries);
    }
    by_length(work, t.count + 2, reply)
}

// 7 to 12.
fn by_rules(file: &[u8], site: &[u8], work: &mut Work, reply: &mut Reply) -> Result<usize, Reason>
    requires { judged site.now ≡ Ok tt }
    ensures { Answered (by_rules (tree_of 16 file.now) (by_length (table_for file.now site.now))) (table_for file.now site.now) result reply.new }
{
    if !header::header::is_mud_file(file) {
        return Err(Reason::Header);
    }
    let index = lists::index::gather(file, work);
    if !lists::policies::are_policies(file, work, index) {
        return Err(Reason::Lists);
    }
    by_entries(file, site, work, index, reply)
}

// 4 to 12.
fn by_file(file: &[u8], site: &[u8], work: &mut Work, reply: &mut Reply) -> Result<usize, Reason>
    requires { judged site.now ≡ Ok tt }
    ensures { Answered (by_file file.now site.now) (table_for file.now site.now) result reply.new }
{
    if file.len() > 32768 {
        return Err(Reason::FileTooLong);
    }
    values::clean::judge(file, 16, work)?;
    by_rules(file, site, work, reply)
}

// 1 to 12.
pub fn judge(file: &[u8], site: &[u8], work: &mut [u64], reply: &mut [u8]) -> Result<usize, Reason>
    ensures { Answered (answer_of file.now site.now (length reply.old) (length work.old)) (table_for file.now site.now) result reply.new }
{
    let Some(work) = work.as_mut_array() else {
        return Err(Reason::Buffers);
    };
    let Some(reply) = reply.as_mut_array() else {
        return Err(Reason::Buffers);
    };
    site::table::judge(site)?;
    by_file(file, site, work, reply)
}
