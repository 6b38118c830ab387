// The site table as a whole.
#![tactic(auto, using(crate::proofs::Laws::lining), unfolding(crate::specs::Site::judged))]

ghost use Rattle.std.specs.Prelude.{◌≡◌};
ghost use Rattle.site.specs.Site.{line_feeds, stop, judged};

use crate::lines::line_at;

// Why a site table is refused.
#[derive(Clone, Copy, Debug, PartialEq, Eq)]
pub enum Fault {
    TooLong,
    MalformedAt(usize),
}

fn line_feeds(s: &[u8]) -> usize
    ensures { result ≡ line_feeds s.now }
{
    s.iter().filter(|b| **b == b'\n').count()
}

// Where the first malformed line begins, or the table ends.
fn stop_of(s: &[u8]) -> usize
    ensures { result ≡ stop s.now 0 }
{
    let mut at = 0;
    while let Some(l) = line_at(s, at) {
        at = l.after;
    }
    at
}

pub fn judge(s: &[u8]) -> Result<(), Fault>
    ensures { result ≡ judged s.now }
{
    if s.len() > 8192 || line_feeds(s) > 64 {
        return Err(Fault::TooLong);
    }
    let at = stop_of(s);
    if at == s.len() {
        Ok(())
    } else {
        Err(Fault::MalformedAt(at))
    }
}
