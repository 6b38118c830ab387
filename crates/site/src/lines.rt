// One line of the site table.
#![tactic(auto, using(crate::proofs::Laws::lining), unfolding(text::specs::Bytes::between, crate::specs::Line::word_at, crate::specs::Line::kind_at, crate::specs::Line::suits, crate::specs::Line::name_ok, crate::specs::Line::rest_at, crate::specs::Line::line_at))]

ghost use Rattle.std.specs.Prelude.{◌≡◌, ◌+◌, drop};
ghost use Rattle.site.specs.Line.{word_at, kind_at, suits, name_length, name_ok, rest_at, line_at};

use crate::url::is_mud_url;
use text::bytes::{from, is_at};
use text::networks::network;
use text::words;

#[derive(Clone, Copy, Debug, PartialEq, Eq)]
pub enum Kind {
    Host,
    Class,
    Mine,
    Local,
    Thing,
}

// The name stands from `name` up to `end`; the next line begins at `after`.
#[derive(Clone, Copy, Debug, PartialEq, Eq)]
pub struct SiteLine {
    pub kind: Kind,
    pub name: usize,
    pub end: usize,
    pub low: u32,
    pub high: u32,
    pub after: usize,
}

fn is_word(s: &[u8], at: usize, word: &[u8]) -> bool
    ensures { result ≡ word_at word.now s.now at }
{
    words::begins(s, at, word) && at < s.len() && is_at(s, at + word.len(), b'\t')
}

// A line's kind, and where its name begins.
fn kind_at(s: &[u8], at: usize) -> Option<(Kind, usize)>
    ensures { result ≡ kind_at s.now at }
{
    if is_word(s, at, b"host") {
        Some((Kind::Host, at + 5))
    } else if is_word(s, at, b"class") {
        Some((Kind::Class, at + 6))
    } else if is_word(s, at, b"mine") {
        Some((Kind::Mine, at + 5))
    } else if is_word(s, at, b"local") {
        Some((Kind::Local, at + 6))
    } else if is_word(s, at, b"thing") {
        Some((Kind::Thing, at + 6))
    } else {
        None
    }
}

// How many of the first bytes can stand in a name.
fn name_length(s: &[u8]) -> usize
    ensures { result ≡ name_length s.now }
{
    s.iter().take_while(|b| b.is_ascii_graphic()).count()
}

fn name_end(s: &[u8], at: usize) -> usize
    ensures { result ≡ at + name_length (drop at s.now) }
{
    at + name_length(from(s, at))
}

fn suits_kind(kind: Kind, name: &[u8]) -> bool
    ensures { result ≡ suits kind name.now }
{
    match kind {
        Kind::Host | Kind::Class => true,
        Kind::Mine | Kind::Thing => is_mud_url(name),
        Kind::Local => words::same(name, b"-"),
    }
}

fn is_name(kind: Kind, name: &[u8]) -> bool
    ensures { result ≡ name_ok kind name.now }
{
    0 < name.len() && name.len() <= 255 && suits_kind(kind, name)
}

// The tab, the network and the LF after a name.
fn rest_at(s: &[u8], kind: Kind, name: usize, end: usize) -> Option<SiteLine>
    ensures { result ≡ rest_at kind name end s.now }
{
    if !is_at(s, end, b'\t') {
        return None;
    }
    let (net, after) = network(s, end + 1)?;
    if !is_at(s, after, b'\n') {
        return None;
    }
    Some(SiteLine {
        kind,
        name,
        end,
        low: net.low,
        high: net.high,
        after: after + 1,
    })
}

pub fn line_at(s: &[u8], at: usize) -> Option<SiteLine>
    ensures { result ≡ line_at s.now at }
{
    let (kind, from) = kind_at(s, at)?;
    let end = name_end(s, from);
    if !is_name(kind, &s[from..end]) {
        return None;
    }
    rest_at(s, kind, from, end)
}
