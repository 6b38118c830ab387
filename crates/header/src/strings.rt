// Strings of the file that are asked to have a form.
#![tactic(auto, using(crate::proofs::Laws::copied), unfolding(crate::specs::Asked::is_among))]

ghost use Rattle.std.specs.Prelude.{◌≡◌};
ghost use Rattle.std.specs.List.{list_any};
ghost use Rattle.text.specs.Words.{same_bytes};
ghost use Rattle.site.specs.Url.{is_mud_url};
ghost use Rattle.values.specs.Decode.{bytes_at};
ghost use Rattle.header.specs.Asked.{is_among, forwardings, operators, initiators, net_in};
ghost use Rattle.header.specs.Copied.{CopiedTo};

use text::networks::Net;
use values::decode::{first, piece, rest};
use values::strings::string_is;

// Copies a string, decoded, to the front of a buffer; how many bytes it has, if they fit and are bytes all.
// URLs and networks are short, and their readers take a slice.
fn copy(s: &[u8], at: usize, buf: &mut [u8]) -> Option<usize>
    ensures { CopiedTo (bytes_at s.now at) buf.old buf.new result }
{
    let mut p = piece(s, at);
    for n in 0..buf.len() {
        let Some(a) = first(p) else {
            return Some(n);
        };
        buf[n] = u8::try_from(a).ok()?;
        p = rest(s, p);
    }
    if first(p).is_none() {
        Some(buf.len())
    } else {
        None
    }
}

pub fn is_url(s: &[u8], at: usize) -> bool
    ensures { result ≡ is_mud_url (bytes_at s.now at) }
{
    let mut buf = [0u8; 255];
    copy(s, at, &mut buf).is_some_and(|n| site::url::is_mud_url(&buf[..n]))
}

// The longest network is `255.255.255.255/32`, eighteen bytes.
pub fn network(s: &[u8], at: usize) -> Option<(Net, usize)>
    ensures { result ≡ net_in (bytes_at s.now at) }
{
    let mut buf = [0u8; 18];
    let n = copy(s, at, &mut buf)?;
    let (net, after) = text::networks::network(&buf[..n], 0)?;
    if net.given && after == n {
        Some((net, after))
    } else {
        None
    }
}

// Whether the string is one of these words.
fn is_among(s: &[u8], at: usize, words: &[&[u8]]) -> bool
    ensures { result ≡ list_any (λ w. same_bytes (bytes_at s.now at) w.now) words.now }
{
    words.iter().any(|w| string_is(s, at, w))
}

pub fn is_forwarding(s: &[u8], at: usize) -> bool
    ensures { result ≡ is_among (bytes_at s.now at) forwardings }
{
    is_among(s, at, &[b"accept", b"drop", b"reject"])
}

pub fn is_operator(s: &[u8], at: usize) -> bool
    ensures { result ≡ is_among (bytes_at s.now at) operators }
{
    is_among(s, at, &[b"eq", b"neq", b"lte", b"gte"])
}

pub fn is_initiator(s: &[u8], at: usize) -> bool
    ensures { result ≡ is_among (bytes_at s.now at) initiators }
{
    is_among(s, at, &[b"from-device", b"to-device"])
}
