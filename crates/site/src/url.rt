// MUD URLs.
#![tactic(auto, using(crate::proofs::Laws::lining), unfolding(crate::specs::Url::ends_authority, crate::specs::Url::is_mud_url, text::specs::Words::has_at, text::specs::Bytes::between))]

ghost use Rattle.std.specs.Prelude.{◌≡◌, length, not};
ghost use Rattle.std.specs.List.{prefix_len};
ghost use Rattle.site.specs.Url.{printable, ends_authority, authority_of, is_mud_url};

use text::bytes::from;
use text::words::begins;

fn is_printable(u: &[u8]) -> bool
    ensures { result ≡ printable u.now }
{
    u.iter().all(|b| b.is_ascii_graphic())
}

fn ends_authority(b: u8) -> bool
    ensures { result ≡ ends_authority b }
{
    matches!(b, b'/' | b'?' | b'#')
}

fn before_end(s: &[u8]) -> usize
    ensures { result ≡ prefix_len (λ b. not (ends_authority b)) s.now }
{
    s.iter().take_while(|b| !ends_authority(**b)).count()
}

// How long the authority of a URL is; it begins at place 8.
pub fn authority_length(u: &[u8]) -> usize
    ensures { result ≡ length (authority_of u.now) }
{
    before_end(from(u, 8))
}

pub fn is_mud_url(u: &[u8]) -> bool
    ensures { result ≡ is_mud_url u.now }
{
    u.len() <= 255 && is_printable(u) && begins(u, 0, b"https://") && authority_length(u) > 0
}
