// The entries of both directions, read in one walk: numbers 9, 10 and 11, and the rules of which the table is built.
#![tactic(auto, using(crate::proofs::Finding::finding, crate::proofs::Finding::found), unfolding(crate::specs::Walked::see, crate::specs::Walked::more, crate::specs::Walked::put_at, crate::specs::Read::put_defaults))]

ghost use Rattle.std.specs.Prelude.{◌≡◌, [], ◌∷◌, ◌≤◌, length, Ok};
ghost use Rattle.values.specs.Decode.{bytes_at};
ghost use Rattle.values.specs.Tree.{tree_at, tree_of, items_from, elements_from};
ghost use Rattle.site.specs.Site.{judged};
ghost use Rattle.lists.specs.Lists.{to_list, entries_in, entries_named, list_named, lists_of, policy_lists};
ghost use Rattle.lists.specs.Index.{Indexed};
ghost use Rattle.rules.specs.Rows.{rule_words};
ghost use Rattle.reading.specs.Walked.{see, put_at, Walked};
ghost use Rattle.reading.specs.Read.{put_defaults, BothWalked, EntriesRead, ReadIn};

use entries::places::{Entry, parts_of};
use flows::Direction;
use jsontext::Next;
use jsontext::space::skip;
use lists::named::{has_type, list_of, nested_at};
use lists::policies::{lists_of, policy_lists};
use naming::networks::Site;
use reader::in_file;
use rules::Setting;
use rules::defaults::put_default;
use rules::rows::put_rule;
use values::strings::string_place;
use values::walk::{member, next_element};

// Where `builder` reads the first rule of a caller, and the words of each.
const RULES_FROM: usize = 169;

const RULE_LEN: usize = 21;

// What is known of the entries read so far: three facts, none of which says whether another is there. The count is at most 65, which is
// too many.
#[derive(Clone, Copy)]
pub struct Tally {
    pub known: bool,
    pub sound: bool,
    pub count: usize,
}

impl Tally {
    const NONE: Tally = Tally {
        known: true,
        sound: true,
        count: 0,
    };

    // Numbers 9 and 10 of one more entry.
    fn see(self, e: &Entry, d: Direction) -> Tally
        ensures { result ≡ see d (tree_at 10 e.now.s.now e.now.at) self }
    {
        Tally {
            known: self.known && e.is_known(),
            sound: self.sound && e.is_sound(d),
            count: self.count.min(64) + 1,
        }
    }
}

// The entry's rule, behind k others, if these are fewer than 64.
fn put_entry(work: &mut [u64], k: usize, e: &Entry, to: &Setting)
    ensures { work.new ≡ put_at k (rule_words to.now.direction to.now.site.now (bytes_at e.now.s.now to.now.url) (tree_at 10 e.now.s.now e.now.at)) work.old }
{
    if k < 64 {
        put_rule(work, RULES_FROM + RULE_LEN * k, e, to);
    }
}

fn read_entry(s: &[u8], work: &mut [u64], entry: usize, to: &Setting, t: Tally) -> Tally
    ensures { Walked to.now.direction to.now.site.now (bytes_at s.now to.now.url) (tree_at 10 s.now entry ∷ []) t work.old result work.new }
{
    let e = parts_of(s, entry);
    put_entry(work, t.count, &e, to);
    t.see(&e, to.direction)
}

// The entries from the one that begins at a place on.
fn read_list(s: &[u8], work: &mut [u64], at: usize, to: &Setting, before: Tally) -> Tally
    ensures { Walked to.now.direction to.now.site.now (bytes_at s.now to.now.url) (to_list (elements_from 10 s.now at)) before work.old result work.new }
{
    let mut t = before;
    let mut j = at;
    loop {
        t = read_entry(s, work, skip(s, j), to, t);
        let Ok(Next::More(k)) = next_element(s, j, 10) else {
            return t;
        };
        j = k;
    }
}

// The entries of the list that an element of a policy names. "An IPv6 list adds nothing and is read no further"
// `Indexed` stays a clause here and below: without a heap the index lies in the work buffer, which each call writes.
fn read_named(
    s: &[u8],
    work: &mut [u64],
    lists: Option<usize>,
    index: Option<usize>,
    n: usize,
    to: &Setting,
    t: Tally,
) -> Tally
    requires { Indexed s.now (items_from 13 s.now lists) work.old index }
    ensures { Walked to.now.direction to.now.site.now (bytes_at s.now to.now.url) (entries_in (list_named (items_from 13 s.now lists) (tree_at 11 s.now n))) t work.old result work.new }
{
    let Some(list) = list_of(s, lists, n, work, index) else {
        return t;
    };
    if !has_type(s, list, b"ipv4-acl-type") {
        return t;
    }
    match nested_at(s, list, 13, b"aces", b"ace") {
        None => t,
        Some(at) => read_list(s, work, at, to, t),
    }
}

// The lists that the elements of a policy name, from the one that begins at a place on. A loop beside that of `read_list`:
// a closure for both would have to say `Walked` of each step of the buffer that it writes.
fn read_policy(
    s: &[u8],
    work: &mut [u64],
    lists: Option<usize>,
    index: Option<usize>,
    at: usize,
    to: &Setting,
    before: Tally,
) -> Tally
    requires { Indexed s.now (items_from 13 s.now lists) work.old index }
    ensures { Walked to.now.direction to.now.site.now (bytes_at s.now to.now.url) (entries_named (items_from 13 s.now lists) (elements_from 11 s.now at)) before work.old result work.new }
{
    let mut t = before;
    let mut j = at;
    loop {
        t = read_named(s, work, lists, index, skip(s, j), to, t);
        let Ok(Next::More(k)) = next_element(s, j, 11) else {
            return t;
        };
        j = k;
    }
}

// The policy of a direction.
fn read_direction(
    s: &[u8],
    work: &mut [u64],
    index: Option<usize>,
    mud: usize,
    to: &Setting,
    t: Tally,
) -> Tally
    requires { Indexed s.now (lists_of (tree_of 16 s.now)) work.old index }
    ensures { Walked to.now.direction to.now.site.now (bytes_at s.now to.now.url) (entries_named (lists_of (tree_of 16 s.now)) (policy_lists to.now.direction (tree_at 15 s.now mud))) t work.old result work.new }
{
    match policy_lists(s, mud, to.direction) {
        None => t,
        Some(at) => read_policy(s, work, lists_of(s, skip(s, 0)), index, at, to, t),
    }
}

// Both directions, by the place of the header; the file's own URL stands in it.
fn read_both(s: &[u8], site: &Site, work: &mut [u64], index: Option<usize>, mud: usize) -> Tally
    requires { Indexed s.now (lists_of (tree_of 16 s.now)) work.old index }
    ensures { BothWalked site.now (tree_of 16 s.now) (tree_at 15 s.now mud) work.old result work.new }
{
    let url = string_place(s, member(s, mud, 15, b"mud-url"));
    let from = Setting {
        direction: Direction::FromDevice,
        site,
        url,
    };
    let to = Setting {
        direction: Direction::ToDevice,
        site,
        url,
    };
    let t = read_direction(s, work, index, mud, &from, Tally::NONE);
    read_direction(s, work, index, mud, &to, t)
}

fn read_entries(s: &[u8], site: &Site, work: &mut [u64], index: Option<usize>) -> Tally
    requires { Indexed s.now (lists_of (tree_of 16 s.now)) work.old index }
    ensures { EntriesRead site.now (tree_of 16 s.now) work.old result work.new }
{
    match in_file(s, b"ietf-mud:mud") {
        None => Tally::NONE,
        Some(mud) => read_both(s, site, work, index, mud),
    }
}

// The defaults, behind n entries.
fn put_defaults(site: &Site, work: &mut [u64], n: usize)
    ensures { work.new ≡ put_defaults n site.now work.old }
{
    if n < 65 {
        let at = RULES_FROM + RULE_LEN * n;
        put_default(site, work, at, b"urn:ietf:params:mud:dns", 53);
        put_default(site, work, at + RULE_LEN, b"urn:ietf:params:mud:ntp", 123);
    }
}

// The networks of the site, the rules of all entries (if there are at most 64), and the defaults, in the form that `builder` reads.
pub fn read(s: &[u8], site: &[u8], work: &mut [u64], index: Option<usize>) -> Tally
    requires { (judged site.now ≡ Ok tt) × (64 ≤ length work.old) × Indexed s.now (lists_of (tree_of 16 s.now)) work.old index }
    ensures { ReadIn site.now (tree_of 16 s.now) work.old result work.new }
{
    let mut places = [None; 64];
    naming::networks::load(site, work, &mut places);
    let named = Site {
        text: site,
        places: &places,
    };
    let t = read_entries(s, &named, work, index);
    put_defaults(&named, work, t.count);
    t
}
