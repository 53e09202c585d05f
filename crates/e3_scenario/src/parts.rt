// The parts of an item: names, values, sites, keys, counts and leaves, and the parts of a split.
ghost use Rattle.std.specs.Prelude.{◌≡◌, ◌≤◌, IfOk, IfSome};
ghost use Rattle.e3_scenario.specs.Parts.{has_leading_zero, number_of, site_of, sites_above, sites_of, key_of, count_of, byte_of, junk_of, leave_of, parts_of};
ghost use Rattle.e3_report.specs.lines.Marks.{comma, pieces};

use crate::words::{BAR, COMMA, POINT, SPACE, after, before, rest};
use e3_report::lines::{is_text, name_of, number_of_digits, one_of};
use e3_types::{Key, Leave, List, NoMemory, SiteSet};
use std::alloc::Global;

fn has_leading_zero(text: &[u8]) -> bool
    ensures { result ≡ has_leading_zero text.now }
{
    !text.is_empty() && text[0] == b'0'
}

/// A number from 1 to `most` without leading zeros.
fn number(text: &[u8], most: u32) -> Option<u32>
    ensures value { result ≡ number_of most text.now }
    ensures some { IfSome result (λ n. 1 ≤ n) }
    ensures within { IfSome result (λ n. n ≤ most) }
{
    if has_leading_zero(text) {
        None
    } else {
        match number_of_digits(text, u64::from(most)) {
            Some(number) if 1 <= number => Some(number as u32),
            _ => None,
        }
    }
}

/// A SITE.
pub fn site(text: &[u8]) -> Option<u32>
    ensures value { result ≡ site_of text.now }
    ensures low { IfSome result (λ site. 1 ≤ site) }
    ensures high { IfSome result (λ site. site ≤ 64) }
{
    number(text, 64)
}

// More sites of a set. There are no more than 64, so it calls itself no deeper.
#[tactic(auto, using(crate::proofs::Pieces::no_site, crate::proofs::Pieces::low_site, crate::proofs::Pieces::last_site, crate::proofs::Pieces::next_site))]
fn sites_above(low: u32, sites: SiteSet, text: &[u8]) -> Option<SiteSet>
    ensures { result ≡ sites_above low sites (pieces comma text.now) }
{
    let site = site(before(text, COMMA))?;
    if site <= low {
        return None;
    }
    match after(text, COMMA) {
        None => Some(sites.with(site)),
        Some(left) => sites_above(site, sites.with(site), left),
    }
}

/// SITES: one or more, ascending, with commas.
#[tactic(auto, unfolding(crate::specs::Parts::sites_of))]
pub fn sites(text: &[u8]) -> Option<SiteSet>
    ensures { result ≡ sites_of text.now }
{
    sites_above(0, SiteSet::empty(), text)
}

/// A KEY: a site, a point and a name.
pub fn key(text: &[u8]) -> Option<Key>
    ensures { result ≡ key_of text.now }
{
    let site = site(before(text, POINT))?;
    match after(text, POINT) {
        Some(left) => name_of(left).map(|name| Key { site, name }),
        None => None,
    }
}

/// A COUNT.
pub fn count(text: &[u8]) -> Option<u32>
    ensures { result ≡ count_of text.now }
{
    number(text, 1000000)
}

fn byte(text: &[u8]) -> Option<u8>
    ensures { result ≡ byte_of text.now }
{
    if is_text(text, "0") {
        Some(0)
    } else {
        let byte = number(text, 255)?;
        Some(byte as u8)
    }
}

fn junk(text: &[u8]) -> Option<Leave>
    ensures { result ≡ junk_of text.now }
{
    let byte = byte(rest(text, 1)?)?;
    Some(Leave::Junk(byte))
}

/// A LEAVE.
#[tactic(auto, unfolding(crate::specs::Parts::leave_of))]
pub fn leave(text: &[u8]) -> Option<Leave>
    ensures { result ≡ leave_of text.now }
{
    let plain = [
        ("none", Leave::None),
        ("half", Leave::Half),
        ("all", Leave::All),
    ];
    if let Some(leave) = one_of(text, &plain) {
        return Some(leave);
    }
    if is_text(before(text, SPACE), "junk") {
        junk(text)
    } else {
        None
    }
}

/// The parts of a split, with bars between them.
#[tactic(auto, using(crate::proofs::Pieces::pieces_cut, crate::proofs::Pieces::pieces_last, crate::proofs::Pieces::pieces_more), unfolding(crate::specs::Parts::parts_of))]
pub fn parts(alloc: Global, text: &[u8]) -> Result<Option<List<SiteSet>>, NoMemory>
    ensures { IfOk result (λ parts. parts ≡ parts_of text.now) }
{
    let mut parts = List::new(alloc);
    let mut left = text;
    'pieces: loop {
        let Some(sites) = sites(before(left, BAR)) else {
            return Ok(None);
        };
        parts.push(sites)?;
        match after(left, BAR) {
            None => return Ok(Some(parts)),
            Some(more) => left = more,
        }
    }
}
