// An election: who was heard, the number, and who reported.
ghost use Rattle.std.specs.Prelude.{◌≡◌, ◌<◌, ◌∷◌, [], IfOk, MatchOption, Some, true, false, IsSome, length, map, vec_len, vec_capacity};
ghost use Rattle.e3_world.specs.Elections.{all_heard, all_reported, begun, greatest_heard, hear, take_report};
ghost use Rattle.e3_elect.specs.Calling.{IsWhole, number_of};

use crate::counting::{greatest_of, is_as_many, is_awaited, is_owed, number_of};
use e3_types::{Call, Copied, NoMemory, SiteReport, SiteSet};
use e3_world::Named;
use std::alloc::Global;
use std::marker::Model;

/// An election of a group at its elector: each member tells the number of the last election that it joined, the elector
/// joins the greatest of these plus one, and then each member reports under that number. The elector is heard first and
/// reports first; each member behind it counts once, so there is room for all from the start.
#[derive(Drop)]
pub struct Election {
    call: Call,
    group: SiteSet,
    heard: Vec<Named>,
    joined: Option<u32>,
    reports: Vec<SiteReport>,
}

impl Model for Election {
    ghost use Rattle.std.specs.Prelude.{◌≡◌, ◌<◌, true, length, map, vec_capacity};
    ghost use Rattle.e3_world.specs.Gatherings.{Election as Gathering};
    ghost use Rattle.e3_elect.specs.Calling.{are_behind_elector};

    ghost Value = { Gathering };

    ghost view = { λ a. record { call = a.call; group = a.group; heard = a.heard.items; number = a.joined; reports = a.reports.items } };

    ghost invariant = { λ a. (length a.group < vec_capacity a.heard) × (length a.group < vec_capacity a.reports)
        × (are_behind_elector a.group (map (λ h. h.site) a.heard.items) ≡ true) × (are_behind_elector a.group (map (λ r. r.site) a.reports.items) ≡ true) };
}

// No items, with room for one more than the group has.
fn room_for<T>(alloc: Global, group: SiteSet) -> Result<Vec<T>, NoMemory>
    ensures none { IfOk result (λ v. v.items ≡ []) }
    ensures len { IfOk result (λ v. vec_len v ≡ 0) }
    ensures room { IfOk result (λ v. length group < vec_capacity v) }
{
    match Vec::with_capacity(alloc, group.count() as usize + 1) {
        Ok(room) => Ok(room),
        Err(_) => Err(NoMemory),
    }
}

// These items, with room for one more than the group has.
fn copy_of<T: Copy + Drop>(alloc: Global, items: &[T], group: SiteSet) -> Result<Vec<T>, NoMemory>
    ensures same { IfOk result (λ v. v.items ≡ items.now) }
    ensures room { IfOk result (λ v. length group < vec_capacity v) }
{
    let mut copy = room_for(alloc, group)?;
    match copy.extend_from_slice(items) {
        Ok(()) => Ok(copy),
        Err(_) => Err(NoMemory),
    }
}

impl Election {
    /// The election of this call for this group, at a site whose own number is this; the site need not be of the group. Want
    /// of memory is the only error; no other call but a copy takes any.
    pub fn start(
        alloc: Global,
        call: Call,
        group: SiteSet,
        site: u32,
        elected: u32,
    ) -> Result<Election, NoMemory>
        ensures { IfOk result (λ e. e ≡ begun site call group elected) }
    {
        let mut heard = room_for(alloc, group)?;
        let reports = room_for(alloc, group)?;
        heard.push_reserved(Named { site, elected });
        Ok(Election {
            call,
            group,
            heard,
            joined: None,
            reports,
        })
    }

    /// The greatest number that was heard plus one: some exactly where as many were heard as the group has sites, and the
    /// greatest is below 4,294,967,295. Where the elector is of the group, so many are the whole group.
    pub fn number(&self) -> Option<u32>
        ensures { result ≡ number_of self.now }
    {
        number_of(&self.heard, self.group)
    }

    /// A member's number. True exactly where it is an answer to this call by a member that was not heard yet; else nothing
    /// changes.
    pub fn heard(&mut self, from: u32, call: Call, elected: u32) -> bool
        ensures { MatchOption (hear self.old from call elected) ((result ≡ false) × (self.new ≡ self.old)) (λ e. (result ≡ true) × (self.new ≡ e)) }
    {
        if !is_awaited(self.call, self.group, &self.heard, from, call) {
            return false;
        }
        self.heard.push_reserved(Named {
            site: from,
            elected,
        });
        true
    }

    /// The greatest number that was heard.
    pub fn greatest_heard(&self) -> u32
        ensures { result ≡ greatest_heard self.now }
    {
        greatest_of(&self.heard)
    }

    /// As many were heard as the group has sites: the whole group, where the elector is of it.
    pub fn all_heard(&self) -> bool
        ensures count { result ≡ all_heard self.now }
        ensures whole { IsWhole self.now.group (map (λ h. h.site) self.now.heard) result }
    {
        is_as_many(self.heard.as_slice().len(), self.group)
    }

    // The elector's own report is the first, and no other came yet.
    fn begin_reports(&mut self, of_elector: SiteReport)
        ensures { self.new ≡ record self.old { reports = of_elector ∷ [] } }
    {
        self.reports.clear();
        self.reports.push_reserved(of_elector);
    }

    /// The elector joined the election's number, with its own report.
    pub fn joined(&mut self, of_elector: SiteReport)
        requires { IsSome (number_of self.old) }
        ensures { self.new ≡ record self.old { number = number_of self.old; reports = of_elector ∷ [] } }
    {
        self.joined = self.number();
        self.begin_reports(of_elector);
    }

    /// The elector joined this number, with its own report, as its log says: it need not be the number that was found.
    pub fn joined_under(&mut self, n: u32, of_elector: SiteReport)
        ensures { self.new ≡ record self.old { number = Some n; reports = of_elector ∷ [] } }
    {
        self.joined = Some(n);
        self.begin_reports(of_elector);
    }

    /// The number that the elector joined; none before it did.
    pub fn joined_number(&self) -> Option<u32>
        ensures { result ≡ self.now.number }
    {
        self.joined
    }

    /// A member's report under this number. True exactly where the elector joined that number and the member had not
    /// reported yet; else nothing changes.
    pub fn reported(&mut self, n: u32, report: SiteReport) -> bool
        ensures { MatchOption (take_report self.old n report) ((result ≡ false) × (self.new ≡ self.old)) (λ e. (result ≡ true) × (self.new ≡ e)) }
    {
        let is_this = match self.joined {
            Some(joined) => n == joined,
            None => false,
        };
        if !is_this || !is_owed(self.group, &self.reports, report.site) {
            return false;
        }
        self.reports.push_reserved(report);
        true
    }

    /// As many have reported as the group has sites: the whole group, where the elector's report is that of a member.
    pub fn complete(&self) -> bool
        ensures count { result ≡ all_reported self.now }
        ensures whole { IsWhole self.now.group (map (λ r. r.site) self.now.reports) result }
    {
        is_as_many(self.reports.as_slice().len(), self.group)
    }

    /// The reports, the elector's own first.
    pub fn reports(&self) -> &[SiteReport]
        ensures { result.now ≡ self.now.reports }
    {
        &self.reports
    }

    /// The group.
    pub fn group(&self) -> SiteSet
        ensures { result ≡ self.now.group }
    {
        self.group
    }
}

impl Copied for Election {
    fn copied(&self, alloc: Global) -> Result<Election, NoMemory> {
        Ok(Election {
            call: self.call,
            group: self.group,
            heard: copy_of(alloc, &self.heard, self.group)?,
            joined: self.joined,
            reports: copy_of(alloc, &self.reports, self.group)?,
        })
    }
}
