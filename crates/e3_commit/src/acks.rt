// Who acknowledged an attempt, and the attempt with its sender.
ghost use Rattle.std.specs.Prelude.{◌≡◌, ◌==◌, ◌&&◌, [], if◌then◌else◌, nat_le, not};
ghost use Rattle.e3_types.specs.Same.{same_dir};
ghost use Rattle.e3_types.specs.Sets.{has_site, with_site};
ghost use Rattle.e3_world.specs.Rounds.{count_ack};
ghost use Rattle.e3_commit.specs.Senders.{set_of};

use arrayvec::ArrayVec;
use e3_types::{Dir, SiteSet};
use std::marker::Model;

/// An attempt to commit or to abort under a number: those that have to acknowledge it, and those that did, as a set and in
/// order of arrival. It takes no memory: a set has 64 sites at most.
#[derive(Drop)]
pub struct Acks {
    n: u32,
    dir: Dir,
    to: SiteSet,
    acked: SiteSet,
    arrivals: ArrayVec<u32, 64>,
}

impl Model for Acks {
    ghost use Rattle.std.specs.Prelude.{◌≡◌, length};
    ghost use Rattle.e3_world.specs.Gatherings.{Round};
    ghost use Rattle.e3_commit.specs.Senders.{set_of};

    ghost Value = { Round };

    ghost view = { λ a. record { n = a.n; dir = a.dir; to = a.to; acked = a.arrivals.items } };

    ghost invariant = { λ a. (a.acked ≡ set_of a.arrivals.items) × (length a.arrivals.items ≡ length a.acked) };
}

impl Acks {
    /// The attempt of this number and direction, which these have to acknowledge; none has yet.
    pub fn awaited(n: u32, dir: Dir, to: SiteSet) -> Acks
        ensures { result ≡ record { n = n; dir = dir; to = to; acked = [] } }
    {
        Acks {
            n,
            dir,
            to,
            acked: SiteSet::empty(),
            arrivals: ArrayVec::new(),
        }
    }

    // The site has acknowledged the attempt.
    fn has_acked(&self, from: u32) -> bool
        ensures { result ≡ has_site self.now.acked from }
    {
        self.acked.has(from)
    }

    // The acknowledgement counts: it is of this attempt, by one who got it, and the first of that site.
    fn counts(&self, from: u32, n: u32, dir: Dir) -> bool
        ensures { result ≡ (self.now.n == n && same_dir self.now.dir dir && has_site self.now.to from && not (has_site self.now.acked from)) }
    {
        self.n == n && self.dir.is_same(dir) && self.to.has(from) && !self.has_acked(from)
    }

    /// An acknowledgement of the attempt of this number and direction. One of another attempt, one of a site that was not
    /// asked, and a second one of a site change nothing.
    pub fn add(&mut self, from: u32, n: u32, dir: Dir)
        ensures { self.new ≡ count_ack self.old from n dir }
    {
        // for the proof alone: sites that are asked are from 1 to 64, and no set has more than 64
        let _ = self.to.count();
        if self.counts(from, n, dir) {
            let acked = self.acked.with(from);
            let _ = acked.count();
            self.arrivals.push(from);
            self.acked = acked;
        }
    }

    /// The number of the attempt.
    pub fn number(&self) -> u32
        ensures { result ≡ self.now.n }
    {
        self.n
    }

    /// The direction of the attempt.
    pub fn direction(&self) -> Dir
        ensures { result ≡ self.now.dir }
    {
        self.dir
    }

    /// Those that have to acknowledge the attempt.
    pub fn receivers(&self) -> SiteSet
        ensures { result ≡ self.now.to }
    {
        self.to
    }

    /// Those that acknowledged it, in order of arrival.
    pub fn arrivals(&self) -> &[u32]
        ensures { result.now ≡ self.now.acked }
    {
        self.arrivals.as_slice()
    }

    /// Those that acknowledged it, as a set.
    pub fn sites(&self) -> SiteSet
        ensures { result ≡ set_of self.now.acked }
    {
        self.acked
    }

    /// Equal acknowledgements.
    pub fn copy(&self) -> Acks
        ensures { result ≡ self.now }
    {
        let mut arrivals = ArrayVec::new();
        for site in self.arrivals.as_slice() {
            arrivals.push(*site);
        }
        Acks {
            n: self.n,
            dir: self.dir,
            to: self.to,
            acked: self.acked,
            arrivals,
        }
    }
}

/// An attempt to commit or to abort under a number, with its sender. It takes no memory.
#[derive(Drop)]
pub struct Round {
    site: u32,
    acks: Acks,
}

impl Round {
    /// The attempt of this number and direction by this site, which these others have to acknowledge; none has yet.
    pub fn attempt(n: u32, dir: Dir, to: SiteSet, site: u32) -> Round
        ensures { result ≡ record { site = site; acks = record { n = n; dir = dir; to = to; acked = [] } } }
    {
        Round {
            site,
            acks: Acks::awaited(n, dir, to),
        }
    }

    // Those that acknowledged, with the sender, where it is a site that a set can have.
    fn attempted(&self) -> SiteSet
        ensures { result ≡ (if nat_le 1 self.now.site && nat_le self.now.site 64
            then with_site self.now.site (set_of self.now.acks.acked) else set_of self.now.acks.acked) }
    {
        let acked = self.acks.sites();
        if 1 <= self.site && self.site <= 64 {
            acked.with(self.site)
        } else {
            acked
        }
    }

    /// An acknowledgement of the attempt of this number and direction: the sites that attempted what this round asks,
    /// with its sender; without it where no set has it, whose sites are 1 to 64. An acknowledgement of another attempt, one
    /// of a site that was not asked, and a second one of a site add none.
    pub fn ack(&mut self, from: u32, n: u32, dir: Dir) -> SiteSet
        ensures acks { self.new ≡ record self.old { acks = count_ack self.old.acks from n dir } }
        ensures sites { result ≡ (if nat_le 1 self.old.site && nat_le self.old.site 64
            then with_site self.old.site (set_of self.new.acks.acked) else set_of self.new.acks.acked) }
    {
        self.acks.add(from, n, dir);
        self.attempted()
    }

    /// Who acknowledged it.
    pub fn acks(&self) -> &Acks
        ensures { result.now ≡ self.now.acks }
    {
        &self.acks
    }
}
