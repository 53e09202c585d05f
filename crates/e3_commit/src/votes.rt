// The votes of a transaction's sites.
ghost use Rattle.std.specs.Prelude.{◌≡◌, ◌==◌, ◌++◌, ◌∷◌, ◌↔◌, [], IsTrue, List, length, ℕ};
ghost use Rattle.e3_types.specs.Sets.{others, is_within};
ghost use Rattle.e3_commit.specs.Missing.{missing};

use e3_types::SiteSet;
use std::marker::Model;

/// The sites of a transaction whose yes has not come.
#[derive(Clone, Copy)]
pub struct Votes {
    missing: SiteSet,
}

impl Model for Votes {
    ghost use Rattle.std.specs.Prelude.{ℕ, List};

    ghost Value = { List ℕ };

    ghost view = { λ a. a.missing };

    ghost inverse = { λ sites. record { missing = sites } };
}

impl Votes {
    /// The votes of a transaction with these sites at this one, which has voted yes: those of all others are missing.
    #[tactic(auto, using(crate::proofs::Gathering::missing_none))]
    pub fn start(sites: SiteSet, site: u32) -> Votes
        ensures others { result ≡ others site sites }
        ensures none { result ≡ missing (others site sites) [] }
    {
        Votes {
            missing: sites.without(site),
        }
    }

    /// A site's yes came; a second one of it changes nothing. True exactly where every site has voted yes now. It is the
    /// test of a coordinator that may attempt to commit. It takes no memory.
    #[tactic(auto, using(crate::proofs::Gathering::none_left, crate::proofs::Gathering::one_less, crate::proofs::Gathering::within_missing))]
    pub fn yes(&mut self, from: u32) -> bool
        ensures left { self.new ≡ others from self.old }
        ensures all { IsTrue result ↔ (self.new ≡ []) }
        ensures rule { (sites came : List ℕ) → self.old ≡ missing sites came
            → (self.new ≡ missing sites (came ++ from ∷ [])) × (result ≡ is_within sites (came ++ from ∷ [])) }
    {
        self.missing = self.missing.without(from);
        self.are_complete()
    }

    /// The sites whose yes has not come.
    pub fn missing(&self) -> SiteSet
        ensures { result ≡ self.now }
    {
        self.missing
    }

    /// Every site has voted yes.
    pub fn are_complete(&self) -> bool
        ensures { result ≡ (length self.now == 0) }
    {
        self.missing.count() == 0
    }
}
