// What earlier lines tell of transactions: those that began.
ghost use Rattle.std.specs.Prelude.{◌≡◌, [], OnOk};
ghost use Rattle.e3_trace.specs.Cuts.{pair_of, Gives};
ghost use Rattle.e3_report.specs.lines.Marks.{space};
ghost use Rattle.e3_trace.specs.Fields.{named, txn_of, known_told};

use crate::cuts::{SPACE, cut};
use crate::faults::Fault;
use crate::fields::{Field, TxnName, txn_from, txn_name};
use e3_types::{NoMemory, SiteSet, Told, Txn};
use std::alloc::Global;
use std::collections::BTreeMap;
use std::marker::Model;

/// The sites of each transaction that was told as begun. A map finds them, so that a trace of many entries is read in
/// little time. It knows no packet: those stand in the entries that are read.
#[derive(Drop)]
pub(crate) struct Known {
    begun: BTreeMap<TxnName, SiteSet>,
}

impl Model for Known {
    ghost use Rattle.std.specs.Prelude.{[]};
    ghost use Rattle.e3_trace.specs.Fields.{Known as Told};

    ghost Value = { Told };

    ghost view = { λ k. record { begun = k.begun.entries; sent = [] } };
}

impl Known {
    /// Nothing is told yet.
    pub(crate) fn nothing(alloc: Global) -> Known
        ensures { result ≡ record { begun = []; sent = [] } }
    {
        Known {
            begun: BTreeMap::new(alloc),
        }
    }

    /// The transaction of this name that began.
    #[tactic(auto, unfolding(crate::specs::Fields::named))]
    pub(crate) fn named(&self, name: TxnName) -> Option<Txn>
        ensures { result ≡ named self.now name }
    {
        let sites = self.begun.get(&name).copied()?;
        Some(txn_from(name, sites))
    }

    /// A transaction that began.
    #[tactic(auto, unfolding(crate::specs::Fields::txn_of))]
    pub(crate) fn txn(&self, text: &[u8]) -> Result<Txn, Fault>
        ensures { Gives result (txn_of self.now text.now) }
    {
        let name = txn_name(text)?;
        self.named(name).ok_or(Fault::Bad)
    }

    /// A transaction that began, and a field behind it.
    pub(crate) fn txn_and<T: Field + Drop>(&self, text: &[u8]) -> Result<(Txn, T), Fault>
        ensures { Gives result (pair_of space (txn_of self.now) T.form text.now) }
    {
        let (word, rest) = cut(text, SPACE)?;
        let txn = self.txn(word)?;
        let field = T::read(rest)?;
        Ok((txn, field))
    }

    /// An event is told, which may be a begin. Want of memory is the only error.
    #[tactic(auto, unfolding(crate::specs::Fields::known_told))]
    pub(crate) fn tell(&mut self, event: &Told) -> Result<(), NoMemory>
        ensures { OnOk result (self.new ≡ known_told self.old event.now) }
    {
        match event {
            Told::Began { txn } => {
                let name = (txn.site, (txn.inc, txn.seq));
                match self.begun.insert(name, txn.sites) {
                    Ok(_) => Ok(()),
                    Err(_) => Err(NoMemory),
                }
            }
            _ => Ok(()),
        }
    }
}
