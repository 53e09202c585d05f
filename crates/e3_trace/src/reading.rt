// Reading line by line.
ghost use Rattle.std.specs.Prelude.{◌≡◌, ◌++◌, option_map, None, IfOk, OnOk, if◌then◌else◌};
ghost use Rattle.e3_trace.specs.Cuts.{Gives, Leaves, Shows, made_of};
ghost use Rattle.e3_trace.specs.Drafts.{packet_of, takes_packets, told_line, line_behind, with_packet};
ghost use Rattle.e3_trace.specs.Past.{IsFitting, knowing, sends};
ghost use Rattle.e3_trace.specs.Trace.{nothing_read, closed, entry_line, marked_line, is_mark, line_by, next_line, is_over};
ghost use Rattle.e3_world.specs.Packets.{sent};

use crate::cuts::{SPACE, cut};
use crate::drafts::Draft;
use crate::entries::form;
use crate::events::told;
use crate::faults::Fault;
use crate::fields::Field;
use crate::known::Known;
use crate::messages::message;
use crate::past::Past;
use crate::records::add_record_line;
use e3_report::lines::is_text;
use e3_types::{NoMemory, Packet};
use e3_world::History;
use std::alloc::Global;
use std::marker::Model;
use std::mem;

/// The most entries of a history.
pub(crate) const MOST_ENTRIES: u64 = 2_000_000;

/// What the lines so far spell: the transactions that they tell, the entries that are read, and the one whose lines are
/// being read. Packets are found in the entries.
#[derive(Drop)]
pub(crate) struct Reading {
    known: Known,
    past: Past,
    draft: Option<Draft>,
}

impl Model for Reading {
    ghost use Rattle.e3_trace.specs.Past.{Fits, known_at};
    ghost use Rattle.e3_trace.specs.Trace.{Reading as Read};

    ghost Value = { Read };

    ghost view = { λ r. record { known = known_at r.known r.past r.draft; done = r.past; draft = r.draft } };

    ghost invariant = { λ r. Fits r.draft };
}

#[tactic(auto, unfolding(crate::specs::Drafts::packet_of))]
fn packet(known: &Known, site: u32, text: &[u8]) -> Result<Packet, Fault>
    ensures { Gives result (packet_of known.now site text.now) }
{
    let (word, rest) = cut(text, SPACE)?;
    let number = u64::read(word)?;
    let (word, rest) = cut(rest, SPACE)?;
    let to = u32::read(word)?;
    let msg = message(known, rest)?;
    Ok(Packet {
        number,
        from: site,
        to,
        msg,
    })
}

// A packet that a step sent. From here on it is found in the entry.
fn add_packet(alloc: Global, known: &Known, draft: &mut Draft, text: &[u8]) -> Result<(), Fault>
    ensures { Leaves result draft.new (if takes_packets draft.old then made_of (with_packet draft.old) (packet_of known.now draft.old.owner) text.now else None) }
{
    if !draft.takes_packets() {
        return Err(Fault::Bad);
    }
    let packet = packet(known, draft.owner, text)?;
    draft.add_packet(alloc, packet)?;
    Ok(())
}

#[tactic(auto, unfolding(crate::specs::Drafts::told_line))]
fn add_told(alloc: Global, known: &mut Known, draft: &mut Draft, text: &[u8]) -> Result<(), Fault>
    ensures { Leaves result (known.new, draft.new) (told_line known.old draft.old text.now) }
{
    if !draft.takes_told() {
        return Err(Fault::Bad);
    }
    let event = told(alloc, known, text)?;
    known.tell(&event)?;
    draft.add_told(alloc, event)?;
    Ok(())
}

// A line behind the first of an entry, by the word that marks it.
fn add_line(
    alloc: Global,
    known: &mut Known,
    past: &Past,
    draft: &mut Draft,
    word: &[u8],
    text: &[u8],
) -> Result<(), Fault>
    requires { IsFitting draft.old }
    ensures leaves { Leaves result (knowing known.new (sent past.now ++ sends draft.new), draft.new)
        (line_behind (knowing known.old (sent past.now ++ sends draft.old)) draft.old word.now text.now) }
    ensures fits { OnOk result (IsFitting draft.new) }
{
    if is_text(word, "i") {
        draft.add_input(alloc, known, past, text)
    } else if is_text(word, "r") {
        add_record_line(alloc, known, draft, text)
    } else if is_text(word, "o") {
        add_packet(alloc, known, draft, text)
    } else {
        add_told(alloc, known, draft, text)
    }
}

fn is_mark(word: &[u8]) -> bool
    ensures { result ≡ is_mark word.now }
{
    is_text(word, "i") || is_text(word, "r") || is_text(word, "o") || is_text(word, "t")
}

impl Reading {
    /// Nothing is read yet, and there is room for so many entries.
    pub(crate) fn roomy(alloc: Global, entries: u64) -> Result<Reading, NoMemory>
        ensures { IfOk result (λ r. r ≡ nothing_read) }
    {
        let mut past = Past::nothing(alloc);
        past.reserve(entries)?;
        Ok(Reading {
            known: Known::nothing(alloc),
            past,
            draft: None,
        })
    }

    // The entry whose lines are being read is read.
    #[tactic(auto, unfolding(crate::specs::Trace::closed))]
    fn close(&mut self, alloc: Global) -> Result<(), Fault>
        ensures { Leaves result self.new (option_map (λ entries. record self.old { done = entries; draft = None }) (closed self.old)) }
    {
        match self.draft.take() {
            None => Ok(()),
            Some(draft) => {
                let entry = draft.entry(alloc)?;
                let past = mem::replace(&mut self.past, Past::nothing(alloc));
                let grown = past.with(entry)?;
                drop(mem::replace(&mut self.past, grown));
                Ok(())
            }
        }
    }

    #[tactic(auto, unfolding(crate::specs::Trace::entry_line))]
    fn begin_entry(&mut self, alloc: Global, word: &[u8], text: &[u8]) -> Result<(), Fault>
        ensures { Leaves result self.new (entry_line self.old word.now text.now) }
    {
        self.close(alloc)?;
        let owner = u32::read(word)?;
        let draft = form(alloc, &self.known, &self.past, owner, text)?;
        drop(mem::replace(&mut self.draft, Some(draft)));
        Ok(())
    }

    #[tactic(auto, unfolding(crate::specs::Trace::marked_line))]
    fn add_line(&mut self, alloc: Global, word: &[u8], text: &[u8]) -> Result<(), Fault>
        ensures { Leaves result self.new (marked_line self.old word.now text.now) }
    {
        match &mut self.draft {
            None => Err(Fault::Bad),
            Some(draft) => {
                match add_line(alloc, &mut self.known, &self.past, draft, word, text) {
                    Ok(()) => Ok(()),
                    Err(fault) => {
                        drop(self.draft.take());
                        Err(fault)
                    }
                }
            }
        }
    }

    /// One more line. A line at fault, or want of memory, leaves what is of no use any more.
    #[tactic(auto, unfolding(crate::specs::Trace::next_line, crate::specs::Trace::line_by))]
    pub(crate) fn next(&mut self, alloc: Global, line: &[u8]) -> Result<(), Fault>
        ensures { Leaves result self.new (next_line self.old line.now) }
    {
        let (word, rest) = cut(line, SPACE)?;
        if is_mark(word) {
            self.add_line(alloc, word, rest)
        } else {
            self.begin_entry(alloc, word, rest)
        }
    }

    /// More entries have begun than a history may have.
    pub(crate) fn is_over(&self) -> bool
        ensures { result ≡ is_over self.now }
    {
        let done = self.past.len();
        MOST_ENTRIES < done || (done == MOST_ENTRIES && self.draft.is_some())
    }

    /// The lines end: the history, where no line of an entry is due. Nothing is left here.
    pub(crate) fn end(&mut self, alloc: Global) -> Result<History, Fault>
        ensures { Shows (λ h. h.entries) result (closed self.old) }
    {
        self.close(alloc)?;
        let past = mem::replace(&mut self.past, Past::nothing(alloc));
        Ok(past.into_history())
    }
}
