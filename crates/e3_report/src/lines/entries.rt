// The lines of an entry of a history, as a trace has them.
ghost use Rattle.std.specs.List.{flat_map};
ghost use Rattle.e3_report.specs.Pages.{Adds};
ghost use Rattle.e3_report.specs.lines.Entries.{fall_form, rise_form, failed_rise_form, step_form, form_text, marked_record, packet_line, lines_behind, entry_trace, trace_of};
ghost use Rattle.e3_report.specs.lines.Events.{told_text};
ghost use Rattle.e3_report.specs.lines.Inputs.{input_text};

use crate::Page;
use crate::lines::inputs::push_input;
use crate::lines::listed::{Lines, Marked, push_each, push_marked_lines};
use crate::lines::messages::push_message;
use crate::lines::{push_kept, push_records, push_word_and_parts, push_word_and_why};
use e3_types::{Act, Entry, Input, Packet, Record, Told, Why};

#[tactic(auto, unfolding(crate::specs::lines::Entries::fall_form))]
fn push_fall_form(page: &mut Page, why: Why, count: u64)
    ensures { Adds page.old page.new (fall_form why count) }
{
    push_word_and_why(page, "fall ", why);
    page.labelled(" ", count);
}

#[tactic(auto, unfolding(crate::specs::lines::Entries::rise_form))]
fn push_rise_form(page: &mut Page, inc: u32, kept: bool)
    ensures { Adds page.old page.new (rise_form inc kept) }
{
    page.labelled("rise ", inc as u64);
    push_kept(page, kept);
}

#[tactic(auto, unfolding(crate::specs::lines::Entries::failed_rise_form))]
fn push_failed_rise_form(page: &mut Page, inc: u32, why: Why, kept: bool)
    ensures { Adds page.old page.new (failed_rise_form inc why kept) }
{
    page.labelled("risefall ", inc as u64);
    push_word_and_why(page, " ", why);
    push_kept(page, kept);
}

#[tactic(auto, unfolding(crate::specs::lines::Entries::step_form))]
fn push_step_form(page: &mut Page, input: &Input)
    ensures { Adds page.old page.new (step_form input.now) }
{
    page.text("step ");
    push_input(page, input);
}

#[tactic(auto, unfolding(crate::specs::lines::Entries::form_text, crate::specs::lines::Entries::parts_form))]
fn push_form(page: &mut Page, act: &Act)
    ensures { Adds page.old page.new (form_text act.now) }
{
    match act {
        Act::Step { input, .. } => push_step_form(page, input),
        Act::Fall { inputs, why, .. } => push_fall_form(page, *why, inputs.len()),
        Act::Rise { kept, inc } => push_rise_form(page, *inc, *kept),
        Act::RiseFall { kept, inc, why } => push_failed_rise_form(page, *inc, *why, *kept),
        Act::Miss => page.text("miss"),
        Act::Cut => page.text("cut"),
        Act::Drop { packet } => page.labelled("drop ", *packet),
        Act::Parts { parts } => push_word_and_parts(page, "parts ", parts.as_slice()),
        Act::Line { number } => page.labelled("line ", *number as u64),
    }
}

impl Marked for Input {
    ghost words = { input_text };

    fn push_words(&self, page: &mut Page) {
        push_input(page, self);
    }
}

fn push_marked(page: &mut Page, records: &[Record])
    ensures { Adds page.old page.new (flat_map marked_record records.now) }
{
    push_records(page, "r ", records);
}

impl Lines for Packet {
    ghost lines = { packet_line };

    #[tactic(auto, unfolding(crate::specs::lines::Entries::packet_line))]
    fn push(&self, page: &mut Page) {
        page.labelled("o ", self.number);
        page.labelled(" ", self.to as u64);
        page.text(" ");
        push_message(page, &self.msg);
        page.line_end();
    }
}

impl Marked for Told {
    ghost words = { told_text };

    fn push_words(&self, page: &mut Page) {
        page.told(self);
    }
}

#[tactic(auto, unfolding(crate::specs::lines::Entries::lines_behind, crate::specs::lines::Entries::input_line, crate::specs::lines::Entries::told_mark_line))]
fn push_behind(page: &mut Page, act: &Act)
    ensures { Adds page.old page.new (lines_behind act.now) }
{
    match act {
        Act::Step {
            records,
            outs,
            told,
            ..
        } => {
            push_marked(page, records.as_slice());
            push_each(page, outs.as_slice());
            push_marked_lines(page, "t ", told.as_slice());
        }
        Act::Fall {
            inputs,
            records,
            ..
        } => {
            push_marked_lines(page, "i ", inputs.as_slice());
            push_marked(page, records.as_slice());
        }
        _ => {}
    }
}

impl Lines for Entry {
    ghost lines = { entry_trace };

    #[tactic(auto, unfolding(crate::specs::lines::Entries::entry_trace))]
    fn push(&self, page: &mut Page) {
        page.number(self.owner as u64);
        page.text(" ");
        push_form(page, &self.act);
        page.line_end();
        push_behind(page, &self.act);
    }
}

impl Page {
    /// Adds the lines of each entry. Any list of entries has a trace, also one that is no history.
    pub fn trace(&mut self, history: &[Entry])
        ensures { Adds self.old self.new (trace_of history.now) }
    {
        push_each(self, history);
    }
}
