//! The lines of which a report and a trace are made: the words in them, the items of a step, the records of a log, what
//! happens at a site, and the entries of a history. Each function adds to the end of a page. Words, names, values and
//! digits are read here too.
mod entries;
mod events;
mod inputs;
mod items;
mod listed;
mod messages;
mod records;
mod spelled;
mod texts;

pub(crate) use events::{push_entry, push_word_and_why, push_word_line};
pub(crate) use records::push_records;
pub use spelled::{is_text, name_of, number_of_digits, one_of, place_of, value_of};
pub(crate) use texts::{push_kept, push_word_and_bytes, push_word_and_parts};
