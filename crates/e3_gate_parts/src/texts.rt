// Words of the input, and what cases of several parts print. The page remembers it where memory is lacking for what is read. A line
// of cases has pieces between bars: a piece behind `=` is printed as it stands, a piece `/` ends a line of the output, and each
// other piece says what is done: its first letter tells it from others.
use e3_report::Page;
use e3_types::{List, NoMemory, SiteSet, State, Txn};
use std::alloc::Global;

/// A list of these bytes.
pub fn bytes_of(alloc: Global, bytes: &[u8]) -> Result<List<u8>, NoMemory> {
    let mut list = List::new(alloc);
    list.extend(bytes)?;
    Ok(list)
}

/// A list of a number; an empty one for 0.
pub fn only(alloc: Global, number: u64) -> Result<List<u64>, NoMemory> {
    let mut list = List::new(alloc);
    if number > 0 {
        list.push(number)?;
    }
    Ok(list)
}

/// What stands before the first such byte, and what stands behind it.
pub fn cut(line: &[u8], mark: u8) -> (&[u8], &[u8]) {
    for at in 0..line.len() {
        if line[at] == mark {
            return (&line[..at], &line[at + 1..]);
        }
    }
    (line, b"")
}

/// The first letter of a word; 0 for none.
pub fn letter_of(word: &[u8]) -> u8 {
    match word {
        [letter, ..] => *letter,
        [] => 0,
    }
}

/// The parts of a text between such bytes.
pub fn parts_of<'a>(alloc: Global, page: &mut Page, text: &'a [u8], mark: u8) -> Vec<&'a [u8]> {
    let mut parts = Vec::new(alloc);
    let mut start = 0;
    for at in 0..=text.len() {
        if at == text.len() || text[at] == mark {
            if parts.push(text.get(start..at).unwrap_or(b"")).is_err() {
                page.lack();
            }
            start = at + 1;
        }
    }
    parts
}

/// The lines of a text, each with its line feed.
pub fn lines_of<'a>(alloc: Global, page: &mut Page, text: &'a [u8]) -> Vec<&'a [u8]> {
    let mut lines = Vec::new(alloc);
    let mut start = 0;
    for at in 0..text.len() {
        if text[at] == b'\n' || at + 1 == text.len() {
            if lines.push(text.get(start..=at).unwrap_or(b"")).is_err() {
                page.lack();
            }
            start = at + 1;
        }
    }
    lines
}

/// A number; 0 where the word is none.
pub fn number(word: &[u8]) -> u64 {
    match str::from_utf8(word) {
        Ok(word) => word.parse::<u64>().unwrap_or(0),
        Err(_) => 0,
    }
}

/// A number of 32 bits; 0 where the word is none.
pub fn small(word: &[u8]) -> u32 {
    number(word).min(4_294_967_295) as u32
}

/// The three numbers of a word, with colons between them; 0 for each that is missing.
pub fn triple(word: &[u8]) -> (u32, u32, u32) {
    let (first, rest) = cut(word, b':');
    let (second, third) = cut(rest, b':');
    (small(first), small(second), small(third))
}

/// The numbers of a text with commas between them; none for an empty text.
pub fn numbers_of(alloc: Global, page: &mut Page, text: &[u8]) -> List<u32> {
    let mut numbers = List::new(alloc);
    let words = parts_of(alloc, page, text, b',');
    for word in &words {
        if !word.is_empty() && numbers.push(small(word)).is_err() {
            page.lack();
        }
    }
    numbers
}

/// The sites of a text with commas between them; no site where they are not a set.
pub fn set_of(alloc: Global, page: &mut Page, text: &[u8]) -> SiteSet {
    let sites = numbers_of(alloc, page, text);
    SiteSet::of(sites.as_slice()).unwrap_or(SiteSet::empty())
}

/// The state of this name, as reports have it.
pub fn state_of(name: &[u8]) -> State {
    match name {
        [b'w'] => State::W,
        [b'c'] => State::C,
        [b'a'] => State::A,
        [b'p', b'c'] => State::Pc,
        [b'p', b'a'] => State::Pa,
        _ => State::Q,
    }
}

/// The transaction that begins as the n-th at site 1, over these sites.
pub fn txn_of(seq: u32, sites: SiteSet) -> Txn {
    Txn {
        site: 1,
        inc: 1,
        seq,
        sites,
    }
}

fn half_byte(digit: u8) -> u8 {
    match digit {
        b'0'..=b'9' => digit - b'0',
        b'A'..=b'F' => digit - b'A' + 10,
        _ => 0,
    }
}

/// The bytes that digits spell, two for each.
pub fn spelled_by(alloc: Global, page: &mut Page, digits: &[u8]) -> List<u8> {
    let mut bytes = List::new(alloc);
    let mut high = None;
    for digit in digits {
        match high {
            None => high = Some(half_byte(*digit)),
            Some(first) => {
                let byte = (first % 16) * 16 + half_byte(*digit) % 16;
                if bytes.push(byte).is_err() {
                    page.lack();
                }
                high = None;
            }
        }
    }
    bytes
}

/// Adds a piece that is a text or the end of a line; whether it is one.
pub fn push_text(page: &mut Page, piece: &[u8]) -> bool {
    match piece {
        [b'=', text @ ..] => page.bytes(text),
        [b'/'] => page.text("\n"),
        _ => return false,
    }
    true
}

/// Adds bytes as two digits each, and ends the line.
pub fn push_hex(page: &mut Page, bytes: &[u8]) {
    page.hex(bytes);
    page.text("\n");
}

/// Adds a word behind a space.
pub fn push_word(page: &mut Page, word: &str) {
    page.text(" ");
    page.text(word);
}

/// Adds whether something holds.
pub fn push_flag(page: &mut Page, holds: bool) {
    push_word(page, if holds { "yes" } else { "no" });
}

/// Adds a number behind a space, or a dash for none.
pub fn push_known(page: &mut Page, number: Option<u32>) {
    match number {
        Some(number) => page.labelled(" ", u64::from(number)),
        None => push_word(page, "-"),
    }
}

/// Adds a transaction behind a space.
pub fn push_txn(page: &mut Page, txn: &Txn) {
    page.text(" ");
    page.txn(txn);
}

/// Adds how many there are behind their label.
pub fn push_count<T: Drop>(page: &mut Page, label: &str, all: Result<List<T>, NoMemory>) {
    match all {
        Ok(all) => page.labelled(label, all.len()),
        Err(NoMemory) => page.lack(),
    }
}
