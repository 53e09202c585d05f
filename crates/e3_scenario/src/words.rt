// The text of an item, cut into words.
ghost use Rattle.std.specs.Prelude.{◌≡◌, ◌<◌, length, IfSome, option_copied};
ghost use Rattle.std.specs.List.{list_all};
ghost use Rattle.e3_scenario.specs.Words.{is_printable, before, after, rest, word};

use e3_report::lines::place_of;

/// The byte between two words.
pub const SPACE: u8 = b' ';

/// The byte between the site and the name of a key.
pub const POINT: u8 = b'.';

/// The byte between two sites of a list.
pub const COMMA: u8 = b',';

/// The byte between two parts of the network.
pub const BAR: u8 = b'|';

/// The byte may stand in an item.
pub fn is_printable(byte: u8) -> bool
    ensures { result ≡ is_printable byte }
{
    (b' '..=b'~').contains(&byte)
}

/// Each byte may stand in an item.
pub fn is_all_printable(text: &[u8]) -> bool
    ensures { result ≡ list_all is_printable text.now }
{
    text.iter().all(|b| is_printable(*b))
}

/// What stands before the first byte of this kind, or all where there is none.
pub fn before(text: &[u8], mark: u8) -> &[u8]
    ensures { result.now ≡ before mark text.now }
{
    match place_of(text, mark) {
        Some(place) => &text[..place],
        None => text,
    }
}

/// What stands behind the first byte of this kind.
pub fn after(text: &[u8], mark: u8) -> Option<&[u8]>
    ensures value { option_copied result ≡ after mark text.now }
    ensures shorter { IfSome result (λ left. length left.now < length text.now) }
{
    match place_of(text, mark) {
        Some(place) => Some(&text[place + 1..]),
        None => None,
    }
}

/// What stands behind the first `count` words and the space after each.
pub fn rest(text: &[u8], count: usize) -> Option<&[u8]>
    ensures { option_copied result ≡ rest count text.now }
{
    let mut left = text;
    for _ in 0..count {
        left = after(left, SPACE)?;
    }
    Some(left)
}

/// The word at a place, counted from 0.
pub fn word(text: &[u8], place: usize) -> Option<&[u8]>
    ensures { option_copied result ≡ word place text.now }
{
    Some(before(rest(text, place)?, SPACE))
}
