// What texts spell: words, names, values, and numbers in digits.
ghost use Rattle.std.specs.Prelude.{◌≡◌, ◌==◌, ◌<◌, ◌≤◌, IfSome, bytes_eq, length, position};
ghost use Rattle.e3_report.specs.lines.Spelled.{one_of, name_of, value_of, digits_from};

use e3_types::{Name, Val};

/// The two texts have the same bytes.
pub fn is_text(text: &[u8], wanted: &str) -> bool
    ensures { result ≡ bytes_eq text.now wanted.now }
{
    text == wanted.as_bytes()
}

/// What the text stands for, where it is one of these words.
pub fn one_of<T: Copy>(text: &[u8], words: &[(&str, T)]) -> Option<T>
    ensures { result ≡ one_of text.now words.now }
{
    for word in words {
        if is_text(text, word.0) {
            return Some(word.1);
        }
    }
    None
}

/// The place of the first byte of this kind.
pub fn place_of(text: &[u8], mark: u8) -> Option<usize>
    ensures value { result ≡ position (λ b. b == mark) text.now }
    ensures within { IfSome result (λ place. place < length text.now) }
{
    text.iter().position(|b| *b == mark)
}

/// The name that a text is.
pub fn name_of(text: &[u8]) -> Option<Name>
    ensures { result ≡ name_of text.now }
{
    Name::new(text)
}

/// The value that a text is.
pub fn value_of(text: &[u8]) -> Option<Val>
    ensures { result ≡ value_of text.now }
{
    Val::new(text)
}

/// The number that the digits of a text make, where it is not above `most`; no digits make 0.
pub fn number_of_digits(text: &[u8], most: u64) -> Option<u64>
    ensures value { result ≡ digits_from most 0 text.now }
    ensures within { IfSome result (λ n. n ≤ most) }
{
    let mut number = 0u64;
    for byte in text {
        if !byte.is_ascii_digit() {
            return None;
        }
        let digit = u64::from(*byte - b'0');
        if digit > most || number > (most - digit) / 10 {
            return None;
        }
        number = number * 10 + digit;
    }
    Some(number)
}
