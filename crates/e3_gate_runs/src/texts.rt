// Words of the input.

/// What stands before the first such byte, and what stands behind it.
pub fn cut(line: &[u8], mark: u8) -> (&[u8], &[u8]) {
    let mut halves = line.splitn(2, |byte| *byte == mark);
    (halves.next().unwrap_or(b""), halves.next().unwrap_or(b""))
}

/// A line without its end.
pub fn without_end(line: &[u8]) -> &[u8] {
    line.strip_suffix(b"\n").unwrap_or(line)
}

/// Without the space that it begins with.
pub fn without_space(text: &[u8]) -> &[u8] {
    text.strip_prefix(b" ").unwrap_or(text)
}

/// A number; 0 where the word is none.
pub fn number(word: &[u8]) -> u64 {
    match str::from_utf8(word) {
        Ok(text) => text.parse::<u64>().unwrap_or(0),
        Err(_) => 0,
    }
}
