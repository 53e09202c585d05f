// What programs of the gate are given, and how they end.
use crate::page::Page;
use e3_types::NoMemory;
use std::alloc::Global;
use std::io::{self, Read, Write};
use std::process::ExitCode;

/// The status of a program whose page can't be written.
const NO_OUTPUT: u8 = 4;

/// The status of a program that lacked memory for its page, or could not read its input.
const NO_MEMORY: u8 = 5;

const DIGITS: &[u8; 16] = b"0123456789ABCDEF";

fn digit(value: u8) -> u8 {
    DIGITS.get(usize::from(value)).copied().unwrap_or(b'?')
}

// What stands in a text behind the line `== NAME`, up to the next line that begins so.
fn part_of(alloc: Global, text: &[u8], name: &[u8]) -> Page {
    let mut part = Page::new(alloc);
    let mut is_in = false;
    for line in text.split_inclusive(|byte| *byte == b'\n') {
        match line.strip_prefix(b"== ") {
            Some(other) => is_in = other.strip_suffix(b"\n").unwrap_or(other) == name,
            None => {
                if is_in {
                    part.bytes(line);
                }
            }
        }
    }
    part
}

impl Page {
    /// All that a reader gives; where it fails, memory counts as lacking.
    pub fn read<R: Read + Drop>(alloc: Global, mut reader: R) -> Page {
        let mut page = Page::new(alloc);
        let mut bytes = Vec::new(alloc);
        match reader.read_to_end(&mut bytes) {
            Ok(_) => page.bytes(&bytes),
            Err(_) => page.lack(),
        }
        page
    }

    /// Begins the part of this name, and answers what the input has in it: what stands behind the line `== NAME`, up to the next
    /// line that begins so.
    pub fn part(&mut self, alloc: Global, input: &Page, name: &str) -> Page {
        self.text("== ");
        self.text(name);
        self.text("\n");
        let part = part_of(alloc, input.as_slice(), name.as_bytes());
        if !input.is_whole() || !part.is_whole() {
            self.lack();
        }
        part
    }

    /// Adds bytes as two digits each.
    pub fn hex(&mut self, bytes: &[u8]) {
        for byte in bytes {
            self.bytes(&[digit(*byte / 16), digit(*byte % 16)]);
        }
    }

    /// Prints the page, and answers how its program ends: with 4 where it can't be written, and with 5, and without a byte, where
    /// memory was lacking.
    pub fn print<R: Print>(self, rt: &R) -> ExitCode {
        match self.done() {
            Ok(text) => match io::writer(rt).write_all(text.as_slice()) {
                Ok(()) => ExitCode::SUCCESS,
                Err(_) => ExitCode::from(NO_OUTPUT),
            },
            Err(NoMemory) => ExitCode::from(NO_MEMORY),
        }
    }
}
