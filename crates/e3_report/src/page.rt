// A text that grows, and remembers whether memory was lacking for any of it. So what adds to it answers nothing, and only its end
// asks. Reports are made so, and what a program of the gate prints, part by part.
ghost use Rattle.std.specs.Prelude.{◌≡◌, ◌↔◌, ◌++◌, [], false, IfOk, IsErr};
ghost use Rattle.std.specs.Fmt.{decimal};
ghost use Rattle.e3_report.specs.lines.Texts.{line_end};
ghost use Rattle.e3_report.specs.Pages.{Adds, Reads};

mod programs;

use e3_types::{List, NoMemory};
use std::alloc::Global;

/// A text that grows.
#[derive(Drop)]
pub struct Page {
    text: List<u8>,
    is_whole: bool,
}

impl Page {
    /// Nothing yet.
    pub fn new(alloc: Global) -> Page
        ensures { Reads result [] }
    {
        Page {
            text: List::new(alloc),
            is_whole: true,
        }
    }

    /// Memory was never lacking.
    pub fn is_whole(&self) -> bool
        ensures { result ≡ self.now.is_whole }
    {
        self.is_whole
    }

    /// What the page has so far, where memory was never lacking.
    pub fn as_slice(&self) -> &[u8]
        ensures { result.now ≡ self.now.text }
    {
        self.text.as_slice()
    }

    /// All of it; want of memory exactly where it was lacking for any of it.
    pub fn done(self) -> Result<List<u8>, NoMemory>
        ensures all { IfOk result (Reads self) }
        ensures lacking { IsErr result ↔ self.is_whole ≡ false }
    {
        if self.is_whole {
            Ok(self.text)
        } else {
            Err(NoMemory)
        }
    }

    /// Memory was lacking for what should stand here.
    pub fn lack(&mut self)
        ensures lacks { self.new.is_whole ≡ false }
        ensures same { self.new.text ≡ self.old.text }
    {
        self.is_whole = false;
    }

    /// Adds bytes.
    pub fn bytes(&mut self, bytes: &[u8])
        ensures { Adds self.old self.new bytes.now }
    {
        if self.is_whole {
            self.is_whole = self.text.extend(bytes).is_ok();
        }
    }

    /// Adds a text.
    pub fn text(&mut self, text: &str)
        ensures { Adds self.old self.new text.now }
    {
        self.bytes(text.as_bytes());
    }

    /// Adds what another page has.
    pub fn page(&mut self, other: &Page)
        ensures all { Adds self.old self.new other.now.text }
        ensures lacks { other.now.is_whole ≡ false → self.new.is_whole ≡ false }
    {
        self.bytes(other.text.as_slice());
        if !other.is_whole {
            self.is_whole = false;
        }
    }

    /// Adds a number in decimal digits.
    #[tactic(auto, using(std::proofs::lemmas::Fmt::decimal_digit, std::proofs::lemmas::Fmt::decimal_step, crate::proofs::lines::Appends::join_two))]
    pub fn number(&mut self, number: u64)
        ensures { Adds self.old self.new (decimal number) }
    {
        if number < 10 {
            self.bytes(&[48 + number as u8]);
        } else {
            self.number(number / 10);
            self.bytes(&[48 + (number % 10) as u8]);
        }
    }

    /// Adds a number in decimal digits behind its label.
    pub fn labelled(&mut self, label: &str, number: u64)
        ensures { Adds self.old self.new (label.now ++ decimal number) }
    {
        self.text(label);
        self.number(number);
    }

    /// Ends a line.
    #[tactic(auto, unfolding(crate::specs::lines::Texts::line_end))]
    pub fn line_end(&mut self)
        ensures { Adds self.old self.new line_end }
    {
        self.text("\n");
    }

    /// Adds a line that is this text.
    pub fn line(&mut self, text: &str)
        ensures { Adds self.old self.new (text.now ++ line_end) }
    {
        self.text(text);
        self.line_end();
    }
}
