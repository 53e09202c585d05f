// The texts that a run itself writes.
ghost use Rattle.std.specs.Prelude.{◌≡◌, IfOk};
ghost use Rattle.e3_top.specs.Words.{refused_history_full, refused_words};

use e3_types::{List, NoMemory};
use std::alloc::Global;

// A line of this text.
fn line(alloc: Global, text: &[u8]) -> Result<List<u8>, NoMemory>
    ensures { IfOk result (λ line. line ≡ text.now) }
{
    let mut line = List::new(alloc);
    line.extend(text)?;
    Ok(line)
}

/// The line that is written for words that ask for nothing.
#[tactic(auto, unfolding(crate::specs::Words::refused_words))]
pub fn refused_words(alloc: Global) -> Result<List<u8>, NoMemory>
    ensures { IfOk result (λ line. line ≡ refused_words) }
{
    line(alloc, b"refused words\n")
}

/// The line that is written where the history may have no more entries.
#[tactic(auto, unfolding(crate::specs::Words::refused_history_full))]
pub fn refused_history_full(alloc: Global) -> Result<List<u8>, NoMemory>
    ensures { IfOk result (λ line. line ≡ refused_history_full) }
{
    line(alloc, b"refused history-full\n")
}
