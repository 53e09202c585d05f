// A text, cut at the bytes of one kind.
ghost use Rattle.std.specs.Prelude.{◌≡◌, ◌<◌, length, IfOk, IfErr};
ghost use Rattle.e3_trace.specs.Cuts.{cut, rest_behind, Shows};

use crate::faults::Fault;
use e3_report::lines::{is_text, place_of};

/// The byte between two words.
pub(crate) const SPACE: u8 = b' ';

/// The byte between the parts of a transaction's name, and before the name of a key.
pub(crate) const POINT: u8 = b'.';

/// The byte between two numbers of a list.
pub(crate) const COMMA: u8 = b',';

/// The byte between two parts of the network.
pub(crate) const BAR: u8 = b'|';

/// The byte that ends a line.
pub(crate) const FEED: u8 = b'\n';

/// What stands before the first byte of this kind, and what stands behind it.
#[tactic(auto, using(crate::proofs::Places::cut_none, crate::proofs::Places::cut_some))]
pub(crate) fn cut(text: &[u8], mark: u8) -> Result<(&[u8], &[u8]), Fault>
    ensures gives { Shows (λ x. (x.0.now, x.1.now)) result (cut mark text.now) }
    ensures sure { IfErr result (λ e. e ≡ Fault.Bad) }
    ensures shorter { IfOk result (λ x. length x.1.now < length text.now) }
{
    match place_of(text, mark) {
        Some(place) => Ok((&text[..place], &text[place + 1..])),
        None => Err(Fault::Bad),
    }
}

/// What stands behind this word and a space, if the text begins with them.
pub(crate) fn behind<'a>(text: &'a [u8], wanted: &str) -> Result<&'a [u8], Fault>
    ensures gives { Shows (λ x. x.now) result (rest_behind wanted.now text.now) }
    ensures sure { IfErr result (λ e. e ≡ Fault.Bad) }
{
    let (word, rest) = cut(text, SPACE)?;
    if is_text(word, wanted) {
        Ok(rest)
    } else {
        Err(Fault::Bad)
    }
}
