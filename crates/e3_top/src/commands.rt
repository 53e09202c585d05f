// The command that words spell.
ghost use Rattle.std.specs.Prelude.{◌≡◌, ◌↔◌, ◌<◌, ◌∷◌, [], ℕ, IsTrue, IsNone, IfSome, get_or, string_bytes};
ghost use Rattle.std.specs.Fmt.{decimal};
ghost use Rattle.e3_top.specs.Commands.{Spell, IsCommand, IsNumber, HasNumber, words_of};

/// The greatest number of a generated scenario.
const MOST: u32 = 1_000;

/// What the program is asked for.
#[derive(Clone, Copy)]
pub enum Command {
    /// The run of a scenario, with its trace or without.
    Run { trace: bool },
    /// The generated scenario of this number, 1 to 1,000.
    Gen { n: u32 },
    /// The run of the generated scenario of this number, 1 to 1,000.
    Drill { n: u32 },
    /// The verdict on a printed history.
    Check,
}

fn is_word(word: &String, text: &str) -> bool
    ensures { IsTrue result ↔ (string_bytes word.now ≡ text.now) }
{
    word.as_str() == text
}

// The first byte is greater than that of 0, as is that of a number without leading zeros; a plus is less.
fn begins_above_zero(word: &String) -> bool
    ensures { IsTrue result ↔ (48 < get_or (string_bytes word.now) 0 0) }
{
    match word.as_str().as_bytes() {
        [first, ..] => *first > b'0',
        [] => false,
    }
}

// A number from 1 to 1,000 without leading zeros.
fn number(word: &String) -> Option<u32>
    ensures some { IfSome result (λ n. IsNumber n × (string_bytes word.now ≡ decimal n)) }
    ensures none { IsNone result → (n : ℕ) → IsNumber n → ¬ (string_bytes word.now ≡ decimal n) }
{
    if !begins_above_zero(word) {
        return None;
    }
    match word.as_str().parse::<u32>() {
        Ok(n) if 1 <= n && n <= MOST => Some(n),
        _ => None,
    }
}

// The command of one word.
fn read_one(word: &String) -> Option<Command>
    ensures some { IfSome result (λ c. HasNumber c × (string_bytes word.now ∷ [] ≡ words_of c)) }
    ensures none { IsNone result → (c : Command) → ¬ (string_bytes word.now ∷ [] ≡ words_of c) }
{
    if is_word(word, "run") {
        Some(Command::Run { trace: false })
    } else if is_word(word, "check") {
        Some(Command::Check)
    } else {
        None
    }
}

// The command of two words.
fn read_two(word: &String, more: &String) -> Option<Command>
    ensures some { IfSome result (λ c. HasNumber c × (string_bytes word.now ∷ string_bytes more.now ∷ [] ≡ words_of c)) }
    ensures none { IsNone result → (c : Command) → HasNumber c → ¬ (string_bytes word.now ∷ string_bytes more.now ∷ [] ≡ words_of c) }
{
    if is_word(word, "run") && is_word(more, "--trace") {
        Some(Command::Run { trace: true })
    } else if is_word(word, "gen") {
        Some(Command::Gen { n: number(more)? })
    } else if is_word(word, "drill") {
        Some(Command::Drill { n: number(more)? })
    } else {
        None
    }
}

/// The command that the words behind the program's name spell. None exactly for other words.
pub fn read_words(words: &[String]) -> Option<Command>
    ensures command { IfSome result (Spell words.now) }
    ensures none { IsNone result → ¬ IsCommand words.now }
{
    match words {
        [word] => read_one(word),
        [word, more] => read_two(word, more),
        _ => None,
    }
}
