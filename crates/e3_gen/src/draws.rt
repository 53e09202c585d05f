// The words that are drawn for transactions.
ghost use Rattle.std.specs.Prelude.{◌≡◌};
ghost use Rattle.e3_gen.specs.Draws.{generator_of, word, behind_word, record_words, behind_record, txn_words, behind_txn};

use rand_core::utils::NextWord;
use rand_pcg::Lcg64Xsh32;

/// The words of a record: for its name and for its value.
#[derive(Clone, Copy)]
pub struct RecordWords {
    pub name: u32,
    pub value: u32,
}

/// The words of a transaction: for its coordinator, and for the record of each of its sites.
#[derive(Clone, Copy)]
pub struct TxnWords {
    pub coordinator: u32,
    pub records: [RecordWords; 3],
}

/// The generator of a number.
pub fn generator_of(n: u32) -> Lcg64Xsh32
    ensures { result ≡ generator_of n }
{
    Lcg64Xsh32::new(n as u64, 1)
}

#[tactic(auto, unfolding(crate::specs::Draws::word, crate::specs::Draws::behind_word))]
fn draw(generator: &mut Lcg64Xsh32) -> u32
    ensures value { result ≡ word generator.old }
    ensures behind { generator.new ≡ behind_word generator.old }
{
    generator.next_word()
}

fn draw_record(generator: &mut Lcg64Xsh32) -> RecordWords
    ensures value { result ≡ record_words generator.old }
    ensures behind { generator.new ≡ behind_record generator.old }
{
    let name = draw(generator);
    let value = draw(generator);
    RecordWords { name, value }
}

/// The words of the next transaction.
pub fn draw_txn(generator: &mut Lcg64Xsh32) -> TxnWords
    ensures value { result ≡ txn_words generator.old }
    ensures behind { generator.new ≡ behind_txn generator.old }
{
    let coordinator = draw(generator);
    let first = draw_record(generator);
    let second = draw_record(generator);
    let third = draw_record(generator);
    TxnWords {
        coordinator,
        records: [first, second, third],
    }
}
