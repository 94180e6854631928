ghost use Rattle.std.specs.Prelude.{◌≡◌, ◌^◌, ◌<◌, length};
ghost use Rattle.hull_book.specs.Books.{IsLawful};
ghost use Rattle.hull_book.specs.Ledgers.{AreAllLedgers, sum_of_counts};

use super::journaled_book::JournaledBook;
use super::ledger::Ledger;

/// Returns the sum of the counts of the ledgers, and drops them.
fn sum_of(mut ledgers: Vec<Ledger>) -> u64
    requires { sum_of_counts ledgers.items < 2 ^ 64 }
    ensures { result ≡ sum_of_counts ledgers.items }
{
    let mut sum = 0u64;
    while let Some(ledger) = ledgers.pop() {
        let Ledger { seat: _, count } = ledger;
        sum += count;
    }
    ledgers.destroy_empty();
    sum
}

/// Returns the sum of the counts of all ledgers of a book, in any order: the length of its whole journal, including the lines that were taken out.
pub fn gather<B: JournaledBook>(book: &B, ledgers: Vec<Ledger>) -> u64
    requires lawful { IsLawful B.Set.HullSet (B.whole book.now) }
    requires ledgers { AreAllLedgers (B.whole book.now) ledgers.items }
    ensures sum { result ≡ sum_of_counts ledgers.items }
    ensures length { result ≡ length (B.lines book.now) }
{
    let _allowed = book.allowed();
    sum_of(ledgers)
}
