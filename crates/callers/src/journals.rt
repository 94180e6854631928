//! A caller of `hull_book`.
ghost use Rattle.std.specs.Prelude.{IfOk};
ghost use Rattle.hull_book.specs.Books.{IsLawful, Serves};
ghost use Rattle.hull_book.specs.Ledgers.{IsLedger};

use hull_book::{Book, Call, JournalFull, Ledger, Reply};
use hull_set::HullSet;

/// Serves a call of seat 0, which becomes the next line of the journal, and asks the set for its count, without a line. `Book::open` returns the book
/// and the ledgers; at the end `gather` takes the ledgers, and `into_journal` ends the book.
pub fn serve_and_count<S: HullSet + Drop>(
    book: &mut Book<S>,
    ledger: &mut Ledger,
    call: Call,
) -> Result<(Reply, u32), JournalFull>
    requires lawful { IsLawful S.HullSet book.old }
    requires ledger { IsLedger book.old 0 ledger.old }
    ensures served { IfOk result (λ r. Serves S.HullSet book.old book.new 0 call r.0) }
    ensures lawful { IsLawful S.HullSet book.new }
    ensures ledger { IsLedger book.new 0 ledger.new }
{
    let reply = book.serve(0, call, ledger)?;
    Ok((reply, book.set().count()))
}
