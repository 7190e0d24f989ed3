// A whole book over a table in numbers: taken apart, handed to the core, and put together again.
ghost use Rattle.std.specs.Prelude.{◌≡◌, ◌%◌, length};
ghost use Rattle.rules.specs.Step.{step};
ghost use Rattle.ledger.specs.Flat.{width, trades_of, applied_of};

use ledger::{lent, split};
use rules::answer::Applied;
use rules::book::Book;
use rules::event::Event;

pub fn apply_flat(calendar: &[u32], book: Book, table: &mut [u64], entry: Option<Event>) -> Applied
    requires { length table.old % width ≡ 0 }
    ensures { let trades = trades_of table.old in
        let next = step calendar.now book trades entry in
        (result ≡ applied_of next)
        × (trades_of table.new ≡ next.table) }
{
    let scalars = split::scalars_of(book);
    let mut held = split::held_of(book.vault, book.postings);
    let mut kinds = split::kinds_of(book.withdrawals);
    let mut units = split::units_of(book.withdrawals);
    let done = lent::apply(
        calendar, scalars, &mut held, &mut kinds, &mut units, table, entry,
    );
    Applied {
        answer: done.answer,
        book: split::book_of(done.scalars, &held, kinds, units),
    }
}
