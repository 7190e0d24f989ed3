// One entry on a book and its lent table: the trades are copied to the core's numbers, the core acts on these, and its trades are
// copied back. An entry looks at the slots in use and at the next one, so no more than those are copied. A table of more than 4,096 slots
// is answered 1 before anything is copied: no book on it is fit. A run of encoded events is `ledger::lent::run`, headroom and O are
// `ledger::lent::cover`.
ghost use Rattle.std.specs.Prelude.{◌≡◌, ◌+◌, ◌≤◌, min, length};
ghost use Rattle.rules.specs.Limits.{capacity_limit};
ghost use Rattle.rules.specs.Step.{step};
ghost use Rattle.ledger.specs.Flat.{HasSlots, trades_to, applied_of};

use crate::{copies, numbers};
use ledger::layout::WIDTH;
use money::refusal::Refusal;
use rules::answer::Applied;
use rules::book::Book;
use rules::event::Event;
use rules::limits::CAPACITY_LIMIT;
use rules::trade::Trade;
use scalars::done;

// The core on the first `count` trades of a longer row of numbers.
fn apply_first(
    calendar: &[u32],
    book: Book,
    flat: &mut [u64],
    count: usize,
    entry: Option<Event>,
) -> Applied
    requires { HasSlots flat.old count }
    ensures { let trades = trades_to flat.old count in
        let next = step calendar.now book trades entry in
        (result ≡ applied_of next)
        × (trades_to flat.new count ≡ next.table) }
{
    let end = count * WIDTH;
    numbers::apply_flat(calendar, book, &mut flat[..end], entry)
}

// One entry by way of lent numbers, whose old content does not matter.
fn apply_by(
    calendar: &[u32],
    book: Book,
    table: &mut [Trade],
    flat: &mut [u64],
    entry: Option<Event>,
) -> Applied
    requires { HasSlots flat.old (length table.old) }
    ensures { let next = step calendar.now book table.old entry in
        (result ≡ applied_of next)
        × (table.new ≡ next.table) }
{
    let n = table.len();
    copies::copy_in(table, flat);
    let applied = apply_first(calendar, book, flat, n, entry);
    copies::copy_out(flat, table);
    applied
}

// With numbers of its own, of the one size that every table fits.
fn apply_in_numbers(
    calendar: &[u32],
    book: Book,
    table: &mut [Trade],
    entry: Option<Event>,
) -> Applied
    requires { length table.old ≤ capacity_limit }
    ensures { let next = step calendar.now book table.old entry in
        (result ≡ applied_of next)
        × (table.new ≡ next.table) }
{
    let mut flat = [0; CAPACITY_LIMIT * WIDTH];
    apply_by(calendar, book, table, &mut flat, entry)
}

// Those in use and the next one: no entry looks at more.
fn slots_used(book: Book, slots: usize) -> usize
    ensures { result ≡ min (book.trades + 1) slots }
{
    book.trades.saturating_add(1).min(slots)
}

// One entry on any book and any table.
pub fn apply(calendar: &[u32], book: Book, table: &mut [Trade], entry: Option<Event>) -> Applied
    ensures { let next = step calendar.now book table.old entry in
        (result ≡ applied_of next)
        × (table.new ≡ next.table) }
{
    let slots = table.len();
    if slots > CAPACITY_LIMIT {
        return Applied {
            answer: done::answer_of(Refusal::NotFit.into()),
            book,
        };
    }
    let used = slots_used(book, slots);
    apply_in_numbers(calendar, book, &mut table[..used], entry)
}
