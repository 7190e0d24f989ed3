// A caller's table of structs, lent to the book: what `book::table::apply` promises of a slice, run on an array of four slots.
ghost use Rattle.std.specs.Prelude.{◌≡◌};
ghost use Rattle.rules.specs.Step.{step};
ghost use Rattle.cases.specs.Ledger.{ledger_of};

use crate::worked::WEEK;
use money::units::{Sheets, Ticks};
use rules::answer::{Answer, Applied};
use rules::book::Book;
use rules::event::Event;
use rules::trade::{Contract, Terms, Trade};

#[derive(Clone, Copy)]
struct Ledger {
    answer: Answer,
    book: Book,
    table: [Trade; 4],
}

fn left(applied: Applied, table: [Trade; 4]) -> Ledger
    ensures { result ≡ record { answer = applied.answer; book = applied.book; table = table } }
{
    Ledger {
        answer: applied.answer,
        book: applied.book,
        table,
    }
}

fn apply(calendar: &[u32], book: Book, mut table: [Trade; 4], entry: Option<Event>) -> Ledger
    ensures { result ≡ ledger_of (step calendar.now book table entry) }
{
    let applied = book::table::apply(calendar, book, &mut table, entry);
    left(applied, table)
}

// Eight events on a fresh book, each accepted: the trade stands in the first slot.
#[tactic(auto, using(crate::proofs::LedgerLaws::reached, crate::proofs::LedgerLaws::onward, crate::proofs::LedgerLaws::accepted, crate::proofs::LedgerLaws::asked, crate::proofs::LedgerLaws::first_slot), unfolding(crate::proofs::LedgerLaws::reached))]
pub fn first_trade() {
    let terms = Terms {
        contract: Contract(7),
        sheets: Sheets(100),
        price: Ticks(3_650),
        fallback: Ticks(1_000),
        due: 4,
        product: 0,
    };
    let none = Trade {
        contract: Contract(0),
        sheets: Sheets(0),
        price: Ticks(0),
        fallback: Ticks(0),
        first: 0,
        due: 0,
        product: 0,
    };
    let events = [
        Event::Size(Sheets(1_000)),
        Event::Rate(0, 9_000),
        Event::Open,
        Event::Pledge(0, 200),
        Event::Pay,
        Event::Close,
        Event::Open,
        Event::Initial(terms),
    ];
    let mut book = rules::book::fresh();
    let mut table = [none; 4];
    for event in &events {
        let next = apply(&WEEK, book, table, Some(*event));
        check::expect(next.answer.number == 0);
        book = next.book;
        table = next.table;
    }
    let trade = table[0];
    check::expect(trade.contract.0 == 7);
    check::expect(trade.sheets.0 == 100);
    check::expect(trade.first == 3);
    check::expect(trade.due == 4);
}
