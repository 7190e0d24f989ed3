// The thirteen events on a book: which function each is, and when none is asked.
ghost use Rattle.std.specs.Prelude.{◌≡◌};
ghost use Rattle.rules.specs.Step.{step};
ghost use Rattle.scalars.specs.Scalars.{done_by};
ghost use Rattle.ledger.specs.Flat.{rows_of, book_of, applied_at, trades_of, applied_of};
ghost use Rattle.ledger.specs.Figures.{CountedWhole};

use crate::days::Calendar;
use crate::figures::KnownFigures;
use crate::layout::{Held, Kinds, Units};
use crate::{close, early, freeze, funds, initial, open, pay, pledge, post, rate, size, withdraw};
use money::refusal::Refusal;
use rules::event::Event;
use scalars::done;
use scalars::done::Done;
use scalars::state::Scalars;

// One event on a fit book; O comes with it, and V where it is known.
#[tactic(auto, using(rules::proofs::FitParts::fit_parts, crate::proofs::StepLaws::leaves_table), unfolding(rules::specs::Step::event_causes, rules::specs::Step::act, money::specs::Causes::first_of))]
fn event_on(
    calendar: &Calendar,
    scalars: Scalars,
    held: &mut Held,
    kinds: &mut Kinds,
    units: &mut Units,
    table: &mut [u64],
    known: KnownFigures,
    event: Event,
) -> Result<Done, Refusal>
    requires { CountedWhole calendar.now scalars held.old kinds.old units.old (trades_of table.old) known }
    ensures { let book = book_of scalars (rows_of held.old kinds.old units.old) in
        let trades = trades_of table.old in
        let next = step calendar.now book trades (Some event) in
        (applied_at (done_by scalars result) (rows_of held.new kinds.new units.new) ≡ applied_of next)
        × (trades_of table.new ≡ next.table) }
{
    match event {
        Event::Open => open::open(calendar, scalars, held, table),
        Event::FundIn(account, amount) => funds::fund_in(scalars, account, amount),
        Event::FundOut(account, amount) => funds::fund_out(scalars, account, amount),
        Event::Size(sheets) => size::set_size(scalars, known.outstanding, sheets),
        Event::Rate(kind, rate) => rate::set_rate(scalars, held, kind, rate),
        Event::Pledge(kind, amount) => pledge::pledge(scalars, held, kind, amount),
        Event::Freeze(kind, amount) => freeze::freeze(scalars, held, kind, amount),
        Event::Withdraw(kind, amount) => withdraw::withdraw(
            scalars, held, kinds, units, kind, amount,
        ),
        Event::Initial(terms) => initial::initial(calendar, scalars, held, table, known, terms),
        Event::Early(contract, count, price) => early::early(
            calendar, scalars, table, contract, count, price,
        ),
        Event::Pay => pay::pay(scalars),
        Event::Close => close::close(calendar, scalars, held, kinds, units, table, known),
        Event::Post(product, posting) => post::post(scalars, held, product, posting),
    }
}

// One entry on a fit book.
pub fn entry_on(
    calendar: &Calendar,
    scalars: Scalars,
    held: &mut Held,
    kinds: &mut Kinds,
    units: &mut Units,
    table: &mut [u64],
    known: KnownFigures,
    entry: Option<Event>,
) -> Done
    requires { CountedWhole calendar.now scalars held.old kinds.old units.old (trades_of table.old) known }
    ensures { let book = book_of scalars (rows_of held.old kinds.old units.old) in
        let trades = trades_of table.old in
        let next = step calendar.now book trades entry in
        (applied_at result (rows_of held.new kinds.new units.new) ≡ applied_of next)
        × (trades_of table.new ≡ next.table) }
{
    let Some(event) = entry else {
        return done::refused(Refusal::Undecodable, scalars);
    };
    let outcome = event_on(calendar, scalars, held, kinds, units, table, known, event);
    done::done_by(scalars, outcome)
}
