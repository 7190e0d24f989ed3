// 1 Open: goes to the next trading day; on turning terminated every trade is redeemed at its fallback price.
ghost use Rattle.std.specs.Prelude.{◌≡◌, ℕ, ◌≤◌, List};
ghost use Rattle.money.specs.Causes.{first_of, refusal_of};
ghost use Rattle.money.specs.Units.{fen};
ghost use Rattle.rules.specs.Status.{status_at_open};
ghost use Rattle.rules.specs.Open.{turns_terminated, opened_standing, fallback_sum, open_causes, turned_book, opened_book, opened_table};
ghost use Rattle.scalars.specs.Scalars.{done_by};
ghost use Rattle.ledger.specs.Flat.{Rows, rows_of, book_of, Fits, FitsHeld, Opening, Ending, applied_at, trades_of, applied_by, table_by};
ghost use Rattle.ledger.specs.Redemption.{amount_bound};

use crate::days::Calendar;
use crate::layout::Held;
use crate::{nets, postings, redemption};
use money::refusal::Refusal;
use money::units::Fen;
use rules::book::{Nets, Phase, Standing};
use scalars::done::Done;
use scalars::state::Scalars;
use scalars::{done, state, status, unpaid};

fn opened_standing(calendar: &Calendar, standing: Standing) -> Standing
    ensures { result ≡ opened_standing calendar.now standing }
{
    Standing {
        day: calendar.next_day(standing.day),
        phase: Phase::Trading,
        status: status::status_at_open(standing.status, standing.failed, standing.short),
        ..standing
    }
}

// Whether the firm turns terminated between two standings.
#[tactic(auto, unfolding(rules::specs::Open::turns_terminated, money::specs::Causes::first_of))]
fn turns_terminated(before: Standing, after: Standing) -> bool
    requires { after.status ≡ status_at_open before.status before.failed before.short }
    ensures { result ≡ turns_terminated before }
{
    !before.is_terminated() && after.is_terminated()
}

// Art. 72: every trade is redeemed whole at its fallback price on the day opened.
fn fallback_sum(calendar: &Calendar, scalars: Scalars, table: &[u64], after: Standing) -> Fen
    requires { Opening calendar.now scalars (trades_of table.now) after }
    ensures { ((rows : Rows) → result ≡ fen (fallback_sum calendar.now (book_of scalars rows) (trades_of table.now)))
        × (result.0 ≤ amount_bound) }
{
    let payment = calendar.payment_day(after.day);
    redemption::termination_plan(table, scalars.trades, payment).amount
}

// On turning terminated the table is emptied into the cleared net and U's cleared part, unless the net or U would leave its limit.
fn terminated(
    calendar: &Calendar,
    scalars: Scalars,
    table: &mut [u64],
    after: Standing,
) -> Result<Done, Refusal>
    requires { Ending calendar.now scalars (trades_of table.old) after }
    ensures { let trades = trades_of table.old in
        ((rows : Rows) →
        let book = book_of scalars rows in
        let cause = first_of (open_causes calendar.now book trades) in
        (applied_at (done_by scalars result) rows ≡ applied_by cause book (turned_book calendar.now book trades))
        × (trades_of table.new ≡ table_by cause trades (opened_table book trades))
        × (refusal_of result ≡ cause)) }
{
    let amount = fallback_sum(calendar, scalars, table, after);
    let cleared = nets::plus(scalars.nets.cleared, amount);
    if !nets::is_fit(cleared) || unpaid::passes(scalars.sums.unpaid, amount) {
        return Err(Refusal::PastLimit);
    }
    // every due day has 32 bits, so every trade is due by the last of them
    redemption::redeem_due(table, scalars.trades, u32::MAX);
    Ok(done::accepted(Scalars {
        nets: Nets {
            cleared,
            ..scalars.nets
        },
        standing: after,
        ..state::with_unpaid(scalars, unpaid::cleared_plus(scalars.sums.unpaid, amount))
    }))
}

// The day opened, with what was posted before.
fn turned(calendar: &Calendar, scalars: Scalars, table: &mut [u64]) -> Result<Done, Refusal>
    requires { Fits calendar.now scalars (trades_of table.old) }
    ensures { let trades = trades_of table.old in
        ((rows : Rows) →
        let book = book_of scalars rows in
        let cause = first_of (open_causes calendar.now book trades) in
        (applied_at (done_by scalars result) rows ≡ applied_by cause book (turned_book calendar.now book trades))
        × (trades_of table.new ≡ table_by cause trades (opened_table book trades))
        × (refusal_of result ≡ cause)) }
{
    let standing = scalars.standing;
    if !standing.is_closed() {
        return Err(Refusal::WrongPhase);
    }
    // before PastLimit, which does not apply where this one does
    if !calendar.opens(standing.day) {
        return Err(Refusal::NoTradingDay);
    }
    let after = opened_standing(calendar, standing);
    if turns_terminated(standing, after) {
        return terminated(calendar, scalars, table, after);
    }
    Ok(done::accepted(Scalars {
        standing: after,
        ..scalars
    }))
}

// What was posted is forgotten, unless Open is refused.
pub fn open(
    calendar: &Calendar,
    scalars: Scalars,
    held: &mut Held,
    table: &mut [u64],
) -> Result<Done, Refusal>
    requires { FitsHeld calendar.now scalars held.old (trades_of table.old) }
    ensures { let trades = trades_of table.old in
        ((kinds units : List ℕ) →
        let book = book_of scalars (rows_of held.old kinds units) in
        let cause = first_of (open_causes calendar.now book trades) in
        (applied_at (done_by scalars result) (rows_of held.new kinds units) ≡ applied_by cause book (opened_book calendar.now book trades))
        × (trades_of table.new ≡ table_by cause trades (opened_table book trades))) }
{
    let opened = turned(calendar, scalars, table)?;
    postings::forget(held);
    Ok(opened)
}
