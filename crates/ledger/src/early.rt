// 10 Early: takes sheets off a trade at the price given; the amount joins today's net, and U.
ghost use Rattle.std.specs.Prelude.{◌≡◌, ◌≤◌, IfOk};
ghost use Rattle.money.specs.Causes.{first_of, refusal_of};
ghost use Rattle.money.specs.Units.{fen};
ghost use Rattle.rules.specs.Early.{order_causes, named_causes, take_causes, early_amount, early_causes, early_book, early_table};
ghost use Rattle.scalars.specs.Scalars.{done_by};
ghost use Rattle.ledger.specs.Types.{Contract};
ghost use Rattle.ledger.specs.Flat.{HasSlots, StandsAt, Rows, book_of, Fits, Running, applied_at, trades_of, applied_by, table_by};
ghost use Rattle.ledger.specs.Redemption.{amount_bound};

use crate::days::Calendar;
use crate::{days, flat, nets, redemption, trades};
use money::limits::PRICE_LIMIT;
use money::refusal::Refusal;
use money::units::{Fen, Sheets, Ticks};
use rules::book::Nets;
use rules::trade::Contract;
use scalars::done::Done;
use scalars::state::Scalars;
use scalars::{done, state, unpaid};

// The causes, group by group as the rules have them: when sheets may be redeemed and how many at which price, the contract's
// trade, and what is taken from it.
#[tactic(auto, unfolding(money::specs::Causes::first_of))]
fn order_refusal(scalars: Scalars, count: Sheets, price: Ticks) -> Result<(), Refusal>
    ensures { (rows : Rows) → refusal_of result ≡ first_of (order_causes (book_of scalars rows) count price) }
{
    let standing = scalars.standing;
    if !standing.is_trading() {
        return Err(Refusal::WrongPhase);
    }
    if standing.is_terminated() {
        return Err(Refusal::PermissionEnded);
    }
    if count.0 == 0 {
        return Err(Refusal::BadCount);
    }
    if price.0 > PRICE_LIMIT {
        return Err(Refusal::BadPrice);
    }
    Ok(())
}

// Where the contract's trade stands. Only a trade on the table can be past due, so it is looked for first; out of line, as each search is.
#[inline(never)]
fn named_place(scalars: Scalars, table: &[u64], contract: Contract) -> Result<usize, Refusal>
    requires { HasSlots table.now scalars.trades }
    ensures refused { (rows : Rows) → refusal_of result ≡ first_of (named_causes (book_of scalars rows) (trades_of table.now) contract) }
    ensures place { IfOk result (StandsAt table.now scalars.trades contract) }
{
    let place = trades::place_of(table, scalars.trades, contract).ok_or(Refusal::BadContract)?;
    if flat::due_at(table, place) <= days::day_number(scalars.standing.day) {
        return Err(Refusal::BadDueDay);
    }
    Ok(place)
}

// What sheets of the trade at a place are redeemed for, from its first payment day to today's.
fn early_amount(
    calendar: &Calendar,
    scalars: Scalars,
    table: &[u64],
    place: usize,
    count: Sheets,
    price: Ticks,
) -> Result<Fen, Refusal>
    requires { Running calendar.now scalars table.now place price }
    ensures { (rows : Rows) (contract : Contract) →
        StandsAt table.now scalars.trades contract place →
        let book = book_of scalars rows in
        let trades = trades_of table.now in
        (refusal_of result ≡ first_of (take_causes calendar.now book trades contract count price))
        × IfOk result (λ amount. (amount ≡ fen (early_amount calendar.now book trades contract count price)) × (amount.0 ≤ amount_bound)) }
{
    let trade = flat::trade_at(table, place);
    if trade.sheets < count {
        return Err(Refusal::NotEnough);
    }
    let payment = calendar.payment_day(scalars.standing.day);
    let amount = redemption::redeemed_for(trade, count, price, payment);
    if !nets::is_fit(nets::plus(scalars.nets.today, amount))
        || unpaid::passes(scalars.sums.unpaid, amount)
    {
        return Err(Refusal::PastLimit);
    }
    Ok(amount)
}

pub fn early(
    calendar: &Calendar,
    scalars: Scalars,
    table: &mut [u64],
    contract: Contract,
    count: Sheets,
    price: Ticks,
) -> Result<Done, Refusal>
    requires { Fits calendar.now scalars (trades_of table.old) }
    ensures { let trades = trades_of table.old in
        ((rows : Rows) →
        let book = book_of scalars rows in
        let cause = first_of (early_causes calendar.now book trades contract count price) in
        (applied_at (done_by scalars result) rows ≡ applied_by cause book (early_book calendar.now book trades contract count price))
        × (trades_of table.new ≡ table_by cause trades (early_table book trades contract count))) }
{
    order_refusal(scalars, count, price)?;
    let place = named_place(scalars, table, contract)?;
    let amount = early_amount(calendar, scalars, table, place, count, price)?;
    let left = flat::sheets_at(table, place).0 - count.0;
    flat::put_sheets(table, place, Sheets(left));
    Ok(done::accepted(Scalars {
        nets: Nets {
            today: nets::plus(scalars.nets.today, amount),
            ..scalars.nets
        },
        ..state::with_unpaid(scalars, unpaid::today_plus(scalars.sums.unpaid, amount))
    }))
}
