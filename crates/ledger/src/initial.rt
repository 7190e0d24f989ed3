// 9 Initial: a new last trade; its amount is taken from today's net.
ghost use Rattle.std.specs.Prelude.{◌≡◌, ℕ, ◌<◌, ◌≤◌, List, length, pos, int_lt, nat_le};
ghost use Rattle.money.specs.Limits.{term_limit, trade_limit};
ghost use Rattle.money.specs.Causes.{first_of, refusal_of};
ghost use Rattle.money.specs.Money.{principal};
ghost use Rattle.rules.specs.Days.{day_number};
ghost use Rattle.rules.specs.Trades.{in_use, on_table};
ghost use Rattle.rules.specs.Vault.{headroom};
ghost use Rattle.rules.specs.Initial.{bad_count, bad_due, product_causes, time_causes, term_causes, slot_causes, sheet_causes, begun, initial_causes, initial_book, initial_table};
ghost use Rattle.scalars.specs.Scalars.{done_by};
ghost use Rattle.ledger.specs.Flat.{HasSlots, Rows, rows_of, book_of, applied_at, trades_of, applied_by, table_by};
ghost use Rattle.ledger.specs.Figures.{CountedHeld};

use crate::days::Calendar;
use crate::figures::KnownFigures;
use crate::layout::Held;
use crate::{days, figures, flat, nets, postings, prices, trades};
use money::limits::TRADE_LIMIT;
use money::refusal::Refusal;
use money::units::{Fen, Sheets};
use rules::book::Nets;
use rules::limits::{AHEAD_LIMIT, PRODUCT_LIMIT};
use rules::trade::{Contract, Terms, Trade};
use scalars::done::Done;
use scalars::state::Scalars;
use scalars::{done, headroom, state};

fn bad_count(count: Sheets) -> bool
    ensures { result ≡ bad_count count.0 }
{
    count.0 == 0 || count.0 % 10 != 0 || count.0 > TRADE_LIMIT
}

fn bad_due(calendar: &Calendar, day: Option<u32>, due: u32) -> bool
    requires { day_number day < term_limit }
    ensures { result ≡ bad_due calendar.now (day_number day) due }
{
    let today = days::day_number(day);
    due <= today || due > today + AHEAD_LIMIT || !calendar.matures(due)
}

// Out of line, as each search for a contract is.
#[inline(never)]
fn is_taken(table: &[u64], count: usize, contract: Contract) -> bool
    requires { HasSlots table.now count }
    ensures { result ≡ on_table contract (in_use count (trades_of table.now)) }
{
    trades::place_of(table, count, contract).is_some()
}

fn is_full(table: &[u64], trades: usize) -> bool
    ensures { result ≡ nat_le (length (trades_of table.now)) trades }
{
    state::is_full(flat::slots(table), trades)
}

// What a trade takes from today's net.
fn principal_of(count: Sheets) -> Fen
    requires { count.0 ≤ trade_limit }
    ensures { result ≡ principal count }
{
    money::amounts::initial(count).unwrap()
}

// Whether sheets are above headroom.
fn lacks_headroom(
    calendar: &Calendar,
    scalars: Scalars,
    held: &Held,
    table: &[u64],
    known: KnownFigures,
    count: Sheets,
) -> bool
    requires { (CountedHeld calendar.now scalars held.now (trades_of table.now) known) × (count.0 ≤ trade_limit) }
    ensures { (kinds units : List ℕ) →
        result ≡ int_lt (headroom (book_of scalars (rows_of held.now kinds units)) (trades_of table.now)) (pos count.0) }
{
    let value = figures::value_known(scalars, held, known.value);
    headroom::above_headroom(scalars.size, value, known.outstanding, count)
}

// The causes, group by group as the rules have them: a trade's product, when it may begin, its prices and its due day, the table's room,
// and headroom's and the net's.
#[tactic(auto, unfolding(money::specs::Causes::first_of))]
fn product_refusal(scalars: Scalars, held: &Held, terms: Terms) -> Result<(), Refusal>
    ensures { (kinds units : List ℕ) →
        let book = book_of scalars (rows_of held.now kinds units) in
        refusal_of result ≡ first_of (product_causes book terms) }
{
    let product = usize::from(terms.product);
    if product == 0 {
        return Ok(());
    }
    if product > PRODUCT_LIMIT || postings::posted(held, product).is_none() {
        return Err(Refusal::NotPosted);
    }
    Ok(())
}

#[tactic(auto, unfolding(money::specs::Causes::first_of))]
fn time_refusal(scalars: Scalars) -> Result<(), Refusal>
    ensures { (rows : Rows) → refusal_of result ≡ first_of (time_causes (book_of scalars rows)) }
{
    let standing = scalars.standing;
    if !standing.is_trading() {
        return Err(Refusal::WrongPhase);
    }
    if standing.is_terminated() {
        return Err(Refusal::PermissionEnded);
    }
    if standing.is_suspended() {
        return Err(Refusal::TradesSuspended);
    }
    Ok(())
}

#[tactic(auto, unfolding(money::specs::Causes::first_of))]
fn term_refusal(calendar: &Calendar, scalars: Scalars, terms: Terms) -> Result<(), Refusal>
    requires { day_number scalars.standing.day < term_limit }
    ensures { (rows : Rows) → refusal_of result ≡ first_of (term_causes calendar.now (book_of scalars rows) terms) }
{
    if prices::bad_prices(terms.price, terms.fallback) {
        return Err(Refusal::BadPrice);
    }
    if bad_due(calendar, scalars.standing.day, terms.due) {
        return Err(Refusal::BadDueDay);
    }
    Ok(())
}

#[tactic(auto, unfolding(money::specs::Causes::first_of))]
fn slot_refusal(scalars: Scalars, table: &[u64], terms: Terms) -> Result<(), Refusal>
    requires { HasSlots table.now scalars.trades }
    ensures { (rows : Rows) → refusal_of result ≡ first_of (slot_causes (book_of scalars rows) (trades_of table.now) terms) }
{
    if is_taken(table, scalars.trades, terms.contract) {
        return Err(Refusal::BadContract);
    }
    if is_full(table, scalars.trades) {
        return Err(Refusal::TableFull);
    }
    Ok(())
}

#[tactic(auto, unfolding(money::specs::Money::principal, money::specs::Causes::first_of))]
fn sheet_refusal(
    calendar: &Calendar,
    scalars: Scalars,
    held: &Held,
    table: &[u64],
    known: KnownFigures,
    terms: Terms,
) -> Result<(), Refusal>
    requires { (CountedHeld calendar.now scalars held.now (trades_of table.now) known) × (terms.sheets.0 ≤ trade_limit) }
    ensures { (kinds units : List ℕ) →
        let book = book_of scalars (rows_of held.now kinds units) in
        refusal_of result ≡ first_of (sheet_causes book (trades_of table.now) terms) }
{
    let count = terms.sheets;
    if lacks_headroom(calendar, scalars, held, table, known, count) {
        return Err(Refusal::AboveHeadroom);
    }
    if !nets::is_fit(nets::less(scalars.nets.today, principal_of(count))) {
        return Err(Refusal::PastLimit);
    }
    Ok(())
}

fn initial_refusal(
    calendar: &Calendar,
    scalars: Scalars,
    held: &Held,
    table: &[u64],
    known: KnownFigures,
    terms: Terms,
) -> Result<(), Refusal>
    requires { CountedHeld calendar.now scalars held.now (trades_of table.now) known }
    ensures { let trades = trades_of table.now in
        ((kinds units : List ℕ) →
        let book = book_of scalars (rows_of held.now kinds units) in
        let cause = first_of (initial_causes calendar.now book trades terms) in
        refusal_of result ≡ cause) }
{
    product_refusal(scalars, held, terms)?;
    time_refusal(scalars)?;
    if bad_count(terms.sheets) {
        return Err(Refusal::BadCount);
    }
    term_refusal(calendar, scalars, terms)?;
    slot_refusal(scalars, table, terms)?;
    sheet_refusal(calendar, scalars, held, table, known, terms)
}

// The record of a trade that begins today.
fn begun_trade(calendar: &Calendar, scalars: Scalars, terms: Terms) -> Trade
    ensures { (rows : Rows) → result ≡ begun calendar.now (book_of scalars rows) terms }
{
    Trade {
        contract: terms.contract,
        sheets: terms.sheets,
        price: terms.price,
        fallback: terms.fallback,
        first: calendar.payment_day(scalars.standing.day),
        due: terms.due,
        product: u64::from(terms.product),
    }
}

pub fn initial(
    calendar: &Calendar,
    scalars: Scalars,
    held: &Held,
    table: &mut [u64],
    known: KnownFigures,
    terms: Terms,
) -> Result<Done, Refusal>
    requires { CountedHeld calendar.now scalars held.now (trades_of table.old) known }
    ensures { let trades = trades_of table.old in
        ((kinds units : List ℕ) →
        let book = book_of scalars (rows_of held.now kinds units) in
        let cause = first_of (initial_causes calendar.now book trades terms) in
        (applied_at (done_by scalars result) (rows_of held.now kinds units) ≡ applied_by cause book (initial_book book terms))
        × (trades_of table.new ≡ table_by cause trades (initial_table calendar.now book trades terms))) }
{
    initial_refusal(calendar, scalars, held, table, known, terms)?;
    let place = scalars.trades;
    flat::put_trade(table, place, begun_trade(calendar, scalars, terms));
    let nets = Nets {
        today: nets::less(scalars.nets.today, principal_of(terms.sheets)),
        ..scalars.nets
    };
    Ok(done::accepted(state::with_nets_and_trades(scalars, nets, place + 1)))
}
