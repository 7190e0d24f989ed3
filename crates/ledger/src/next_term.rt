// Automatic next terms, between Close's parts (a) and (b): which start, decided once for the plan and once more as they are written. (02, ask 4)
ghost use Rattle.std.specs.Prelude.{◌≡◌, ℕ, ◌+◌, ◌≤◌, true, false, List, slice_set};
ghost use Rattle.std.specs.Bool.{then_some};
ghost use Rattle.money.specs.Days.{Calendar};
ghost use Rattle.rules.specs.Limits.{product_limit};
ghost use Rattle.rules.specs.Book.{is_normal};
ghost use Rattle.rules.specs.Days.{today as today_of, payment_day};
ghost use Rattle.rules.specs.Vault.{value as value_of};
ghost use Rattle.rules.specs.Fit.{securities_fit, cash_fit, trade_fit};
ghost use Rattle.rules.specs.Trades.{outstanding as outstanding_of, over};
ghost use Rattle.rules.specs.NextTerm.{starts, next_term, with_started, in_slot, left_from, started_from};
ghost use Rattle.ledger.specs.Types.{Book, Trade};
ghost use Rattle.ledger.specs.Flat.{Kept, trade_at, trades_to, trades_of, securities_of, vault_of, rows_of, book_of};
ghost use Rattle.ledger.specs.Figures.{CountedWhole, IsValue};
ghost use Rattle.ledger.specs.NextTerm.{Planned, PlanWithin, Meets, MeetsWhere, Renewable, RenewableWhere, FitAt, most_matured, most_started};

use crate::days::Calendar;
use crate::figures::KnownFigures;
use crate::layout::{Held, Kinds, Units};
use crate::{days, figures, flat, postings, redemption};
use money::units::{Fen, SHEET_FEN, Sheets};
use rules::trade::Trade;
use scalars::headroom;
use scalars::state::Scalars;

// What decides beside the trade itself whether its next term starts: the same for every trade of a Close, and told only where one may start. V is
// that before (c).
#[derive(Clone, Copy)]
pub struct Closing {
    pub today: u32,
    pub payment: u32,
    pub size: Sheets,
    pub value: Sheets,
}

// What Close plans before anything is written: the sheets matured and their amount, the principal of the terms that start, O once all have matured and
// O as part (b) begins.
#[derive(Clone, Copy)]
pub struct Plan {
    pub closing: Option<Closing>,
    pub today: u32,
    pub matured: Sheets,
    pub amount: Fen,
    pub started: Fen,
    pub outstanding: Sheets,
    pub left: Sheets,
}

// Whether any next term may start today: the status is normal, and something is posted.
fn may_start(scalars: Scalars, held: &Held) -> bool
    ensures { (result ≡ true → is_normal scalars.standing.status ≡ true)
        × (result ≡ false
        → (calendar : Calendar) (kinds units : List ℕ) (outstanding : ℕ) (trade : Trade) →
        trade.product ≤ product_limit
        → starts calendar (book_of scalars (rows_of held.now kinds units)) outstanding trade ≡ false) }
{
    scalars.standing.is_normal() && postings::any_posted(held)
}

fn closing_of(
    scalars: Scalars,
    held: &Held,
    value: Option<Sheets>,
    today: u32,
    payment: u32,
) -> Option<Closing>
    requires { (securities_fit (vault_of scalars.guarantee (securities_of held.now)) ≡ true)
        × (cash_fit scalars.cash scalars.guarantee ≡ true)
        × (IsValue value (value_of (vault_of scalars.guarantee (securities_of held.now)))) }
    ensures { (calendar : Calendar) (kinds units : List ℕ) →
        let book = book_of scalars (rows_of held.now kinds units) in
        today ≡ today_of book → payment ≡ payment_day calendar scalars.standing.day → MeetsWhere calendar book result held.now }
{
    may_start(scalars, held).then(|| Closing {
        today,
        payment,
        size: scalars.size,
        value: figures::value_known(scalars, held, value),
    })
}

// The record that takes the old one's slot, if its next term starts: the conditions in the order of the ask, of which the status is normal. A posted
// term is 1 to 365 days, so of rule 9 the calendar alone is left to ask.
#[tactic(auto, using(crate::proofs::RedemptionLaws::within_of))]
fn next_term(
    calendar: &Calendar,
    held: &Held,
    trade: Trade,
    closing: Closing,
    outstanding: Sheets,
) -> Option<Trade>
    requires { (Renewable calendar.now closing held.now) × (trade_fit trade ≡ true) }
    ensures { (book : Book) →
        Meets calendar.now book closing held.now
        → result ≡ then_some (starts calendar.now book outstanding.0 trade) (next_term calendar.now book trade) }
{
    let sheets = redemption::maturing(trade, closing.today);
    if sheets.0 == 0 {
        return None;
    }
    let posting = postings::posted(held, trade.product as usize)?;
    let due = closing.today + posting.term as u32;
    if !calendar.matures(due) {
        return None;
    }
    if headroom::above_headroom(closing.size, closing.value, outstanding, sheets) {
        return None;
    }
    Some(Trade {
        sheets,
        price: posting.price,
        fallback: posting.fallback,
        first: closing.payment,
        due,
        ..trade
    })
}

// The plan: O as part (b) begins, from O once all have matured. Each term is judged beside those that started before it.
#[tactic(auto, using(crate::proofs::StartLaws::no_more))]
pub fn outstanding_after(
    calendar: &Calendar,
    held: &Held,
    table: &[u64],
    count: usize,
    closing: Option<Closing>,
    outstanding: Sheets,
) -> Sheets
    requires { (RenewableWhere calendar.now closing held.now) × (Kept table.now count) × (outstanding.0 ≤ most_matured) }
    ensures { let trades = trades_to table.now count in
        ((book : Book) →
        MeetsWhere calendar.now book closing held.now
        → result.0 ≡ outstanding.0 + outstanding_of (started_from calendar.now book outstanding.0 trades)) }
{
    let Some(closing) = closing else {
        return outstanding;
    };
    let mut sum = outstanding;
    for place in 0..count {
        let trade = flat::trade_at(table, place);
        if let Some(next) = next_term(calendar, held, trade, closing, sum) {
            sum = Sheets(sum.0 + next.sheets.0);
        }
    }
    sum
}

// A slot as part (b) begins: the next term if it starts, else the trade matured. The answer is O with it.
#[tactic(auto, using(crate::proofs::RedemptionLaws::within_of))]
fn settle_slot(
    calendar: &Calendar,
    held: &Held,
    table: &mut [u64],
    place: usize,
    closing: Closing,
    outstanding: Sheets,
) -> Sheets
    requires { (Renewable calendar.now closing held.now)
        × (FitAt table.old place)
        × (outstanding.0 ≤ most_started) }
    ensures { let trade = trade_at table.old place in
        ((book : Book) →
        Meets calendar.now book closing held.now
        → let started = starts calendar.now book outstanding.0 trade in
        (result.0 ≡ with_started started book trade outstanding.0)
        × (trades_of table.new ≡ slice_set (trades_of table.old) place (in_slot started calendar.now book trade))) }
{
    let trade = flat::trade_at(table, place);
    let Some(next) = next_term(calendar, held, trade, closing, outstanding) else {
        redemption::redeem_one(table, place, closing.today);
        return outstanding;
    };
    flat::put_trade(table, place, next);
    Sheets(outstanding.0 + next.sheets.0)
}

// What the plan decided, written: every slot in use as part (b) begins.
pub fn settle(calendar: &Calendar, held: &Held, table: &mut [u64], count: usize, plan: Plan)
    requires { (RenewableWhere calendar.now plan.closing held.now) × (Kept table.old count) × (plan.outstanding.0 ≤ most_matured) }
    ensures { let trades = trades_to table.old count in
        ((book : Book) →
        MeetsWhere calendar.now book plan.closing held.now
        → plan.today ≡ today_of book
        → trades_of table.new ≡ over count (left_from calendar.now book plan.outstanding.0 trades) (trades_of table.old)) }
{
    let Some(closing) = plan.closing else {
        redemption::redeem_due(table, count, plan.today);
        return;
    };
    let mut sum = plan.outstanding;
    for place in 0..count {
        sum = settle_slot(calendar, held, table, place, closing, sum);
    }
}

// All that Close has to know before it writes: what matures, and which terms start.
pub fn plan_of(
    calendar: &Calendar,
    scalars: Scalars,
    held: &Held,
    kinds: &Kinds,
    units: &Units,
    table: &[u64],
    known: KnownFigures,
) -> Plan
    requires { CountedWhole calendar.now scalars held.now kinds.now units.now (trades_of table.now) known }
    ensures { let book = book_of scalars (rows_of held.now kinds.now units.now) in
        (Planned calendar.now book held.now (trades_of table.now) result) × (PlanWithin result) }
{
    let day = scalars.standing.day;
    let today = days::day_number(day);
    let payment = calendar.payment_day(day);
    let redeemed = redemption::maturity_plan(table, scalars.trades, today, payment);
    let closing = closing_of(scalars, held, known.value, today, payment);
    let outstanding = Sheets(known.outstanding.0 - redeemed.sheets.0);
    let left = outstanding_after(calendar, held, table, scalars.trades, closing, outstanding);
    Plan {
        closing,
        today,
        matured: redeemed.sheets,
        amount: redeemed.amount,
        started: Fen(SHEET_FEN * (left.0 - outstanding.0)),
        outstanding,
        left,
    }
}
