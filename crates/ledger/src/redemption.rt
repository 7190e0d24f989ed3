// Redemption: what it will move, planned before anything is written, and what it leaves of the table.
ghost use Rattle.std.specs.Prelude.{◌≡◌, ℕ, ◌<◌, ◌≤◌, map, slice_set};
ghost use Rattle.money.specs.Limits.{trade_limit, price_limit, term_limit};
ghost use Rattle.money.specs.declared.units.Ticks.{Ticks};
ghost use Rattle.money.specs.Units.{fen, sheets};
ghost use Rattle.rules.specs.Trades.{redeemed, maturing, matured, over};
ghost use Rattle.ledger.specs.Flat.{HasSlots, HasSlot, trade_at, trades_to, trades_of, Redeemable};
ghost use Rattle.ledger.specs.Types.{Trade};
ghost use Rattle.ledger.specs.Redemption.{IsPart, IsWithin, redeemed_of, maturity_of, termination_of};

use crate::flat;
use money::units::{Fen, Sheets, Ticks};
use rules::trade::Trade;

// What Close or Open redeems: the sheets, and what is paid for them.
#[derive(Clone, Copy)]
pub struct Redeemed {
    pub sheets: Sheets,
    pub amount: Fen,
}

// What some sheets of a trade are redeemed for, with no division where there are none.
pub fn redeemed_for(trade: Trade, count: Sheets, price: Ticks, payment: u32) -> Fen
    requires within { (count.0 ≤ trade_limit) × (price.0 ≤ price_limit) }
    requires days { (trade.first ≤ payment) × (payment ≤ term_limit) }
    ensures { result ≡ fen (redeemed payment count.0 price trade) }
{
    if count.0 == 0 {
        return Fen(0);
    }
    money::amounts::redemption(count, price, payment - trade.first).unwrap()
}

// The sheets of a trade that are due by a day.
pub fn maturing(trade: Trade, today: u32) -> Sheets
    ensures { result ≡ sheets (maturing today trade) }
{
    if trade.due > today {
        return Sheets(0);
    }
    trade.sheets
}

// Of each trade so many sheets at a price, as `part` tells both.
fn plan<F: Fn(Trade) -> (Sheets, Ticks)>(
    table: &[u64],
    count: usize,
    payment: u32,
    part: F,
) -> Redeemed
    requires redeemable { Redeemable table.now count payment }
    requires can { (place : ℕ) → place < count → F.pre part (trade_at table.now place) }
    requires within { (place : ℕ) (told : _) → place < count → F.post part (trade_at table.now place) told → IsWithin (trade_at table.now place) told }
    ensures { (count_of : Trade → ℕ) (price_of : Trade → Ticks)
        → ((place : ℕ) (told : _) → place < count → F.post part (trade_at table.now place) told → IsPart count_of price_of (trade_at table.now place) told)
        → result ≡ redeemed_of count_of price_of payment (trades_to table.now count) }
{
    let mut sheets = 0;
    let mut amount = 0;
    for place in 0..count {
        let trade = flat::trade_at(table, place);
        let (redeemed, price) = part(trade);
        let paid = redeemed_for(trade, redeemed, price, payment);
        sheets += redeemed.0;
        amount += paid.0;
    }
    Redeemed {
        sheets: Sheets(sheets),
        amount: Fen(amount),
    }
}

// "Trades due today or earlier are redeemed at their price."
pub fn maturity_plan(table: &[u64], count: usize, today: u32, payment: u32) -> Redeemed
    requires { Redeemable table.now count payment }
    ensures { result ≡ maturity_of today payment (trades_to table.now count) }
{
    plan(
        table,
        count,
        payment,
        |trade| (maturing(trade, today), trade.price),
    )
}

// "Every trade is redeemed whole at its fallback price."
pub fn termination_plan(table: &[u64], count: usize, payment: u32) -> Redeemed
    requires { Redeemable table.now count payment }
    ensures { result ≡ termination_of payment (trades_to table.now count) }
{
    plan(
        table,
        count,
        payment,
        |trade| (trade.sheets, trade.fallback),
    )
}

pub fn redeem_one(table: &mut [u64], place: usize, by: u32)
    requires { HasSlot table.old place }
    ensures { trades_of table.new ≡ slice_set (trades_of table.old) place (matured by (trade_at table.old place)) }
{
    let trade = flat::trade_at(table, place);
    let left = trade.sheets.0 - maturing(trade, by).0;
    flat::put_sheets(table, place, Sheets(left));
}

// Of each trade in use that is due by then, nothing is left.
pub fn redeem_due(table: &mut [u64], count: usize, by: u32)
    requires { HasSlots table.old count }
    ensures { let trades = trades_of table.old in
        trades_of table.new ≡ over count (map (matured by) (trades_to table.old count)) trades }
{
    for place in 0..count {
        redeem_one(table, place, by);
    }
}
