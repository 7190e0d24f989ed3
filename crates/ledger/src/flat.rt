// The core's table: five numbers a trade, in the record's order. Trades are read and written here only. The table stays a row of numbers, for C
// lends it so; cut into trades by `as_chunks_mut`, a proof would not know what the row holds once a trade is written. That a place lies in it is a
// fact of both, which no type of a place alone has.
ghost use Rattle.std.specs.Prelude.{◌≡◌, ℕ, ◌+◌, ◌*◌, ◌<◌, ◌≤◌, length, slice_index, slice_set};
ghost use Rattle.rules.specs.Trades.{no_trade, with_sheets};
ghost use Rattle.ledger.specs.Flat.{HasSlot, width, capacity, lower, upper, trade_at, trades_of};

use crate::layout;
use money::units::{Sheets, Ticks};
use rules::trade::{Contract, Trade};

#[tactic(auto, unfolding(crate::specs::Flat::trade_at, money::specs::Causes::first_of))]
pub fn contract_at(table: &[u64], place: usize) -> Contract
    requires { HasSlot table.now place }
    ensures { result ≡ (trade_at table.now place).contract }
{
    Contract(table[place * layout::WIDTH])
}

#[tactic(auto, unfolding(crate::specs::Flat::trade_at, money::specs::Causes::first_of))]
pub fn sheets_at(table: &[u64], place: usize) -> Sheets
    requires { HasSlot table.now place }
    ensures { result.0 ≡ (trade_at table.now place).sheets.0 }
{
    Sheets(table[place * layout::WIDTH + 1])
}

// Prices and days have 32 bits, and stand two to a number: this is the lower half, and below it the upper.
pub fn lower(number: u64) -> u32
    ensures { result ≡ lower number }
{
    (number & 0xffff_ffff) as u32
}

pub fn upper(number: u64) -> u32
    ensures { result ≡ upper number }
{
    (number >> 32) as u32
}

pub fn paired(low: u32, high: u32) -> u64
    ensures { (result ≡ low + 4294967296 * high) × (low < 4294967296) × (high < 4294967296) }
{
    u64::from(low) + 4_294_967_296 * u64::from(high)
}

#[tactic(auto, unfolding(crate::specs::Flat::trade_at, money::specs::Causes::first_of))]
pub fn due_at(table: &[u64], place: usize) -> u32
    requires { HasSlot table.now place }
    ensures { result ≡ (trade_at table.now place).due }
{
    upper(table[place * layout::WIDTH + 3])
}

pub fn put_sheets(table: &mut [u64], place: usize, count: Sheets)
    requires { HasSlot table.old place }
    ensures { let trades = trades_of table.old in
        trades_of table.new ≡ slice_set trades place (with_sheets count.0 (trade_at table.old place)) }
{
    table[place * layout::WIDTH + 1] = count.0;
}

// What a freed slot is filled with, and read past the last: the record of zeros that the papers have.
pub fn no_trade() -> Trade
    ensures { result ≡ no_trade }
{
    Trade {
        contract: Contract(0),
        sheets: Sheets(0),
        price: Ticks(0),
        fallback: Ticks(0),
        first: 0,
        due: 0,
        product: 0,
    }
}

#[tactic(auto, using(crate::proofs::StoreLaws::behind))]
pub fn put_trade(table: &mut [u64], place: usize, trade: Trade)
    requires { HasSlot table.old place }
    ensures { (trades_of table.new ≡ slice_set (trades_of table.old) place trade)
        × ((k : ℕ) → place * width + width ≤ k → slice_index table.new k ≡ slice_index table.old k) }
{
    table[place * layout::WIDTH] = trade.contract.0;
    table[place * layout::WIDTH + 1] = trade.sheets.0;
    table[place * layout::WIDTH + 2] = paired(trade.price.0, trade.fallback.0);
    table[place * layout::WIDTH + 3] = paired(trade.first, trade.due);
    table[place * layout::WIDTH + 4] = trade.product;
}

pub fn slots(table: &[u64]) -> usize
    ensures { result ≡ capacity table.now }
{
    table.len() / layout::WIDTH
}

#[tactic(auto, unfolding(crate::specs::Flat::trade_at))]
pub fn trade_at(table: &[u64], place: usize) -> Trade
    requires { HasSlot table.now place }
    ensures { result ≡ trade_at table.now place }
{
    let from = place * layout::WIDTH;
    let prices = table[from + 2];
    let days = table[from + 3];
    Trade {
        contract: Contract(table[from]),
        sheets: Sheets(table[from + 1]),
        price: Ticks(lower(prices)),
        fallback: Ticks(upper(prices)),
        first: lower(days),
        due: upper(days),
        product: table[from + 4],
    }
}

pub fn move_trade(table: &mut [u64], from: usize, to: usize)
    requires { (HasSlot table.old from) × (HasSlot table.old to) }
    ensures { trades_of table.new ≡ slice_set (trades_of table.old) to (trade_at table.old from) }
{
    let trade = trade_at(table, from);
    put_trade(table, to, trade);
}
