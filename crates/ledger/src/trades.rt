// What is counted and tested over the trades in use.
ghost use Rattle.std.specs.Prelude.{◌≡◌, ◌<◌, ◌≤◌, length, is_some, IfSome};
ghost use Rattle.rules.specs.Limits.{capacity_limit};
ghost use Rattle.rules.specs.Trades.{outstanding, differ, on_table};
ghost use Rattle.rules.specs.Fit.{trade_fit};
ghost use Rattle.ledger.specs.Flat.{HasSlots, HasSlot, trade_at, trades_to, StandsAt, contract_numbers, Kept};
ghost use Rattle.ledger.specs.Figures.{summary_of};
ghost use Rattle.ledger.specs.Chains.{most_buckets};

use crate::chains::ChainResult;
use crate::{chains, flat};
use money::limits::{PRICE_LIMIT, TRADE_LIMIT};
use money::units::Sheets;
use rules::limits::{CAPACITY_LIMIT, PRODUCT_LIMIT};
use rules::trade::{Contract, Trade};
use sort::order;

// Up to so many trades each is searched among those before it.
const FEW: usize = 32;

// Eight buckets a trade, of which most stay empty; fewer trades have fewer to clear.
const SOME: usize = 1_024;

const SOME_BUCKETS: usize = 8_191;

const MANY_BUCKETS: usize = 32_749;

// A trade's product is 0, or a number below this one plus 1.
const PRODUCTS: u64 = PRODUCT_LIMIT as u64;

// O, the sheets left on the table.
pub fn outstanding_of(table: &[u64], count: usize) -> Sheets
    requires { Kept table.now count }
    ensures { result.0 ≡ outstanding (trades_to table.now count) }
{
    Sheets(
        (0..count)
            .map(|place| flat::sheets_at(table, place).0)
            .sum(),
    )
}

// Where a contract's trade stands. What searches by it is kept out of line: inlined, its loop would carry the answers of all that follows from trade to
// trade.
pub fn place_of(table: &[u64], count: usize, contract: Contract) -> Option<usize>
    requires { HasSlots table.now count }
    ensures on_table { is_some result ≡ on_table contract (trades_to table.now count) }
    ensures place { IfSome result (StandsAt table.now count contract) }
{
    (0..count).find(|&place| flat::contract_at(table, place) == contract)
}

// No contract stands before its own place: each is searched, which for few trades is as fast as by chains.
#[inline(never)]
fn few_differ(table: &[u64], count: usize) -> bool
    requires { HasSlots table.now count }
    ensures { result ≡ differ (trades_to table.now count) }
{
    (0..count).all(|place| place_of(table, place, flat::contract_at(table, place)).is_none())
}

fn contract_numbers(table: &[u64], count: usize, numbers: &mut [u64])
    requires { (HasSlots table.now count) × (length numbers.old ≡ count) }
    ensures { numbers.new ≡ contract_numbers (trades_to table.now count) }
{
    for (place, number) in numbers.iter_mut().enumerate() {
        *number = flat::contract_at(table, place).0;
    }
}

// Sorted, numbers that stand twice are neighbours.
fn numbers_differ(table: &[u64], count: usize, numbers: &mut [u64]) -> bool
    requires { (HasSlots table.now count) × (count ≤ capacity_limit) × (length numbers.old ≡ count) }
    ensures { result ≡ differ (trades_to table.now count) }
{
    contract_numbers(table, count, numbers);
    order::sort(numbers);
    order::neighbours_differ(numbers)
}

fn sorted_differ(table: &[u64], count: usize) -> bool
    requires { (HasSlots table.now count) × (count ≤ capacity_limit) }
    ensures { result ≡ differ (trades_to table.now count) }
{
    let mut numbers = [0; CAPACITY_LIMIT];
    numbers_differ(table, count, &mut numbers[..count])
}

// By chains, which most contracts keep short; where they do not, sorted. Out of line: inlined, few trades too would take the room of the chains.
#[inline(never)]
fn chains_differ<const BUCKETS: usize>(table: &[u64], count: usize) -> bool
    requires { (HasSlots table.now count) × (count ≤ capacity_limit) × (0 < BUCKETS) × (BUCKETS ≤ most_buckets) }
    ensures { result ≡ differ (trades_to table.now count) }
{
    match chains::linked_differ::<BUCKETS>(table, count) {
        ChainResult::Differs => true,
        ChainResult::Repeats => false,
        ChainResult::TooLong => sorted_differ(table, count),
    }
}

// No contract stands twice.
pub fn contracts_differ(table: &[u64], count: usize) -> bool
    requires { (HasSlots table.now count) × (count ≤ capacity_limit) }
    ensures { result ≡ differ (trades_to table.now count) }
{
    if count <= FEW {
        few_differ(table, count)
    } else if count <= SOME {
        chains_differ::<SOME_BUCKETS>(table, count)
    } else {
        chains_differ::<MANY_BUCKETS>(table, count)
    }
}

#[tactic(auto, unfolding(rules::specs::Folds::every))]
fn trade_fits(trade: Trade) -> bool
    ensures { result ≡ trade_fit trade }
{
    trade.sheets.0 <= TRADE_LIMIT
        && trade.price.0 <= PRICE_LIMIT
        && trade.fallback.0 <= PRICE_LIMIT
        && trade.product <= PRODUCTS
}

// What one walk tells of trades that are each within their limits: O and the latest first payment day.
#[derive(Clone, Copy)]
pub struct Summary {
    pub outstanding: Sheets,
    pub latest: u32,
}

#[tactic(auto, using(rules::proofs::TradeLaws::sheets_of, crate::proofs::FlatLaws::all_none, crate::proofs::FlatLaws::all_more, crate::proofs::RedemptionLaws::within_of), unfolding(rules::specs::Trades::outstanding))]
pub fn summary_of(table: &[u64], count: usize) -> Option<Summary>
    requires { (HasSlots table.now count) × (count ≤ capacity_limit) }
    ensures { result ≡ summary_of (trades_to table.now count) }
{
    // One walk: a chain for each figure would go over the table three times.
    let mut outstanding = 0;
    let mut latest = 0;
    for place in 0..count {
        let trade = flat::trade_at(table, place);
        if !trade_fits(trade) {
            return None;
        }
        outstanding += trade.sheets.0;
        latest = latest.max(trade.first);
    }
    Some(Summary {
        outstanding: Sheets(outstanding),
        latest,
    })
}
