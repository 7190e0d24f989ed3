// The journal that document 01 works through, all its lines.
use crate::events::{
    CLIENT, CLOSE, FALLBACK, FUND_IN, INITIAL, OPEN, OWN, PAY, PLEDGE, RATE, SIZE,
};
use crate::journal;

// Days 1, 2, 3, 6 and 7 trade.
pub const WEEK: [u32; 1] = [206];

// What the firm begins with.
#[rattlefmt::skip]
pub const ACCOUNTS: [u64; 4 * 5] = [
    SIZE, 1_000, 0, 0, 0,
    FUND_IN + OWN, 5_000_000, 0, 0, 0,
    FUND_IN + CLIENT, 3_000_000, 0, 0, 0,
    RATE, 9_000, 0, 0, 0,
];

// The first day and the next Open: cover of 180 sheets, and no trade yet.
#[rattlefmt::skip]
pub const COVER: [u64; 5 * 5] = [
    OPEN, 0, 0, 0, 0,
    PLEDGE, 200, 0, 0, 0,
    PAY, 0, 0, 0, 0,
    CLOSE, 0, 0, 0, 0,
    OPEN, 0, 0, 0, 0,
];

#[rattlefmt::skip]
const TRADES: [u64; 7 * 5] = [
    INITIAL, 100, 7, 3_650 + 1_000 * FALLBACK, 4,
    PAY, 0, 0, 0, 0,
    CLOSE, 0, 0, 0, 0,
    OPEN, 0, 0, 0, 0,
    INITIAL, 90, 8, 3_650 + 1_000 * FALLBACK, 6,
    PAY, 0, 0, 0, 0,
    CLOSE, 0, 0, 0, 0,
];

// Document 01's lines, with headroom's sign before its size.
#[rattlefmt::skip]
const LINES: [u64; 16 * 7] = [
    0, 0, 0, 0, 0, 0, 0,
    0, 0, 0, 0, 5_000_000, 0, 0,
    0, 0, 0, 0, 5_000_000, 3_000_000, 0,
    0, 0, 0, 0, 5_000_000, 3_000_000, 0,
    0, 0, 0, 0, 5_000_000, 3_000_000, 0,
    0, 0, 0, 0, 5_000_000, 3_000_000, 0,
    0, 0, 0, 0, 5_000_000, 3_000_000, 0,
    0, 0, 180, 0, 5_000_000, 3_000_000, 0,
    0, 0, 180, 0, 5_000_000, 3_000_000, 0,
    0, 0, 80, 100, 5_000_000, 3_000_000, 0,
    0, 0, 80, 100, 5_000_000, 3_000_000, 0,
    0, 0, 80, 100, 5_000_000, 3_000_000, 0,
    0, 0, 80, 100, 5_000_000, 3_000_000, 0,
    12, 0, 80, 100, 5_000_000, 3_000_000, 0,
    0, 0, 80, 100, 6_000_000, 2_000_000, 0,
    0, 0, 80, 100, 6_000_000, 2_000_000, 0,
];

#[tactic(auto, unfolding(crate::specs::Journal::ends_with))]
pub fn journal() {
    journal::expect_lines(&WEEK, &ACCOUNTS, &COVER, &TRADES, &LINES);
}
