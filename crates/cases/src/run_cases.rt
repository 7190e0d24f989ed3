// The cases that document 01 has run, sheets in tens and due days up to a year ahead, and two about the lines themselves.
use crate::events::{CLIENT, FALLBACK, FUND_IN, INITIAL, KIND, PAY, POST, PRODUCT, RATE};
use crate::journal;
use crate::worked::{ACCOUNTS, COVER, WEEK};

// 15 sheets are no multiple of 10.
#[rattlefmt::skip]
const TENS: [u64; 2 * 5] = [
    INITIAL, 15, 7, 3_650 + 1_000 * FALLBACK, 4,
    INITIAL, 10, 7, 3_650 + 1_000 * FALLBACK, 4,
];

#[rattlefmt::skip]
const TENS_LINES: [u64; 2 * 7] = [
    7, 0, 180, 0, 5_000_000, 3_000_000, 0,
    0, 0, 170, 10, 5_000_000, 3_000_000, 0,
];

#[tactic(auto, unfolding(crate::specs::Journal::ends_with))]
pub fn sheets_in_tens() {
    journal::expect_lines(&WEEK, &ACCOUNTS, &COVER, &TENS, &TENS_LINES);
}

// Thirteen words in which every day trades, so that the trades are of day 1.
const YEAR: [u32; 13] = [4_294_967_295; 13];

// Due on the day itself, 366 and 365 days ahead.
#[rattlefmt::skip]
const TERMS: [u64; 3 * 5] = [
    INITIAL, 10, 7, 3_650 + 1_000 * FALLBACK, 1,
    INITIAL, 10, 7, 3_650 + 1_000 * FALLBACK, 367,
    INITIAL, 10, 7, 3_650 + 1_000 * FALLBACK, 366,
];

#[rattlefmt::skip]
const TERMS_LINES: [u64; 3 * 7] = [
    9, 0, 180, 0, 5_000_000, 3_000_000, 0,
    9, 0, 180, 0, 5_000_000, 3_000_000, 0,
    0, 0, 170, 10, 5_000_000, 3_000_000, 0,
];

#[tactic(auto, unfolding(crate::specs::Journal::ends_with))]
pub fn due_within_a_year() {
    journal::expect_lines(&YEAR, &ACCOUNTS, &COVER, &TERMS, &TERMS_LINES);
}

// Pay with an amount, a third account, a product where only the other event has one (Post in byte 1, an initial trade in byte 2), and a
// fourteenth code: the decoder's 2, and the run goes on.
#[rattlefmt::skip]
const UNDECODABLE: [u64; 5 * 5] = [
    PAY, 1, 0, 0, 0,
    FUND_IN + 2 * CLIENT, 1, 0, 0, 0,
    POST + PRODUCT, 1, 0, 3_650 + 1_000 * FALLBACK, 0,
    INITIAL + KIND, 10, 7, 3_650 + 1_000 * FALLBACK, 4,
    14, 0, 0, 0, 0,
];

#[rattlefmt::skip]
const UNDECODABLE_LINES: [u64; 5 * 7] = [
    2, 0, 180, 0, 5_000_000, 3_000_000, 0,
    2, 0, 180, 0, 5_000_000, 3_000_000, 0,
    2, 0, 180, 0, 5_000_000, 3_000_000, 0,
    2, 0, 180, 0, 5_000_000, 3_000_000, 0,
    2, 0, 180, 0, 5_000_000, 3_000_000, 0,
];

#[tactic(auto, unfolding(crate::specs::Journal::ends_with))]
pub fn undecodable() {
    journal::expect_lines(&WEEK, &ACCOUNTS, &COVER, &UNDECODABLE, &UNDECODABLE_LINES);
}

// A rate set to 0 under a trade: 1 stands for the minus sign before 100.
#[rattlefmt::skip]
const CUT: [u64; 2 * 5] = [
    INITIAL, 100, 7, 3_650 + 1_000 * FALLBACK, 4,
    RATE, 0, 0, 0, 0,
];

#[rattlefmt::skip]
const CUT_LINES: [u64; 2 * 7] = [
    0, 0, 80, 100, 5_000_000, 3_000_000, 0,
    0, 1, 100, 100, 5_000_000, 3_000_000, 0,
];

#[tactic(auto, unfolding(crate::specs::Journal::ends_with))]
pub fn headroom_below_zero() {
    journal::expect_lines(&WEEK, &ACCOUNTS, &COVER, &CUT, &CUT_LINES);
}
