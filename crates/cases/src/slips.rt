// Where the pencil slips: each journal tells the rules from the slip, and its comment says what the slip would print.
use crate::events::{
    CLIENT, CLOSE, FALLBACK, FUND_IN, FUND_OUT, INITIAL, KIND, OPEN, PAY, PLEDGE, RATE, SIZE,
};
use crate::journal;
use crate::worked::{ACCOUNTS, COVER, WEEK};

// Document 01's week and day 8, so that what is cleared on day 6 is paid on day 7.
const LONGER_WEEK: [u32; 1] = [462];

// A trade of day 3, paid on day 6, and its redemption of day 6, paid on day 7.
#[rattlefmt::skip]
const FROM_DAY_3: [u64; 11 * 5] = [
    PAY, 0, 0, 0, 0,
    CLOSE, 0, 0, 0, 0,
    OPEN, 0, 0, 0, 0,
    INITIAL, 100, 9, 3_650 + 1_000 * FALLBACK, 6,
    PAY, 0, 0, 0, 0,
    CLOSE, 0, 0, 0, 0,
    OPEN, 0, 0, 0, 0,
    PAY, 0, 0, 0, 0,
    CLOSE, 0, 0, 0, 0,
    OPEN, 0, 0, 0, 0,
    PAY, 0, 0, 0, 0,
];

// Payment days 7 - 6 = 1, so 1,000,100 fen. Counted from trading days, 6 - 3 = 3, the last line has 4,999,700 and 3,000,300.
#[rattlefmt::skip]
const ONE_DAY: [u64; 4 * 7] = [
    0, 0, 80, 100, 6_000_000, 2_000_000, 0,
    0, 0, 180, 0, 6_000_000, 2_000_000, 0,
    0, 0, 180, 0, 6_000_000, 2_000_000, 0,
    0, 0, 180, 0, 4_999_900, 3_000_100, 0,
];

#[tactic(auto, unfolding(crate::specs::Journal::ends_with))]
pub fn days_from_trading_days() {
    journal::expect_lines(&LONGER_WEEK, &ACCOUNTS, &COVER, &FROM_DAY_3, &ONE_DAY);
}

#[rattlefmt::skip]
const THREE_RATES: [u64; 4 * 5] = [
    SIZE, 1_000, 0, 0, 0,
    RATE, 9_000, 0, 0, 0,
    RATE + KIND, 9_000, 0, 0, 0,
    RATE + 2 * KIND, 10_000, 0, 0, 0,
];

#[rattlefmt::skip]
const THREE_KINDS: [u64; 7 * 5] = [
    OPEN, 0, 0, 0, 0,
    PLEDGE, 5, 0, 0, 0,
    PLEDGE + KIND, 5, 0, 0, 0,
    PLEDGE + 2 * KIND, 1, 0, 0, 0,
    PAY, 0, 0, 0, 0,
    CLOSE, 0, 0, 0, 0,
    OPEN, 0, 0, 0, 0,
];

#[rattlefmt::skip]
const TEN_SHEETS: [u64; 1 * 5] = [
    INITIAL, 10, 7, 3_650 + 1_000 * FALLBACK, 4,
];

// 4.5, 4.5 and 1 are worth 4 + 4 + 1 = 9. Summed and then rounded they are 10, and the trade is 0 with headroom 0 and 10 outstanding.
#[rattlefmt::skip]
const NINE: [u64; 2 * 7] = [
    0, 0, 9, 0, 0, 0, 0,
    12, 0, 9, 0, 0, 0, 0,
];

#[tactic(auto, unfolding(crate::specs::Journal::ends_with))]
pub fn values_summed_then_rounded() {
    journal::expect_lines(&WEEK, &THREE_RATES, &THREE_KINDS, &TEN_SHEETS, &NINE);
}

// Cover of 180 more is pledged, and the trade tried on that day and on the next.
#[rattlefmt::skip]
const PLEDGED_TODAY: [u64; 6 * 5] = [
    PLEDGE, 200, 0, 0, 0,
    INITIAL, 190, 7, 3_650 + 1_000 * FALLBACK, 4,
    PAY, 0, 0, 0, 0,
    CLOSE, 0, 0, 0, 0,
    OPEN, 0, 0, 0, 0,
    INITIAL, 190, 7, 3_650 + 1_000 * FALLBACK, 4,
];

// Counted at once, the pledge's line has headroom 360, and the first trade is 0.
#[rattlefmt::skip]
const AFTER_ITS_CLOSE: [u64; 6 * 7] = [
    0, 0, 180, 0, 5_000_000, 3_000_000, 0,
    12, 0, 180, 0, 5_000_000, 3_000_000, 0,
    0, 0, 180, 0, 5_000_000, 3_000_000, 0,
    0, 0, 360, 0, 5_000_000, 3_000_000, 0,
    0, 0, 360, 0, 5_000_000, 3_000_000, 0,
    0, 0, 170, 190, 5_000_000, 3_000_000, 0,
];

#[tactic(auto, unfolding(crate::specs::Journal::ends_with))]
pub fn pledge_before_its_close() {
    journal::expect_lines(&WEEK, &ACCOUNTS, &COVER, &PLEDGED_TODAY, &AFTER_ITS_CLOSE);
}

// Every day of the word trades.
const DAILY: [u32; 1] = [4_294_967_295];

// Trades of 1,000,000 and 500,000 fen on two days, and clients who hold nothing: the first payment fails.
#[rattlefmt::skip]
const TWO_UNPAID_DAYS: [u64; 14 * 5] = [
    OPEN, 0, 0, 0, 0,
    PLEDGE, 200, 0, 0, 0,
    PAY, 0, 0, 0, 0,
    CLOSE, 0, 0, 0, 0,
    OPEN, 0, 0, 0, 0,
    FUND_OUT + CLIENT, 3_000_000, 0, 0, 0,
    INITIAL, 100, 7, 3_650 + 1_000 * FALLBACK, 20,
    PAY, 0, 0, 0, 0,
    CLOSE, 0, 0, 0, 0,
    OPEN, 0, 0, 0, 0,
    INITIAL, 50, 8, 3_650 + 1_000 * FALLBACK, 20,
    PAY, 0, 0, 0, 0,
    CLOSE, 0, 0, 0, 0,
    OPEN, 0, 0, 0, 0,
];

#[rattlefmt::skip]
const ONE_FEN_SHORT: [u64; 2 * 5] = [
    FUND_IN + CLIENT, 1_499_999, 0, 0, 0,
    PAY, 0, 0, 0, 0,
];

// The net due is 1,500,000. With the smaller day paid alone the last line is 0 with 5,500,000 and 999,999.
#[rattlefmt::skip]
const NOTHING_MOVES: [u64; 5 * 7] = [
    99, 0, 30, 150, 5_000_000, 0, 0,
    0, 0, 30, 150, 5_000_000, 0, 0,
    0, 0, 30, 150, 5_000_000, 0, 0,
    0, 0, 30, 150, 5_000_000, 1_499_999, 0,
    99, 0, 30, 150, 5_000_000, 1_499_999, 0,
];

#[rattlefmt::skip]
const ENOUGH: [u64; 2 * 5] = [
    FUND_IN + CLIENT, 1_500_000, 0, 0, 0,
    PAY, 0, 0, 0, 0,
];

#[rattlefmt::skip]
const ALL_MOVES: [u64; 2 * 7] = [
    0, 0, 30, 150, 5_000_000, 1_500_000, 0,
    0, 0, 30, 150, 6_500_000, 0, 0,
];

#[tactic(auto, unfolding(crate::specs::Journal::ends_with))]
pub fn smaller_day_paid_alone() {
    journal::expect_lines(
        &DAILY,
        &ACCOUNTS,
        &TWO_UNPAID_DAYS,
        &ONE_FEN_SHORT,
        &NOTHING_MOVES,
    );
    journal::expect_lines(&DAILY, &ACCOUNTS, &TWO_UNPAID_DAYS, &ENOUGH, &ALL_MOVES);
}

// Contract 7 of document 01, due on day 4, which does not trade.
#[rattlefmt::skip]
const DUE_ON_A_HOLIDAY: [u64; 11 * 5] = [
    INITIAL, 100, 7, 3_650 + 1_000 * FALLBACK, 4,
    PAY, 0, 0, 0, 0,
    CLOSE, 0, 0, 0, 0,
    OPEN, 0, 0, 0, 0,
    PAY, 0, 0, 0, 0,
    CLOSE, 0, 0, 0, 0,
    OPEN, 0, 0, 0, 0,
    PAY, 0, 0, 0, 0,
    CLOSE, 0, 0, 0, 0,
    OPEN, 0, 0, 0, 0,
    PAY, 0, 0, 0, 0,
];

// It stands at the Close of day 3 and matures at that of day 6, over 7 - 3 = 4 days. Brought forward, the Close of day 3 leaves
// headroom 180 and 0 outstanding, and the Pay of day 6 4,999,700 and 3,000,300.
#[rattlefmt::skip]
const MATURED_LATER: [u64; 6 * 7] = [
    0, 0, 80, 100, 6_000_000, 2_000_000, 0,
    0, 0, 80, 100, 6_000_000, 2_000_000, 0,
    0, 0, 80, 100, 6_000_000, 2_000_000, 0,
    0, 0, 180, 0, 6_000_000, 2_000_000, 0,
    0, 0, 180, 0, 6_000_000, 2_000_000, 0,
    0, 0, 180, 0, 4_999_600, 3_000_400, 0,
];

#[tactic(auto, unfolding(crate::specs::Journal::ends_with))]
pub fn due_brought_forward() {
    journal::expect_lines(
        &LONGER_WEEK,
        &ACCOUNTS,
        &COVER,
        &DUE_ON_A_HOLIDAY,
        &MATURED_LATER,
    );
}
