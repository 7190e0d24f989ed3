// Document 00's two rehearsals as journals: the last twenty events are the same rows, and what came before decides.
use crate::events::{
    CASH, CLIENT, CLOSE, EARLY, FALLBACK, FUND_IN, FUND_OUT, INITIAL, OPEN, OWN, PAY, PLEDGE, RATE,
    SIZE, WITHDRAW,
};
use crate::journal;

// Two weeks: days 1 to 5 and 8 to 12 trade.
const WEEKS: [u32; 1] = [7_998];

// Cover of 180 sheets and two trades over all of it; the borrowed money is put to use, and contract 1 is redeemed for 800,080 fen.
#[rattlefmt::skip]
const BEFORE: [u64; 16 * 5] = [
    SIZE, 1_000, 0, 0, 0,
    FUND_IN + CLIENT, 3_000_000, 0, 0, 0,
    RATE, 9_000, 0, 0, 0,
    // Day 1.
    OPEN, 0, 0, 0, 0,
    PLEDGE, 200, 0, 0, 0,
    PAY, 0, 0, 0, 0,
    CLOSE, 0, 0, 0, 0,
    // Day 2.
    OPEN, 0, 0, 0, 0,
    INITIAL, 80, 1, 3_650 + 1_000 * FALLBACK, 3,
    INITIAL, 100, 2, 3_650 + 1_000 * FALLBACK, 11,
    PAY, 0, 0, 0, 0,
    CLOSE, 0, 0, 0, 0,
    // Day 3.
    OPEN, 0, 0, 0, 0,
    PAY, 0, 0, 0, 0,
    FUND_OUT + OWN, 1_000_000, 0, 0, 0,
    CLOSE, 0, 0, 0, 0,
];

// The money comes on day 4, cash is pledged, and the clients are paid.
#[rattlefmt::skip]
const PLEDGED_AND_PAID: [u64; 6 * 5] = [
    // Day 4.
    OPEN, 0, 0, 0, 0,
    FUND_IN + OWN, 2_000_000, 0, 0, 0,
    PLEDGE + CASH, 1_000_000, 0, 0, 0,
    PAY, 0, 0, 0, 0,
    CLOSE, 0, 0, 0, 0,
    // Day 5.
    OPEN, 0, 0, 0, 0,
];

// The same six events with the money a day late: on day 4 own holds 80 fen too little, and the cash is pledged on day 5.
#[rattlefmt::skip]
const UNPAID_AND_LATE: [u64; 6 * 5] = [
    // Day 4.
    OPEN, 0, 0, 0, 0,
    PAY, 0, 0, 0, 0,
    CLOSE, 0, 0, 0, 0,
    // Day 5, the morning.
    OPEN, 0, 0, 0, 0,
    FUND_IN + OWN, 2_000_000, 0, 0, 0,
    PLEDGE + CASH, 1_000_000, 0, 0, 0,
];

// The same six events with the pledge alone a day late.
#[rattlefmt::skip]
const LATE: [u64; 6 * 5] = [
    // Day 4.
    OPEN, 0, 0, 0, 0,
    FUND_IN + OWN, 2_000_000, 0, 0, 0,
    PAY, 0, 0, 0, 0,
    CLOSE, 0, 0, 0, 0,
    // Day 5, the morning.
    OPEN, 0, 0, 0, 0,
    PLEDGE + CASH, 1_000_000, 0, 0, 0,
];

// The last twenty events of all three.
#[rattlefmt::skip]
const FROM_NOON: [u64; 20 * 5] = [
    // Day 5: the rate is cut at noon, and three trades follow.
    RATE, 6_000, 0, 0, 0,
    INITIAL, 50, 11, 3_650 + 1_000 * FALLBACK, 8,
    INITIAL, 40, 12, 3_650 + 1_000 * FALLBACK, 9,
    INITIAL, 30, 13, 3_650 + 1_000 * FALLBACK, 10,
    PAY, 0, 0, 0, 0,
    CLOSE, 0, 0, 0, 0,
    // Day 8.
    OPEN, 0, 0, 0, 0,
    PAY, 0, 0, 0, 0,
    CLOSE, 0, 0, 0, 0,
    // Day 9.
    OPEN, 0, 0, 0, 0,
    EARLY, 20, 13, 3_650, 0,
    PAY, 0, 0, 0, 0,
    CLOSE, 0, 0, 0, 0,
    // Day 10.
    OPEN, 0, 0, 0, 0,
    WITHDRAW + CASH, 1_000_000, 0, 0, 0,
    PAY, 0, 0, 0, 0,
    CLOSE, 0, 0, 0, 0,
    // Day 11.
    OPEN, 0, 0, 0, 0,
    PAY, 0, 0, 0, 0,
    CLOSE, 0, 0, 0, 0,
];

// Bonds cover 120 and cash 100, so the 120 sheets fit beside contract 2; on day 8 the batch of 1,200,000 fen is paid.
#[rattlefmt::skip]
const FIT: [u64; 26 * 7] = [
    // Day 4, and the Open of day 5.
    0, 0, 80, 100, 800_000, 1_200_000, 0,
    0, 0, 80, 100, 2_800_000, 1_200_000, 0,
    0, 0, 80, 100, 1_800_000, 1_200_000, 1_000_000,
    0, 0, 80, 100, 999_920, 2_000_080, 1_000_000,
    0, 0, 180, 100, 999_920, 2_000_080, 1_000_000,
    0, 0, 180, 100, 999_920, 2_000_080, 1_000_000,
    // Day 5 from noon.
    0, 0, 120, 100, 999_920, 2_000_080, 1_000_000,
    0, 0, 70, 150, 999_920, 2_000_080, 1_000_000,
    0, 0, 30, 190, 999_920, 2_000_080, 1_000_000,
    0, 0, 0, 220, 999_920, 2_000_080, 1_000_000,
    0, 0, 0, 220, 999_920, 2_000_080, 1_000_000,
    0, 0, 0, 220, 999_920, 2_000_080, 1_000_000,
    // Day 8.
    0, 0, 0, 220, 999_920, 2_000_080, 1_000_000,
    0, 0, 0, 220, 2_199_920, 800_080, 1_000_000,
    0, 0, 50, 170, 2_199_920, 800_080, 1_000_000,
    // Day 9.
    0, 0, 50, 170, 2_199_920, 800_080, 1_000_000,
    0, 0, 70, 150, 2_199_920, 800_080, 1_000_000,
    0, 0, 70, 150, 1_699_870, 1_300_130, 1_000_000,
    0, 0, 110, 110, 1_699_870, 1_300_130, 1_000_000,
    // Day 10.
    0, 0, 110, 110, 1_699_870, 1_300_130, 1_000_000,
    0, 0, 110, 110, 1_699_870, 1_300_130, 1_000_000,
    0, 0, 110, 110, 1_099_750, 1_900_250, 1_000_000,
    0, 0, 20, 100, 2_099_750, 1_900_250, 0,
    // Day 11.
    0, 0, 20, 100, 2_099_750, 1_900_250, 0,
    0, 0, 20, 100, 1_999_720, 2_000_280, 0,
    0, 0, 120, 0, 1_999_720, 2_000_280, 0,
];

#[tactic(auto, unfolding(crate::specs::Journal::ends_with))]
pub fn first() {
    journal::expect_lines(&WEEKS, &BEFORE, &PLEDGED_AND_PAID, &FROM_NOON, &FIT);
}

// The failed payment opens day 5 suspended, so the trades are 6, the smallest number that applies; with headroom 20 they had no
// cover either. What waits is paid on day 5, and day 8 opens normal. Contract 13 was never begun: its early redemption is 10.
#[rattlefmt::skip]
const REFUSED: [u64; 26 * 7] = [
    // Day 4, unpaid, and the morning of day 5.
    0, 0, 80, 100, 800_000, 1_200_000, 0,
    99, 0, 80, 100, 800_000, 1_200_000, 0,
    0, 0, 80, 100, 800_000, 1_200_000, 0,
    0, 0, 80, 100, 800_000, 1_200_000, 0,
    0, 0, 80, 100, 2_800_000, 1_200_000, 0,
    0, 0, 80, 100, 1_800_000, 1_200_000, 1_000_000,
    // Day 5 from noon.
    0, 0, 20, 100, 1_800_000, 1_200_000, 1_000_000,
    6, 0, 20, 100, 1_800_000, 1_200_000, 1_000_000,
    6, 0, 20, 100, 1_800_000, 1_200_000, 1_000_000,
    6, 0, 20, 100, 1_800_000, 1_200_000, 1_000_000,
    0, 0, 20, 100, 999_920, 2_000_080, 1_000_000,
    0, 0, 120, 100, 999_920, 2_000_080, 1_000_000,
    // Day 8.
    0, 0, 120, 100, 999_920, 2_000_080, 1_000_000,
    0, 0, 120, 100, 999_920, 2_000_080, 1_000_000,
    0, 0, 120, 100, 999_920, 2_000_080, 1_000_000,
    // Day 9.
    0, 0, 120, 100, 999_920, 2_000_080, 1_000_000,
    10, 0, 120, 100, 999_920, 2_000_080, 1_000_000,
    0, 0, 120, 100, 999_920, 2_000_080, 1_000_000,
    0, 0, 120, 100, 999_920, 2_000_080, 1_000_000,
    // Day 10.
    0, 0, 120, 100, 999_920, 2_000_080, 1_000_000,
    0, 0, 120, 100, 999_920, 2_000_080, 1_000_000,
    0, 0, 120, 100, 999_920, 2_000_080, 1_000_000,
    0, 0, 20, 100, 1_999_920, 2_000_080, 0,
    // Day 11.
    0, 0, 20, 100, 1_999_920, 2_000_080, 0,
    0, 0, 20, 100, 1_999_920, 2_000_080, 0,
    0, 0, 120, 0, 1_999_920, 2_000_080, 0,
];

#[tactic(auto, unfolding(crate::specs::Journal::ends_with))]
pub fn second() {
    journal::expect_lines(&WEEKS, &BEFORE, &UNPAID_AND_LATE, &FROM_NOON, &REFUSED);
}

// Without the failed payment the same trades are 12: cash counts from its own day's Close, and the bonds alone leave 20.
#[rattlefmt::skip]
const NO_COVER: [u64; 26 * 7] = [
    // Day 4, and the morning of day 5.
    0, 0, 80, 100, 800_000, 1_200_000, 0,
    0, 0, 80, 100, 2_800_000, 1_200_000, 0,
    0, 0, 80, 100, 1_999_920, 2_000_080, 0,
    0, 0, 80, 100, 1_999_920, 2_000_080, 0,
    0, 0, 80, 100, 1_999_920, 2_000_080, 0,
    0, 0, 80, 100, 999_920, 2_000_080, 1_000_000,
    // Day 5 from noon.
    0, 0, 20, 100, 999_920, 2_000_080, 1_000_000,
    12, 0, 20, 100, 999_920, 2_000_080, 1_000_000,
    12, 0, 20, 100, 999_920, 2_000_080, 1_000_000,
    12, 0, 20, 100, 999_920, 2_000_080, 1_000_000,
    0, 0, 20, 100, 999_920, 2_000_080, 1_000_000,
    0, 0, 120, 100, 999_920, 2_000_080, 1_000_000,
    // Day 8.
    0, 0, 120, 100, 999_920, 2_000_080, 1_000_000,
    0, 0, 120, 100, 999_920, 2_000_080, 1_000_000,
    0, 0, 120, 100, 999_920, 2_000_080, 1_000_000,
    // Day 9.
    0, 0, 120, 100, 999_920, 2_000_080, 1_000_000,
    10, 0, 120, 100, 999_920, 2_000_080, 1_000_000,
    0, 0, 120, 100, 999_920, 2_000_080, 1_000_000,
    0, 0, 120, 100, 999_920, 2_000_080, 1_000_000,
    // Day 10.
    0, 0, 120, 100, 999_920, 2_000_080, 1_000_000,
    0, 0, 120, 100, 999_920, 2_000_080, 1_000_000,
    0, 0, 120, 100, 999_920, 2_000_080, 1_000_000,
    0, 0, 20, 100, 1_999_920, 2_000_080, 0,
    // Day 11.
    0, 0, 20, 100, 1_999_920, 2_000_080, 0,
    0, 0, 20, 100, 1_999_920, 2_000_080, 0,
    0, 0, 120, 0, 1_999_920, 2_000_080, 0,
];

#[tactic(auto, unfolding(crate::specs::Journal::ends_with))]
pub fn pledge_alone_late() {
    journal::expect_lines(&WEEKS, &BEFORE, &LATE, &FROM_NOON, &NO_COVER);
}
