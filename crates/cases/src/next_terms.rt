// Trades whose next term starts by itself, and those whose does not: document 02, ask 4.
use crate::events::{
    CLOSE, EARLY, FALLBACK, INITIAL, KIND, OPEN, PAY, PLEDGE, POST, PRODUCT, RATE, SIZE, WITHDRAW,
};
use crate::journal;
use crate::worked::{ACCOUNTS, COVER};

// Every day to day 7 trades.
const DAILY: [u32; 1] = [255];

// Product 3, posted and in a trade.
const POST_3: u64 = POST + 3 * KIND;

const INITIAL_3: u64 = INITIAL + 4 * PRODUCT;

// The last product with its neighbours, posted and in a trade.
const POST_15: u64 = POST + 15 * KIND;

const POST_16: u64 = POST + 16 * KIND;

const INITIAL_14: u64 = INITIAL + 15 * PRODUCT;

const INITIAL_15: u64 = INITIAL + 16 * PRODUCT;

const INITIAL_16: u64 = INITIAL + 17 * PRODUCT;

// An income of one fen a sheet and day, and of two.
const ONE_FEN: u64 = 3_650 + 1_000 * FALLBACK;

const TWO_FEN: u64 = 7_300 + 1_000 * FALLBACK;

#[rattlefmt::skip]
const TWICE: [u64; 19 * 5] = [
    // Day 1.
    POST_3, 1, 0, TWO_FEN, 0,
    INITIAL_3, 100, 7, ONE_FEN, 2,
    PAY, 0, 0, 0, 0,
    CLOSE, 0, 0, 0, 0,
    // Day 2: the first term matures with 1,000,100 fen, and the second starts.
    OPEN, 0, 0, 0, 0,
    POST_3, 1, 0, TWO_FEN, 0,
    WITHDRAW, 1, 0, 0, 0,
    PAY, 0, 0, 0, 0,
    CLOSE, 0, 0, 0, 0,
    // Day 3: the second matures with 1,000,200, and the third starts.
    OPEN, 0, 0, 0, 0,
    POST_3, 1, 0, ONE_FEN, 0,
    INITIAL, 10, 7, ONE_FEN, 5,
    PAY, 0, 0, 0, 0,
    CLOSE, 0, 0, 0, 0,
    // Day 4: nothing is posted, so the third is the last; it matures with 1,000,100.
    OPEN, 0, 0, 0, 0,
    PAY, 0, 0, 0, 0,
    CLOSE, 0, 0, 0, 0,
    // Day 5.
    OPEN, 0, 0, 0, 0,
    PAY, 0, 0, 0, 0,
];

// The sheets stay on the table, under their contract (10), and only the income is paid: 100 fen on day 3, at the trade's own price, and 200
// on day 4, at that posted on day 2. The withdrawal of day 2 is dropped: the pledge answers for the matured 1,000,100 fen, which are not
// paid yet, beside the 100 sheets that started.
#[rattlefmt::skip]
const TWICE_LINES: [u64; 19 * 7] = [
    0, 0, 180, 0, 5_000_000, 3_000_000, 0,
    0, 0, 80, 100, 5_000_000, 3_000_000, 0,
    0, 0, 80, 100, 5_000_000, 3_000_000, 0,
    0, 0, 80, 100, 5_000_000, 3_000_000, 0,
    0, 0, 80, 100, 5_000_000, 3_000_000, 0,
    0, 0, 80, 100, 5_000_000, 3_000_000, 0,
    0, 0, 80, 100, 5_000_000, 3_000_000, 0,
    0, 0, 80, 100, 6_000_000, 2_000_000, 0,
    0, 0, 80, 100, 6_000_000, 2_000_000, 0,
    0, 0, 80, 100, 6_000_000, 2_000_000, 0,
    0, 0, 80, 100, 6_000_000, 2_000_000, 0,
    10, 0, 80, 100, 6_000_000, 2_000_000, 0,
    0, 0, 80, 100, 5_999_900, 2_000_100, 0,
    0, 0, 80, 100, 5_999_900, 2_000_100, 0,
    0, 0, 80, 100, 5_999_900, 2_000_100, 0,
    0, 0, 80, 100, 5_999_700, 2_000_300, 0,
    0, 0, 180, 0, 5_999_700, 2_000_300, 0,
    0, 0, 180, 0, 5_999_700, 2_000_300, 0,
    0, 0, 180, 0, 4_999_600, 3_000_400, 0,
];

#[tactic(auto, unfolding(crate::specs::Journal::ends_with))]
pub fn twice() {
    journal::expect_lines(&DAILY, &ACCOUNTS, &COVER, &TWICE, &TWICE_LINES);
}

#[rattlefmt::skip]
const TOO_LARGE: [u64; 18 * 5] = [
    // Day 1.
    POST_3, 1, 0, ONE_FEN, 0,
    INITIAL_3, 100, 7, ONE_FEN, 2,
    INITIAL_3, 40, 8, ONE_FEN, 2,
    INITIAL_3, 30, 9, ONE_FEN, 2,
    INITIAL_3, 10, 10, ONE_FEN, 2,
    PAY, 0, 0, 0, 0,
    CLOSE, 0, 0, 0, 0,
    // Day 2: V falls to 50; with the units that arrive it is 100 after the Close.
    OPEN, 0, 0, 0, 0,
    RATE, 2_500, 0, 0, 0,
    PLEDGE, 200, 0, 0, 0,
    POST_3, 3, 0, ONE_FEN, 0,
    PAY, 0, 0, 0, 0,
    CLOSE, 0, 0, 0, 0,
    // Day 3.
    OPEN, 0, 0, 0, 0,
    INITIAL, 10, 8, ONE_FEN, 4,
    INITIAL, 10, 10, ONE_FEN, 4,
    INITIAL, 10, 9, ONE_FEN, 4,
    PAY, 0, 0, 0, 0,
];

// All four mature, then each is judged for itself, against the V of 50: the 100 sheets of contract 7 are too many, the 40 of contract 8
// start, the 30 of contract 9 are too many for what those leave, the 10 of contract 10 take all of it. So contracts 8 and 10 are taken on
// day 3, and 9 is not. With what arrives that evening counted, the 100 alone would have started.
#[rattlefmt::skip]
const TOO_LARGE_LINES: [u64; 18 * 7] = [
    0, 0, 180, 0, 5_000_000, 3_000_000, 0,
    0, 0, 80, 100, 5_000_000, 3_000_000, 0,
    0, 0, 40, 140, 5_000_000, 3_000_000, 0,
    0, 0, 10, 170, 5_000_000, 3_000_000, 0,
    0, 0, 0, 180, 5_000_000, 3_000_000, 0,
    0, 0, 0, 180, 5_000_000, 3_000_000, 0,
    0, 0, 0, 180, 5_000_000, 3_000_000, 0,
    0, 0, 0, 180, 5_000_000, 3_000_000, 0,
    0, 1, 130, 180, 5_000_000, 3_000_000, 0,
    0, 1, 130, 180, 5_000_000, 3_000_000, 0,
    0, 1, 130, 180, 5_000_000, 3_000_000, 0,
    0, 1, 130, 180, 6_800_000, 1_200_000, 0,
    0, 0, 50, 50, 6_800_000, 1_200_000, 0,
    0, 0, 50, 50, 6_800_000, 1_200_000, 0,
    10, 0, 50, 50, 6_800_000, 1_200_000, 0,
    10, 0, 50, 50, 6_800_000, 1_200_000, 0,
    0, 0, 40, 60, 6_800_000, 1_200_000, 0,
    0, 0, 40, 60, 5_499_820, 2_500_180, 0,
];

#[tactic(auto, unfolding(crate::specs::Journal::ends_with))]
pub fn too_large() {
    journal::expect_lines(&DAILY, &ACCOUNTS, &COVER, &TOO_LARGE, &TOO_LARGE_LINES);
}

#[rattlefmt::skip]
const REDEEMED_EARLY: [u64; 15 * 5] = [
    // Day 1: all of contract 7 is redeemed and 17 of contract 8, over no day.
    POST_3, 1, 0, ONE_FEN, 0,
    INITIAL_3, 100, 7, ONE_FEN, 2,
    INITIAL_3, 50, 8, ONE_FEN, 2,
    EARLY, 100, 7, 3_650, 0,
    EARLY, 17, 8, 3_650, 0,
    PAY, 0, 0, 0, 0,
    CLOSE, 0, 0, 0, 0,
    // Day 2.
    OPEN, 0, 0, 0, 0,
    POST_3, 3, 0, ONE_FEN, 0,
    PAY, 0, 0, 0, 0,
    CLOSE, 0, 0, 0, 0,
    // Day 3.
    OPEN, 0, 0, 0, 0,
    INITIAL, 10, 8, ONE_FEN, 4,
    INITIAL, 10, 7, ONE_FEN, 4,
    PAY, 0, 0, 0, 0,
];

// Nothing of contract 7 is left to mature, so it is free on day 3. The 33 sheets of contract 8 start again, though no multiple of 10.
#[rattlefmt::skip]
const REDEEMED_EARLY_LINES: [u64; 15 * 7] = [
    0, 0, 180, 0, 5_000_000, 3_000_000, 0,
    0, 0, 80, 100, 5_000_000, 3_000_000, 0,
    0, 0, 30, 150, 5_000_000, 3_000_000, 0,
    0, 0, 130, 50, 5_000_000, 3_000_000, 0,
    0, 0, 147, 33, 5_000_000, 3_000_000, 0,
    0, 0, 147, 33, 5_000_000, 3_000_000, 0,
    0, 0, 147, 33, 5_000_000, 3_000_000, 0,
    0, 0, 147, 33, 5_000_000, 3_000_000, 0,
    0, 0, 147, 33, 5_000_000, 3_000_000, 0,
    0, 0, 147, 33, 5_330_000, 2_670_000, 0,
    0, 0, 147, 33, 5_330_000, 2_670_000, 0,
    0, 0, 147, 33, 5_330_000, 2_670_000, 0,
    10, 0, 147, 33, 5_330_000, 2_670_000, 0,
    0, 0, 137, 43, 5_330_000, 2_670_000, 0,
    0, 0, 137, 43, 5_329_967, 2_670_033, 0,
];

#[tactic(auto, unfolding(crate::specs::Journal::ends_with))]
pub fn redeemed_early() {
    journal::expect_lines(
        &DAILY,
        &ACCOUNTS,
        &COVER,
        &REDEEMED_EARLY,
        &REDEEMED_EARLY_LINES,
    );
}

// Days 1, 2, 3 and 6 to 9 trade.
const HOLIDAYS: [u32; 1] = [974];

#[rattlefmt::skip]
const DUE_ON_A_HOLIDAY: [u64; 18 * 5] = [
    // Day 2, paid on day 3; the trade is due on day 4.
    POST_3, 1, 0, ONE_FEN, 0,
    INITIAL_3, 100, 7, ONE_FEN, 4,
    PAY, 0, 0, 0, 0,
    CLOSE, 0, 0, 0, 0,
    // Day 3: posted in vain.
    OPEN, 0, 0, 0, 0,
    POST_3, 1, 0, ONE_FEN, 0,
    PAY, 0, 0, 0, 0,
    CLOSE, 0, 0, 0, 0,
    // Day 6: matures over 7 - 3 days, and starts again, due on day 7.
    OPEN, 0, 0, 0, 0,
    POST_3, 1, 0, TWO_FEN, 0,
    PAY, 0, 0, 0, 0,
    CLOSE, 0, 0, 0, 0,
    // Day 7: matures over 8 - 7 days. A next term would be due on day 9, the calendar's last.
    OPEN, 0, 0, 0, 0,
    POST_3, 2, 0, ONE_FEN, 0,
    PAY, 0, 0, 0, 0,
    CLOSE, 0, 0, 0, 0,
    // Day 8.
    OPEN, 0, 0, 0, 0,
    PAY, 0, 0, 0, 0,
];

// Paid are 400 fen on day 7 and 1,000,200 on day 8. Brought forward, the first term would end on day 3 and 300 be paid on day 6; counted from
// day 4, the second would be of two days, and 1,000,400 be paid for it. Rule 9 leaves the second matured.
#[rattlefmt::skip]
const DUE_ON_A_HOLIDAY_LINES: [u64; 18 * 7] = [
    0, 0, 180, 0, 5_000_000, 3_000_000, 0,
    0, 0, 80, 100, 5_000_000, 3_000_000, 0,
    0, 0, 80, 100, 5_000_000, 3_000_000, 0,
    0, 0, 80, 100, 5_000_000, 3_000_000, 0,
    0, 0, 80, 100, 5_000_000, 3_000_000, 0,
    0, 0, 80, 100, 5_000_000, 3_000_000, 0,
    0, 0, 80, 100, 6_000_000, 2_000_000, 0,
    0, 0, 80, 100, 6_000_000, 2_000_000, 0,
    0, 0, 80, 100, 6_000_000, 2_000_000, 0,
    0, 0, 80, 100, 6_000_000, 2_000_000, 0,
    0, 0, 80, 100, 6_000_000, 2_000_000, 0,
    0, 0, 80, 100, 6_000_000, 2_000_000, 0,
    0, 0, 80, 100, 6_000_000, 2_000_000, 0,
    0, 0, 80, 100, 6_000_000, 2_000_000, 0,
    0, 0, 80, 100, 5_999_600, 2_000_400, 0,
    0, 0, 180, 0, 5_999_600, 2_000_400, 0,
    0, 0, 180, 0, 5_999_600, 2_000_400, 0,
    0, 0, 180, 0, 4_999_400, 3_000_600, 0,
];

#[tactic(auto, unfolding(crate::specs::Journal::ends_with))]
pub fn due_on_a_holiday() {
    journal::expect_lines(
        &HOLIDAYS,
        &ACCOUNTS,
        &COVER,
        &DUE_ON_A_HOLIDAY,
        &DUE_ON_A_HOLIDAY_LINES,
    );
}

#[rattlefmt::skip]
const POSTED_FOR_THE_DAY: [u64; 18 * 5] = [
    // Day 1: products 3 and 0.
    POST_3, 3, 0, ONE_FEN, 0,
    POST, 3, 0, ONE_FEN, 0,
    INITIAL_3, 100, 7, ONE_FEN, 2,
    INITIAL + PRODUCT, 50, 8, ONE_FEN, 2,
    PAY, 0, 0, 0, 0,
    CLOSE, 0, 0, 0, 0,
    // Day 2: product 0 alone, twice, and a third time in vain.
    OPEN, 0, 0, 0, 0,
    POST, 3, 0, ONE_FEN, 0,
    POST, 1, 0, TWO_FEN, 0,
    POST, 366, 0, ONE_FEN, 0,
    INITIAL_3, 10, 9, ONE_FEN, 4,
    PAY, 0, 0, 0, 0,
    CLOSE, 0, 0, 0, 0,
    // Day 3.
    OPEN, 0, 0, 0, 0,
    PAY, 0, 0, 0, 0,
    CLOSE, 0, 0, 0, 0,
    // Day 4.
    OPEN, 0, 0, 0, 0,
    PAY, 0, 0, 0, 0,
];

// What was posted yesterday is forgotten: a trade that names product 3 is 20, and contract 7 stays matured. Contract 8 starts for one day at
// two fen, as posted last; for three days it would still stand at the Close of day 3. On day 4 it is paid 500,100 fen.
#[rattlefmt::skip]
const POSTED_FOR_THE_DAY_LINES: [u64; 18 * 7] = [
    0, 0, 180, 0, 5_000_000, 3_000_000, 0,
    0, 0, 180, 0, 5_000_000, 3_000_000, 0,
    0, 0, 80, 100, 5_000_000, 3_000_000, 0,
    0, 0, 30, 150, 5_000_000, 3_000_000, 0,
    0, 0, 30, 150, 5_000_000, 3_000_000, 0,
    0, 0, 30, 150, 5_000_000, 3_000_000, 0,
    0, 0, 30, 150, 5_000_000, 3_000_000, 0,
    0, 0, 30, 150, 5_000_000, 3_000_000, 0,
    0, 0, 30, 150, 5_000_000, 3_000_000, 0,
    9, 0, 30, 150, 5_000_000, 3_000_000, 0,
    20, 0, 30, 150, 5_000_000, 3_000_000, 0,
    0, 0, 30, 150, 6_500_000, 1_500_000, 0,
    0, 0, 130, 50, 6_500_000, 1_500_000, 0,
    0, 0, 130, 50, 6_500_000, 1_500_000, 0,
    0, 0, 130, 50, 5_499_850, 2_500_150, 0,
    0, 0, 180, 0, 5_499_850, 2_500_150, 0,
    0, 0, 180, 0, 5_499_850, 2_500_150, 0,
    0, 0, 180, 0, 4_999_750, 3_000_250, 0,
];

#[tactic(auto, unfolding(crate::specs::Journal::ends_with))]
pub fn posted_for_the_day() {
    journal::expect_lines(
        &DAILY,
        &ACCOUNTS,
        &COVER,
        &POSTED_FOR_THE_DAY,
        &POSTED_FOR_THE_DAY_LINES,
    );
}

// A firm whose clients cannot pay.
#[rattlefmt::skip]
const NO_ACCOUNTS: [u64; 2 * 5] = [
    SIZE, 1_000, 0, 0, 0,
    RATE, 9_000, 0, 0, 0,
];

#[rattlefmt::skip]
const NOT_NORMAL: [u64; 20 * 5] = [
    // Day 1.
    POST_3, 1, 0, ONE_FEN, 0,
    INITIAL_3, 100, 7, ONE_FEN, 2,
    PAY, 0, 0, 0, 0,
    CLOSE, 0, 0, 0, 0,
    // Day 2: the first payment fails.
    OPEN, 0, 0, 0, 0,
    POST_3, 1, 0, ONE_FEN, 0,
    PAY, 0, 0, 0, 0,
    CLOSE, 0, 0, 0, 0,
    // Day 3: suspended, and the second fails.
    OPEN, 0, 0, 0, 0,
    INITIAL_3, 10, 8, ONE_FEN, 4,
    POST_3, 1, 0, ONE_FEN, 0,
    INITIAL_3, 10, 8, ONE_FEN, 4,
    PAY, 0, 0, 0, 0,
    CLOSE, 0, 0, 0, 0,
    // Day 4: terminated.
    OPEN, 0, 0, 0, 0,
    POST_3, 1, 0, ONE_FEN, 0,
    POST_3, 0, 0, 100_001, 0,
    POST_16, 1, 0, ONE_FEN, 0,
    INITIAL_3, 10, 8, ONE_FEN, 5,
    INITIAL, 10, 8, ONE_FEN, 5,
];

// The status is the morning's: after the payment that fails on day 2 the next term still starts. On day 3 a suspended book may post, but it
// takes no trade (6) and starts no term. On day 4 it may not even post (5). 20 is found before 6 and before 5, and 5 before 8 and 9.
#[rattlefmt::skip]
const NOT_NORMAL_LINES: [u64; 20 * 7] = [
    0, 0, 180, 0, 0, 0, 0,
    0, 0, 80, 100, 0, 0, 0,
    0, 0, 80, 100, 0, 0, 0,
    0, 0, 80, 100, 0, 0, 0,
    0, 0, 80, 100, 0, 0, 0,
    0, 0, 80, 100, 0, 0, 0,
    99, 0, 80, 100, 0, 0, 0,
    0, 0, 80, 100, 0, 0, 0,
    0, 0, 80, 100, 0, 0, 0,
    20, 0, 80, 100, 0, 0, 0,
    0, 0, 80, 100, 0, 0, 0,
    6, 0, 80, 100, 0, 0, 0,
    99, 0, 80, 100, 0, 0, 0,
    0, 0, 180, 0, 0, 0, 0,
    0, 0, 180, 0, 0, 0, 0,
    5, 0, 180, 0, 0, 0, 0,
    5, 0, 180, 0, 0, 0, 0,
    20, 0, 180, 0, 0, 0, 0,
    20, 0, 180, 0, 0, 0, 0,
    5, 0, 180, 0, 0, 0, 0,
];

#[tactic(auto, unfolding(crate::specs::Journal::ends_with))]
pub fn not_normal() {
    journal::expect_lines(&DAILY, &NO_ACCOUNTS, &COVER, &NOT_NORMAL, &NOT_NORMAL_LINES);
}

// On a fresh book, which is Closed.
#[rattlefmt::skip]
const FRESH: [u64; 5 * 5] = [
    POST_16, 1, 0, ONE_FEN, 0,
    POST_15, 1, 0, ONE_FEN, 0,
    INITIAL_16, 10, 7, ONE_FEN, 4,
    INITIAL_15, 10, 7, ONE_FEN, 4,
    INITIAL, 10, 7, ONE_FEN, 4,
];

#[rattlefmt::skip]
const OPENED: [u64; 1 * 5] = [
    OPEN, 0, 0, 0, 0,
];

// A trade of no sheets is 7 once its product passes.
#[rattlefmt::skip]
const TURNED_DOWN: [u64; 10 * 5] = [
    POST_16, 0, 0, 100_001, 0,
    POST_15, 0, 0, 100_001, 0,
    POST_15, 1, 0, 100_001 * FALLBACK, 0,
    POST_15, 0, 0, ONE_FEN, 0,
    POST_15, 366, 0, ONE_FEN, 0,
    INITIAL_15, 0, 7, ONE_FEN, 4,
    POST_15, 365, 0, 100_000 + 100_000 * FALLBACK, 0,
    INITIAL_15, 0, 7, ONE_FEN, 4,
    INITIAL_14, 0, 7, ONE_FEN, 4,
    INITIAL_16, 0, 7, ONE_FEN, 4,
];

// 20 is found before 4, so a fresh book gives it, and before 8; 8 before 9; a term of 0 is 9, not 7. None of these posts product 15. A term
// of 365 days at the highest prices does, and posts no other product.
#[rattlefmt::skip]
const TURNED_DOWN_LINES: [u64; 16 * 7] = [
    20, 0, 0, 0, 0, 0, 0,
    4, 0, 0, 0, 0, 0, 0,
    20, 0, 0, 0, 0, 0, 0,
    20, 0, 0, 0, 0, 0, 0,
    4, 0, 0, 0, 0, 0, 0,
    0, 0, 0, 0, 0, 0, 0,
    20, 0, 0, 0, 0, 0, 0,
    8, 0, 0, 0, 0, 0, 0,
    8, 0, 0, 0, 0, 0, 0,
    9, 0, 0, 0, 0, 0, 0,
    9, 0, 0, 0, 0, 0, 0,
    20, 0, 0, 0, 0, 0, 0,
    0, 0, 0, 0, 0, 0, 0,
    7, 0, 0, 0, 0, 0, 0,
    20, 0, 0, 0, 0, 0, 0,
    20, 0, 0, 0, 0, 0, 0,
];

#[tactic(auto, unfolding(crate::specs::Journal::ends_with))]
pub fn turned_down() {
    journal::expect_lines(&DAILY, &FRESH, &OPENED, &TURNED_DOWN, &TURNED_DOWN_LINES);
}
