// Evenings with unpaid redemptions: what document 02, ask 2, has the pledge answer for. By outstanding sheets alone every application below
// would be done on its first evening.
use crate::events::{CLOSE, EARLY, FALLBACK, INITIAL, OPEN, PAY, WITHDRAW};
use crate::journal;
use crate::worked::{ACCOUNTS, COVER};

// Every day trades.
const DAILY: [u32; 1] = [255];

#[rattlefmt::skip]
const EVENINGS: [u64; 19 * 5] = [
    // Day 1.
    INITIAL, 100, 7, 3_650 + 1_000 * FALLBACK, 4,
    PAY, 0, 0, 0, 0,
    CLOSE, 0, 0, 0, 0,
    // Day 2: 40 sheets are redeemed, for 400,000 fen that are paid on day 3.
    OPEN, 0, 0, 0, 0,
    EARLY, 40, 7, 0, 0,
    WITHDRAW, 80, 0, 0, 0,
    WITHDRAW, 8, 0, 0, 0,
    WITHDRAW, 1, 0, 0, 0,
    PAY, 0, 0, 0, 0,
    CLOSE, 0, 0, 0, 0,
    // Day 3.
    OPEN, 0, 0, 0, 0,
    WITHDRAW, 1, 0, 0, 0,
    PAY, 0, 0, 0, 0,
    CLOSE, 0, 0, 0, 0,
    // Day 4: the other 60 mature at the Close, for 600,180 fen.
    OPEN, 0, 0, 0, 0,
    WITHDRAW, 44, 0, 0, 0,
    WITHDRAW, 43, 0, 0, 0,
    PAY, 0, 0, 0, 0,
    CLOSE, 0, 0, 0, 0,
];

// From day 2 on; headroom tells what went. The redemption frees it on the spot. That evening 60 sheets stand and 40 are unpaid: 80 units go,
// 8 go and leave V at 100, equal, and 1 is dropped. On day 3 that one goes, for the clients are paid. On day 4 none stands: 44 units would
// leave V at 60 and are dropped, 43 leave it at 61.
#[rattlefmt::skip]
const EVENINGS_LINES: [u64; 16 * 7] = [
    0, 0, 80, 100, 5_000_000, 3_000_000, 0,
    0, 0, 120, 60, 5_000_000, 3_000_000, 0,
    0, 0, 120, 60, 5_000_000, 3_000_000, 0,
    0, 0, 120, 60, 5_000_000, 3_000_000, 0,
    0, 0, 120, 60, 5_000_000, 3_000_000, 0,
    0, 0, 120, 60, 6_000_000, 2_000_000, 0,
    0, 0, 40, 60, 6_000_000, 2_000_000, 0,
    0, 0, 40, 60, 6_000_000, 2_000_000, 0,
    0, 0, 40, 60, 6_000_000, 2_000_000, 0,
    0, 0, 40, 60, 5_600_000, 2_400_000, 0,
    0, 0, 39, 60, 5_600_000, 2_400_000, 0,
    0, 0, 39, 60, 5_600_000, 2_400_000, 0,
    0, 0, 39, 60, 5_600_000, 2_400_000, 0,
    0, 0, 39, 60, 5_600_000, 2_400_000, 0,
    0, 0, 39, 60, 5_600_000, 2_400_000, 0,
    0, 0, 61, 0, 5_600_000, 2_400_000, 0,
];

#[tactic(auto, unfolding(crate::specs::Journal::ends_with))]
pub fn evenings() {
    journal::expect_lines(&DAILY, &ACCOUNTS, &COVER, &EVENINGS, &EVENINGS_LINES);
}
