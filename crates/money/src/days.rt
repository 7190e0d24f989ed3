// Trading days, found from the words of a lent calendar.
ghost use Rattle.std.specs.Prelude.{◌≡◌};
ghost use Rattle.money.specs.Days.{trades, at_or_after, next_after, earliest, found_of, search_result};

use crate::limits::CALENDAR_LIMIT;
use crate::refusal::{Refusal, number_of};

// The day that a search found or that a date is, as C has it: 0 beside it, or its refusal's number beside 0.
#[repr(C)]
#[derive(Clone, Copy)]
pub struct Found {
    pub number: u8,
    pub day: u32,
}

impl From<Result<u32, Refusal>> for Found {
    ghost from_gives = { λ answer found. found ≡ found_of answer };

    fn from(answer: Result<u32, Refusal>) -> Found {
        Found {
            number: number_of(answer),
            day: answer.unwrap_or(0),
        }
    }
}

// Whether a day trades.
#[tactic(auto, unfolding(crate::specs::Days::trades))]
pub fn trades_on(calendar: &[u32], day: u32) -> bool
    ensures { result ≡ trades calendar.now day }
{
    let word = calendar.get((day / 32) as usize);
    word.is_some_and(|word| (*word >> (day % 32)) % 2 == 1)
}

// The first trading day from a day on: the first word is masked below that day, zero words are stepped over.
#[tactic(auto, using(crate::proofs::Scan::past_end, crate::proofs::Words::next_word), unfolding(crate::specs::Days::search_result, crate::specs::Causes::first_of))]
fn from_day(calendar: &[u32], from: u64) -> Result<u32, Refusal>
    ensures { found_of result ≡ search_result calendar.now (at_or_after calendar.now from) }
{
    if calendar.len() > CALENDAR_LIMIT {
        return Err(Refusal::NotFit);
    }
    let first = (from / 32) as usize;
    let mut bit = (from % 32) as u32;
    for word in first..calendar.len() {
        let masked = calendar[word] & (0xffff_ffff << bit);
        if masked != 0 {
            return Ok((word as u32) * 32 + masked.trailing_zeros());
        }
        bit = 0;
    }
    Err(Refusal::NoTradingDay)
}

// The first trading day at or after a day.
pub fn at_or_after(calendar: &[u32], day: u32) -> Result<u32, Refusal>
    ensures { found_of result ≡ search_result calendar.now (at_or_after calendar.now day) }
{
    from_day(calendar, u64::from(day))
}

// The next trading day after a day: the payment day of a trading day.
#[tactic(auto, unfolding(crate::specs::Days::next_after))]
pub fn next_after(calendar: &[u32], day: u32) -> Result<u32, Refusal>
    ensures { found_of result ≡ search_result calendar.now (next_after calendar.now day) }
{
    from_day(calendar, u64::from(day) + 1)
}

// The earliest trading day.
#[tactic(auto, unfolding(crate::specs::Days::earliest))]
pub fn earliest_day(calendar: &[u32]) -> Result<u32, Refusal>
    ensures { found_of result ≡ search_result calendar.now (earliest calendar.now) }
{
    from_day(calendar, 0)
}
