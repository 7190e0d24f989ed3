// The book's days.
ghost use Rattle.std.specs.Prelude.{◌≡◌, ◌≤◌, ◌↔◌, List, ℕ, length, IfSome, IsSome};
ghost use Rattle.std.proofs.Math.Option.{Option as Maybe, some};
ghost use Rattle.money.specs.Limits.{calendar_limit};
ghost use Rattle.money.specs.Days.{trades, at_or_after};
ghost use Rattle.rules.specs.Days.{following, to_day, day_number, payment_day, followed};

use scalars::state;
use std::marker::Model;

// The words of a calendar that is not too long.
#[derive(Drop)]
pub struct Calendar<'a> {
    words: &'a [u32],
}

impl<'a> Model for Calendar<'a> {
    ghost Value = { List ℕ };

    ghost view = { λ c. c.words.now };

    ghost invariant = { λ c. length c.words.now ≤ calendar_limit };
}

impl<'a> Calendar<'a> {
    pub fn of(words: &'a [u32]) -> Option<Calendar<'a>>
        ensures value { IfSome result (λ calendar. calendar ≡ words.now) }
        ensures variant { IsSome result ↔ (length words.now ≤ calendar_limit) }
    {
        if state::is_too_long(words.len()) {
            return None;
        }
        Some(Calendar { words })
    }

    pub fn trades_on(&self, day: u32) -> bool
        ensures { result ≡ trades self.now day }
    {
        money::days::trades_on(self.words, day)
    }

    // The day to open, or never.
    pub fn next_day(&self, day: Option<u32>) -> Option<u32>
        ensures { result ≡ to_day (following self.now day) }
    {
        let found = match day {
            None => money::days::earliest_day(self.words),
            Some(today) => money::days::next_after(self.words, today),
        };
        found.ok()
    }

    fn at_or_after(&self, due: u32) -> Option<u32>
        ensures { result ≡ to_day (at_or_after self.now due) }
    {
        money::days::at_or_after(self.words, due).ok()
    }

    // The payment day of a day is the next trading day, or 0 where there is none, as the rules have it.
    pub fn payment_day(&self, day: Option<u32>) -> u32
        ensures { result ≡ payment_day self.now day }
    {
        self.next_day(day).unwrap_or(0)
    }

    // Whether a trading day has another following.
    pub fn has_next(&self, day: u32) -> bool
        ensures { result ≡ followed self.now (some day) }
    {
        self.next_day(Some(day)).is_some()
    }

    // Whether a day was found that has another following. A match: a closure that takes the calendar tells a proof nothing of its answer.
    fn is_followed(&self, found: Option<u32>) -> bool
        ensures { (day : Maybe ℕ) → found ≡ to_day day → result ≡ followed self.now day }
    {
        match found {
            Some(day) => self.has_next(day),
            None => false,
        }
    }

    // Whether there is a trading day at or after a due day with another following.
    pub fn matures(&self, due: u32) -> bool
        ensures { result ≡ followed self.now (at_or_after self.now due) }
    {
        self.is_followed(self.at_or_after(due))
    }

    // Whether there is a day to open with another following.
    pub fn opens(&self, day: Option<u32>) -> bool
        ensures { result ≡ followed self.now (following self.now day) }
    {
        self.is_followed(self.next_day(day))
    }
}

// Today's number, or 0 where no day is open, as the rules have it.
pub fn day_number(day: Option<u32>) -> u32
    ensures { result ≡ day_number day }
{
    day.unwrap_or(0)
}
