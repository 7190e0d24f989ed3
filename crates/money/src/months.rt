// The months from January 2000 on: how long each is, and on which day it starts.
ghost use Rattle.std.specs.Prelude.{◌≡◌, true, ◌≤◌};
ghost use Rattle.money.specs.Limits.{month_count};
ghost use Rattle.money.specs.Dates.{february, month_length, length_after, start_after, keeps_rule};

use crate::limits::{FIRST_YEAR, LAST_DAY, MONTH_COUNT};
use crate::starts::STARTS;

// The days of February, by the whole leap rule.
#[tactic(auto, unfolding(crate::specs::Dates::february, crate::specs::Dates::leap))]
fn february(year: u32) -> u32
    ensures { result ≡ february year }
{
    let is_leap = year % 4 == 0 && (year % 100 != 0 || year % 400 == 0);
    if is_leap { 29 } else { 28 }
}

// The days of a month; what is no month has none.
#[tactic(auto, unfolding(crate::specs::Dates::month_length))]
pub fn month_length(year: u32, month: u32) -> u32
    ensures { result ≡ month_length year month }
{
    if month > 12 {
        return 0;
    }
    let second = february(year);
    let lengths = [0, 31, second, 31, 30, 31, 30, 31, 31, 30, 31, 30, 31];
    lengths[month as usize]
}

// The length of the month that comes so many months after January 2000.
#[tactic(auto, unfolding(crate::specs::Dates::length_after))]
pub fn length_after(months: u32) -> u32
    ensures { result ≡ length_after months }
{
    month_length(FIRST_YEAR + months / 12, months % 12 + 1)
}

// The starts of all months, which together keep the rule of month lengths.
#[tactic(auto, unfolding(crate::specs::Dates::keeps_rule, crate::specs::Dates::length_after, crate::specs::Dates::month_length, crate::specs::Dates::february, crate::specs::Dates::leap))]
fn starts() -> [u16; 1200]
    ensures { keeps_rule 0 0 result ≡ true }
{
    STARTS
}

// The first day of the month that comes so many months after January 2000; after the last comes day 36,525. Compiled code copies the table at
// a read, so a conversion reads it once.
#[tactic(auto, using(crate::proofs::MonthLaws::each_start, crate::proofs::MonthLaws::last_end))]
pub fn start_after(months: u32) -> u32
    requires { months ≤ month_count }
    ensures { result ≡ start_after months }
{
    if months >= MONTH_COUNT {
        return LAST_DAY + 1;
    }
    let entries = starts();
    u32::from(entries[months as usize])
}
