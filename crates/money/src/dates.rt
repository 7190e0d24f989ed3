// Dates of 2000 to 2099 and their days; day 0 is 1 January 2000.
ghost use Rattle.std.specs.Prelude.{◌≡◌, ◌+◌, ◌/◌, ◌%◌, ◌≤◌};
ghost use Rattle.money.specs.Limits.{first_year, last_day};
ghost use Rattle.money.specs.Days.{found_of};
ghost use Rattle.money.specs.Dates.{date, dated_of, day_answer, date_answer};

use crate::limits::{FIRST_YEAR, LAST_DAY, LAST_YEAR};
use crate::months::{length_after, month_length, start_after};
use crate::refusal::{Refusal, number_of};

// A year, a month from 1 and a day from 1.
#[repr(C)]
#[derive(Clone, Copy, Debug, PartialEq, Eq)]
pub struct Date {
    pub year: u32,
    pub month: u32,
    pub day: u32,
}

// The date of a day as C has it: 0 beside it, or its refusal's number beside numbers of 0.
#[repr(C)]
#[derive(Clone, Copy)]
pub struct Dated {
    pub number: u8,
    pub date: Date,
}

impl From<Result<Date, Refusal>> for Dated {
    ghost from_gives = { λ answer told. told ≡ dated_of answer };

    fn from(answer: Result<Date, Refusal>) -> Dated {
        let none = Date {
            year: 0,
            month: 0,
            day: 0,
        };
        Dated {
            number: number_of(answer),
            date: answer.unwrap_or(none),
        }
    }
}

// The day of a date.
pub fn day_of(date: Date) -> Result<u32, Refusal>
    ensures { found_of result ≡ day_answer date }
{
    let Date { year, month, day } = date;
    if year < FIRST_YEAR {
        return Err(Refusal::NoSuchDate);
    }
    if year > LAST_YEAR {
        return Err(Refusal::NoSuchDate);
    }
    if day < 1 {
        return Err(Refusal::NoSuchDate);
    }
    let length = month_length(year, month);
    if day > length {
        return Err(Refusal::NoSuchDate);
    }
    let months = 12 * (year - FIRST_YEAR) + (month - 1);
    let start = start_after(months);
    Ok(start + (day - 1))
}

// The date so many days into the month that comes so many months after January 2000.
fn date_at(months: u32, days: u32) -> Date
    requires { days ≤ last_day }
    ensures { result ≡ date (first_year + months / 12) (months % 12 + 1) (days + 1) }
{
    Date {
        year: FIRST_YEAR + months / 12,
        month: months % 12 + 1,
        day: days + 1,
    }
}

// The date of a day. At 12 months in 365 days its month is the one tried, or the one before it.
pub fn date_of(day: u32) -> Result<Date, Refusal>
    ensures { dated_of result ≡ date_answer day }
{
    if day > LAST_DAY {
        return Err(Refusal::NoSuchDate);
    }
    let tried = 12 * (day + 1) / 365;
    let start = start_after(tried);
    if start <= day {
        return Ok(date_at(tried, day - start));
    }
    let months = tried - 1;
    let length = length_after(months);
    let into = day + length - start;
    Ok(date_at(months, into))
}
