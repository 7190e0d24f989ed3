// Document 02, ask 1: leap days, the ends of the years, and what has no day or no date. By C's structs, here and in `amounts`: of these the
// definitions that an expectation computes are.
ghost use Rattle.std.specs.Prelude.{◌≡◌};
ghost use Rattle.money.specs.Dates.{date, day_answer, date_answer};

use money::dates::{Date, Dated};
use money::days::Found;

fn day(year: u32, month: u32, day: u32) -> Found
    ensures { result ≡ day_answer (date year month day) }
{
    money::dates::day_of(Date { year, month, day }).into()
}

#[tactic(auto, unfolding(money::specs::Dates::day_answer, money::specs::Dates::exists, money::specs::Dates::in_years, money::specs::Dates::day_of, money::specs::Dates::start_after, money::specs::Dates::length_after, money::specs::Dates::month_length, money::specs::Dates::february, money::specs::Dates::leap))]
pub fn to_days() {
    let first = day(2_000, 1, 1);
    check::expect(first.day == 0);
    let leap = day(2_000, 2, 29);
    check::expect(leap.day == 59);
    let last = day(2_099, 12, 31);
    check::expect(last.day == 36_524);
    let none = day(2_099, 2, 29);
    check::expect(none.number == 19);
}

fn told(day: u32) -> Dated
    ensures { result ≡ date_answer day }
{
    money::dates::date_of(day).into()
}

#[tactic(auto, unfolding(money::specs::Dates::date_answer, money::specs::Dates::date_of, money::specs::Dates::next_date, money::specs::Dates::month_length, money::specs::Dates::february, money::specs::Dates::leap))]
pub fn to_dates() {
    let leap = told(59);
    check::expect(leap.date.day == 29);
    let last = told(36_524);
    check::expect(last.date.year == 2_099);
    let none = told(36_525);
    check::expect(none.number == 19);
}
