// Days, dates and money.
ghost use Rattle.std.specs.Prelude.{◌≡◌};
ghost use Rattle.money.specs.Days.{trades, at_or_after, next_after, earliest, search_result};
ghost use Rattle.money.specs.Dates.{date, day_answer, date_answer};
ghost use Rattle.money.specs.Money.{initial_amount, redemption_amount};
ghost use Rattle.money.specs.Collateral.{kind_worth};

use money::amounts::Amount;
use money::collateral::Worth;
use money::dates::{Date, Dated};
use money::days::Found;
use money::units::{Sheets, Ticks};

#[unsafe(no_mangle)]
pub extern "C" fn money_initial(q: Sheets) -> Amount
    ensures { result ≡ initial_amount q }
{
    money::amounts::initial(q).into()
}

#[unsafe(no_mangle)]
pub extern "C" fn money_redemption(q: Sheets, price: Ticks, days: u32) -> Amount
    ensures { result ≡ redemption_amount q price days }
{
    money::amounts::redemption(q, price, days).into()
}

#[unsafe(no_mangle)]
pub extern "C" fn money_kind_worth(kind: u8, effective: u64, frozen: u64, rate: u64) -> Worth
    ensures { result ≡ kind_worth kind effective frozen rate }
{
    money::collateral::kind_worth(kind, effective, frozen, rate).into()
}

#[unsafe(no_mangle)]
pub extern "C" fn money_trades_on(calendar: &[u32], day: u32) -> bool
    ensures { result ≡ trades calendar.now day }
{
    money::days::trades_on(calendar, day)
}

#[unsafe(no_mangle)]
pub extern "C" fn money_at_or_after(calendar: &[u32], day: u32) -> Found
    ensures { result ≡ search_result calendar.now (at_or_after calendar.now day) }
{
    money::days::at_or_after(calendar, day).into()
}

#[unsafe(no_mangle)]
pub extern "C" fn money_next_after(calendar: &[u32], day: u32) -> Found
    ensures { result ≡ search_result calendar.now (next_after calendar.now day) }
{
    money::days::next_after(calendar, day).into()
}

#[unsafe(no_mangle)]
pub extern "C" fn money_earliest_day(calendar: &[u32]) -> Found
    ensures { result ≡ search_result calendar.now (earliest calendar.now) }
{
    money::days::earliest_day(calendar).into()
}

#[unsafe(no_mangle)]
pub extern "C" fn money_day_of(year: u32, month: u32, day: u32) -> Found
    ensures { result ≡ day_answer (date year month day) }
{
    money::dates::day_of(Date { year, month, day }).into()
}

#[unsafe(no_mangle)]
pub extern "C" fn money_date_of(day: u32) -> Dated
    ensures { result ≡ date_answer day }
{
    money::dates::date_of(day).into()
}
