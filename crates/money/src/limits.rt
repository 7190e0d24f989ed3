// The limits that days and money know, by the names that specs/Limits gives them.

// "at most 1,200 words of 32 bits"
pub const CALENDAR_LIMIT: usize = 1_200;

// "10^12 units of a security"
pub const UNIT_LIMIT: u64 = 1_000_000_000_000;

// "rate 20,000"
pub const RATE_LIMIT: u64 = 20_000;

// "10^16 fen in own, client and guarantee cash together"
pub const CASH_LIMIT: u64 = 10_000_000_000_000_000;

// "a trade 10^8 sheets"
pub const TRADE_LIMIT: u64 = 100_000_000;

// "price 100,000"
pub const PRICE_LIMIT: u32 = 100_000;

// "over more than 38,400 days"
pub const TERM_LIMIT: u32 = 38_400;

// "Kinds 0 to 31 are securities"
pub const SECURITIES: usize = 32;

// "Kind 32 is guarantee cash"
pub const CASH_KIND: u8 = 32;

// "each with a rate in ten-thousandths of a sheet a unit"
pub const RATE_PARTS: u64 = 10_000;

// "for 2000 to 2099"
pub const FIRST_YEAR: u32 = 2_000;

pub const LAST_YEAR: u32 = 2_099;

// "the starts of all 1,200 months"
pub const MONTH_COUNT: u32 = 1_200;

// "The days above 36,524 have no date."
pub const LAST_DAY: u32 = 36_524;
