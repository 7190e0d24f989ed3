// Days and money, the lowest layer: every call takes any arguments and promises the documents' number and result.
#![tactic(auto)]

// Fen, sheets and price ticks.
pub mod units;

// How large numbers may be.
pub mod limits;

// Why a call is turned down.
pub mod refusal;

// Trading days.
pub mod days;

// Dates of 2000 to 2099, by the starts of their months.
pub mod dates;
mod months;
mod starts;

// Amounts of money.
pub mod amounts;

// The value of collateral.
pub mod collateral;
