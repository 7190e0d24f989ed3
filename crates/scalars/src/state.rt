// The book as the core has it: what is small goes by value; the securities with what is posted and the applications stand in rows that are lent.
ghost use Rattle.std.specs.Prelude.{◌≡◌, leb, ltb};
ghost use Rattle.money.specs.Limits.{calendar_limit};
ghost use Rattle.scalars.specs.Scalars.{with_nets_and_trades, with_unpaid};

use money::limits::CALENDAR_LIMIT;
use money::units::Sheets;
use rules::book::{Cash, Guarantee, Nets, Standing, Sums, Unpaid};

// `applications` is how many stand for the evening, `trades` how many slots of the table are in use.
#[derive(Clone, Copy)]
pub struct Scalars {
    pub nets: Nets,
    pub sums: Sums,
    pub cash: Cash,
    pub guarantee: Guarantee,
    pub size: Sheets,
    pub standing: Standing,
    pub applications: usize,
    pub trades: usize,
}

// The scalars after a trade has begun: other nets, and so many trades.
pub fn with_nets_and_trades(scalars: Scalars, nets: Nets, trades: usize) -> Scalars
    ensures { result ≡ with_nets_and_trades nets trades scalars }
{
    Scalars {
        nets,
        trades,
        ..scalars
    }
}

// The scalars with another U.
pub fn with_unpaid(scalars: Scalars, unpaid: Unpaid) -> Scalars
    ensures { result ≡ with_unpaid unpaid scalars }
{
    Scalars {
        sums: Sums { unpaid },
        ..scalars
    }
}

// Whether a table of so many slots has none left.
pub fn is_full(slots: usize, trades: usize) -> bool
    ensures { result ≡ leb slots trades }
{
    slots <= trades
}

// Whether a calendar has more words than any may have.
pub fn is_too_long(words: usize) -> bool
    ensures { result ≡ ltb calendar_limit words }
{
    words > CALENDAR_LIMIT
}
