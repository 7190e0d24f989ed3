// The book and its parts, by value. Its trades stand in a table that the caller lends.
ghost use Rattle.std.specs.Prelude.{◌≡◌};
ghost use Rattle.rules.specs.Book.{is_closed, is_trading, is_paid, is_normal, is_suspended, is_terminated, has_failed, fresh_book};

use crate::limits::{APPLICATION_LIMIT, PRODUCT_LIMIT};
use money::limits::SECURITIES;
use money::units::{Fen, Sheets, SignedFen, Ticks};

// Today's net and the cleared net: redemptions plus, initial trades minus.
#[repr(C)]
#[derive(Clone, Copy, Default)]
pub struct Nets {
    pub today: SignedFen,
    pub cleared: SignedFen,
}

// U, the gross redemption amounts not yet paid: what was redeemed today, and what was cleared before.
#[repr(C)]
#[derive(Clone, Copy, Default)]
pub struct Unpaid {
    pub today: Fen,
    pub cleared: Fen,
}

// The sums that a book carries beside its nets.
#[repr(C)]
#[derive(Clone, Copy, Default)]
pub struct Sums {
    pub unpaid: Unpaid,
}

// The two settlement accounts.
#[repr(C)]
#[derive(Clone, Copy, Default)]
pub struct Cash {
    pub own: Fen,
    pub client: Fen,
}

// A security's units, and its rate in ten-thousandths of a sheet a unit.
#[repr(C)]
#[derive(Clone, Copy, Default)]
pub struct Security {
    pub effective: u64,
    pub arriving: u64,
    pub frozen: u64,
    pub rate: u64,
}

// Guarantee cash, kind 32, whose rate number is fixed and not kept.
#[repr(C)]
#[derive(Clone, Copy, Default)]
pub struct Guarantee {
    pub effective: Fen,
    pub arriving: Fen,
    pub frozen: Fen,
}

// All that is pledged: kinds 0 to 31 and kind 32.
#[repr(C)]
#[derive(Clone, Copy)]
pub struct Vault {
    pub guarantee: Guarantee,
    pub securities: [Security; SECURITIES],
}

#[derive(Clone, Copy, Debug, PartialEq, Eq)]
pub enum Phase {
    Closed,
    Trading,
    Paid,
}

#[derive(Clone, Copy, Debug, PartialEq, Eq)]
pub enum Status {
    Normal,
    Suspended,
    Terminated,
}

// The run of failed payments, 0 to 2.
#[derive(Clone, Copy, Debug, PartialEq, Eq)]
pub enum FailedRun {
    NotFailed,
    FailedOnce,
    FailedTwice,
}

// The run of short closes, 0 to 3.
#[derive(Clone, Copy, Debug, PartialEq, Eq)]
pub enum ShortRun {
    NotShort,
    ShortOnce,
    ShortTwice,
    ShortThrice,
}

// Where the firm stands: its day, phase and status, and its two runs.
#[derive(Clone, Copy)]
pub struct Standing {
    pub day: Option<u32>,
    pub phase: Phase,
    pub status: Status,
    pub failed: FailedRun,
    pub short: ShortRun,
}

impl Standing {
    pub fn is_closed(self) -> bool
        ensures { result ≡ is_closed self.phase }
    {
        self.phase == Phase::Closed
    }

    pub fn is_trading(self) -> bool
        ensures { result ≡ is_trading self.phase }
    {
        self.phase == Phase::Trading
    }

    pub fn is_paid(self) -> bool
        ensures { result ≡ is_paid self.phase }
    {
        self.phase == Phase::Paid
    }

    pub fn is_normal(self) -> bool
        ensures { result ≡ is_normal self.status }
    {
        self.status == Status::Normal
    }

    pub fn is_suspended(self) -> bool
        ensures { result ≡ is_suspended self.status }
    {
        self.status == Status::Suspended
    }

    pub fn is_terminated(self) -> bool
        ensures { result ≡ is_terminated self.status }
    {
        self.status == Status::Terminated
    }

    pub fn has_failed(self) -> bool
        ensures { result ≡ has_failed self.failed }
    {
        self.failed != FailedRun::NotFailed
    }
}

// The applications that stand for the evening: the first `count` of both arrays, which C lends as two rows.
#[repr(C)]
#[derive(Clone, Copy)]
pub struct Withdrawals {
    pub kinds: [u8; APPLICATION_LIMIT],
    pub units: [u64; APPLICATION_LIMIT],
    pub count: usize,
}

// What is posted today for a product: the term in days, 0 where nothing is, and both prices. C lends it as two numbers, which have no other none.
#[repr(C)]
#[derive(Clone, Copy, Default)]
pub struct Posting {
    pub term: u64,
    pub price: Ticks,
    pub fallback: Ticks,
}

// `size` is S, the declared size; `trades` is how many slots of the lent table are in use.
#[derive(Clone, Copy)]
pub struct Book {
    pub nets: Nets,
    pub sums: Sums,
    pub cash: Cash,
    pub vault: Vault,
    pub size: Sheets,
    pub standing: Standing,
    pub withdrawals: Withdrawals,
    pub postings: [Posting; PRODUCT_LIMIT],
    pub trades: usize,
}

// A fresh book: Closed and normal, all numbers 0, table and applications empty, nothing posted.
#[tactic(auto, unfolding(crate::specs::Book::fresh_book))]
pub fn fresh() -> Book
    ensures { result ≡ fresh_book }
{
    Book {
        nets: Nets::default(),
        sums: Sums::default(),
        cash: Cash::default(),
        vault: Vault {
            guarantee: Guarantee::default(),
            securities: [Security::default(); SECURITIES],
        },
        size: Sheets(0),
        standing: Standing {
            day: None,
            phase: Phase::Closed,
            status: Status::Normal,
            failed: FailedRun::NotFailed,
            short: ShortRun::NotShort,
        },
        withdrawals: Withdrawals {
            kinds: [0; APPLICATION_LIMIT],
            units: [0; APPLICATION_LIMIT],
            count: 0,
        },
        postings: [Posting::default(); PRODUCT_LIMIT],
        trades: 0,
    }
}
