// Why a call or an event is turned down, each cause with its number in document 01, or 02 from 19 on.
ghost use Rattle.std.specs.Prelude.{◌≡◌};
ghost use Rattle.money.specs.Causes.{number_of, refusal_of, refusal_number};

use std::error::Error;
use std::fmt;

#[derive(Clone, Copy, Debug, PartialEq, Eq)]
pub enum Refusal {
    NotFit = 1,
    Undecodable = 2,
    UnknownKind = 3,
    WrongPhase = 4,
    PermissionEnded = 5,
    TradesSuspended = 6,
    BadCount = 7,
    BadPrice = 8,
    BadDueDay = 9,
    BadContract = 10,
    TableFull = 11,
    AboveHeadroom = 12,
    NotEnough = 13,
    PastLimit = 14,
    BelowOutstanding = 15,
    NoTradingDay = 16,
    ListFull = 17,
    BadLength = 18,
    NoSuchDate = 19,
    NotPosted = 20,
}

impl From<Refusal> for u8 {
    ghost from_gives = { λ refusal number. number ≡ refusal_number refusal };

    fn from(refusal: Refusal) -> u8 {
        refusal as u8
    }
}

// 0 of an answer that is no refusal, as C has it beside the result. C takes no generic struct, so each answer has a struct of its own.
pub fn number_of<T: Copy>(answer: Result<T, Refusal>) -> u8
    ensures { result ≡ number_of (refusal_of answer) }
{
    match answer {
        Ok(_) => 0,
        Err(refusal) => refusal.into(),
    }
}

// For people, and by hand: no other crate stands below this one.
impl fmt::Display for Refusal {
    fn fmt<W: fmt::Write>(&self, f: &mut fmt::Formatter<W>) -> fmt::Result {
        f.write_str(match self {
            Refusal::NotFit => "the book is not fit, or the calendar is above 1,200 words",
            Refusal::Undecodable => "the bytes are no event",
            Refusal::UnknownKind => "no such kind of collateral, or none with a rate",
            Refusal::WrongPhase => "not in this phase of the day",
            Refusal::PermissionEnded => "the firm's permission has ended",
            Refusal::TradesSuspended => "the firm's initial trades are suspended",
            Refusal::BadCount => "an amount of 0, or a count that no trade may have",
            Refusal::BadPrice => "a price above its limit",
            Refusal::BadDueDay => "a due day that is too near, too far or past",
            Refusal::BadContract => "the contract is on the table already, or not on it",
            Refusal::TableFull => "the table is full",
            Refusal::AboveHeadroom => "sheets above headroom",
            Refusal::NotEnough => "more than there is",
            Refusal::PastLimit => "a limit would be passed",
            Refusal::BelowOutstanding => "a size below what is outstanding",
            Refusal::NoTradingDay => "no trading day, or none after it",
            Refusal::ListFull => "the list of applications is full",
            Refusal::BadLength => "no whole events, or more than a journal has",
            Refusal::NoSuchDate => "no such date, or none for the day",
            Refusal::NotPosted => "no such product, or not posted today",
        })
    }
}

impl Error for Refusal {}
