// The thirteen events, and what a journal's entry is.
use crate::book::Posting;
use crate::trade::{Contract, Terms};
use money::units::{Fen, Sheets, Ticks};

#[derive(Clone, Copy, Debug, PartialEq, Eq)]
pub enum Account {
    Own,
    Client,
}

// Events on a kind carry its number as given, and its units or its rate; Post a product's number as given, and its posting. A number is the byte that
// the journal has, any byte, and the event itself refuses one that is none, in the order of its causes.
#[derive(Clone, Copy)]
pub enum Event {
    Open,
    FundIn(Account, Fen),
    FundOut(Account, Fen),
    Size(Sheets),
    Rate(u8, u64),
    Pledge(u8, u64),
    Freeze(u8, u64),
    Withdraw(u8, u64),
    Initial(Terms),
    Early(Contract, Sheets, Ticks),
    Pay,
    Close,
    Post(u8, Posting),
}

// The numbers in the 40 bytes; `spare` and `last` are the bytes that no event uses.
#[derive(Clone, Copy)]
pub struct Fields {
    pub code: u8,
    pub kind: u8,
    pub product: u8,
    pub spare: u64,
    pub amount: u64,
    pub contract: u64,
    pub price: u32,
    pub fallback: u32,
    pub due: u32,
    pub last: u32,
}
