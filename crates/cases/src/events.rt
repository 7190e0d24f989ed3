// An event's 40 bytes as five numbers of eight, the least byte first: its code with the kind, account or product, the amount (or rate,
// size or term), the contract, the price with the fallback price, and the due day.

// The codes.
pub const OPEN: u64 = 1;

pub const FUND_IN: u64 = 2;

pub const FUND_OUT: u64 = 3;

pub const SIZE: u64 = 4;

pub const RATE: u64 = 5;

pub const PLEDGE: u64 = 6;

pub const WITHDRAW: u64 = 8;

pub const INITIAL: u64 = 9;

pub const EARLY: u64 = 10;

pub const PAY: u64 = 11;

pub const CLOSE: u64 = 12;

pub const POST: u64 = 13;

// The byte beside the code: an account, or as often a kind, or the product of a Post, as its number says. Kind 32 is guarantee cash.
pub const OWN: u64 = 0;

pub const CLIENT: u64 = 256;

pub const KIND: u64 = 256;

pub const CASH: u64 = 32 * KIND;

// The byte after it, of an initial trade: once more than the product's number says.
pub const PRODUCT: u64 = 65_536;

// A tick of the fallback price, four bytes above the price.
pub const FALLBACK: u64 = 4_294_967_296;
