// The limits that only the book knows, by the names that specs/Limits gives them.

// "capacity (the lent table's length) 4,096"
pub const CAPACITY_LIMIT: usize = 4_096;

// "S 10^10"
pub const SIZE_LIMIT: u64 = 10_000_000_000;

// "either net 4×10^18 up or down"
pub const NET_LIMIT: u64 = 4_000_000_000_000_000_000;

// "U has the limit of a net"
pub const UNPAID_LIMIT: u64 = NET_LIMIT;

// "up to 128 applications stand for the evening"
pub const APPLICATION_LIMIT: usize = 128;

// "product 0 to 15" (02, ask 4)
pub const PRODUCT_LIMIT: usize = 16;

// "due not 1 to 365 days ahead"
pub const AHEAD_LIMIT: u32 = 365;

// "events of 40 bytes"
pub const EVENT_BYTES: usize = 40;

// "a 32-bit count (to 1,500)"
pub const EVENT_LIMIT: usize = 1_500;

// "on a fresh book with capacity 1,024"
pub const JOURNAL_CAPACITY: usize = 1_024;

// Numbers of a line: answer, headroom's sign and size, O, own, client and guarantee cash.
pub const LINE_NUMBERS: usize = 7;
