// A trade's record in the lent table, and the terms that an initial trade gives.
use money::units::{Sheets, Ticks};

// A contract's identity: two contracts are the same where these numbers agree.
#[repr(C)]
#[derive(Clone, Copy, Debug, PartialEq, Eq)]
pub struct Contract(pub u64);

// `first` is the payment day of the initial trade, as planned; `product` is 0, or the number plus 1 of the product at whose
// posted terms the next term starts: C lends a trade as five numbers, which have no other none.
#[repr(C)]
#[derive(Clone, Copy)]
pub struct Trade {
    pub contract: Contract,
    pub sheets: Sheets,
    pub price: Ticks,
    pub fallback: Ticks,
    pub first: u32,
    pub due: u32,
    pub product: u64,
}

// `product` is the journal's byte, as the record keeps it.
#[derive(Clone, Copy)]
pub struct Terms {
    pub contract: Contract,
    pub sheets: Sheets,
    pub price: Ticks,
    pub fallback: Ticks,
    pub due: u32,
    pub product: u8,
}
