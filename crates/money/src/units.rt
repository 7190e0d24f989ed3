// Three units that are never taken for one another; of two of them a number may be below 0.

// Money: 100 fen are one yuan.
#[repr(C)]
#[derive(Clone, Copy, Debug, Default, PartialEq, Eq, PartialOrd, Ord)]
pub struct Fen(pub u64);

// What a net is counted in.
#[repr(C)]
#[derive(Clone, Copy, Debug, Default, PartialEq, Eq, PartialOrd, Ord)]
pub struct SignedFen(pub i64);

// A sheet is 100 yuan (art. 33).
#[repr(C)]
#[derive(Clone, Copy, Debug, Default, PartialEq, Eq, PartialOrd, Ord)]
pub struct Sheets(pub u64);

// What headroom is counted in.
#[repr(C)]
#[derive(Clone, Copy, Debug, Default, PartialEq, Eq, PartialOrd, Ord)]
pub struct SignedSheets(pub i64);

pub const SHEET_FEN: u64 = 10_000;

// A tick is 0.001 yuan of yearly yield on 100 yuan (art. 32).
#[repr(C)]
#[derive(Clone, Copy, Debug, Default, PartialEq, Eq, PartialOrd, Ord)]
pub struct Ticks(pub u32);
