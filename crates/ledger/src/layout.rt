// How long a row of lent numbers is: a trade's in the table, and that of the securities and the postings. `Flat` has the same as `width` and
// `held_length`.
use money::limits::SECURITIES;
use rules::limits::{APPLICATION_LIMIT, PRODUCT_LIMIT};

pub const WIDTH: usize = 5;

// A security's numbers: effective, arriving and frozen units, and the rate.
pub const SECURITY_WIDTH: usize = 4;

// A posting's numbers, behind those of all securities: the term, and both prices in one.
pub const POSTING_WIDTH: usize = 2;

pub const POSTINGS_FROM: usize = SECURITIES * SECURITY_WIDTH;

pub const HELD_LENGTH: usize = POSTINGS_FROM + PRODUCT_LIMIT * POSTING_WIDTH;

// The rows of a book: the securities with what is posted, and the applications' kinds and units. Arrays, here and wherever room is needed: nothing is
// allocated.
pub type Held = [u64; HELD_LENGTH];

pub type Kinds = [u8; APPLICATION_LIMIT];

pub type Units = [u64; APPLICATION_LIMIT];
