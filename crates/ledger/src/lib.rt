// The core: the thirteen events on a book and its table in lent numbers.
#![tactic(auto)]

// A whole book taken apart into scalars and rows, and put together.
pub mod split;

// The calls: one event, headroom and O, a run of encoded events.
pub mod lent;

// The run of a journal's events on a fresh book.
pub mod listing;

// How many numbers a trade takes, a security and a posting.
pub mod layout;

// The table, the vault, and what the events share.
mod chains;
mod cover;
mod days;
mod dispatch;
mod evening;
mod figures;
mod fit;
mod flat;
mod held;
mod kind;
mod line;
mod nets;
mod next_term;
mod packing;
mod postings;
mod prices;
mod redemption;
mod run;
mod trades;
mod vault;

// The events, a file each.
mod close;
mod early;
mod freeze;
mod funds;
mod initial;
mod open;
mod pay;
mod pledge;
mod post;
mod rate;
mod size;
mod withdraw;
