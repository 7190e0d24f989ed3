// The proved calls under C names, for Rust and C: each gives what the call that it names gives, with the same promise. A book
// crosses as its scalars with lent rows.
#![tactic(auto)]

// Days and money.
pub mod money_calls;

// The run of a journal's events on a fresh book.
pub mod listing_calls;

// A book in lent numbers, changed in place; its scalars, and the codes among them.
pub mod codes;
pub mod lent_calls;
pub mod raw;

// The journal.
pub mod journal_calls;
