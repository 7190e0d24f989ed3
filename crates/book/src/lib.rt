// The book: the calls on one firm's book and its lent table of trades, the layer above the core's numbers.
#![tactic(auto)]

// One entry.
pub mod table;

// Trades copied to numbers and back, and the core on a book by value.
mod copies;
mod numbers;
