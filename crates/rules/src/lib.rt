// The types that the rules speak of: the layer above days and money. The rules themselves stand in specs/.
#![tactic(auto)]

// The book and its parts.
pub mod book;

// A trade's record, and the terms that it begins with.
pub mod trade;

// The thirteen events.
pub mod event;

// What a call answers.
pub mod answer;

// How large numbers may be.
pub mod limits;
