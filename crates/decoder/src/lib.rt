// The decoder: how 40 bytes of a journal give an event, a layer beside the book.
#![tactic(auto)]

pub mod entry;
