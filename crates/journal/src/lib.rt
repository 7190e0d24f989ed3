// The journal: its bytes taken apart, its events run on a fresh book, and the listing of what each leaves.
#![tactic(auto)]

// A section of a journal, and the reader that keeps its place.
pub mod reader;
pub mod section;

// Both sections of a journal.
pub mod sections;

// The listing of a journal, as text.
pub mod listing;

// How long a journal and its listing can be.
pub mod limits;

// Words and text, piece by piece.
mod calendar;
mod text;
