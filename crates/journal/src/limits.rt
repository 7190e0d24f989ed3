// How long a journal and its listing can be, by the names that specs/Limits gives them.
use crate::section::{COUNT_BYTES, WORD_BYTES};
use money::limits::CALENDAR_LIMIT;
use rules::limits::{EVENT_BYTES, EVENT_LIMIT};

// The longest journal: both sections at their limits.
pub const JOURNAL_BYTES: usize = COUNT_BYTES
    + CALENDAR_LIMIT * WORD_BYTES
    + COUNT_BYTES
    + EVENT_LIMIT * EVENT_BYTES;

// The longest line: seven numbers of at most 20 digits, six spaces, a minus sign and the line end.
pub const LINE_BYTES: usize = 148;

// The longest listing: a line for each event of the longest journal.
pub const LISTING_BYTES: usize = EVENT_LIMIT * LINE_BYTES;
