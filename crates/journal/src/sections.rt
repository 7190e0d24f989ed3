// A journal's two sections, read one after the other, and the end after them.
ghost use Rattle.journal.specs.Sections.{AreSectionsOf};

use crate::reader::Reader;
use crate::section::{Pieces, WORD_BYTES};
use money::limits::CALENDAR_LIMIT;
use rules::limits::{EVENT_BYTES, EVENT_LIMIT};

// How many calendar words and how many events a journal has.
#[derive(Clone, Copy)]
pub struct Counts {
    pub words: usize,
    pub events: usize,
}

const WORDS: Pieces = Pieces {
    limit: CALENDAR_LIMIT as u32,
    width: WORD_BYTES as u32,
};

const EVENTS: Pieces = Pieces {
    limit: EVENT_LIMIT as u32,
    width: EVENT_BYTES as u32,
};

// Both sections and the end after them: one reader goes over the journal.
pub fn sections_of(journal: &[u8]) -> Option<Counts>
    ensures { AreSectionsOf journal.now result }
{
    let mut reader = Reader::new(journal);
    let words = reader.section(WORDS)?;
    reader = reader.past(WORDS);
    let events = reader.section(EVENTS)?;
    reader = reader.past(EVENTS);
    if reader.left() > 0 {
        return None;
    }
    Some(Counts { words, events })
}
