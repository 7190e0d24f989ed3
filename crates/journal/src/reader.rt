// A reader over the lent journal keeps its place. Each of its methods is thin: it takes the reader apart and leaves the
// work to `section`, which has a slice and numbers.
ghost use Rattle.std.specs.Prelude.{◌≡◌};
ghost use Rattle.journal.specs.Sections.{IsSectionAt, left_from, past_section};

use crate::section::{Pieces, left_from, past_section, section_at};

#[derive(Clone, Copy)]
pub struct Reader<'a> {
    pub journal: &'a [u8],
    pub at: usize,
}

impl<'a> Reader<'a> {
    // A reader at the first byte.
    pub fn new(journal: &'a [u8]) -> Reader<'a>
        ensures { (result.journal ≡ journal.entry) × (result.at ≡ 0) }
    {
        Reader { journal, at: 0 }
    }

    // How many pieces the section at the reader's place has; none where it is malformed.
    pub fn section(self, pieces: Pieces) -> Option<usize>
        ensures { IsSectionAt pieces.limit pieces.width self.entry.at self.entry.journal.now result }
    {
        section_at(self.journal, self.at, pieces)
    }

    // The reader past that section; where it is malformed, the reader as it was.
    pub fn past(self, pieces: Pieces) -> Reader<'a>
        ensures { (result.journal ≡ self.entry.journal)
            × (result.at ≡ past_section pieces.limit pieces.width self.entry.at self.entry.journal.now) }
    {
        let at = past_section(self.journal, self.at, pieces);
        Reader { at, ..self }
    }

    // How many bytes are left from the reader's place on.
    pub fn left(self) -> usize
        ensures { result ≡ left_from self.entry.at self.entry.journal.now }
    {
        left_from(self.journal, self.at)
    }
}
