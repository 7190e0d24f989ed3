// A section of a journal from its first byte on: the work that a reader leaves, on a slice and numbers.
ghost use Rattle.std.specs.Prelude.{◌≡◌, ◌+◌, ◌≤◌, length};
ghost use Rattle.rules.specs.Entry.{number_at};
ghost use Rattle.journal.specs.Sections.{IsSectionAt, left_from, past_section};

// "each after its count, all little-endian: a 32-bit count"
pub const COUNT_BYTES: usize = 4;

// "words of 32 bits"
pub const WORD_BYTES: usize = 4;

// The number of 4 bytes, the least byte first; the decoder has its own, since to share it would make it public.
#[tactic(auto, using(crate::proofs::WordLaws::four_bytes))]
pub(crate) fn number4(bytes: &[u8], at: usize) -> u32
    requires { at + 4 ≤ length bytes.now }
    ensures { result ≡ number_at at 4 bytes.now }
{
    u32::from_le_bytes([bytes[at], bytes[at + 1], bytes[at + 2], bytes[at + 3]])
}

// What a section may have: so many pieces at most, of so many bytes each.
#[derive(Clone, Copy)]
pub struct Pieces {
    pub limit: u32,
    pub width: u32,
}

// How many bytes are left from a place on.
pub fn left_from(journal: &[u8], at: usize) -> usize
    ensures { result ≡ left_from at journal.now }
{
    journal.len().saturating_sub(at)
}

// How many pieces the section has that starts at a place; none where it is malformed.
pub fn section_at(journal: &[u8], at: usize, pieces: Pieces) -> Option<usize>
    ensures { IsSectionAt pieces.limit pieces.width at journal.now result }
{
    let left = left_from(journal, at);
    if left < COUNT_BYTES {
        return None;
    }
    let count = number4(journal, at);
    if count > pieces.limit {
        return None;
    }
    let taken = count as usize * pieces.width as usize;
    if left - COUNT_BYTES < taken {
        return None;
    }
    Some(count as usize)
}

// The place past that section. A malformed one is not passed: the place stays, so that there always is one.
#[tactic(auto, using(crate::proofs::SectionLaws::read))]
pub fn past_section(journal: &[u8], at: usize, pieces: Pieces) -> usize
    ensures { result ≡ past_section pieces.limit pieces.width at journal.now }
{
    let Some(count) = section_at(journal, at, pieces) else {
        return at;
    };
    at + COUNT_BYTES + count * pieces.width as usize
}
