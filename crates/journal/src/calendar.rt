// The calendar's words out of a journal's bytes.
ghost use Rattle.std.specs.Prelude.{◌≡◌, ◌+◌, ◌*◌, ◌≤◌, ◌++◌, length, drop};
ghost use Rattle.journal.specs.Sections.{words_of};

use crate::section;
use crate::section::WORD_BYTES;

// `count` words from a place on, put in front of the lent words.
#[tactic(auto, using(crate::proofs::WordLaws::no_words))]
pub fn read_words(journal: &[u8], at: usize, count: usize, words: &mut [u32])
    requires { (at + count * 4 ≤ length journal.now) × (count ≤ length words.old) }
    ensures { words.new ≡ words_of count (drop at journal.now) ++ drop count words.old }
{
    for (k, word) in words[..count].iter_mut().enumerate() {
        *word = section::number4(journal, at + k * WORD_BYTES);
    }
}
