// The listing of a journal: a line of text for each event, or that the journal is refused.
ghost use Rattle.std.specs.Prelude.{◌≡◌, ◌*◌, ◌/◌, ◌%◌, ◌≤◌, length};
ghost use Rattle.money.specs.Limits.{calendar_limit};
ghost use Rattle.rules.specs.Entry.{event_bytes};
ghost use Rattle.rules.specs.Listing.{event_limit, line_numbers, listing_of};
ghost use Rattle.journal.specs.Buffer.{placed};
ghost use Rattle.journal.specs.Listing.{lines_text, refused_line, listing_text, answer_of, written_of, text_after};

use crate::section::{COUNT_BYTES, WORD_BYTES};
use crate::{calendar, sections, text};
use money::limits::CALENDAR_LIMIT;
use money::refusal::{Refusal, number_of};
use rules::limits::{EVENT_BYTES, EVENT_LIMIT, LINE_NUMBERS};

// How many bytes were written, as C has it: 0 beside it, or the refusal's number beside 0.
#[repr(C)]
#[derive(Clone, Copy)]
pub struct Written {
    pub number: u8,
    pub length: usize,
}

impl From<Result<usize, Refusal>> for Written {
    ghost from_gives = { λ answer written. written ≡ written_of answer };

    fn from(answer: Result<usize, Refusal>) -> Written {
        Written {
            number: number_of(answer),
            length: answer.unwrap_or(0),
        }
    }
}

// How many bytes the lines of `count` events take. The run's buffer goes with how many events are in it: of one cut to them a proof would have to say
// anew, here and below, that its lines are the run's.
#[tactic(auto, using(crate::proofs::LineLaws::no_lines, crate::proofs::LineLaws::length_next))]
fn lines_length(lines: &[u64], count: usize) -> usize
    requires { (count ≤ event_limit) × (count * line_numbers ≤ length lines.now) }
    ensures { result ≡ length (lines_text count lines.now) }
{
    let mut total = 0;
    for k in 0..count {
        total += text::line_length(k + 1, text::line_at(lines, k * LINE_NUMBERS));
    }
    total
}

#[tactic(auto, using(crate::proofs::TextLaws::nothing_put, crate::proofs::LineLaws::no_lines))]
fn put_lines(text: &mut [u8], lines: &[u64], count: usize)
    requires { (count ≤ event_limit) × (count * line_numbers ≤ length lines.now) × (length (lines_text count lines.now) ≤ length text.old) }
    ensures { text.new ≡ placed text.old 0 (lines_text count lines.now) }
{
    let mut at = 0;
    for k in 0..count {
        at = text::put_line(text, at, k + 1, text::line_at(lines, k * LINE_NUMBERS));
    }
}

// The lines of `count` events, where the text has room for all of them; 14 where it has not, as of each call below.
fn write_lines(text: &mut [u8], lines: &[u64], count: usize) -> Result<usize, Refusal>
    requires { (count ≤ event_limit) × (count * line_numbers ≤ length lines.now) }
    ensures { let written = lines_text count lines.now in
        (written_of result ≡ answer_of written text.old)
        × (text.new ≡ text_after written text.old) }
{
    let length = lines_length(lines, count);
    if text.len() < length {
        return Err(Refusal::PastLimit);
    }
    put_lines(text, lines, count);
    Ok(length)
}

// The lines of some events' bytes, run on a fresh book.
fn write_run(calendar: &[u32], events: &[u8], text: &mut [u8]) -> Result<usize, Refusal>
    requires { (length calendar.now ≤ calendar_limit)
        × (length events.now % event_bytes ≡ 0)
        × (length events.now / event_bytes ≤ event_limit) }
    ensures { let written = lines_text (length events.now / event_bytes) (listing_of calendar.now events.now) in
        (written_of result ≡ answer_of written text.old)
        × (text.new ≡ text_after written text.old) }
{
    let mut lines = [0; EVENT_LIMIT * LINE_NUMBERS];
    let _ = ledger::listing::run_listing(calendar, events, &mut lines);
    write_lines(text, &lines, events.len() / EVENT_BYTES)
}

// The line of a journal that is none.
fn write_refused(text: &mut [u8]) -> Result<usize, Refusal>
    ensures { (written_of result ≡ answer_of refused_line text.old) × (text.new ≡ text_after refused_line text.old) }
{
    if text.len() < 16 {
        return Err(Refusal::PastLimit);
    }
    Ok(text::put(text, 0, b"journal refused\n"))
}

// The listing of any bytes, in front of a lent text.
#[tactic(auto, using(crate::proofs::SectionLaws::journal))]
pub fn write_listing(journal: &[u8], text: &mut [u8]) -> Result<usize, Refusal>
    ensures { let written = listing_text journal.now in
        (written_of result ≡ answer_of written text.old)
        × (text.new ≡ text_after written text.old) }
{
    let Some(counts) = sections::sections_of(journal) else {
        return write_refused(text);
    };
    let mut calendar = [0; CALENDAR_LIMIT];
    calendar::read_words(journal, COUNT_BYTES, counts.words, &mut calendar);
    let start = COUNT_BYTES + counts.words * WORD_BYTES + COUNT_BYTES;
    write_run(&calendar[..counts.words], &journal[start..], text)
}
