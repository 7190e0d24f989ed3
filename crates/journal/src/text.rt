// Text in a lent buffer: each function writes from a place on and answers the place after it. The library's `write!` promises what was written only
// where it is Ok, and not that it is Ok where there is room; and a struct of the buffer and the place would have to promise that it is the same buffer.
ghost use Rattle.std.specs.Prelude.{◌≡◌, ◌+◌, ◌≤◌, length, drop};
ghost use Rattle.rules.specs.Listing.{line_numbers};
ghost use Rattle.journal.specs.Text.{decimal, spaced, signed, line_from, line_text};
ghost use Rattle.journal.specs.Limits.{line_bytes};
ghost use Rattle.journal.specs.Buffer.{placed};

use money::units::{Fen, Sheets};
use rules::limits::LINE_NUMBERS;

pub fn put(text: &mut [u8], at: usize, bytes: &[u8]) -> usize
    requires { at + length bytes.now ≤ length text.old }
    ensures { (result ≡ at + length bytes.now) × (text.new ≡ placed text.old at bytes.now) }
{
    let end = at + bytes.len();
    text[at..end].copy_from_slice(bytes);
    end
}

// How many bytes a number takes.
fn number_length(number: u64) -> usize
    ensures { (result ≡ length (decimal number)) × (result ≤ 20) }
{
    let mut spelled = [0; 20];
    io::decimal(number, &mut spelled)
}

#[tactic(auto, using(crate::proofs::TextLaws::spelled))]
fn put_number(text: &mut [u8], at: usize, number: u64) -> usize
    requires { at + length (decimal number) ≤ length text.old }
    ensures { (result ≡ at + length (decimal number)) × (text.new ≡ placed text.old at (decimal number)) }
{
    let mut spelled = [0; 20];
    let count = io::decimal(number, &mut spelled);
    put(text, at, &spelled[..count])
}

#[tactic(auto, using(crate::proofs::TextLaws::length_spaced))]
fn put_spaced(text: &mut [u8], at: usize, number: u64) -> usize
    requires { at + length (spaced number) ≤ length text.old }
    ensures { (result ≡ at + length (spaced number)) × (text.new ≡ placed text.old at (spaced number)) }
{
    let digits = put(text, at, b" ");
    put_number(text, digits, number)
}

// A headroom: its sign, 0 where there is none, and its size.
#[tactic(auto, using(crate::proofs::TextLaws::signed_plain, crate::proofs::TextLaws::signed_minus))]
fn put_signed(text: &mut [u8], at: usize, negative: u64, size: Sheets) -> usize
    requires { at + length (signed negative size.0) ≤ length text.old }
    ensures { (result ≡ at + length (signed negative size.0))
        × (text.new ≡ placed text.old at (signed negative size.0)) }
{
    if negative == 0 {
        return put_spaced(text, at, size.0);
    }
    let digits = put(text, at, b" -");
    put_number(text, digits, size.0)
}

#[tactic(auto, using(crate::proofs::TextLaws::signed_plain, crate::proofs::TextLaws::signed_minus, crate::proofs::TextLaws::length_spaced))]
fn signed_length(negative: u64, size: Sheets) -> usize
    ensures { (result ≡ length (signed negative size.0)) × (result ≤ 22) }
{
    if negative == 0 {
        return 1 + number_length(size.0);
    }
    2 + number_length(size.0)
}

// The numbers of a line, headroom as its sign and its size: C has a line as seven numbers without a sign.
#[derive(Clone, Copy)]
pub struct Line {
    pub answer: u64,
    pub negative: u64,
    pub size: Sheets,
    pub outstanding: Sheets,
    pub own: Fen,
    pub client: Fen,
    pub guarantee: Fen,
}

#[tactic(auto, using(crate::proofs::LineLaws::row_read), unfolding(crate::specs::Text::line_from))]
pub fn line_at(lines: &[u64], from: usize) -> Line
    requires { from + line_numbers ≤ length lines.now }
    ensures { result ≡ line_from (drop from lines.now) }
{
    let row = &lines[from..from + LINE_NUMBERS];
    Line {
        answer: row[0],
        negative: row[1],
        size: Sheets(row[2]),
        outstanding: Sheets(row[3]),
        own: Fen(row[4]),
        client: Fen(row[5]),
        guarantee: Fen(row[6]),
    }
}

// How many bytes a line takes: beside its numbers five spaces and the line end.
#[tactic(auto, using(crate::proofs::TextLaws::length_line, crate::proofs::TextLaws::length_spaced))]
pub fn line_length(place: usize, line: Line) -> usize
    ensures { (result ≡ length (line_text place line)) × (result ≤ line_bytes) }
{
    let headroom = signed_length(line.negative, line.size);
    let front = number_length(place as u64) + number_length(line.answer);
    let cash = number_length(line.own.0) + number_length(line.client.0);
    let rest = number_length(line.outstanding.0) + number_length(line.guarantee.0);
    front + headroom + cash + rest + 6
}

#[tactic(auto, using(crate::proofs::TextLaws::length_line))]
pub fn put_line(text: &mut [u8], at: usize, place: usize, line: Line) -> usize
    requires { at + length (line_text place line) ≤ length text.old }
    ensures { (result ≡ at + length (line_text place line)) × (text.new ≡ placed text.old at (line_text place line)) }
{
    let answer = put_number(text, at, place as u64);
    let headroom = put_spaced(text, answer, line.answer);
    let outstanding = put_signed(text, headroom, line.negative, line.size);
    let own = put_spaced(text, outstanding, line.outstanding.0);
    let client = put_spaced(text, own, line.own.0);
    let guarantee = put_spaced(text, client, line.client.0);
    let end = put_spaced(text, guarantee, line.guarantee.0);
    put(text, end, b"\n")
}
