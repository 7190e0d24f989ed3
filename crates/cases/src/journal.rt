// A journal's numbers as bytes, and the lines that its listing is expected to end with. A line is seven numbers: answer, headroom's sign (1
// for a minus) and size, O, own, client, guarantee cash.
ghost use Rattle.std.specs.Prelude.{◌≡◌, ◌+◌, ◌*◌, ◌/◌, ◌%◌, ◌<◌, ◌≤◌, true, ◌++◌, length, take};
ghost use Rattle.std.proofs.lemmas.List.Edits.{sets};
ghost use Rattle.cases.specs.Journal.{digit_of, bytes_of, same_numbers, ends_with};

// The byte of a number at a place, the least first; by hand, so that a byte too few is an edit that must fail.
fn digit(number: u64, place: usize) -> u8
    requires { place < 8 }
    ensures { result ≡ digit_of number place }
{
    ((number >> (place * 8)) % 256) as u8
}

#[tactic(auto, using(crate::proofs::JournalLaws::written))]
fn write_numbers(bytes: &mut [u8], at: usize, numbers: &[u64])
    requires { at + length numbers.now * 8 ≤ length bytes.old }
    ensures { bytes.new ≡ sets bytes.old at (bytes_of numbers.now) }
{
    for k in 0..numbers.len() * 8 {
        bytes[at + k] = digit(numbers[k / 8], k % 8);
    }
}

// Whether the numbers from a place on are those of the lines.
fn same_numbers(numbers: &[u64], at: usize, lines: &[u64]) -> bool
    requires { at + length lines.now ≤ length numbers.now }
    ensures { result ≡ same_numbers numbers.now at lines.now }
{
    numbers[at..].starts_with(lines)
}

// The bytes of a journal in three parts, at the front of a buffer for 48 events.
#[tactic(auto, using(crate::proofs::JournalLaws::joined))]
fn encoded(start: &[u64], earlier: &[u64], events: &[u64]) -> [u8; 1_920]
    requires { length start.now + length earlier.now + length events.now ≤ 240 }
    ensures { take ((length start.now + length earlier.now + length events.now) * 8) result
        ≡ bytes_of ((start.now ++ earlier.now) ++ events.now) }
{
    let mut bytes = [0; 1_920];
    write_numbers(&mut bytes, 0, start);
    write_numbers(&mut bytes, start.len() * 8, earlier);
    write_numbers(&mut bytes, (start.len() + earlier.len()) * 8, events);
    bytes
}

// The expectation that the listing of a journal in three parts ends with these lines.
#[tactic(auto, using(crate::proofs::JournalLaws::ending))]
pub fn expect_lines(calendar: &[u32], start: &[u64], earlier: &[u64], events: &[u64], lines: &[u64])
    requires { let all = length start.now + length earlier.now + length events.now in
        (length calendar.now ≤ 1200)
        × (all ≤ 240)
        × (all % 5 ≡ 0)
        × (length lines.now ≤ all / 5 * 7)
        × (ends_with calendar.now start.now earlier.now events.now lines.now ≡ true) }
{
    let length = start.len() + earlier.len() + events.len();
    let bytes = encoded(start, earlier, events);
    let mut listing = [0; 336];
    let ran = ledger::listing::run_listing(calendar, &bytes[..length * 8], &mut listing);
    check::expect(ran.is_ok());
    let end = length / 5 * 7;
    check::expect(same_numbers(&listing[..end], end - lines.len(), lines));
}
