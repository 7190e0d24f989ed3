// A journal from standard input, its listing to standard output.
#![tactic(auto)]

ghost use Rattle.std.specs.Prelude.{◌≤◌, length, take};
ghost use Rattle.daybook.specs.Input.{Lists, Within};

use journal::limits::{JOURNAL_BYTES, LISTING_BYTES};
use std::io;
use std::io::Read;

// One byte more than the longest journal has, so that a longer input, cut there, is still malformed.
const INPUT_BYTES: usize = JOURNAL_BYTES + 1;

// Room for the longest listing.
const TEXT_BYTES: usize = LISTING_BYTES;

// How many bytes the input has, read to its end, or as much of it as there is room for.
fn read_input<R: Read>(input: &mut R, room: &mut [u8]) -> io::Result<usize>
    ensures { Within result (length room.new) }
{
    let mut size = 0;
    // A `while`: each step is as long as what one read gives.
    while size < room.len() {
        let count = input.read(&mut room[size..])?;
        if count == 0 {
            break;
        }
        size += count;
    }
    Ok(size)
}

// The listing of the input of which the first `size` bytes were read, in front of a text that has room for every listing: one that did not fit would
// be no listing, of 0 bytes, and is ruled out by the promise alone.
fn write_input(read: &[u8; INPUT_BYTES], size: usize, text: &mut [u8; TEXT_BYTES]) -> usize
    requires { size ≤ length read.now }
    ensures { Lists (length read.now) (take size read.now) text.new result }
{
    journal::listing::write_listing(&read[..size], text).unwrap_or(0)
}

fn main(rt: HostRuntime) {
    let mut read = [0; INPUT_BYTES];
    let Ok(size) = read_input(&mut rt.stdin(), &mut read) else {
        let _ = eprintln!(rt; "daybook: cannot read standard input");
        return;
    };
    let mut text = [0; TEXT_BYTES];
    let length = write_input(&read, size, &mut text);
    if rt.write_all(&text[..length]).is_err() {
        let _ = eprintln!(rt; "daybook: cannot write the listing");
    }
}
