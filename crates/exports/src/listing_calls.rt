// The listing of a journal's events.
ghost use Rattle.std.specs.Prelude.{◌≡◌, length};
ghost use Rattle.money.specs.Causes.{first_of, number_of};
ghost use Rattle.rules.specs.Listing.{listing_of, listing_causes, written_by};

use money::refusal::number_of;

// The run of a journal's events on a fresh book, seven numbers an event; C has no Result, so the refusal is a number.
#[unsafe(no_mangle)]
pub extern "C" fn book_run_listing(calendar: &[u32], events: &[u8], lines: &mut [u64]) -> u8
    ensures { let cause = first_of (listing_causes (length calendar.now) (length events.now) (length lines.old)) in
        (result ≡ number_of cause)
        × (lines.new ≡ written_by cause (listing_of calendar.now events.now) lines.old) }
{
    number_of(ledger::listing::run_listing(calendar, events, lines))
}
