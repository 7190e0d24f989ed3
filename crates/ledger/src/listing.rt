// The listing of a journal's events: a line of seven numbers for each, on a fresh book.
ghost use Rattle.std.specs.Prelude.{◌≡◌, length};
ghost use Rattle.money.specs.Causes.{first_of, refusal_of};
ghost use Rattle.rules.specs.Book.{fresh_book};
ghost use Rattle.rules.specs.Listing.{listing_of, listing_causes, written_by};
ghost use Rattle.ledger.specs.Flat.{scalars_of};

use crate::days::Calendar;
use crate::layout::{HELD_LENGTH, Held, Kinds, Units, WIDTH};
use crate::{lent, run, split};
use money::refusal::Refusal;
use rules::limits::{APPLICATION_LIMIT, JOURNAL_CAPACITY};
use scalars::state::Scalars;

fn fresh_scalars() -> Scalars
    ensures { result ≡ scalars_of fresh_book }
{
    split::scalars_of(rules::book::fresh())
}

// On a fresh book over rows and a table of its own; that book is fit, so fitness is not tested.
pub fn run_listing(calendar: &[u32], events: &[u8], lines: &mut [u64]) -> Result<(), Refusal>
    ensures { let cause = first_of (listing_causes (length calendar.now) (length events.now) (length lines.old)) in
        (refusal_of result ≡ cause)
        × (lines.new ≡ written_by cause (listing_of calendar.now events.now) lines.old) }
{
    let calendar = Calendar::of(calendar).ok_or(Refusal::NotFit)?;
    lent::lengths_refusal(events.len(), lines.len())?;
    let mut held: Held = [0; HELD_LENGTH];
    let mut kinds: Kinds = [0; APPLICATION_LIMIT];
    let mut units: Units = [0; APPLICATION_LIMIT];
    let mut table = [0; JOURNAL_CAPACITY * WIDTH];
    let _ = run::run_events(
        &calendar,
        fresh_scalars(),
        &mut held,
        &mut kinds,
        &mut units,
        &mut table,
        events,
        lines,
    );
    Ok(())
}
