// A book in lent numbers, changed in place: nothing of it is copied but what is small.
ghost use Rattle.std.specs.Prelude.{◌≡◌, true, false, if◌then◌else◌, ◌==◌};
ghost use Rattle.rules.specs.Entry.{decoded};
ghost use Rattle.rules.specs.Step.{outcome, accepted};
ghost use Rattle.rules.specs.Cover.{cover_refused};
ghost use Rattle.ledger.specs.Lent.{lent, book_in, table_in, step_in, cover_in, run_in};
ghost use Rattle.exports.specs.Codes.{is_well_formed};
ghost use Rattle.exports.specs.Raw.{scalars_from, raw_of, refused, refused_run};

use crate::raw;
use crate::raw::{RawDone, RawEnded, RawScalars};
use money::refusal::Refusal;
use rules::answer::Cover;

// One event, as its 40 bytes.
#[unsafe(no_mangle)]
pub extern "C" fn lent_apply(
    calendar: &[u32],
    raw: RawScalars,
    held: &mut [u64],
    kinds: &mut [u8],
    units: &mut [u64],
    table: &mut [u64],
    event: &[u8],
) -> RawDone
    ensures { let before = lent (scalars_from raw) held.old kinds.old units.old table.old in
        let after = lent (scalars_from result.raw) held.new kinds.new units.new table.new in
        (is_well_formed raw.codes ≡ true
        → (outcome result.answer (book_in after) (table_in after) ≡ step_in calendar.now before (decoded event.now))
        × (result.raw ≡ raw_of (scalars_from result.raw))
        × (accepted result.answer.number ≡ false → after ≡ before))
        × (is_well_formed raw.codes ≡ false → (result ≡ refused raw) × (after ≡ before)) }
{
    let Some(scalars) = raw::read(raw) else {
        return raw::refused(raw);
    };
    let entry = decoder::entry::decode(event);
    let done = ledger::lent::apply(calendar, scalars, held, kinds, units, table, entry);
    raw::of_done(done)
}

// Headroom and O.
#[unsafe(no_mangle)]
pub extern "C" fn lent_cover(
    calendar: &[u32],
    raw: RawScalars,
    held: &[u64],
    kinds: &[u8],
    units: &[u64],
    table: &[u64],
) -> Cover
    ensures { let before = lent (scalars_from raw) held.now kinds.now units.now table.now in
        result ≡ (if is_well_formed raw.codes then cover_in calendar.now before else cover_refused) }
{
    let Some(scalars) = raw::read(raw) else {
        return Err(Refusal::NotFit).into();
    };
    ledger::lent::cover(calendar, scalars, held, kinds, units, table).into()
}

// Encoded events, 40 bytes each, and a line of seven numbers for each.
#[unsafe(no_mangle)]
pub extern "C" fn lent_run(
    calendar: &[u32],
    raw: RawScalars,
    held: &mut [u64],
    kinds: &mut [u8],
    units: &mut [u64],
    table: &mut [u64],
    events: &[u8],
    lines: &mut [u64],
) -> RawEnded
    ensures { let before = lent (scalars_from raw) held.old kinds.old units.old table.old in
        let after = lent (scalars_from result.raw) held.new kinds.new units.new table.new in
        (is_well_formed raw.codes ≡ true
        → (record { ran = record { number = result.number; book = book_in after }; table = table_in after; lines = lines.new }
        ≡ run_in calendar.now before events.now lines.old)
        × (result.raw ≡ raw_of (scalars_from result.raw))
        × ((result.number == 0) ≡ false → after ≡ before))
        × (is_well_formed raw.codes ≡ false → (result ≡ refused_run raw) × (after ≡ before) × (lines.new ≡ lines.old)) }
{
    let Some(scalars) = raw::read(raw) else {
        return raw::refused_run(raw);
    };
    let ended = ledger::lent::run(calendar, scalars, held, kinds, units, table, events, lines);
    raw::of_run(scalars, ended)
}
