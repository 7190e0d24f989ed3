// The calls on a book and its table in lent numbers, changed in place: nothing is copied. Numbers that are no whole rows hold no book
// that is fit, and are answered 1. The rows stay apart: a struct of lent rows wants of every function that each row is still the same one.
ghost use Rattle.std.specs.Prelude.{◌≡◌, ℕ, ◌*◌, ◌≤◌, false, IsErr, slice_index, slice_index_or, slice_set};
ghost use Rattle.money.specs.Causes.{first_of, number_of, refusal_of};
ghost use Rattle.std.specs.Result.{result_unwrap_or};
ghost use Rattle.rules.specs.Trades.{no_trade};
ghost use Rattle.rules.specs.Step.{outcome, accepted};
ghost use Rattle.rules.specs.Cover.{cover_told};
ghost use Rattle.rules.specs.Listing.{length_causes};
ghost use Rattle.ledger.specs.Flat.{width, capacity, trades_of};
ghost use Rattle.ledger.specs.Figures.{outstanding_at, IsFitWith};
ghost use Rattle.ledger.specs.Lent.{lent, book_in, table_in, fit_in, step_in, cover_in, run_in};

use crate::days::Calendar;
use crate::figures::KnownFigures;
use crate::layout::{Held, Kinds, Units};
use crate::{cover, dispatch, figures, fit, flat, layout, run};
use money::refusal::Refusal;
use money::units::Sheets;
use rules::answer::Covered;
use rules::event::Event;
use rules::limits::{EVENT_BYTES, EVENT_LIMIT, LINE_NUMBERS};
use rules::trade::Trade;
use scalars::done;
use scalars::done::Done;
use scalars::state::Scalars;

// O of the book that the numbers hold, if it is fit.
#[tactic(auto, using(crate::proofs::LentLaws::lengths, crate::proofs::LentLaws::too_long))]
fn fitness_in(
    calendar: &[u32],
    scalars: Scalars,
    held: &[u64],
    kinds: &[u8],
    units: &[u64],
    table: &[u64],
) -> Option<Sheets>
    ensures { let before = lent scalars held.now kinds.now units.now table.now in
        IsFitWith result (fit_in calendar.now before) (outstanding_at scalars (trades_of table.now)) }
{
    let held: &Held = held.as_array()?;
    let kinds: &Kinds = kinds.as_array()?;
    let units: &Units = units.as_array()?;
    if table.len() % layout::WIDTH != 0 {
        return None;
    }
    let calendar = Calendar::of(calendar)?;
    fit::fitness_of(&calendar, scalars, held, kinds, units, table)
}

// One entry. Refused, every number lent is as it was.
#[tactic(auto, using(crate::proofs::Fitting::refuted, crate::proofs::Fitting::upheld))]
pub fn apply(
    calendar: &[u32],
    scalars: Scalars,
    held: &mut [u64],
    kinds: &mut [u8],
    units: &mut [u64],
    table: &mut [u64],
    entry: Option<Event>,
) -> Done
    ensures { let before = lent scalars held.old kinds.old units.old table.old in
        let after = lent result.scalars held.new kinds.new units.new table.new in
        (outcome result.answer (book_in after) (table_in after) ≡ step_in calendar.now before entry)
        × (accepted result.answer.number ≡ false → after ≡ before) }
{
    let fitness = fitness_in(calendar, scalars, held, kinds, units, table);
    let Some(outstanding) = fitness else {
        return done::refused(Refusal::NotFit, scalars);
    };
    let calendar = Calendar::of(calendar).unwrap();
    dispatch::entry_on(
        &calendar,
        scalars,
        held.as_mut_array().unwrap(),
        kinds.as_mut_array().unwrap(),
        units.as_mut_array().unwrap(),
        table,
        KnownFigures {
            outstanding,
            value: None,
        },
        entry,
    )
}

// Headroom and O.
#[tactic(auto, using(rules::proofs::FitParts::fit_parts, crate::proofs::Fitting::refuted, crate::proofs::Fitting::upheld))]
pub fn cover(
    calendar: &[u32],
    scalars: Scalars,
    held: &[u64],
    kinds: &[u8],
    units: &[u64],
    table: &[u64],
) -> Result<Covered, Refusal>
    ensures { let before = lent scalars held.now kinds.now units.now table.now in
        cover_told result ≡ cover_in calendar.now before }
{
    let Some(_) = fitness_in(calendar, scalars, held, kinds, units, table) else {
        return Err(Refusal::NotFit);
    };
    let held: &Held = held.as_array().unwrap();
    let figures = figures::figures_of(scalars, held, table);
    Ok(cover::cover_from(scalars.size, figures))
}

// The lent lengths: room for the events' lines, whole events, and no more than a journal's.
#[tactic(auto, unfolding(rules::specs::Listing::length_causes, money::specs::Causes::first_of))]
pub fn lengths_refusal(bytes: usize, room: usize) -> Result<(), Refusal>
    ensures { refusal_of result ≡ first_of (length_causes bytes room) }
{
    if room < LINE_NUMBERS * (bytes / EVENT_BYTES) {
        return Err(Refusal::PastLimit);
    }
    if bytes % EVENT_BYTES != 0 || bytes / EVENT_BYTES > EVENT_LIMIT {
        return Err(Refusal::BadLength);
    }
    Ok(())
}

// Encoded events, 40 bytes each, and a line of seven numbers for each. Fitness is tested once. Refused, every number lent is as it was.
#[tactic(auto, using(crate::proofs::RunLaws::lines_fit, crate::proofs::RunLaws::goes_on, crate::proofs::Fitting::refuted, crate::proofs::Fitting::upheld))]
pub fn run(
    calendar: &[u32],
    scalars: Scalars,
    held: &mut [u64],
    kinds: &mut [u8],
    units: &mut [u64],
    table: &mut [u64],
    events: &[u8],
    lines: &mut [u64],
) -> Result<Scalars, Refusal>
    ensures { let before = lent scalars held.old kinds.old units.old table.old in
        let after = lent (result_unwrap_or result scalars) held.new kinds.new units.new table.new in
        (record { ran = record { number = number_of (refusal_of result); book = book_in after }; table = table_in after; lines = lines.new }
        ≡ run_in calendar.now before events.now lines.old)
        × (IsErr result → after ≡ before) }
{
    let fitness = fitness_in(calendar, scalars, held, kinds, units, table);
    let Some(_) = fitness else {
        return Err(Refusal::NotFit);
    };
    lengths_refusal(events.len(), lines.len())?;
    let calendar = Calendar::of(calendar).unwrap();
    Ok(run::run_events(
        &calendar,
        scalars,
        held.as_mut_array().unwrap(),
        kinds.as_mut_array().unwrap(),
        units.as_mut_array().unwrap(),
        table,
        events,
        lines,
    ))
}

// The trade at a place, or an empty one past the last.
pub fn trade_at(table: &[u64], place: usize) -> Trade
    ensures { result ≡ slice_index_or (trades_of table.now) place no_trade }
{
    if place >= table.len() / layout::WIDTH {
        return flat::no_trade();
    }
    flat::trade_at(table, place)
}

// A trade put at a place; nothing is written past the last.
pub fn put_trade(table: &mut [u64], place: usize, trade: Trade)
    ensures { (trades_of table.new ≡ slice_set (trades_of table.old) place trade)
        × ((k : ℕ) → capacity table.old * width ≤ k → slice_index table.new k ≡ slice_index table.old k) }
{
    if place < table.len() / layout::WIDTH {
        flat::put_trade(table, place, trade);
    }
}
