// Encoded events put to a book, one after the other, over the core's table.
ghost use Rattle.std.specs.Prelude.{◌≡◌, ◌+◌, ◌*◌, ◌/◌, ◌≤◌, length};
ghost use Rattle.std.proofs.lemmas.List.Edits.{sets};
ghost use Rattle.rules.specs.Entry.{event_bytes, decoded};
ghost use Rattle.rules.specs.Step.{step};
ghost use Rattle.rules.specs.Listing.{line_numbers, line_of, run_done};
ghost use Rattle.ledger.specs.Flat.{FitsWhole, rows_of, book_of, trades_of};
ghost use Rattle.ledger.specs.Figures.{figures_at};

use crate::days::Calendar;
use crate::figures::{Figures, KnownFigures};
use crate::layout::{Held, Kinds, Units};
use crate::{dispatch, figures, line};
use rules::limits::{EVENT_BYTES, LINE_NUMBERS};
use scalars::state::Scalars;

// What an event of a run leaves: the scalars, and O and V for the next.
#[derive(Clone, Copy)]
struct Turn {
    scalars: Scalars,
    figures: Figures,
}

// One event's bytes on a book, and the line of what it leaves.
#[tactic(auto, using(rules::proofs::FitParts::fit_parts))]
fn run_event(
    calendar: &Calendar,
    bytes: &[u8],
    turn: Turn,
    held: &mut Held,
    kinds: &mut Kinds,
    units: &mut Units,
    table: &mut [u64],
    lines: &mut [u64],
    at: usize,
) -> Turn
    requires { let trades = trades_of table.old in
        (FitsWhole calendar.now turn.scalars held.old kinds.old units.old trades)
        × (turn.figures ≡ figures_at turn.scalars held.old trades)
        × (at + line_numbers ≤ length lines.old) }
    ensures { let book = book_of turn.scalars (rows_of held.old kinds.old units.old) in
        let trades = trades_of table.old in
        let next = step calendar.now book trades (decoded bytes.now) in
        (book_of result.scalars (rows_of held.new kinds.new units.new) ≡ next.book)
        × (trades_of table.new ≡ next.table)
        × (lines.new ≡ sets lines.old at (line_of next))
        × (result.figures ≡ figures_at result.scalars held.new (trades_of table.new)) }
{
    let entry = decoder::entry::decode(bytes);
    let done = dispatch::entry_on(
        calendar,
        turn.scalars,
        held,
        kinds,
        units,
        table,
        KnownFigures::from(turn.figures),
        entry,
    );
    let left = done.scalars;
    let after = figures::figures_after(turn.figures, entry, done.answer.number, left, held, table);
    lines[at..at + LINE_NUMBERS].copy_from_slice(&line::line_of(done, after));
    Turn {
        scalars: left,
        figures: after,
    }
}

// The events in order on a fit book.
pub fn run_events(
    calendar: &Calendar,
    scalars: Scalars,
    held: &mut Held,
    kinds: &mut Kinds,
    units: &mut Units,
    table: &mut [u64],
    events: &[u8],
    lines: &mut [u64],
) -> Scalars
    requires { (FitsWhole calendar.now scalars held.old kinds.old units.old (trades_of table.old))
        × (line_numbers * (length events.now / event_bytes) ≤ length lines.old) }
    ensures { let book = book_of scalars (rows_of held.old kinds.old units.old) in
        let trades = trades_of table.old in
        let ended = run_done calendar.now book trades events.now lines.old in
        (book_of result (rows_of held.new kinds.new units.new) ≡ ended.ran.book)
        × (trades_of table.new ≡ ended.table)
        × (lines.new ≡ ended.lines) }
{
    let figures = figures::figures_of(scalars, held, table);
    let mut turn = Turn { scalars, figures };
    for (k, bytes) in events.chunks_exact(EVENT_BYTES).enumerate() {
        turn = run_event(
            calendar,
            bytes,
            turn,
            held,
            kinds,
            units,
            table,
            lines,
            k * LINE_NUMBERS,
        );
    }
    turn.scalars
}
