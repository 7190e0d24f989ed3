// When a book is fit: its tests in the order of document 01.
ghost use Rattle.std.specs.Prelude.{◌≡◌, true, List, [], ◌∷◌};
ghost use Rattle.rules.specs.Folds.{every};
ghost use Rattle.rules.specs.Trades.{differ};
ghost use Rattle.rules.specs.Fit.{capacity_fit, size_fit, nets_fit, sums_fit, withdrawals_fit, unopened_fit, opened_fit, day_fit, fit};
ghost use Rattle.ledger.specs.Types.{Trade, Some};
ghost use Rattle.ledger.specs.Flat.{rows_of, book_of, trades_to, trades_of, Kept};
ghost use Rattle.ledger.specs.Figures.{outstanding_at, IsFitWith, latest_first, summary_of};

use crate::days::Calendar;
use crate::layout::{Held, Kinds, Units};
use crate::trades::Summary;
use crate::{flat, nets, postings, trades, vault};
use money::units::{Fen, Sheets};
use rules::book::{Nets, Standing, Sums};
use rules::limits::{CAPACITY_LIMIT, SIZE_LIMIT};
use scalars::state::Scalars;
use scalars::unpaid;

#[tactic(auto, unfolding(rules::specs::Fit::capacity_fit, money::specs::Causes::first_of))]
fn capacity_fit(count: usize, table: &[u64]) -> bool
    ensures { result ≡ capacity_fit count (trades_of table.now) }
{
    let slots = flat::slots(table);
    slots <= CAPACITY_LIMIT && count <= slots
}

// S is within its limit, and the sheets left within S.
#[tactic(auto, unfolding(rules::specs::Fit::size_fit, money::specs::Causes::first_of))]
fn size_fit(size: Sheets, outstanding: Sheets) -> bool
    ensures { result ≡ size_fit size.0 outstanding.0 }
{
    size.0 <= SIZE_LIMIT && outstanding <= size
}

#[tactic(auto, using(crate::proofs::Fitting::refuted, crate::proofs::Fitting::upheld), unfolding(rules::specs::Fit::nets_fit, money::specs::Causes::first_of))]
fn nets_fit(nets: Nets) -> bool
    ensures { result ≡ nets_fit nets }
{
    nets::is_fit(nets.today) && nets::is_fit(nets.cleared)
}

#[tactic(auto, unfolding(rules::specs::Fit::sums_fit, money::specs::Causes::first_of))]
fn sums_fit(sums: Sums) -> bool
    ensures { result ≡ sums_fit sums }
{
    !unpaid::passes(sums.unpaid, Fen(0))
}

// A book with no day is Closed with an empty table.
#[tactic(auto, using(crate::proofs::Fitting::refuted, crate::proofs::Fitting::upheld))]
fn unopened_fit(standing: Standing, count: usize) -> bool
    ensures { result ≡ unopened_fit standing.phase count }
{
    standing.is_closed() && count == 0
}

// The day trades, another follows, and no first payment day is past today's payment day: the latest is not.
#[tactic(auto, using(crate::proofs::Fitting::fitting))]
fn opened_fit(calendar: &Calendar, today: u32, latest: u32) -> bool
    ensures { (trades : List Trade) → latest ≡ latest_first trades → result ≡ opened_fit calendar.now today trades }
{
    calendar.trades_on(today)
        && calendar.has_next(today)
        && latest <= calendar.payment_day(Some(today))
}

fn day_fit(calendar: &Calendar, standing: Standing, count: usize, latest: u32) -> bool
    ensures { (trades : List Trade) →
        latest ≡ latest_first trades → result ≡ day_fit calendar.now standing.day standing.phase trades count }
{
    match standing.day {
        None => unopened_fit(standing, count),
        Some(today) => opened_fit(calendar, today, latest),
    }
}

// The tests after those of the vault, the cash, the sheets and the postings.
#[tactic(auto, using(crate::proofs::Fitting::fitting, crate::proofs::Fitting::upheld))]
fn others_fit(
    calendar: &Calendar,
    scalars: Scalars,
    kinds: &Kinds,
    units: &Units,
    table: &[u64],
    latest: u32,
) -> bool
    requires { (Kept table.now scalars.trades)
        × (latest ≡ latest_first (trades_to table.now scalars.trades)) }
    ensures { let trades = trades_to table.now scalars.trades in
        result ≡ every
        (nets_fit scalars.nets
        ∷ sums_fit scalars.sums
        ∷ differ trades
        ∷ withdrawals_fit (record { kinds = kinds.entry.now; units = units.now; count = scalars.applications })
        ∷ day_fit calendar.now scalars.standing.day scalars.standing.phase trades scalars.trades
        ∷ []) }
{
    nets_fit(scalars.nets)
        && sums_fit(scalars.sums)
        && trades::contracts_differ(table, scalars.trades)
        && vault::withdrawals_fit(kinds, units, scalars.applications)
        && day_fit(calendar, scalars.standing, scalars.trades, latest)
}

// The tests of a table with room for its trades, each within its limits, from what one walk over these tells.
fn is_fit(
    calendar: &Calendar,
    scalars: Scalars,
    held: &Held,
    kinds: &Kinds,
    units: &Units,
    table: &[u64],
    summary: Summary,
) -> bool
    requires { (capacity_fit scalars.trades (trades_of table.now) ≡ true)
        × (summary_of (trades_to table.now scalars.trades) ≡ Some summary) }
    ensures { let book = book_of scalars (rows_of held.now kinds.now units.now) in
        let trades = trades_of table.now in
        result ≡ fit calendar.now book trades }
{
    if !vault::securities_fit(held) {
        return false;
    }
    if !vault::cash_fit(scalars.cash, scalars.guarantee) {
        return false;
    }
    if !size_fit(scalars.size, summary.outstanding) {
        return false;
    }
    if !postings::postings_fit(held) {
        return false;
    }
    others_fit(calendar, scalars, kinds, units, table, summary.latest)
}

// O of a book that is fit, since the test counts it.
pub fn fitness_of(
    calendar: &Calendar,
    scalars: Scalars,
    held: &Held,
    kinds: &Kinds,
    units: &Units,
    table: &[u64],
) -> Option<Sheets>
    ensures { let trades = trades_of table.now in
        let fits = fit calendar.now (book_of scalars (rows_of held.now kinds.now units.now)) trades in
        IsFitWith result fits (outstanding_at scalars trades) }
{
    let count = scalars.trades;
    if !capacity_fit(count, table) {
        return None;
    }
    let summary = trades::summary_of(table, count)?;
    is_fit(calendar, scalars, held, kinds, units, table, summary).then_some(summary.outstanding)
}
