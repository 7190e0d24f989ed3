// 12 Close, in its parts: (a) what matures, and the next terms, (b) the nets and U, (c) what arrives, (d) the evening's applications, (e) the table,
// (f) the short run.
ghost use Rattle.std.specs.Prelude.{◌≡◌, ℕ, ◌≤◌, List, length, pos};
ghost use Rattle.std.proofs.Math.Option.{none};
ghost use Rattle.money.specs.Causes.{first_of};
ghost use Rattle.money.specs.Units.{signed_fen};
ghost use Rattle.money.specs.Days.{Calendar};
ghost use Rattle.rules.specs.Vault.{value};
ghost use Rattle.rules.specs.Book.{no_applications};
ghost use Rattle.rules.specs.Close.{may_close, left_trades, cleared_at_close, unpaid_at_close, claims_of, claims_at_close, served, evening as evening_of, short_more, short_at_close, closed_standing, close_causes, closed_book, closed_table};
ghost use Rattle.rules.specs.Trades.{outstanding, remaining};
ghost use Rattle.ledger.specs.Types.{Trade};
ghost use Rattle.ledger.specs.Figures.{CountedWhole};
ghost use Rattle.ledger.specs.NextTerm.{Planned, RenewableWhere, most_matured};
ghost use Rattle.scalars.specs.Scalars.{done_by};
ghost use Rattle.ledger.specs.Flat.{RowsFit, Rows, vault_of, securities_of, postings_of, rows_of, book_of, evening_at, applied_at, trades_of, closed_by, table_by, Kept};

use crate::days::Calendar;
use crate::evening::{Claims, EveningScalars};
use crate::figures::KnownFigures;
use crate::layout::{Held, Kinds, Units};
use crate::next_term::Plan;
use crate::{evening, nets, next_term, packing, vault};
use money::refusal::Refusal;
use money::units::{Fen, Sheets};
use rules::book::{Cash, Nets, Phase, ShortRun, Standing, Unpaid};
use scalars::done::Done;
use scalars::state::Scalars;
use scalars::{done, headroom, state, unpaid};

fn may_close(standing: Standing) -> bool
    ensures { result ≡ may_close standing }
{
    standing.is_paid() || standing.is_trading() && standing.is_terminated()
}

fn is_served(standing: Standing) -> bool
    ensures { result ≡ served standing }
{
    standing.is_paid() && !standing.has_failed()
}

fn longer(short: ShortRun) -> ShortRun
    ensures { result ≡ short_more short }
{
    match short {
        ShortRun::NotShort => ShortRun::ShortOnce,
        ShortRun::ShortOnce => ShortRun::ShortTwice,
        ShortRun::ShortTwice => ShortRun::ShortThrice,
        ShortRun::ShortThrice => ShortRun::ShortThrice,
    }
}

fn short_at_close(is_short: bool, short: ShortRun) -> ShortRun
    ensures { result ≡ short_at_close is_short short }
{
    if is_short {
        return longer(short);
    }
    ShortRun::NotShort
}

fn closed_standing(short: ShortRun, standing: Standing) -> Standing
    ensures { result ≡ closed_standing short standing }
{
    Standing {
        phase: Phase::Closed,
        short,
        ..standing
    }
}

// The list of applications empties to zeros.
fn clear(kinds: &mut Kinds, units: &mut Units)
    ensures { (kinds.new ≡ no_applications.kinds) × (units.new ≡ no_applications.units) }
{
    kinds.fill(0);
    units.fill(0);
}

// The evening's end, with what V has to cover as part (b) begins.
#[tactic(auto, using(crate::proofs::CloseLaws::begun), unfolding(rules::specs::Close::all_arrived, rules::specs::Close::evening, money::specs::Causes::first_of))]
fn evening_end(
    scalars: Scalars,
    held: &mut Held,
    kinds: &Kinds,
    units: &Units,
    claims: Claims,
) -> EveningScalars
    requires { RowsFit scalars held.old kinds.now units.now }
    ensures { let book = book_of scalars (rows_of held.old kinds.now units.now) in
        (evening_at result (securities_of held.new) ≡ evening_of book (claims_of claims.outstanding.0 claims.unpaid.0))
        × (result.value.0 ≡ value (vault_of result.guarantee (securities_of held.new)))
        × (postings_of held.new ≡ postings_of held.old) }
{
    evening::all_arrived(held, scalars.guarantee);
    let arrived = evening::guarantee_arrived(scalars.guarantee);
    let begun = EveningScalars {
        own: scalars.cash.own,
        guarantee: arrived,
        value: vault::value_of(held, arrived),
        done: 0,
        dropped: 0,
    };
    evening::applications(
        is_served(scalars.standing),
        claims,
        kinds,
        units,
        scalars.applications,
        held,
        begun,
    )
}

// The scalars after the evening: `cleared` has the nets, `unpaid` is U, `kept` the trades that stay.
#[tactic(auto, unfolding(rules::specs::Close::closed_book, rules::specs::Close::is_short_close, money::specs::Causes::first_of))]
fn closed_scalars(
    scalars: Scalars,
    cleared: Nets,
    unpaid: Unpaid,
    ended: EveningScalars,
    left: Sheets,
    kept: usize,
) -> Scalars
    ensures { (calendar : Calendar) (rows : Rows) (held : List ℕ) (trades table : List Trade) →
        let book = book_of scalars rows in
        cleared ≡ record { today = signed_fen (pos 0); cleared = signed_fen (cleared_at_close calendar book table) }
        → unpaid ≡ unpaid_at_close calendar book table
        → evening_at ended (securities_of held) ≡ evening_of book (claims_at_close calendar book trades table)
        → ended.value.0 ≡ value (vault_of ended.guarantee (securities_of held))
        → left.0 ≡ outstanding trades
        → kept ≡ length (remaining trades)
        → postings_of held ≡ rows.postings
        → book_of result (rows_of held no_applications.kinds no_applications.units) ≡ closed_book calendar book trades table }
{
    let is_short = headroom::is_short(scalars.size, ended.value, left);
    let short = short_at_close(is_short, scalars.standing.short);
    Scalars {
        nets: cleared,
        cash: Cash {
            own: ended.own,
            ..scalars.cash
        },
        guarantee: ended.guarantee,
        standing: closed_standing(short, scalars.standing),
        applications: 0,
        trades: kept,
        ..state::with_unpaid(scalars, unpaid)
    }
}

// What Close does, once nothing refuses it: what was planned is written, before the table is packed.
fn closed(
    calendar: &Calendar,
    scalars: Scalars,
    held: &mut Held,
    kinds: &mut Kinds,
    units: &mut Units,
    table: &mut [u64],
    plan: Plan,
    cleared: Nets,
    unpaid: Unpaid,
) -> Done
    requires { (RowsFit scalars held.old kinds.old units.old)
        × (RenewableWhere calendar.now plan.closing held.old)
        × (Kept table.old scalars.trades)
        × (plan.outstanding.0 ≤ most_matured) }
    ensures { let book = book_of scalars (rows_of held.old kinds.old units.old) in
        let trades = trades_of table.old in
        let remains = left_trades calendar.now book trades in
        (Planned calendar.now book held.old trades plan
        → cleared ≡ record { today = signed_fen (pos 0); cleared = signed_fen (cleared_at_close calendar.now book trades) }
        → unpaid ≡ unpaid_at_close calendar.now book trades
        → (applied_at result (rows_of held.new kinds.new units.new) ≡ closed_by none calendar.now book remains trades)
        × (trades_of table.new ≡ closed_table book remains trades)) }
{
    let count = scalars.trades;
    next_term::settle(calendar, held, table, count, plan);
    let kept = packing::pack(table, count);
    let ended = evening_end(
        scalars,
        held,
        kinds,
        units,
        Claims {
            outstanding: plan.left,
            unpaid: unpaid.cleared,
        },
    );
    clear(kinds, units);
    let next = closed_scalars(scalars, cleared, unpaid, ended, plan.left, kept);
    done::of_close(plan.matured, ended.done, ended.dropped, next)
}

// All that can refuse it is decided on a plan, before anything is written.
#[tactic(auto, using(rules::proofs::FitParts::fit_parts, crate::proofs::Column::asked, crate::proofs::Column::denied, crate::proofs::Fitting::refuted, crate::proofs::Fitting::upheld))]
pub fn close(
    calendar: &Calendar,
    scalars: Scalars,
    held: &mut Held,
    kinds: &mut Kinds,
    units: &mut Units,
    table: &mut [u64],
    known: KnownFigures,
) -> Result<Done, Refusal>
    requires { CountedWhole calendar.now scalars held.old kinds.old units.old (trades_of table.old) known }
    ensures { let book = book_of scalars (rows_of held.old kinds.old units.old) in
        let trades = trades_of table.old in
        let remains = left_trades calendar.now book trades in
        let left = rows_of held.new kinds.new units.new in
        let cause = first_of (close_causes calendar.now book trades) in
        (applied_at (done_by scalars result) left ≡ closed_by cause calendar.now book remains trades)
        × (trades_of table.new ≡ table_by cause trades (closed_table book remains trades)) }
{
    if !may_close(scalars.standing) {
        return Err(Refusal::WrongPhase);
    }
    let plan = next_term::plan_of(calendar, scalars, held, kinds, units, table, known);
    let today = nets::less(nets::plus(scalars.nets.today, plan.amount), plan.started);
    if !nets::is_fit(today) {
        return Err(Refusal::PastLimit);
    }
    let cleared = nets::joined(Nets {
        today,
        ..scalars.nets
    });
    if !nets::is_fit(cleared.cleared) {
        return Err(Refusal::PastLimit);
    }
    if unpaid::passes(scalars.sums.unpaid, plan.amount) {
        return Err(Refusal::PastLimit);
    }
    let unpaid = unpaid::joined_with(scalars.sums.unpaid, plan.amount);
    Ok(closed(
        calendar, scalars, held, kinds, units, table, plan, cleared, unpaid,
    ))
}
