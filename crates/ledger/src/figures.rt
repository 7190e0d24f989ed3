// O and V of a book: counted over the table and the vault, or carried over an event that says how it moves them.
ghost use Rattle.std.specs.Prelude.{◌≡◌, true, List};
ghost use Rattle.rules.specs.Vault.{value as value_of};
ghost use Rattle.rules.specs.Fit.{securities_fit, cash_fit};
ghost use Rattle.money.specs.Days.{Calendar};
ghost use Rattle.ledger.specs.Types.{Trade, Some};
ghost use Rattle.ledger.specs.Figures.{outstanding_at, figures_at, IsValue, Moved, MovedBy};
ghost use Rattle.ledger.specs.Flat.{FitsHeld, vault_of, securities_of, trades_of};

use crate::layout::Held;
use crate::{trades, vault};
use money::units::Sheets;
use rules::event::Event;
use scalars::state::Scalars;

#[derive(Clone, Copy)]
pub struct Figures {
    pub outstanding: Sheets,
    pub value: Sheets,
}

// O as an event begins, and V if it is known: a run has V from the event before, a single call counts it where an event asks.
#[derive(Clone, Copy)]
pub struct KnownFigures {
    pub outstanding: Sheets,
    pub value: Option<Sheets>,
}

impl From<Figures> for KnownFigures {
    ghost from_gives = { λ figures known. known ≡ record { outstanding = figures.outstanding; value = Some figures.value } };

    fn from(figures: Figures) -> KnownFigures {
        KnownFigures {
            outstanding: figures.outstanding,
            value: Some(figures.value),
        }
    }
}

// Counted, over the trades in use and all kinds.
#[tactic(auto, using(rules::proofs::FitParts::fit_parts))]
pub fn figures_of(scalars: Scalars, held: &Held, table: &[u64]) -> Figures
    requires { (calendar : Calendar) × FitsHeld calendar scalars held.now (trades_of table.now) }
    ensures { result ≡ figures_at scalars held.now (trades_of table.now) }
{
    Figures {
        outstanding: trades::outstanding_of(table, scalars.trades),
        value: vault::value_of(held, scalars.guarantee),
    }
}

// V, counted where it is not known.
pub fn value_known(scalars: Scalars, held: &Held, value: Option<Sheets>) -> Sheets
    requires { (securities_fit (vault_of scalars.guarantee (securities_of held.now)) ≡ true)
        × (cash_fit scalars.cash scalars.guarantee ≡ true)
        × (IsValue value (value_of (vault_of scalars.guarantee (securities_of held.now)))) }
    ensures { result.0 ≡ value_of (vault_of scalars.guarantee (securities_of held.now)) }
{
    value.unwrap_or_else(|| vault::value_of(held, scalars.guarantee))
}

// The vault has changed, and the table has not.
#[tactic(auto, using(rules::proofs::FitParts::fit_parts))]
fn revalued(before: Figures, scalars: Scalars, held: &Held) -> Figures
    requires { (securities_fit (vault_of scalars.guarantee (securities_of held.now)) ≡ true)
        × (cash_fit scalars.cash scalars.guarantee ≡ true) }
    ensures { (table : List Trade) → before.outstanding.0 ≡ outstanding_at scalars table → result ≡ figures_at scalars held.now table }
{
    Figures {
        value: vault::value_of(held, scalars.guarantee),
        ..before
    }
}

// After an event that is done: no trade is looked at where the event itself tells what it adds or takes.
#[tactic(auto, using(rules::proofs::FitParts::fit_parts))]
fn figures_moved(
    before: Figures,
    event: Event,
    scalars: Scalars,
    held: &Held,
    table: &[u64],
) -> Figures
    requires { let trades = trades_of table.now in
        ((calendar : Calendar) × FitsHeld calendar scalars held.now trades)
        × (Moved event before (figures_at scalars held.now trades)) }
    ensures { result ≡ figures_at scalars held.now (trades_of table.now) }
{
    match event {
        Event::Open => Figures {
            outstanding: trades::outstanding_of(table, scalars.trades),
            ..before
        },
        Event::FundIn(_, _)
        | Event::FundOut(_, _)
        | Event::Size(_)
        | Event::Withdraw(_, _)
        | Event::Pay
        | Event::Post(_, _) => before,
        Event::Rate(_, _) | Event::Pledge(_, _) | Event::Freeze(_, _) => {
            revalued(before, scalars, held)
        }
        Event::Initial(terms) => {
            let more = before.outstanding.0 + terms.sheets.0;
            Figures {
                outstanding: Sheets(more),
                ..before
            }
        }
        Event::Early(_, count, _) => {
            let less = before.outstanding.0 - count.0;
            Figures {
                outstanding: Sheets(less),
                ..before
            }
        }
        Event::Close => figures_of(scalars, held, table),
    }
}

// After any entry: what is turned down, or fails to be paid, moves nothing.
#[tactic(auto, using(crate::proofs::FigureLaws::unmoved))]
pub fn figures_after(
    before: Figures,
    entry: Option<Event>,
    number: u8,
    scalars: Scalars,
    held: &Held,
    table: &[u64],
) -> Figures
    requires { let trades = trades_of table.now in
        ((calendar : Calendar) × FitsHeld calendar scalars held.now trades)
        × (MovedBy entry number before (figures_at scalars held.now trades)) }
    ensures { result ≡ figures_at scalars held.now (trades_of table.now) }
{
    if number != 0 {
        return before;
    }
    let Some(event) = entry else {
        return before;
    };
    figures_moved(before, event, scalars, held, table)
}
