// 7 Freeze: sets frozen units.
ghost use Rattle.std.specs.Prelude.{◌≡◌, ℕ, List, IfOk};
ghost use Rattle.money.specs.Causes.{first_of, refusal_of};
ghost use Rattle.rules.specs.Freeze.{freeze_causes, frozen, cash_frozen};
ghost use Rattle.scalars.specs.Scalars.{done_by};
ghost use Rattle.ledger.specs.Kind.{kind_number};
ghost use Rattle.ledger.specs.Flat.{rows_of, book_of, applied_by, applied_at};

use crate::kind::Kind;
use crate::layout::Held;
use crate::{held, vault};
use money::refusal::Refusal;
use money::units::Fen;
use rules::book::{Guarantee, Security};
use scalars::done;
use scalars::done::Done;
use scalars::state::Scalars;

// The kind to freeze, unless there is a cause to refuse it.
#[tactic(auto, unfolding(rules::specs::Freeze::freeze_causes, money::specs::Causes::first_of))]
fn freeze_refusal(scalars: Scalars, held: &Held, kind: u8, units: u64) -> Result<Kind, Refusal>
    ensures cause { (kinds amounts : List ℕ) →
        refusal_of result ≡ first_of (freeze_causes (book_of scalars (rows_of held.now kinds amounts)) kind units) }
    ensures read { IfOk result (λ read. kind_number read ≡ kind) }
{
    let kind = Kind::try_from(kind)?;
    if vault::had_of(held, scalars.guarantee, kind).effective < units {
        return Err(Refusal::NotEnough);
    }
    Ok(kind)
}

fn cash_frozen(guarantee: Guarantee, amount: Fen) -> Guarantee
    ensures { result ≡ cash_frozen amount.0 guarantee }
{
    Guarantee {
        frozen: amount,
        ..guarantee
    }
}

#[tactic(auto, using(crate::proofs::Refusing::turned_down, crate::proofs::Refusing::carried_out), unfolding(rules::specs::Step::event_causes, rules::specs::Freeze::frozen, money::specs::Causes::first_of))]
pub fn freeze(scalars: Scalars, held: &mut Held, kind: u8, units: u64) -> Result<Done, Refusal>
    ensures { (kinds amounts : List ℕ) →
        let book = book_of scalars (rows_of held.old kinds amounts) in
        let cause = first_of (freeze_causes book kind units) in
        applied_at (done_by scalars result) (rows_of held.new kinds amounts) ≡ applied_by cause book (frozen book kind units) }
{
    let kind = freeze_refusal(scalars, held, kind, units)?;
    match kind {
        Kind::Security(at) => {
            held::change(
                held,
                at,
                |security| Security {
                    frozen: units,
                    ..security
                },
            );
            Ok(done::accepted(scalars))
        }
        Kind::Cash => Ok(done::accepted(Scalars {
            guarantee: cash_frozen(scalars.guarantee, Fen(units)),
            ..scalars
        })),
    }
}
