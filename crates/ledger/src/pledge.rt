// 6 Pledge: units arrive, and count from the next close.
ghost use Rattle.std.specs.Prelude.{◌≡◌, ℕ, ◌+◌, ◌≤◌, true, List, IfOk};
ghost use Rattle.money.specs.Limits.{cash_limit};
ghost use Rattle.money.specs.Causes.{first_of, refusal_of};
ghost use Rattle.rules.specs.Fit.{cash_fit, securities_fit};
ghost use Rattle.rules.specs.Pledge.{pledge_causes, pledged, cash_arrived};
ghost use Rattle.scalars.specs.Scalars.{done_by};
ghost use Rattle.ledger.specs.Kind.{kind_number};
ghost use Rattle.ledger.specs.Flat.{security_in, securities_of, vault_of, rows_of, book_of, applied_by, applied_at};

use crate::held;
use crate::kind::{Kind, SecurityNumber};
use crate::layout::Held;
use money::limits::UNIT_LIMIT;
use money::refusal::Refusal;
use money::units::Fen;
use rules::book::{Cash, Guarantee, Security};
use scalars::done;
use scalars::done::Done;
use scalars::state::Scalars;

// The units of a security, effective and arriving together.
#[tactic(auto, using(crate::proofs::HeldFit::row_fits))]
fn units_of(held: &Held, guarantee: Guarantee, at: SecurityNumber) -> u64
    requires { securities_fit (vault_of guarantee (securities_of held.now)) ≡ true }
    ensures { result ≡ (security_in held.now at.number).effective + (security_in held.now at.number).arriving }
{
    let security = held::security_at(held, at);
    security.effective + security.arriving
}

// The kind to pledge, unless there is a cause to refuse it.
#[tactic(auto, unfolding(rules::specs::Pledge::pledge_causes, money::specs::Causes::first_of))]
fn pledge_refusal(scalars: Scalars, held: &Held, kind: u8, units: u64) -> Result<Kind, Refusal>
    requires { securities_fit (vault_of scalars.guarantee (securities_of held.now)) ≡ true }
    ensures cause { (kinds amounts : List ℕ) →
        refusal_of result ≡ first_of (pledge_causes (book_of scalars (rows_of held.now kinds amounts)) kind units) }
    ensures read { IfOk result (λ read. kind_number read ≡ kind) }
{
    let kind = Kind::try_from(kind)?;
    if !scalars.standing.is_trading() {
        return Err(Refusal::WrongPhase);
    }
    if units == 0 {
        return Err(Refusal::BadCount);
    }
    match kind {
        Kind::Security(at) if UNIT_LIMIT - units_of(held, scalars.guarantee, at) < units => {
            Err(Refusal::PastLimit)
        }
        Kind::Cash if scalars.cash.own.0 < units => Err(Refusal::NotEnough),
        _ => Ok(kind),
    }
}

fn cash_arrived(guarantee: Guarantee, amount: Fen) -> Guarantee
    requires { guarantee.arriving.0 + amount.0 ≤ cash_limit }
    ensures { result ≡ cash_arrived amount.0 guarantee }
{
    Guarantee {
        arriving: Fen(guarantee.arriving.0 + amount.0),
        ..guarantee
    }
}

#[tactic(auto, using(crate::proofs::Refusing::turned_down, crate::proofs::Refusing::carried_out), unfolding(rules::specs::Step::event_causes, rules::specs::Pledge::pledged, money::specs::Causes::first_of))]
pub fn pledge(scalars: Scalars, held: &mut Held, kind: u8, units: u64) -> Result<Done, Refusal>
    requires { (securities_fit (vault_of scalars.guarantee (securities_of held.old)) ≡ true)
        × (cash_fit scalars.cash scalars.guarantee ≡ true) }
    ensures { (kinds amounts : List ℕ) →
        let book = book_of scalars (rows_of held.old kinds amounts) in
        let cause = first_of (pledge_causes book kind units) in
        applied_at (done_by scalars result) (rows_of held.new kinds amounts) ≡ applied_by cause book (pledged book kind units) }
{
    let kind = pledge_refusal(scalars, held, kind, units)?;
    match kind {
        Kind::Security(at) => {
            held::change(
                held,
                at,
                |security| Security {
                    arriving: security.arriving + units,
                    ..security
                },
            );
            Ok(done::accepted(scalars))
        }
        Kind::Cash => Ok(done::accepted(Scalars {
            cash: Cash {
                own: Fen(scalars.cash.own.0 - units),
                ..scalars.cash
            },
            guarantee: cash_arrived(scalars.guarantee, Fen(units)),
            ..scalars
        })),
    }
}
