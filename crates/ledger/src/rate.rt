// 5 Rate: sets a security's rate.
ghost use Rattle.std.specs.Prelude.{◌≡◌, ℕ, List, IfOk};
ghost use Rattle.money.specs.Causes.{first_of, refusal_of};
ghost use Rattle.rules.specs.Rate.{rate_causes, rated};
ghost use Rattle.scalars.specs.Scalars.{done_by};
ghost use Rattle.ledger.specs.Flat.{rows_of, book_of, applied_by, applied_at};

use crate::held;
use crate::kind::SecurityNumber;
use crate::layout::Held;
use money::limits::RATE_LIMIT;
use money::refusal::Refusal;
use rules::book::Security;
use scalars::done;
use scalars::done::Done;
use scalars::state::Scalars;

// The security to rate, unless there is a cause to refuse it: guarantee cash has no rate of its own.
#[tactic(auto, unfolding(rules::specs::Rate::rate_causes, money::specs::Causes::first_of))]
fn rate_refusal(kind: u8, rate: u64) -> Result<SecurityNumber, Refusal>
    ensures cause { refusal_of result ≡ first_of (rate_causes kind rate) }
    ensures read { IfOk result (λ read. read.number ≡ kind) }
{
    let at = SecurityNumber::try_from(kind)?;
    if rate > RATE_LIMIT {
        return Err(Refusal::PastLimit);
    }
    Ok(at)
}

#[tactic(auto, using(crate::proofs::Refusing::turned_down, crate::proofs::Refusing::carried_out), unfolding(rules::specs::Step::event_causes, rules::specs::Rate::rated, money::specs::Causes::first_of))]
pub fn set_rate(scalars: Scalars, held: &mut Held, kind: u8, rate: u64) -> Result<Done, Refusal>
    ensures { let cause = first_of (rate_causes kind rate) in
        ((kinds units : List ℕ) →
        let book = book_of scalars (rows_of held.old kinds units) in
        applied_at (done_by scalars result) (rows_of held.new kinds units) ≡ applied_by cause book (rated book kind rate)) }
{
    let at = rate_refusal(kind, rate)?;
    held::change(held, at, |security| Security { rate, ..security });
    Ok(done::accepted(scalars))
}
