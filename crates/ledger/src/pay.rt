// 11 Pay: the whole cleared net moves and U's cleared part is paid, or nothing.
ghost use Rattle.std.specs.Prelude.{◌≡◌, ◌+◌, ◌≤◌, true, false, nat_lt, unsigned_abs};
ghost use Rattle.money.specs.Limits.{cash_limit};
ghost use Rattle.money.specs.Causes.{first_of, refusal_of};
ghost use Rattle.rules.specs.Fit.{net_fit, nets_fit, cash_fit};
ghost use Rattle.rules.specs.Pay.{payer_holds, moved, failed_more, pay_causes, paid_standing, after_pay};
ghost use Rattle.scalars.specs.Scalars.{done_by};
ghost use Rattle.ledger.specs.Flat.{Rows, book_of, paid_by, applied_at};

use crate::nets;
use money::refusal::Refusal;
use money::units::Fen;
use rules::book::{Cash, FailedRun, Nets, Phase, Standing};
use scalars::done::Done;
use scalars::state::Scalars;
use scalars::{done, state, unpaid};

#[tactic(auto, unfolding(rules::specs::Pay::pay_causes, money::specs::Causes::first_of))]
fn pay_refusal(scalars: Scalars) -> Result<(), Refusal>
    ensures { (rows : Rows) → refusal_of result ≡ first_of (pay_causes (book_of scalars rows)) }
{
    let standing = scalars.standing;
    if !standing.is_trading() {
        return Err(Refusal::WrongPhase);
    }
    if standing.is_terminated() {
        return Err(Refusal::PermissionEnded);
    }
    Ok(())
}

// What the payer of the net due holds.
fn payer_holds(nets: Nets, cash: Cash) -> Fen
    ensures { result.0 ≡ payer_holds nets.cleared.0 cash }
{
    if nets::client_pays(nets) {
        return cash.client;
    }
    cash.own
}

fn falls_short(nets: Nets, cash: Cash) -> bool
    requires { net_fit nets.cleared.0 ≡ true }
    ensures { result ≡ nat_lt (payer_holds nets.cleared.0 cash) (unsigned_abs nets.cleared.0) }
{
    payer_holds(nets, cash) < nets::net_due(nets)
}

// The net due moves from the payer's account to the other.
fn cash_moved(nets: Nets, cash: Cash) -> Cash
    requires { (net_fit nets.cleared.0 ≡ true)
        × (unsigned_abs nets.cleared.0 ≤ payer_holds nets.cleared.0 cash)
        × (cash.own.0 + cash.client.0 ≤ cash_limit) }
    ensures { result ≡ moved nets.cleared.0 cash }
{
    let due = nets::net_due(nets);
    if nets::client_pays(nets) {
        let own = cash.own.0 + due.0;
        let client = cash.client.0 - due.0;
        return Cash {
            own: Fen(own),
            client: Fen(client),
        };
    }
    let left = cash.own.0 - due.0;
    let raised = cash.client.0 + due.0;
    Cash {
        own: Fen(left),
        client: Fen(raised),
    }
}

fn failed_more(failed: FailedRun) -> FailedRun
    ensures { result ≡ failed_more failed }
{
    match failed {
        FailedRun::NotFailed => FailedRun::FailedOnce,
        FailedRun::FailedOnce => FailedRun::FailedTwice,
        FailedRun::FailedTwice => FailedRun::FailedTwice,
    }
}

fn paid_standing(standing: Standing, failed: FailedRun) -> Standing
    ensures { result ≡ paid_standing failed standing }
{
    Standing {
        phase: Phase::Paid,
        failed,
        ..standing
    }
}

// Nothing moves, and the failed run grows.
#[tactic(auto, unfolding(rules::specs::Pay::after_pay, money::specs::Causes::first_of))]
fn not_made(scalars: Scalars) -> Scalars
    ensures { (rows : Rows) → book_of result rows ≡ after_pay true (book_of scalars rows) }
{
    let standing = scalars.standing;
    Scalars {
        standing: paid_standing(standing, failed_more(standing.failed)),
        ..scalars
    }
}

#[tactic(auto, unfolding(rules::specs::Pay::after_pay, money::specs::Causes::first_of))]
fn paid(scalars: Scalars) -> Scalars
    requires { (net_fit scalars.nets.cleared.0 ≡ true)
        × (unsigned_abs scalars.nets.cleared.0 ≤ payer_holds scalars.nets.cleared.0 scalars.cash)
        × (scalars.cash.own.0 + scalars.cash.client.0 ≤ cash_limit) }
    ensures { (rows : Rows) → book_of result rows ≡ after_pay false (book_of scalars rows) }
{
    Scalars {
        nets: nets::paid(scalars.nets),
        cash: cash_moved(scalars.nets, scalars.cash),
        standing: paid_standing(scalars.standing, FailedRun::NotFailed),
        ..state::with_unpaid(scalars, unpaid::paid(scalars.sums.unpaid))
    }
}

#[tactic(auto, using(crate::proofs::Refusing::turned_down, crate::proofs::Refusing::carried_out), unfolding(rules::specs::Step::event_causes, rules::specs::Fit::nets_fit, money::specs::Causes::first_of))]
pub fn pay(scalars: Scalars) -> Result<Done, Refusal>
    requires { (nets_fit scalars.nets ≡ true) × (cash_fit scalars.cash scalars.guarantee ≡ true) }
    ensures { (rows : Rows) → applied_at (done_by scalars result) rows ≡ paid_by (first_of (pay_causes (book_of scalars rows))) (book_of scalars rows) }
{
    pay_refusal(scalars)?;
    if falls_short(scalars.nets, scalars.cash) {
        return Ok(done::not_paid(not_made(scalars)));
    }
    Ok(done::accepted(paid(scalars)))
}
