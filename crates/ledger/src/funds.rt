// 2, 3 Fund in, fund out: fen from or to outside. Their causes differ, so they stay two.
ghost use Rattle.std.specs.Prelude.{◌≡◌, true};
ghost use Rattle.money.specs.Causes.{first_of, refusal_of};
ghost use Rattle.rules.specs.Fit.{cash_fit};
ghost use Rattle.rules.specs.Funds.{holds, with_account, fund_in_causes, funded_in, fund_out_causes, funded_out};
ghost use Rattle.scalars.specs.Scalars.{done_by};
ghost use Rattle.ledger.specs.Flat.{Rows, book_of, applied_by, applied_at};

use money::limits::CASH_LIMIT;
use money::refusal::Refusal;
use money::units::Fen;
use rules::book::Cash;
use rules::event::Account;
use scalars::done;
use scalars::done::Done;
use scalars::state::Scalars;

fn balance(account: Account, cash: Cash) -> Fen
    ensures { result.0 ≡ holds account cash }
{
    match account {
        Account::Own => cash.own,
        Account::Client => cash.client,
    }
}

fn with_account(account: Account, sum: Fen, cash: Cash) -> Cash
    ensures { result ≡ with_account account sum.0 cash }
{
    match account {
        Account::Own => Cash { own: sum, ..cash },
        Account::Client => Cash {
            client: sum,
            ..cash
        },
    }
}

#[tactic(auto, unfolding(rules::specs::Funds::fund_in_causes, money::specs::Causes::first_of))]
fn fund_in_refusal(scalars: Scalars, account: Account, amount: Fen) -> Result<(), Refusal>
    requires { cash_fit scalars.cash scalars.guarantee ≡ true }
    ensures { (rows : Rows) → refusal_of result ≡ first_of (fund_in_causes (book_of scalars rows) account amount) }
{
    if amount.0 == 0 {
        return Err(Refusal::BadCount);
    }
    let cash = scalars.cash.own.0
        + scalars.cash.client.0
        + scalars.guarantee.effective.0
        + scalars.guarantee.arriving.0;
    if CASH_LIMIT - cash < amount.0 {
        return Err(Refusal::PastLimit);
    }
    Ok(())
}

#[tactic(auto, using(crate::proofs::Refusing::turned_down, crate::proofs::Refusing::carried_out), unfolding(rules::specs::Step::event_causes, rules::specs::Funds::fund_in_causes, rules::specs::Funds::funded_in, money::specs::Causes::first_of))]
pub fn fund_in(scalars: Scalars, account: Account, amount: Fen) -> Result<Done, Refusal>
    requires { cash_fit scalars.cash scalars.guarantee ≡ true }
    ensures { (rows : Rows) →
        let book = book_of scalars rows in
        applied_at (done_by scalars result) rows ≡ applied_by (first_of (fund_in_causes book account amount)) book (funded_in book account amount) }
{
    fund_in_refusal(scalars, account, amount)?;
    let held = balance(account, scalars.cash);
    let sum = held.0 + amount.0;
    let cash = with_account(account, Fen(sum), scalars.cash);
    Ok(done::accepted(Scalars { cash, ..scalars }))
}

#[tactic(auto, unfolding(rules::specs::Funds::fund_out_causes, money::specs::Causes::first_of))]
fn fund_out_refusal(scalars: Scalars, account: Account, amount: Fen) -> Result<(), Refusal>
    ensures { (rows : Rows) → refusal_of result ≡ first_of (fund_out_causes (book_of scalars rows) account amount) }
{
    if amount.0 == 0 {
        return Err(Refusal::BadCount);
    }
    if balance(account, scalars.cash) < amount {
        return Err(Refusal::NotEnough);
    }
    Ok(())
}

#[tactic(auto, using(crate::proofs::Refusing::turned_down, crate::proofs::Refusing::carried_out), unfolding(rules::specs::Step::event_causes, rules::specs::Funds::fund_out_causes, rules::specs::Funds::funded_out, money::specs::Causes::first_of))]
pub fn fund_out(scalars: Scalars, account: Account, amount: Fen) -> Result<Done, Refusal>
    ensures { (rows : Rows) →
        let book = book_of scalars rows in
        applied_at (done_by scalars result) rows ≡ applied_by (first_of (fund_out_causes book account amount)) book (funded_out book account amount) }
{
    fund_out_refusal(scalars, account, amount)?;
    let held = balance(account, scalars.cash);
    let rest = held.0 - amount.0;
    let cash = with_account(account, Fen(rest), scalars.cash);
    Ok(done::accepted(Scalars { cash, ..scalars }))
}
