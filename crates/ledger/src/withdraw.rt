// 8 Withdraw: puts an application down for the evening.
ghost use Rattle.std.specs.Prelude.{◌≡◌, ◌+◌, nat_lt};
ghost use Rattle.money.specs.Causes.{first_of, refusal_of};
ghost use Rattle.rules.specs.Vault.{effective_of, frozen_of};
ghost use Rattle.rules.specs.Withdraw.{applied, withdraw_causes, withdrawn};
ghost use Rattle.scalars.specs.Scalars.{done_by};
ghost use Rattle.ledger.specs.Kind.{kind_number};
ghost use Rattle.ledger.specs.Flat.{RowsFit, rows_of, book_of, applied_by, applied_at};

use crate::kind::Kind;
use crate::layout::{Held, Kinds, Units};
use crate::vault;
use money::refusal::Refusal;
use rules::limits::APPLICATION_LIMIT;
use scalars::done;
use scalars::done::Done;
use scalars::state::Scalars;

// Whether the units, with those frozen and applied for, are above the effective. The units are tested first: any number may be applied for,
// and the sum of the three is then below 2^64.
#[tactic(auto, using(crate::proofs::VaultLaws::kind_fits))]
fn lacks(
    scalars: Scalars,
    held: &Held,
    kinds: &Kinds,
    units: &Units,
    kind: Kind,
    count: u64,
) -> bool
    requires { RowsFit scalars held.now kinds.now units.now }
    ensures { let book = book_of scalars (rows_of held.now kinds.now units.now) in
        let number = kind_number kind in
        result ≡ nat_lt (effective_of book.vault number) (count + frozen_of book.vault number + applied book.withdrawals number) }
{
    let had = vault::had_of(held, scalars.guarantee, kind);
    if had.effective < count {
        return true;
    }
    had.effective
        < count + had.frozen + vault::applied_of(kinds, units, scalars.applications, kind.number())
}

#[tactic(auto, unfolding(rules::specs::Withdraw::withdraw_causes, money::specs::Causes::first_of))]
fn withdraw_refusal(
    scalars: Scalars,
    held: &Held,
    kinds: &Kinds,
    units: &Units,
    kind: u8,
    count: u64,
) -> Result<(), Refusal>
    requires { RowsFit scalars held.now kinds.now units.now }
    ensures { let book = book_of scalars (rows_of held.now kinds.now units.now) in
        let cause = first_of (withdraw_causes book kind count) in
        refusal_of result ≡ cause }
{
    let kind = Kind::try_from(kind)?;
    if !scalars.standing.is_trading() {
        return Err(Refusal::WrongPhase);
    }
    if scalars.standing.is_terminated() {
        return Err(Refusal::PermissionEnded);
    }
    if count == 0 {
        return Err(Refusal::BadCount);
    }
    if lacks(scalars, held, kinds, units, kind, count) {
        return Err(Refusal::NotEnough);
    }
    if scalars.applications >= APPLICATION_LIMIT {
        return Err(Refusal::ListFull);
    }
    Ok(())
}

#[tactic(auto, using(crate::proofs::Refusing::turned_down, crate::proofs::Refusing::carried_out), unfolding(rules::specs::Step::event_causes, rules::specs::Withdraw::withdraw_causes, rules::specs::Withdraw::withdrawn, money::specs::Causes::first_of))]
pub fn withdraw(
    scalars: Scalars,
    held: &Held,
    kinds: &mut Kinds,
    units: &mut Units,
    kind: u8,
    count: u64,
) -> Result<Done, Refusal>
    requires { RowsFit scalars held.now kinds.old units.old }
    ensures { let book = book_of scalars (rows_of held.now kinds.old units.old) in
        applied_at (done_by scalars result) (rows_of held.now kinds.new units.new)
        ≡ applied_by (first_of (withdraw_causes book kind count)) book (withdrawn book kind count) }
{
    withdraw_refusal(scalars, held, kinds, units, kind, count)?;
    let at = scalars.applications;
    kinds[at] = kind;
    units[at] = count;
    Ok(done::accepted(Scalars {
        applications: at + 1,
        ..scalars
    }))
}
