// The vault: what is pledged, its value V, what is applied for, and the tests of a fit book on them.
ghost use Rattle.std.specs.Prelude.{◌≡◌, ◌<◌, ◌≤◌, true};
ghost use Rattle.money.specs.Limits.{cash_limit, rate_limit};
ghost use Rattle.money.specs.Collateral.{cash_kind, unit_limit_of, rate_of, kind_value};
ghost use Rattle.rules.specs.Vault.{security_at, effective_of, frozen_of, value};
ghost use Rattle.rules.specs.Fit.{security_fit, securities_fit, cash_fit, application_fit, withdrawals_fit};
ghost use Rattle.rules.specs.Withdraw.{applied};
ghost use Rattle.ledger.specs.Types.{Guarantee};
ghost use Rattle.ledger.specs.Kind.{kind_number};
ghost use Rattle.ledger.specs.Flat.{security_in, vault_of, securities_of};

use crate::held;
use crate::kind::{Kind, SecurityNumber};
use crate::layout::{Held, Kinds, Units};
use money::limits::{CASH_KIND, CASH_LIMIT, RATE_LIMIT, UNIT_LIMIT};
use money::units::Sheets;
use rules::book::{Cash, Guarantee, Security};
use rules::limits::APPLICATION_LIMIT;

// What is effective is tested first, so that the difference does not wrap on an unfit book.
fn security_fit(security: Security) -> bool
    ensures { result ≡ security_fit security }
{
    security.effective <= UNIT_LIMIT
        && security.arriving <= UNIT_LIMIT - security.effective
        && security.rate <= RATE_LIMIT
        && security.frozen <= security.effective
}

// Out of line, as a search for a contract is.
#[inline(never)]
pub fn securities_fit(held: &Held) -> bool
    ensures { (guarantee : Guarantee) → result ≡ securities_fit (vault_of guarantee (securities_of held.now)) }
{
    (0..CASH_KIND).all(|kind| security_fit(held::security_at(held, SecurityNumber::new(kind))))
}

// The sums saturate, so that none wraps on an unfit book.
pub fn cash_fit(cash: Cash, guarantee: Guarantee) -> bool
    ensures { result ≡ cash_fit cash guarantee }
{
    let own = cash.own.0.saturating_add(cash.client.0);
    let held = guarantee.effective.0.saturating_add(guarantee.arriving.0);
    own.saturating_add(held) <= CASH_LIMIT && guarantee.frozen <= guarantee.effective
}

fn application_fit(kind: u8, units: u64) -> bool
    ensures { result ≡ application_fit kind units }
{
    kind <= CASH_KIND && units <= CASH_LIMIT
}

#[tactic(auto, using(crate::proofs::VaultLaws::too_many))]
pub fn withdrawals_fit(kinds: &Kinds, units: &Units, count: usize) -> bool
    ensures { result ≡ withdrawals_fit (record { kinds = kinds.entry.now; units = units.now; count = count }) }
{
    count <= APPLICATION_LIMIT && (0..count).all(|i| application_fit(kinds[i], units[i]))
}

// What is had of a kind: a security as its row has it, or guarantee cash as one. The rate of cash is not looked at.
pub fn had_of(held: &Held, guarantee: Guarantee, kind: Kind) -> Security
    ensures units { let vault = vault_of guarantee (securities_of held.now) in
        let number = kind_number kind in
        (result.effective ≡ effective_of vault number) × (result.frozen ≡ frozen_of vault number) }
    ensures rate { result.rate ≡ (security_at (vault_of guarantee (securities_of held.now)) (kind_number kind)).rate }
    ensures security { kind_number kind < cash_kind → result ≡ security_in held.now (kind_number kind) }
{
    match kind {
        Kind::Security(at) => held::security_at(held, at),
        Kind::Cash => Security {
            effective: guarantee.effective.0,
            arriving: guarantee.arriving.0,
            frozen: guarantee.frozen.0,
            rate: 0,
        },
    }
}

// A kind's value within the limits, where nothing refuses it.
pub fn worth(kind: Kind, had: Security) -> Sheets
    requires { let number = kind_number kind in
        (had.frozen ≤ had.effective)
        × (had.effective ≤ unit_limit_of number)
        × (rate_of number had.rate ≤ rate_limit) }
    ensures { result ≡ kind_value (kind_number kind) had.effective had.frozen had.rate }
{
    money::collateral::kind_worth(kind.number(), had.effective, had.frozen, had.rate).unwrap()
}

// A kind's part of V.
fn value_at(held: &Held, guarantee: Guarantee, kind: Kind) -> Sheets
    requires { (securities_fit (vault_of guarantee (securities_of held.now)) ≡ true)
        × (guarantee.frozen.0 ≤ guarantee.effective.0)
        × (guarantee.effective.0 ≤ cash_limit) }
    ensures { let vault = vault_of guarantee (securities_of held.now) in
        let number = kind_number kind in
        result ≡ kind_value number (effective_of vault number) (frozen_of vault number) (security_at vault number).rate }
{
    worth(kind, had_of(held, guarantee, kind))
}

// V: the value of the 32 securities, and of the guarantee cash.
pub fn value_of(held: &Held, guarantee: Guarantee) -> Sheets
    requires { (securities_fit (vault_of guarantee (securities_of held.now)) ≡ true)
        × (guarantee.frozen.0 ≤ guarantee.effective.0)
        × (guarantee.effective.0 ≤ cash_limit) }
    ensures { result.0 ≡ value (vault_of guarantee (securities_of held.now)) }
{
    // Cash stands apart: one chain over all 33 kinds asks in each turn whether the kind is cash, 15 instructions more.
    let of_securities: u64 = (0..CASH_KIND)
        .map(|kind| value_at(held, guarantee, Kind::Security(SecurityNumber::new(kind))).0)
        .sum();
    let of_cash = value_at(held, guarantee, Kind::Cash);
    Sheets(of_securities + of_cash.0)
}

// The units of a kind that stand applied for. Out of line, too: inlined, the loop would read anew in each turn where the rows are.
#[inline(never)]
pub fn applied_of(kinds: &Kinds, units: &Units, count: usize, kind: u8) -> u64
    requires { withdrawals_fit (record { kinds = kinds.now; units = units.now; count = count }) ≡ true }
    ensures { result ≡ applied (record { kinds = kinds.entry.now; units = units.now; count = count }) kind }
{
    // A range: a chain that pairs the rows and keeps the kind's takes twice the time.
    let mut sum = 0;
    for i in 0..count {
        if kinds[i] == kind {
            sum += units[i];
        }
    }
    sum
}
