// The evening: what arrives becomes effective, then the applications in order.
ghost use Rattle.std.specs.Prelude.{◌≡◌, ◌+◌, ◌≤◌, true, false, map, length, MatchOption};
ghost use Rattle.money.specs.Limits.{cash_limit, rate_limit, unit_limit};
ghost use Rattle.money.specs.Collateral.{cash_kind, rate_of, unit_limit_of, kind_value};
ghost use Rattle.rules.specs.Vault.{security_at, effective_of, frozen_of, value as value_of};
ghost use Rattle.rules.specs.Fit.{securities_fit, withdrawals_fit};
ghost use Rattle.rules.specs.Close.{security_arrived, guarantee_arrived, taken_out, claims_of, may_go, applications};
ghost use Rattle.ledger.specs.Types.{Vault};
ghost use Rattle.ledger.specs.Kind.{kind_number};
ghost use Rattle.ledger.specs.Flat.{vault_of, securities_of, postings_of, evening_at};
ghost use Rattle.ledger.specs.Figures.{value_bound};

use crate::kind::{Kind, SecurityNumber};
use crate::layout::{Held, Kinds, Units};
use crate::{held, vault};
use money::limits::CASH_KIND;
use money::units::{Fen, Sheets};
use rules::book::{Guarantee, Security};
use scalars::headroom;

fn security_arrived(security: Security) -> Security
    requires { security.effective + security.arriving ≤ unit_limit }
    ensures { result ≡ security_arrived security }
{
    Security {
        effective: security.effective + security.arriving,
        arriving: 0,
        ..security
    }
}

pub fn guarantee_arrived(guarantee: Guarantee) -> Guarantee
    requires { guarantee.effective.0 + guarantee.arriving.0 ≤ cash_limit }
    ensures { result ≡ guarantee_arrived guarantee }
{
    Guarantee {
        effective: Fen(guarantee.effective.0 + guarantee.arriving.0),
        arriving: Fen(0),
        ..guarantee
    }
}

// What arrives becomes effective, of every security.
pub fn all_arrived(held: &mut Held, guarantee: Guarantee)
    requires { securities_fit (vault_of guarantee (securities_of held.old)) ≡ true }
    ensures { (securities_of held.new ≡ map security_arrived (securities_of held.old))
        × (postings_of held.new ≡ postings_of held.old) }
{
    for kind in 0..CASH_KIND {
        held::change(held, SecurityNumber::new(kind), security_arrived);
    }
}

// What V has to cover: the sheets outstanding, and U.
#[derive(Clone, Copy)]
pub struct Claims {
    pub outstanding: Sheets,
    pub unpaid: Fen,
}

// V after an application that is done, and none where it is dropped. By what is had of the kind alone: V changes by that kind's value, so
// the other kinds are not looked at.
fn judged(
    served: bool,
    claims: Claims,
    kind: Kind,
    units: u64,
    had: Security,
    value: Sheets,
) -> Option<Sheets>
    requires { let number = kind_number kind in
        (had.frozen ≤ had.effective)
        × (had.effective ≤ unit_limit_of number)
        × (rate_of number had.rate ≤ rate_limit)
        × ((kind_value number had.effective had.frozen had.rate).0 ≤ value.0)
        × (value.0 ≤ value_bound) }
    ensures { let number = kind_number kind in
        (vault : Vault) →
        length vault.securities ≡ cash_kind
        → had.effective ≡ effective_of vault number
        → had.frozen ≡ frozen_of vault number
        → had.rate ≡ (security_at vault number).rate
        → value.0 ≡ value_of vault
        → let goes = may_go served (claims_of claims.outstanding.0 claims.unpaid.0) number units vault in
        MatchOption result (goes ≡ false) (λ after. (goes ≡ true) × (after.0 ≡ value_of (taken_out number units vault))) }
{
    if !served || had.effective - had.frozen < units {
        return None;
    }
    let effective = had.effective - units;
    let with = vault::worth(kind, had);
    let without = vault::worth(kind, Security { effective, ..had });
    let after = Sheets(value.0 - with.0 + without.0);
    headroom::covers(after, claims.outstanding, claims.unpaid).then_some(after)
}

// Own and guarantee cash and V as the evening goes on, and the applications done and dropped so far. The securities stand in their row.
#[derive(Clone, Copy)]
pub struct EveningScalars {
    pub own: Fen,
    pub guarantee: Guarantee,
    pub value: Sheets,
    pub done: u32,
    pub dropped: u32,
}

// The applications in order: of each one's kind a copy is looked at, and written back if it goes.
pub fn applications(
    served: bool,
    claims: Claims,
    kinds: &Kinds,
    units: &Units,
    count: usize,
    held: &mut Held,
    begun: EveningScalars,
) -> EveningScalars
    requires listed { withdrawals_fit (record { kinds = kinds.now; units = units.now; count = count }) ≡ true }
    requires begun { (securities_fit (vault_of begun.guarantee (securities_of held.old)) ≡ true)
        × (begun.guarantee.frozen.0 ≤ begun.guarantee.effective.0)
        × (begun.guarantee.effective.0 ≤ cash_limit)
        × (begun.own.0 + begun.guarantee.effective.0 ≤ cash_limit)
        × (begun.value.0 ≡ value_of (vault_of begun.guarantee (securities_of held.old)))
        × (begun.done ≡ 0)
        × (begun.dropped ≡ 0) }
    ensures { let before = evening_at begun (securities_of held.old) in
        (evening_at result (securities_of held.new)
        ≡ applications served (claims_of claims.outstanding.0 claims.unpaid.0) (record { kinds = kinds.entry.now; units = units.now; count = count }) before)
        × (result.value.0 ≡ value_of (vault_of result.guarantee (securities_of held.new)))
        × (postings_of held.new ≡ postings_of held.old) }
{
    let mut evening = begun;
    for (&kind, &amount) in kinds[..count].iter().zip(&units[..count]) {
        let kind = Kind::try_from(kind).unwrap();
        let had = vault::had_of(held, evening.guarantee, kind);
        match judged(served, claims, kind, amount, had, evening.value) {
            Some(after) => {
                evening.done += 1;
                evening.value = after;
                let effective = had.effective - amount;
                match kind {
                    Kind::Security(at) => held::put_security(
                        held,
                        at,
                        Security { effective, ..had },
                    ),
                    Kind::Cash => {
                        evening.guarantee.effective = Fen(effective);
                        evening.own = Fen(evening.own.0 + amount);
                    }
                }
            }
            None => evening.dropped += 1,
        }
    }
    evening
}
