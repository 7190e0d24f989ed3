// U, the gross redemption amounts not yet paid: its limit, how it grows, and what a payment leaves of it.
ghost use Rattle.std.specs.Prelude.{◌≡◌};
ghost use Rattle.rules.specs.Unpaid.{passes, today_plus, cleared_plus, joined, paid};
ghost use Rattle.scalars.specs.Scalars.{unless_past};

use money::units::Fen;
use rules::book::Unpaid;
use rules::limits::UNPAID_LIMIT;

// Whether U would pass its limit with an amount more. A book that is not fit may hold any parts, so a sum past 64 bits stays at the greatest
// number, which is above the limit.
pub fn passes(unpaid: Unpaid, amount: Fen) -> bool
    ensures { result ≡ passes amount.0 unpaid }
{
    let sum = unpaid.cleared.0.saturating_add(unpaid.today.0);
    sum.saturating_add(amount.0) > UNPAID_LIMIT
}

// An early redemption joins the part of today. Here and below, U is as it was where it would pass its limit. Each of the three that
// follow is another rule over the two parts, and one function told the parts would have its caller write the rule.
#[tactic(auto, using(crate::proofs::UnpaidLaws::within))]
pub fn today_plus(unpaid: Unpaid, amount: Fen) -> Unpaid
    ensures { result ≡ unless_past amount.0 unpaid (today_plus amount.0 unpaid) }
{
    if passes(unpaid, amount) {
        return unpaid;
    }
    Unpaid {
        today: Fen(unpaid.today.0 + amount.0),
        ..unpaid
    }
}

// A redemption on termination joins the cleared part.
#[tactic(auto, using(crate::proofs::UnpaidLaws::within))]
pub fn cleared_plus(unpaid: Unpaid, amount: Fen) -> Unpaid
    ensures { result ≡ unless_past amount.0 unpaid (cleared_plus amount.0 unpaid) }
{
    if passes(unpaid, amount) {
        return unpaid;
    }
    Unpaid {
        cleared: Fen(unpaid.cleared.0 + amount.0),
        ..unpaid
    }
}

// At Close what matures joins the part of today, and that the cleared part.
#[tactic(auto, using(crate::proofs::UnpaidLaws::within))]
pub fn joined_with(unpaid: Unpaid, amount: Fen) -> Unpaid
    ensures { result ≡ unless_past amount.0 unpaid (joined (today_plus amount.0 unpaid)) }
{
    if passes(unpaid, amount) {
        return unpaid;
    }
    let today = unpaid.today.0 + amount.0;
    Unpaid {
        today: Fen(0),
        cleared: Fen(unpaid.cleared.0 + today),
    }
}

// A payment that is made clears the cleared part; what was redeemed today is paid tomorrow.
pub fn paid(unpaid: Unpaid) -> Unpaid
    ensures { result ≡ paid unpaid }
{
    Unpaid {
        cleared: Fen(0),
        ..unpaid
    }
}
