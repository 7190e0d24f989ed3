// The securities in a lent row, four numbers each: effective, arriving and frozen units, and the rate. Behind them stands what is posted,
// laid out otherwise: two prices to a number (`postings`).
ghost use Rattle.std.specs.Prelude.{◌≡◌, slice_set};
ghost use Rattle.ledger.specs.Types.{Security};
ghost use Rattle.ledger.specs.Flat.{security_in, securities_of, postings_of};

use crate::kind::SecurityNumber;
use crate::layout::{Held, SECURITY_WIDTH};
use rules::book::Security;

#[tactic(auto, unfolding(crate::specs::Flat::security_in))]
pub fn security_at(held: &Held, at: SecurityNumber) -> Security
    ensures { result ≡ security_in held.now at.number }
{
    let first = usize::from(at.number) * SECURITY_WIDTH;
    Security {
        effective: held[first],
        arriving: held[first + 1],
        frozen: held[first + 2],
        rate: held[first + 3],
    }
}

pub fn put_security(held: &mut Held, at: SecurityNumber, security: Security)
    ensures { (securities_of held.new ≡ slice_set (securities_of held.old) at.number security)
        × (postings_of held.new ≡ postings_of held.old) }
{
    let first = usize::from(at.number) * SECURITY_WIDTH;
    held[first..first + SECURITY_WIDTH].copy_from_slice(&[
        security.effective,
        security.arriving,
        security.frozen,
        security.rate,
    ]);
}

// A security read, changed and written back.
pub fn change<F: Fn(Security) -> Security>(held: &mut Held, at: SecurityNumber, changed: F)
    requires { F.pre changed (security_in held.old at.number) }
    ensures { (after : Security)
        × F.post changed (security_in held.old at.number) after
        × (securities_of held.new ≡ slice_set (securities_of held.old) at.number after)
        × (postings_of held.new ≡ postings_of held.old) }
{
    let security = security_at(held, at);
    put_security(held, at, changed(security));
}
