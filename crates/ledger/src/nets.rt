// The two nets: the few places where signed fen are added and compared. The bounds of what is added are what the events have tested, in the order
// of their causes: a type with a bound would be made by the same test again.
ghost use Rattle.std.specs.Prelude.{◌≡◌, ◌+◌, ◌≤◌, true, pos, ◌+ℤ◌, ◌-ℤ◌, int_lt, unsigned_abs};
ghost use Rattle.money.specs.Units.{signed_fen};
ghost use Rattle.rules.specs.Limits.{net_limit};
ghost use Rattle.rules.specs.Fit.{net_fit};
ghost use Rattle.ledger.specs.Redemption.{amount_bound};

use money::units::{Fen, SignedFen};
use rules::book::Nets;
use rules::limits::NET_LIMIT;

// Whether a net is within 4×10^18, up or down.
pub fn is_fit(net: SignedFen) -> bool
    ensures { result ≡ net_fit net.0 }
{
    net.0.unsigned_abs() <= NET_LIMIT
}

// A net that an amount joins, and one that it is taken from. Even two amounts past its limit a net has 64 bits.
pub fn plus(net: SignedFen, amount: Fen) -> SignedFen
    requires { (unsigned_abs net.0 ≤ net_limit + amount_bound) × (amount.0 ≤ amount_bound) }
    ensures { result ≡ signed_fen (net.0 +ℤ pos amount.0) }
{
    SignedFen(net.0.saturating_add_unsigned(amount.0))
}

pub fn less(net: SignedFen, amount: Fen) -> SignedFen
    requires { (unsigned_abs net.0 ≤ net_limit + amount_bound) × (amount.0 ≤ amount_bound) }
    ensures { result ≡ signed_fen (net.0 -ℤ pos amount.0) }
{
    SignedFen(net.0.saturating_sub_unsigned(amount.0))
}

// Today's net joins the cleared net and becomes 0.
pub fn joined(nets: Nets) -> Nets
    requires { (net_fit nets.today.0 ≡ true) × (net_fit nets.cleared.0 ≡ true) }
    ensures { result ≡ record { today = signed_fen (pos 0); cleared = signed_fen (nets.cleared.0 +ℤ nets.today.0) } }
{
    let cleared = nets.cleared.0 + nets.today.0;
    Nets {
        today: SignedFen(0),
        cleared: SignedFen(cleared),
    }
}

// The net due is paid.
pub fn paid(nets: Nets) -> Nets
    ensures { result ≡ record { today = nets.today; cleared = signed_fen (pos 0) } }
{
    Nets {
        cleared: SignedFen(0),
        ..nets
    }
}

// Whether the clients pay.
pub fn client_pays(nets: Nets) -> bool
    ensures { result ≡ int_lt nets.cleared.0 (pos 0) }
{
    nets.cleared.0 < 0
}

// The size of the net due.
pub fn net_due(nets: Nets) -> Fen
    requires { net_fit nets.cleared.0 ≡ true }
    ensures { result.0 ≡ unsigned_abs nets.cleared.0 }
{
    Fen(nets.cleared.0.unsigned_abs())
}
