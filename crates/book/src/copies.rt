// The lent table's trades as the core's numbers, and back: the two loops over a slice of trades. One
// lends the trades and writes numbers, the other lends numbers and writes trades.
ghost use Rattle.std.specs.Prelude.{◌≡◌, length};
ghost use Rattle.ledger.specs.Flat.{HasSlots, trades_to};

use ledger::lent;
use rules::trade::Trade;

pub fn copy_in(table: &[Trade], flat: &mut [u64])
    requires { HasSlots flat.old (length table.now) }
    ensures { trades_to flat.new (length table.now) ≡ table.now }
{
    for (place, trade) in table.iter().enumerate() {
        lent::put_trade(flat, place, *trade);
    }
}

pub fn copy_out(flat: &[u64], table: &mut [Trade])
    requires { HasSlots flat.now (length table.old) }
    ensures { table.new ≡ trades_to flat.now (length table.old) }
{
    for (place, slot) in table.iter_mut().enumerate() {
        *slot = lent::trade_at(flat, place);
    }
}
