// Trades with nothing left leave the table, order kept, and the slots that they free are filled with zeros.
ghost use Rattle.std.specs.Prelude.{◌≡◌, ◌-◌, ◌≤◌, ◌++◌, length, take, drop, replicate, slice_set};
ghost use Rattle.rules.specs.Trades.{no_trade, remaining, packed};
ghost use Rattle.ledger.specs.Flat.{HasSlots, HasSlot, trades_to, trades_of};

use crate::flat;

// The trades with something left go to the front, in order.
fn move_up(table: &mut [u64], count: usize) -> usize
    requires { HasSlots table.old count }
    ensures few { result ≤ count }
    ensures front { take result (trades_of table.new) ≡ remaining (trades_to table.old count) }
    ensures rest { drop count (trades_of table.new) ≡ drop count (trades_of table.old) }
{
    let mut kept = 0;
    for i in 0..count {
        if flat::sheets_at(table, i).0 != 0 {
            flat::move_trade(table, i, kept);
            kept += 1;
        }
    }
    kept
}

fn free(table: &mut [u64], place: usize)
    requires { HasSlot table.old place }
    ensures { trades_of table.new ≡ slice_set (trades_of table.old) place no_trade }
{
    flat::put_trade(table, place, flat::no_trade());
}

fn free_from(table: &mut [u64], from: usize, to: usize)
    requires { (from ≤ to) × (HasSlots table.old to) }
    ensures { let trades = trades_of table.old in
        trades_of table.new ≡ take from trades ++ (replicate (to - from) no_trade ++ drop to trades) }
{
    for i in from..to {
        free(table, i);
    }
}

// The answer is how many trades are left.
pub fn pack(table: &mut [u64], count: usize) -> usize
    requires { HasSlots table.old count }
    ensures { let trades = trades_to table.old count in
        (result ≡ length (remaining trades))
        × (trades_of table.new ≡ packed count (remaining trades) (trades_of table.old)) }
{
    let kept = move_up(table, count);
    free_from(table, kept, count);
    kept
}
