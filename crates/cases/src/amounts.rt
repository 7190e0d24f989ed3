// M1 to M6 of document 01, through the calls below the book.
ghost use Rattle.std.specs.Prelude.{◌≡◌};
ghost use Rattle.money.specs.Money.{redemption_amount};
ghost use Rattle.money.specs.Collateral.{kind_worth};

use money::amounts::Amount;
use money::collateral::Worth;
use money::units::{Fen, Sheets, Ticks};

fn redemption(q: Sheets, price: Ticks, days: u32) -> Fen
    ensures { result.0 ≡ (redemption_amount q price days).fen.0 }
{
    let amount = Amount::from(money::amounts::redemption(q, price, days));
    amount.fen
}

// The value of units none of which is frozen.
fn value(kind: u8, units: u64, rate: u64) -> Sheets
    ensures { result.0 ≡ (kind_worth kind units 0 rate).sheets.0 }
{
    let worth = Worth::from(money::collateral::kind_worth(kind, units, 0, rate));
    worth.sheets
}

// The second part is rounded once, half upward.
#[tactic(auto, unfolding(money::specs::Money::redemption_amount, money::specs::Money::redemption, money::specs::Money::principal, money::specs::Money::income))]
pub fn redemptions() {
    let m1 = redemption(Sheets(100), Ticks(3_650), 4);
    check::expect(m1.0 == 1_000_400);
    let m2 = redemption(Sheets(1), Ticks(1_825), 1);
    check::expect(m2.0 == 10_001);
    let m3 = redemption(Sheets(1), Ticks(1_824), 1);
    check::expect(m3.0 == 10_000);
}

// Each kind is rounded down by itself: 4.5 twice is 8, not 9.
#[tactic(auto, unfolding(money::specs::Collateral::kind_worth, money::specs::Collateral::kind_value))]
pub fn values() {
    let m4 = value(0, 199, 9_000);
    check::expect(m4.0 == 179);
    let one = value(0, 5, 9_000);
    let other = value(1, 5, 9_000);
    check::expect(one.0 + other.0 == 8);
    let m6 = value(32, 19_999, 0);
    check::expect(m6.0 == 1);
}
