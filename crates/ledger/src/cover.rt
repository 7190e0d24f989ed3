// Headroom and O of a book.
ghost use Rattle.std.specs.Prelude.{◌≡◌, ◌≤◌};
ghost use Rattle.money.specs.Units.{signed_sheets};
ghost use Rattle.rules.specs.Limits.{size_limit};
ghost use Rattle.rules.specs.Vault.{headroom_of};

use crate::figures::Figures;
use money::units::{Sheets, SignedSheets};
use rules::answer::Covered;
use scalars::headroom;

// The smaller of S and V, less O.
fn headroom_from(size: Sheets, value: Sheets, outstanding: Sheets) -> SignedSheets
    requires { (size.0 ≤ size_limit) × (outstanding.0 ≤ size_limit) }
    ensures { result ≡ signed_sheets (headroom_of size.0 value.0 outstanding.0) }
{
    let covered = headroom::smaller(size, value);
    let had = covered.0 as i64;
    let taken = outstanding.0 as i64;
    let difference = had - taken;
    SignedSheets(difference)
}

// From O and V.
pub fn cover_from(size: Sheets, figures: Figures) -> Covered
    requires { (size.0 ≤ size_limit) × (figures.outstanding.0 ≤ size_limit) }
    ensures { let headroom = headroom_of size.0 figures.value.0 figures.outstanding.0 in
        result ≡ record { headroom = signed_sheets headroom; outstanding = figures.outstanding } }
{
    Covered {
        headroom: headroom_from(size, figures.value, figures.outstanding),
        outstanding: figures.outstanding,
    }
}
