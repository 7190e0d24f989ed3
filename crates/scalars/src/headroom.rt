// Headroom, the smaller of S and V less O, and its two tests; and whether V covers the claims on the pledge. S, V and O come apart, from the
// book, its vault and its table, and a struct of the three would be made for one call.
ghost use Rattle.std.specs.Prelude.{◌≡◌, min, pos};
ghost use Rattle.std.specs.Int.Signed.{lt_z};
ghost use Rattle.rules.specs.Vault.{headroom_of};
ghost use Rattle.rules.specs.Close.{claims_of, covers};

use money::units::{Fen, SHEET_FEN, Sheets};

pub fn smaller(a: Sheets, b: Sheets) -> Sheets
    ensures { result.0 ≡ min a.0 b.0 }
{
    a.min(b)
}

// Headroom below 0.
pub fn is_short(size: Sheets, value: Sheets, outstanding: Sheets) -> bool
    ensures { result ≡ lt_z (headroom_of size.0 value.0 outstanding.0) (pos 0) }
{
    smaller(size, value) < outstanding
}

// Headroom below a count of sheets.
pub fn above_headroom(size: Sheets, value: Sheets, outstanding: Sheets, count: Sheets) -> bool
    ensures { result ≡ lt_z (headroom_of size.0 value.0 outstanding.0) (pos count.0) }
{
    let left = smaller(size, value).0.checked_sub(outstanding.0);
    left.is_none_or(|left| left < count.0)
}

// Whether V covers the sheets outstanding and U, all in fen: by whole sheets, so that no product leaves 64 bits.
pub fn covers(value: Sheets, outstanding: Sheets, unpaid: Fen) -> bool
    ensures { result ≡ covers value.0 (claims_of outstanding.0 unpaid.0) }
{
    let Some(spare) = value.0.checked_sub(outstanding.0) else {
        return false;
    };
    unpaid.0.div_ceil(SHEET_FEN) <= spare
}
