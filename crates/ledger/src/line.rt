// A line of the listing: what an event leaves, as seven numbers.
ghost use Rattle.std.specs.Prelude.{◌≡◌, ◌+◌, ◌≤◌, [], ◌∷◌, unsigned_abs};
ghost use Rattle.money.specs.Limits.{cash_limit};
ghost use Rattle.rules.specs.Vault.{headroom_of};
ghost use Rattle.rules.specs.Listing.{sign_of};

use crate::figures::Figures;
use rules::limits::LINE_NUMBERS;
use scalars::done::Done;
use scalars::headroom;

// Headroom is what is covered less O: told by 1 where that is negative, else 0, and by its size.
pub fn line_of(done: Done, figures: Figures) -> [u64; LINE_NUMBERS]
    requires { done.scalars.guarantee.effective.0 + done.scalars.guarantee.arriving.0 ≤ cash_limit }
    ensures { let left = done.scalars in
        let headroom = headroom_of left.size.0 figures.value.0 figures.outstanding.0 in
        result
        ≡ done.answer.number
        ∷ sign_of headroom
        ∷ unsigned_abs headroom
        ∷ figures.outstanding.0
        ∷ left.cash.own.0
        ∷ left.cash.client.0
        ∷ (left.guarantee.effective.0 + left.guarantee.arriving.0)
        ∷ [] }
{
    let left = done.scalars;
    let covered = headroom::smaller(left.size, figures.value);
    [
        u64::from(done.answer.number),
        u64::from(covered.0 < figures.outstanding.0),
        covered.0.abs_diff(figures.outstanding.0),
        figures.outstanding.0,
        left.cash.own.0,
        left.cash.client.0,
        left.guarantee.effective.0 + left.guarantee.arriving.0,
    ]
}
