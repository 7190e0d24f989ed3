// Amounts of money (art. 60).
ghost use Rattle.std.specs.Prelude.{◌≡◌};
ghost use Rattle.money.specs.Money.{amount_of, initial_amount, redemption_amount};

use crate::limits::{PRICE_LIMIT, TERM_LIMIT, TRADE_LIMIT};
use crate::refusal::{Refusal, number_of};
use crate::units::{Fen, SHEET_FEN, Sheets, Ticks};

// An amount of money as C has it: 0 beside it, or its refusal's number beside 0.
#[repr(C)]
#[derive(Clone, Copy)]
pub struct Amount {
    pub number: u8,
    pub fen: Fen,
}

impl From<Result<Fen, Refusal>> for Amount {
    ghost from_gives = { λ answer amount. amount ≡ amount_of answer };

    fn from(answer: Result<Fen, Refusal>) -> Amount {
        Amount {
            number: number_of(answer),
            fen: answer.unwrap_or(Fen(0)),
        }
    }
}

// What an initial trade moves.
#[tactic(auto, unfolding(crate::specs::Money::initial_amount, crate::specs::Money::principal, crate::specs::Causes::first_of))]
pub fn initial(q: Sheets) -> Result<Fen, Refusal>
    ensures { amount_of result ≡ initial_amount q }
{
    if q.0 > TRADE_LIMIT {
        return Err(Refusal::PastLimit);
    }
    Ok(Fen(SHEET_FEN * q.0))
}

// What a redemption at a price over some days moves: the principal and, rounded once, the income.
#[tactic(auto, using(crate::proofs::Bounds::product), unfolding(crate::specs::Money::redemption_amount, crate::specs::Money::redemption, crate::specs::Money::principal, crate::specs::Money::income, crate::specs::Causes::first_of))]
pub fn redemption(q: Sheets, price: Ticks, days: u32) -> Result<Fen, Refusal>
    ensures { amount_of result ≡ redemption_amount q price days }
{
    if q.0 > TRADE_LIMIT || price.0 > PRICE_LIMIT || days > TERM_LIMIT {
        return Err(Refusal::PastLimit);
    }
    let income = (q.0 * u64::from(price.0) * u64::from(days) + 1_825) / 3_650;
    Ok(Fen(SHEET_FEN * q.0 + income))
}
