// The value of a kind of collateral (arts. 4, 41).
ghost use Rattle.std.specs.Prelude.{◌≡◌};
ghost use Rattle.money.specs.Collateral.{worth_of, kind_worth};

use crate::limits::{CASH_KIND, CASH_LIMIT, RATE_LIMIT, RATE_PARTS, UNIT_LIMIT};
use crate::refusal::{Refusal, number_of};
use crate::units::Sheets;

// A value in whole sheets as C has it: 0 beside it, or its refusal's number beside 0.
#[repr(C)]
#[derive(Clone, Copy)]
pub struct Worth {
    pub number: u8,
    pub sheets: Sheets,
}

impl From<Result<Sheets, Refusal>> for Worth {
    ghost from_gives = { λ answer worth. worth ≡ worth_of answer };

    fn from(answer: Result<Sheets, Refusal>) -> Worth {
        Worth {
            number: number_of(answer),
            sheets: answer.unwrap_or(Sheets(0)),
        }
    }
}

// What a kind's unfrozen units are worth; of guarantee cash, kind 32, the rate is not looked at.
#[tactic(auto, using(crate::proofs::Bounds::product), unfolding(crate::specs::Collateral::kind_worth, crate::specs::Collateral::kind_value, crate::specs::Causes::first_of))]
pub fn kind_worth(kind: u8, effective: u64, frozen: u64, rate: u64) -> Result<Sheets, Refusal>
    ensures { worth_of result ≡ kind_worth kind effective frozen rate }
{
    if kind > CASH_KIND {
        return Err(Refusal::UnknownKind);
    }
    if frozen > effective {
        return Err(Refusal::NotEnough);
    }
    if kind == CASH_KIND {
        if effective > CASH_LIMIT {
            return Err(Refusal::PastLimit);
        }
        return Ok(Sheets((effective - frozen) / RATE_PARTS));
    }
    if effective > UNIT_LIMIT || rate > RATE_LIMIT {
        return Err(Refusal::PastLimit);
    }
    Ok(Sheets((effective - frozen) * rate / RATE_PARTS))
}
