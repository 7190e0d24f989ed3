// What a call answers.
ghost use Rattle.std.specs.Prelude.{◌≡◌};
ghost use Rattle.rules.specs.Cover.{cover_told};

use crate::book::Book;
use money::refusal::{Refusal, number_of};
use money::units::{Sheets, SignedSheets};

// The number; of an accepted Close also the sheets matured and the applications done and dropped, of any other 0. C has it as it stands, so a
// refusal is its number here.
#[repr(C)]
#[derive(Clone, Copy)]
pub struct Answer {
    pub number: u8,
    pub matured: Sheets,
    pub done: u32,
    pub dropped: u32,
}

// What an event leaves beside the table.
#[derive(Clone, Copy)]
pub struct Applied {
    pub answer: Answer,
    pub book: Book,
}

// Headroom and O of a fit book.
#[derive(Clone, Copy, Default)]
pub struct Covered {
    pub headroom: SignedSheets,
    pub outstanding: Sheets,
}

// The same as C has them: 0 beside them, or the refusal's number beside 0 for both.
#[repr(C)]
#[derive(Clone, Copy)]
pub struct Cover {
    pub number: u8,
    pub headroom: SignedSheets,
    pub outstanding: Sheets,
}

impl From<Result<Covered, Refusal>> for Cover {
    ghost from_gives = { λ answer cover. cover ≡ cover_told answer };

    fn from(answer: Result<Covered, Refusal>) -> Cover {
        let Covered {
            headroom,
            outstanding,
        } = answer.unwrap_or_default();
        Cover {
            number: number_of(answer),
            headroom,
            outstanding,
        }
    }
}
