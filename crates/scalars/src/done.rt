// What an event leaves beside the rows and the table. Answers are made here only.
ghost use Rattle.std.specs.Prelude.{◌≡◌};
ghost use Rattle.money.specs.Causes.{refusal_number};
ghost use Rattle.rules.specs.Book.{answer};
ghost use Rattle.scalars.specs.Scalars.{done_by};

use crate::state::Scalars;
use money::refusal::Refusal;
use money::units::Sheets;
use rules::answer::Answer;

#[derive(Clone, Copy)]
pub struct Done {
    pub answer: Answer,
    pub scalars: Scalars,
}

// An answer that carries its number alone.
pub fn answer_of(number: u8) -> Answer
    ensures { result ≡ answer number }
{
    Answer {
        number,
        matured: Sheets(0),
        done: 0,
        dropped: 0,
    }
}

pub fn answered(number: u8, scalars: Scalars) -> Done
    ensures { result ≡ record { answer = answer number; scalars = scalars } }
{
    Done {
        answer: answer_of(number),
        scalars,
    }
}

// Done is 0.
pub fn accepted(scalars: Scalars) -> Done
    ensures { result ≡ record { answer = answer 0; scalars = scalars } }
{
    answered(0, scalars)
}

// A payment that is not made is accepted too.
pub fn not_paid(scalars: Scalars) -> Done
    ensures { result ≡ record { answer = answer 99; scalars = scalars } }
{
    answered(99, scalars)
}

// A refusal's number, beside the scalars as they were.
pub fn refused(refusal: Refusal, scalars: Scalars) -> Done
    ensures { result ≡ record { answer = answer (refusal_number refusal); scalars = scalars } }
{
    answered(refusal.into(), scalars)
}

// What an event did, or its refusal.
pub fn done_by(scalars: Scalars, outcome: Result<Done, Refusal>) -> Done
    ensures { result ≡ done_by scalars outcome }
{
    outcome.unwrap_or_else(|refusal| refused(refusal, scalars))
}

// An accepted Close carries the sheets matured and the applications done and dropped.
pub fn of_close(matured: Sheets, done: u32, dropped: u32, scalars: Scalars) -> Done
    ensures { result ≡ record { answer = record { number = 0; matured = matured; done = done; dropped = dropped }; scalars = scalars } }
{
    Done {
        answer: Answer {
            number: 0,
            matured,
            done,
            dropped,
        },
        scalars,
    }
}
