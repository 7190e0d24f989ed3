// A book's scalars as C has them: its securities with what is posted, its applications and its table are lent as rows of numbers.
ghost use Rattle.std.specs.Prelude.{◌≡◌, if◌then◌else◌};
ghost use Rattle.std.specs.Result.{result_unwrap_or};
ghost use Rattle.money.specs.Causes.{number_of, refusal_of};
ghost use Rattle.exports.specs.Codes.{is_well_formed};
ghost use Rattle.exports.specs.Raw.{scalars_from, raw_of, refused, refused_run};

use crate::codes;
use crate::codes::Codes;
use money::refusal::{Refusal, number_of};
use money::units::Sheets;
use rules::answer::Answer;
use rules::book::{Cash, Guarantee, Nets, Standing, Sums};
use scalars::done;
use scalars::done::Done;
use scalars::state::Scalars;

// `applications` is how many stand for the evening, `trades` how many slots of the table are in use.
#[repr(C)]
#[derive(Clone, Copy)]
pub struct RawScalars {
    pub nets: Nets,
    pub sums: Sums,
    pub cash: Cash,
    pub guarantee: Guarantee,
    pub size: Sheets,
    pub codes: Codes,
    pub applications: usize,
    pub trades: usize,
}

// What an event leaves beside the rows.
#[repr(C)]
#[derive(Clone, Copy)]
pub struct RawDone {
    pub answer: Answer,
    pub raw: RawScalars,
}

// What a run leaves beside the rows and its lines; C has no Result.
#[repr(C)]
#[derive(Clone, Copy)]
pub struct RawEnded {
    pub number: u8,
    pub raw: RawScalars,
}

// A book's scalars beside where its firm stands, as the codes were read.
fn standing_in(raw: RawScalars, standing: Standing) -> Scalars
    ensures { result ≡ record {
      nets = raw.nets;
      sums = raw.sums;
      cash = raw.cash;
      guarantee = raw.guarantee;
      size = raw.size;
      standing = standing;
      applications = raw.applications;
      trades = raw.trades;
    } }
{
    Scalars {
        nets: raw.nets,
        sums: raw.sums,
        cash: raw.cash,
        guarantee: raw.guarantee,
        size: raw.size,
        standing,
        applications: raw.applications,
        trades: raw.trades,
    }
}

// A book's scalars, whatever their codes: each reads as a case.
#[tactic(auto, unfolding(crate::specs::Raw::scalars_from))]
pub fn scalars_from(raw: RawScalars) -> Scalars
    ensures { result ≡ scalars_from raw }
{
    standing_in(raw, codes::standing_at(raw.codes))
}

// The same, if their codes are well-formed.
#[tactic(auto, unfolding(crate::specs::Raw::scalars_from))]
pub fn read(raw: RawScalars) -> Option<Scalars>
    ensures { result ≡ (if is_well_formed raw.codes then Some (scalars_from raw) else None) }
{
    let standing = codes::read(raw.codes)?;
    Some(standing_in(raw, standing))
}

#[tactic(auto, unfolding(crate::specs::Raw::raw_of))]
fn raw_of(scalars: Scalars) -> RawScalars
    ensures { result ≡ raw_of scalars }
{
    RawScalars {
        nets: scalars.nets,
        sums: scalars.sums,
        cash: scalars.cash,
        guarantee: scalars.guarantee,
        size: scalars.size,
        codes: codes::codes_of(scalars.standing),
        applications: scalars.applications,
        trades: scalars.trades,
    }
}

pub fn of_done(done: Done) -> RawDone
    ensures { result ≡ record { answer = done.answer; raw = raw_of done.scalars } }
{
    RawDone {
        answer: done.answer,
        raw: raw_of(done.scalars),
    }
}

// A run's number, whichever it is, and the scalars that it left.
#[derive(Clone, Copy)]
pub struct Ended {
    pub number: u8,
    pub scalars: Scalars,
}

pub fn of_ended(ended: Ended) -> RawEnded
    ensures { result ≡ record { number = ended.number; raw = raw_of ended.scalars } }
{
    RawEnded {
        number: ended.number,
        raw: raw_of(ended.scalars),
    }
}

// What a run leaves: other scalars, or its refusal's number beside the scalars as they were.
pub fn of_run(scalars: Scalars, ended: Result<Scalars, Refusal>) -> RawEnded
    ensures { result ≡ record { number = number_of (refusal_of ended); raw = raw_of (result_unwrap_or ended scalars) } }
{
    of_ended(Ended {
        number: number_of(ended),
        scalars: ended.unwrap_or(scalars),
    })
}

// What the calls answer to scalars that are not well-formed.
pub fn refused(raw: RawScalars) -> RawDone
    ensures { result ≡ refused raw }
{
    RawDone {
        answer: done::answer_of(Refusal::NotFit.into()),
        raw,
    }
}

pub fn refused_run(raw: RawScalars) -> RawEnded
    ensures { result ≡ refused_run raw }
{
    RawEnded {
        number: Refusal::NotFit.into(),
        raw,
    }
}
