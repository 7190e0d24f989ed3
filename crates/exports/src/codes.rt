// Where a firm stands as codes, and back: no enum crosses to C, so each case is a number, counted from 0.
ghost use Rattle.std.specs.Prelude.{◌≡◌, nat_le, if◌then◌else◌};
ghost use Rattle.exports.specs.Codes.{is_dated, is_well_formed, day_at, phase_at, status_at, failed_at, short_at, standing_at, codes_of};

use rules::book::{FailedRun, Phase, ShortRun, Standing, Status};

// `dated` is 1 where there is a day, and else 0, and so is `day`: from C every byte is a number.
#[repr(C)]
#[derive(Clone, Copy)]
pub struct Codes {
    pub dated: u8,
    pub day: u32,
    pub phase: u8,
    pub status: u8,
    pub failed: u8,
    pub short: u8,
}

// A day has its number only where there is one. Here and below no TryFrom: the codes are C's alone, so reading them stands here, and here no impl for
// an enum of another crate can stand.
#[tactic(auto, unfolding(crate::specs::Codes::day_at, rules::specs::Folds::every))]
fn day_at(dated: u8, day: u32) -> Option<Option<u32>>
    ensures { result ≡ (if is_dated dated day then Some (day_at dated day) else None) }
{
    match dated {
        0 if day == 0 => Some(None),
        1 => Some(Some(day)),
        _ => None,
    }
}

#[tactic(auto, unfolding(crate::specs::Codes::phase_at))]
fn phase_at(code: u8) -> Option<Phase>
    ensures { result ≡ (if nat_le code 2 then Some (phase_at code) else None) }
{
    match code {
        0 => Some(Phase::Closed),
        1 => Some(Phase::Trading),
        2 => Some(Phase::Paid),
        _ => None,
    }
}

#[tactic(auto, unfolding(crate::specs::Codes::status_at))]
fn status_at(code: u8) -> Option<Status>
    ensures { result ≡ (if nat_le code 2 then Some (status_at code) else None) }
{
    match code {
        0 => Some(Status::Normal),
        1 => Some(Status::Suspended),
        2 => Some(Status::Terminated),
        _ => None,
    }
}

#[tactic(auto, unfolding(crate::specs::Codes::failed_at))]
fn failed_at(code: u8) -> Option<FailedRun>
    ensures { result ≡ (if nat_le code 2 then Some (failed_at code) else None) }
{
    match code {
        0 => Some(FailedRun::NotFailed),
        1 => Some(FailedRun::FailedOnce),
        2 => Some(FailedRun::FailedTwice),
        _ => None,
    }
}

#[tactic(auto, unfolding(crate::specs::Codes::short_at))]
fn short_at(code: u8) -> Option<ShortRun>
    ensures { result ≡ (if nat_le code 3 then Some (short_at code) else None) }
{
    match code {
        0 => Some(ShortRun::NotShort),
        1 => Some(ShortRun::ShortOnce),
        2 => Some(ShortRun::ShortTwice),
        3 => Some(ShortRun::ShortThrice),
        _ => None,
    }
}

// Where the firm stands, if each is the code of a case.
#[tactic(auto, unfolding(crate::specs::Codes::is_well_formed, rules::specs::Folds::every))]
pub fn read(codes: Codes) -> Option<Standing>
    ensures { result ≡ (if is_well_formed codes then Some (standing_at codes) else None) }
{
    let phase = phase_at(codes.phase)?;
    let status = status_at(codes.status)?;
    let failed = failed_at(codes.failed)?;
    let short = short_at(codes.short)?;
    let day = day_at(codes.dated, codes.day)?;
    Some(Standing {
        day,
        phase,
        status,
        failed,
        short,
    })
}

// Whether each is the code of a case, and a day has its number only where there is one.
pub fn is_well_formed(codes: Codes) -> bool
    ensures { result ≡ is_well_formed codes }
{
    read(codes).is_some()
}

// Where the firm stands, whatever the codes: from C every byte is a number, so one past the last case reads as the last.
#[tactic(auto, using(crate::proofs::RawLaws::or_last))]
pub fn standing_at(codes: Codes) -> Standing
    ensures { result ≡ standing_at codes }
{
    Standing {
        day: day_at(codes.dated, codes.day).unwrap_or(None),
        phase: phase_at(codes.phase).unwrap_or(Phase::Paid),
        status: status_at(codes.status).unwrap_or(Status::Terminated),
        failed: failed_at(codes.failed).unwrap_or(FailedRun::FailedTwice),
        short: short_at(codes.short).unwrap_or(ShortRun::ShortThrice),
    }
}

pub fn codes_of(standing: Standing) -> Codes
    ensures { result ≡ codes_of standing }
{
    Codes {
        dated: u8::from(standing.day.is_some()),
        day: standing.day.unwrap_or(0),
        phase: standing.phase as u8,
        status: standing.status as u8,
        failed: standing.failed as u8,
        short: standing.short as u8,
    }
}
