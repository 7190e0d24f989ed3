// The kinds of collateral by name: the securities, 0 to 31, and guarantee cash, 32.
ghost use Rattle.std.specs.Prelude.{◌≡◌, ◌<◌};
ghost use Rattle.money.specs.Collateral.{cash_kind};

use money::limits::CASH_KIND;
use money::refusal::Refusal;

#[derive(Clone, Copy)]
pub struct SecurityNumber {
    pub number: u8,
    ghost known: { number < cash_kind },
}

#[derive(Clone, Copy)]
pub enum Kind {
    Security(SecurityNumber),
    Cash,
}

impl SecurityNumber {
    // For a walk over all securities: a closure that writes the literal cannot show its ghost field.
    pub fn new(number: u8) -> SecurityNumber
        requires { number < cash_kind }
        ensures { result.number ≡ number }
    {
        SecurityNumber { number }
    }
}

impl TryFrom<u8> for SecurityNumber {
    type Error = Refusal;

    ghost use Rattle.ledger.specs.Kind.{NamesSecurity};

    ghost try_from_gives = { NamesSecurity };

    fn try_from(number: u8) -> Result<SecurityNumber, Refusal> {
        if number >= CASH_KIND {
            return Err(Refusal::UnknownKind);
        }
        Ok(SecurityNumber { number })
    }
}

impl TryFrom<u8> for Kind {
    type Error = Refusal;

    ghost use Rattle.ledger.specs.Kind.{NamesKind};

    ghost try_from_gives = { NamesKind };

    fn try_from(number: u8) -> Result<Kind, Refusal> {
        if number == CASH_KIND {
            return Ok(Kind::Cash);
        }
        Ok(Kind::Security(SecurityNumber::try_from(number)?))
    }
}

impl Kind {
    ghost use Rattle.ledger.specs.Kind.{kind_number};

    pub fn number(self) -> u8
        ensures { result ≡ kind_number self }
    {
        match self {
            Kind::Security(security) => security.number,
            Kind::Cash => CASH_KIND,
        }
    }
}
