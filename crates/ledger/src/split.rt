// A book taken apart into scalars and rows, and put together again: once a call, not once an event.
ghost use Rattle.std.specs.Prelude.{◌≡◌};
ghost use Rattle.ledger.specs.Flat.{securities_of, postings_of, scalars_of, rows_of, book_of};

use crate::kind::SecurityNumber;
use crate::layout::{HELD_LENGTH, Held, Kinds, Units};
use crate::{held, postings};
use money::limits::CASH_KIND;
use rules::book::{Book, Posting, Vault, Withdrawals};
use rules::limits::PRODUCT_LIMIT;
use scalars::state::Scalars;
use std::array;

pub fn scalars_of(book: Book) -> Scalars
    ensures { result ≡ scalars_of book }
{
    Scalars {
        nets: book.nets,
        sums: book.sums,
        cash: book.cash,
        guarantee: book.vault.guarantee,
        size: book.size,
        standing: book.standing,
        applications: book.withdrawals.count,
        trades: book.trades,
    }
}

pub fn held_of(vault: Vault, posted: [Posting; PRODUCT_LIMIT]) -> Held
    ensures { (securities_of result ≡ vault.securities) × (postings_of result ≡ posted) }
{
    let mut held = [0; HELD_LENGTH];
    for kind in 0..CASH_KIND {
        let security = vault.securities[usize::from(kind)];
        held::put_security(&mut held, SecurityNumber::new(kind), security);
    }
    for (number, posting) in posted.iter().enumerate() {
        postings::put_posting(&mut held, number, *posting);
    }
    held
}

pub fn kinds_of(withdrawals: Withdrawals) -> Kinds
    ensures { result ≡ withdrawals.kinds }
{
    withdrawals.kinds
}

pub fn units_of(withdrawals: Withdrawals) -> Units
    ensures { result ≡ withdrawals.units }
{
    withdrawals.units
}

pub fn book_of(scalars: Scalars, held: &Held, kinds: Kinds, units: Units) -> Book
    ensures { result ≡ book_of scalars (rows_of held.now kinds units) }
{
    Book {
        nets: scalars.nets,
        sums: scalars.sums,
        cash: scalars.cash,
        vault: Vault {
            guarantee: scalars.guarantee,
            securities: array::from_fn(|at| held::security_at(held, SecurityNumber::new(at as u8))),
        },
        size: scalars.size,
        standing: scalars.standing,
        withdrawals: Withdrawals {
            kinds,
            units,
            count: scalars.applications,
        },
        postings: array::from_fn(|number| postings::posting_at(held, number)),
        trades: scalars.trades,
    }
}
