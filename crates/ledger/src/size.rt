// 4 Size: sets S.
ghost use Rattle.std.specs.Prelude.{◌≡◌, List};
ghost use Rattle.money.specs.Causes.{first_of, refusal_of};
ghost use Rattle.rules.specs.Vault.{outstanding_of};
ghost use Rattle.rules.specs.Size.{size_causes, sized};
ghost use Rattle.ledger.specs.Types.{Book, Trade};
ghost use Rattle.scalars.specs.Scalars.{done_by};
ghost use Rattle.ledger.specs.Flat.{Rows, book_of, applied_by, applied_at};
ghost use Rattle.ledger.specs.Figures.{outstanding_at};

use money::refusal::Refusal;
use money::units::Sheets;
use rules::limits::SIZE_LIMIT;
use scalars::done;
use scalars::done::Done;
use scalars::state::Scalars;

#[tactic(auto, unfolding(rules::specs::Size::size_causes, money::specs::Causes::first_of))]
fn size_refusal(outstanding: Sheets, size: Sheets) -> Result<(), Refusal>
    ensures { (book : Book) (table : List Trade) →
        outstanding.0 ≡ outstanding_of book table → refusal_of result ≡ first_of (size_causes book table size) }
{
    if size.0 > SIZE_LIMIT {
        return Err(Refusal::PastLimit);
    }
    if size < outstanding {
        return Err(Refusal::BelowOutstanding);
    }
    Ok(())
}

#[tactic(auto, using(crate::proofs::Refusing::turned_down, crate::proofs::Refusing::carried_out), unfolding(rules::specs::Step::event_causes, rules::specs::Size::sized, money::specs::Causes::first_of))]
pub fn set_size(scalars: Scalars, outstanding: Sheets, size: Sheets) -> Result<Done, Refusal>
    ensures { (rows : Rows) (table : List Trade) →
        let book = book_of scalars rows in
        outstanding.0 ≡ outstanding_at scalars table
        → applied_at (done_by scalars result) rows ≡ applied_by (first_of (size_causes book table size)) book (sized book size) }
{
    size_refusal(outstanding, size)?;
    Ok(done::accepted(Scalars { size, ..scalars }))
}
