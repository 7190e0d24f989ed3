// 13 Post: gives a product its term and both prices for the day. (02, ask 4)
ghost use Rattle.std.specs.Prelude.{◌≡◌, ℕ, List};
ghost use Rattle.money.specs.Causes.{first_of, refusal_of};
ghost use Rattle.rules.specs.Post.{bad_term, post_causes, posted};
ghost use Rattle.scalars.specs.Scalars.{done_by};
ghost use Rattle.ledger.specs.Flat.{Rows, rows_of, book_of, applied_by, applied_at};

use crate::layout::Held;
use crate::postings::LONGEST_TERM;
use crate::{postings, prices};
use money::refusal::Refusal;
use rules::book::Posting;
use rules::limits::PRODUCT_LIMIT;
use scalars::done;
use scalars::done::Done;
use scalars::state::Scalars;

fn bad_term(term: u64) -> bool
    ensures { result ≡ bad_term term }
{
    term == 0 || term > LONGEST_TERM
}

#[tactic(auto, unfolding(rules::specs::Post::post_causes, money::specs::Causes::first_of))]
fn post_refusal(scalars: Scalars, product: u8, posting: Posting) -> Result<(), Refusal>
    ensures { (rows : Rows) → refusal_of result ≡ first_of (post_causes (book_of scalars rows) product posting) }
{
    if usize::from(product) >= PRODUCT_LIMIT {
        return Err(Refusal::NotPosted);
    }
    let standing = scalars.standing;
    if !standing.is_trading() {
        return Err(Refusal::WrongPhase);
    }
    if standing.is_terminated() {
        return Err(Refusal::PermissionEnded);
    }
    if prices::bad_prices(posting.price, posting.fallback) {
        return Err(Refusal::BadPrice);
    }
    if bad_term(posting.term) {
        return Err(Refusal::BadDueDay);
    }
    Ok(())
}

pub fn post(
    scalars: Scalars,
    held: &mut Held,
    product: u8,
    posting: Posting,
) -> Result<Done, Refusal>
    ensures { (kinds units : List ℕ) →
        let book = book_of scalars (rows_of held.old kinds units) in
        let cause = first_of (post_causes book product posting) in
        applied_at (done_by scalars result) (rows_of held.new kinds units) ≡ applied_by cause book (posted book product posting) }
{
    post_refusal(scalars, product, posting)?;
    postings::put_posting(held, usize::from(product), posting);
    Ok(done::accepted(scalars))
}
