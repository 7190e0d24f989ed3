// What is posted today, in the row of the securities behind these, two numbers a product: the term, and both prices. (02, ask 4)
ghost use Rattle.std.specs.Prelude.{◌≡◌, ℕ, ◌<◌, ◌≤◌, false, slice_set};
ghost use Rattle.std.specs.Bool.{then_some};
ghost use Rattle.rules.specs.Limits.{product_limit};
ghost use Rattle.rules.specs.Book.{is_posted, no_postings, posting_at};
ghost use Rattle.rules.specs.Fit.{posting_fit, postings_fit};
ghost use Rattle.ledger.specs.Flat.{posting_in, securities_of, postings_of};

use crate::flat;
use crate::layout::{Held, POSTING_WIDTH, POSTINGS_FROM};
use money::limits::PRICE_LIMIT;
use money::units::Ticks;
use rules::book::Posting;
use rules::limits::{AHEAD_LIMIT, PRODUCT_LIMIT};

pub const LONGEST_TERM: u64 = AHEAD_LIMIT as u64;

// Its prices share a number, so it is read and written otherwise than a security, whose numbers stand alone.
#[tactic(auto, unfolding(crate::specs::Flat::posting_in))]
pub fn posting_at(held: &Held, number: usize) -> Posting
    requires { number < product_limit }
    ensures { result ≡ posting_in held.now number }
{
    let at = POSTINGS_FROM + number * POSTING_WIDTH;
    Posting {
        term: held[at],
        price: Ticks(flat::lower(held[at + 1])),
        fallback: Ticks(flat::upper(held[at + 1])),
    }
}

// What is posted for a record's product, which is 0 for none, or the number plus 1.
pub fn posted(held: &Held, product: usize) -> Option<Posting>
    requires { product ≤ product_limit }
    ensures { let posting = posting_at (postings_of held.now) product in
        result ≡ then_some (is_posted posting) posting }
{
    let posting = posting_at(held, product.checked_sub(1)?);
    (posting.term != 0).then_some(posting)
}

// Whether any product is posted today.
pub fn any_posted(held: &Held) -> bool
    ensures { result ≡ false → (number : ℕ) → number < product_limit → is_posted (posting_in held.now number) ≡ false }
{
    (0..PRODUCT_LIMIT).any(|number| posting_at(held, number).term != 0)
}

pub fn put_posting(held: &mut Held, number: usize, posting: Posting)
    requires { number < product_limit }
    ensures { (postings_of held.new ≡ slice_set (postings_of held.old) number posting)
        × (securities_of held.new ≡ securities_of held.old) }
{
    let prices = flat::paired(posting.price.0, posting.fallback.0);
    let at = POSTINGS_FROM + number * POSTING_WIDTH;
    held[at] = posting.term;
    held[at + 1] = prices;
}

// Open forgets what was posted.
pub fn forget(held: &mut Held)
    ensures { (postings_of held.new ≡ no_postings) × (securities_of held.new ≡ securities_of held.old) }
{
    held[POSTINGS_FROM..].fill(0);
}

fn posting_fit(posting: Posting) -> bool
    ensures { result ≡ posting_fit posting }
{
    posting.term <= LONGEST_TERM
        && posting.price.0 <= PRICE_LIMIT
        && posting.fallback.0 <= PRICE_LIMIT
}

pub fn postings_fit(held: &Held) -> bool
    ensures { result ≡ postings_fit (postings_of held.now) }
{
    (0..PRODUCT_LIMIT).all(|number| posting_fit(posting_at(held, number)))
}
