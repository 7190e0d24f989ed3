// One event from 40 bytes of a journal.
ghost use Rattle.std.specs.Prelude.{◌≡◌, [], ◌∷◌, ◌+◌, ◌≤◌, ◌<◌, length};
ghost use Rattle.money.specs.Units.{sheets, ticks};
ghost use Rattle.rules.specs.Entry.{event_bytes, number_at, fields_of, rest_of, terms_of, posting_in, unless, account_at, entry_of, IsEntryOf};

use money::units::{Fen, Sheets, Ticks};
use rules::book::Posting;
use rules::event::{Account, Event, Fields};
use rules::limits::EVENT_BYTES;
use rules::trade::{Contract, Terms};

// The number of 4 bytes, the least byte first. The journal has its own: a shared one would be public, and have to answer slices that are too short.
fn number4(bytes: &[u8], at: usize) -> u32
    requires { at + 4 ≤ length bytes.now }
    ensures { result ≡ number_at at 4 bytes.now }
{
    u32::from_le_bytes([bytes[at], bytes[at + 1], bytes[at + 2], bytes[at + 3]])
}

// The number of 8 bytes, from its two halves: `from_le_bytes` of 8 bytes is not proved to be the number that the rules read.
fn number8(bytes: &[u8], at: usize) -> u64
    requires { at + 8 ≤ length bytes.now }
    ensures { result ≡ number_at at 8 bytes.now }
{
    let low = u64::from(number4(bytes, at));
    let high = u64::from(number4(bytes, at + 4));
    low + high * 4_294_967_296
}

// The spare bytes are what the first 8 have beyond code, kind and product.
#[tactic(auto, using(rules::proofs::Bytes::past_three))]
fn fields_of(bytes: &[u8]) -> Fields
    requires { length bytes.now ≡ event_bytes }
    ensures { result ≡ fields_of bytes.now }
{
    Fields {
        code: bytes[0],
        kind: bytes[1],
        product: bytes[2],
        spare: number8(bytes, 0) / 16_777_216,
        amount: number8(bytes, 8),
        contract: number8(bytes, 16),
        price: number4(bytes, 24),
        fallback: number4(bytes, 28),
        due: number4(bytes, 32),
        last: number4(bytes, 36),
    }
}

// The event, where the fields that it does not use are 0.
fn unless(event: Event, unused: &[u64]) -> Option<Event>
    ensures { result ≡ unless event unused.now }
{
    unused.iter().all(|field| *field == 0).then_some(event)
}

// All but code, kind and amount.
fn rest_of(fields: Fields) -> [u64; 7]
    ensures { result ≡ rest_of fields }
{
    [
        u64::from(fields.product),
        fields.spare,
        fields.contract,
        u64::from(fields.price),
        u64::from(fields.fallback),
        u64::from(fields.due),
        u64::from(fields.last),
    ]
}

// An event that may use kind and amount.
fn kind_and_amount(fields: Fields, event: Event) -> Option<Event>
    ensures { result ≡ unless event (rest_of fields) }
{
    unless(event, &rest_of(fields))
}

// An event that may use the amount.
#[tactic(auto, using(rules::proofs::Unused::unused_fields))]
fn amount_only(fields: Fields, event: Event) -> Option<Event>
    ensures { result ≡ unless event (fields.kind ∷ rest_of fields) }
{
    if fields.kind != 0 {
        return None;
    }
    kind_and_amount(fields, event)
}

// An event that is its code.
#[tactic(auto, using(rules::proofs::Unused::unused_fields))]
fn code_only(fields: Fields, event: Event) -> Option<Event>
    ensures { result ≡ unless event (fields.amount ∷ fields.kind ∷ rest_of fields) }
{
    if fields.amount != 0 {
        return None;
    }
    amount_only(fields, event)
}

// The account stands where other events have a kind. An Option and no TryFrom: its error would tell nothing.
fn account_at(kind: u8) -> Option<Account>
    ensures { result ≡ account_at kind }
{
    match kind {
        0 => Some(Account::Own),
        1 => Some(Account::Client),
        _ => None,
    }
}

fn initial(fields: Fields) -> Option<Event>
    ensures { result ≡ unless (Event.Initial (terms_of fields)) (fields.kind ∷ fields.spare ∷ fields.last ∷ []) }
{
    let terms = Terms {
        contract: Contract(fields.contract),
        sheets: Sheets(fields.amount),
        price: Ticks(fields.price),
        fallback: Ticks(fields.fallback),
        due: fields.due,
        product: fields.product,
    };
    let unused = [u64::from(fields.kind), fields.spare, u64::from(fields.last)];
    unless(Event::Initial(terms), &unused)
}

fn early(fields: Fields) -> Option<Event>
    ensures { result ≡ unless (Event.Early (record { 0 = fields.contract }) (sheets fields.amount) (ticks fields.price))
        (fields.kind ∷ fields.product ∷ fields.spare ∷ fields.fallback ∷ fields.due ∷ fields.last ∷ []) }
{
    let event = Event::Early(
        Contract(fields.contract),
        Sheets(fields.amount),
        Ticks(fields.price),
    );
    let unused = [
        u64::from(fields.kind),
        u64::from(fields.product),
        fields.spare,
        u64::from(fields.fallback),
        u64::from(fields.due),
        u64::from(fields.last),
    ];
    unless(event, &unused)
}

// The product's number stands where other events have a kind, and its term where they have an amount.
fn post(fields: Fields) -> Option<Event>
    ensures { result ≡ unless (Event.Post fields.kind (posting_in fields))
        (fields.product ∷ fields.spare ∷ fields.contract ∷ fields.due ∷ fields.last ∷ []) }
{
    let posting = Posting {
        term: fields.amount,
        price: Ticks(fields.price),
        fallback: Ticks(fields.fallback),
    };
    let unused = [
        u64::from(fields.product),
        fields.spare,
        fields.contract,
        u64::from(fields.due),
        u64::from(fields.last),
    ];
    unless(Event::Post(fields.kind, posting), &unused)
}

// Each code with its event, and with the test that the fields it does not use are 0.
#[tactic(auto, unfolding(rules::specs::Entry::entry_of))]
fn entry_of(fields: Fields) -> Option<Event>
    ensures { result ≡ entry_of fields }
{
    let kind = fields.kind;
    let amount = fields.amount;
    match fields.code {
        1 => code_only(fields, Event::Open),
        2 => kind_and_amount(fields, Event::FundIn(account_at(kind)?, Fen(amount))),
        3 => kind_and_amount(fields, Event::FundOut(account_at(kind)?, Fen(amount))),
        4 => amount_only(fields, Event::Size(Sheets(amount))),
        5 => kind_and_amount(fields, Event::Rate(kind, amount)),
        6 => kind_and_amount(fields, Event::Pledge(kind, amount)),
        7 => kind_and_amount(fields, Event::Freeze(kind, amount)),
        8 => kind_and_amount(fields, Event::Withdraw(kind, amount)),
        9 => initial(fields),
        10 => early(fields),
        11 => code_only(fields, Event::Pay),
        12 => code_only(fields, Event::Close),
        13 => post(fields),
        _ => None,
    }
}

// The event of 40 bytes; any other number of bytes is no event.
#[tactic(auto, unfolding(rules::specs::Entry::decoded))]
pub fn decode(bytes: &[u8]) -> Option<Event>
    ensures { IsEntryOf bytes.now result }
{
    if bytes.len() != EVENT_BYTES {
        return None;
    }
    entry_of(fields_of(bytes))
}
