// Whether contracts differ, by chains: each trade is linked to the last one before it whose contract falls into the same bucket, so that
// a contract is compared with few others. A chain that gets long shows nothing, and the contracts are sorted instead.
ghost use Rattle.std.specs.Prelude.{◌≡◌, ◌<◌, ◌≤◌, length};
ghost use Rattle.rules.specs.Limits.{capacity_limit};
ghost use Rattle.ledger.specs.Flat.{HasSlots};
ghost use Rattle.ledger.specs.Chains.{most_buckets, bucket_of, Falls, Shows, ShowsAll};

use crate::flat;
use rules::limits::CAPACITY_LIMIT;
use rules::trade::Contract;

// Of a contract, or of all of them: it does not stand there before, it does, or the chain was too long to tell. An Option<bool> would not say which.
#[derive(Clone, Copy)]
pub enum ChainResult {
    Differs,
    Repeats,
    TooLong,
}

fn bucket_of(contract: Contract, buckets: usize) -> usize
    requires { 0 < buckets }
    ensures { result ≡ bucket_of buckets contract }
{
    (contract.0 % (buckets as u64)) as usize
}

// A chain that is longer is not followed to its end.
const CHAIN_LIMIT: usize = 64;

// A contract looked for along a chain. A link is one more than a place, and 0 at the end, so that arrays of zeros are chains of no trade.
#[tactic(auto, using(crate::proofs::ChainLaws::ahead_none))]
fn look_along(table: &[u64], next: &[u16], from: usize, contract: Contract) -> ChainResult
    requires { (HasSlots table.now from) × (from ≤ length next.now) × (Falls next.now from) }
    ensures { Shows table.now next.now from contract result }
{
    let mut link = from;
    for _ in 0..CHAIN_LIMIT {
        if link == 0 {
            return ChainResult::Differs;
        }
        let place = link - 1;
        if flat::contract_at(table, place) == contract {
            return ChainResult::Repeats;
        }
        link = usize::from(next[place]);
    }
    // A chain of just so many is followed to its end.
    if link == 0 {
        return ChainResult::Differs;
    }
    ChainResult::TooLong
}

// The trades linked one after the other, each looked for along the chain of its bucket.
#[tactic(auto, using(crate::proofs::ChainLaws::inside))]
pub fn linked_differ<const BUCKETS: usize>(table: &[u64], count: usize) -> ChainResult
    requires { (HasSlots table.now count) × (count ≤ capacity_limit) × (0 < BUCKETS) × (BUCKETS ≤ most_buckets) }
    ensures { ShowsAll table.now count result }
{
    let mut heads: [u16; BUCKETS] = [0; BUCKETS];
    let mut next: [u16; CAPACITY_LIMIT] = [0; CAPACITY_LIMIT];
    for place in 0..count {
        let contract = flat::contract_at(table, place);
        let bucket = bucket_of(contract, BUCKETS);
        let first = heads[bucket];
        match look_along(table, &next, usize::from(first), contract) {
            ChainResult::Differs => {}
            told => return told,
        }
        next[place] = first;
        heads[bucket] = (place + 1) as u16;
    }
    ChainResult::Differs
}
