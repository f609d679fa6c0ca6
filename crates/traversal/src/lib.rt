// Reading the outline of a chain of linked records: the walk from record to record, and its checks.
#![tactic(auto)]

ghost use Rattle.std.specs.Prelude.{◌≡◌, ◌*◌, ◌≤◌, ◌<◌, length, take};
ghost use Rattle.outline.specs.Corners.{most};
ghost use Rattle.records.specs.Chain.{records, record_at, walk, chain_list};
ghost use Rattle.records.specs.code.Chain.{record_number};
ghost use Rattle.records.specs.code.Reading.{ReadsChain, ReadsChains};
ghost use Rattle.traversal.specs.Stop.{stop_of};

use outline::{Fault, MOST, Place, Refusal, Side};
use plane::Corner;
use reading::checks;
use reading::corners::put_corner;
use reading::refusals::refuse;
use records::{RECORD_LENGTH, Record};

// Where a walk stops: how many corners are read, and the index that is met then, as the definition `Walk` has it.
#[derive(Clone, Copy)]
pub struct Stop {
    pub count: usize,
    pub index: i32,
}

// The number of the record that an index names, of n records, if it names one. None names record 0.
fn record_number(n: usize, index: i32) -> Option<usize>
    ensures { result ≡ record_number n index }
{
    usize::try_from(index).ok().filter(|i| 0 < *i && *i < n)
}

// Record i of a store.
#[tactic(auto, using(crate::proofs::WalkLaws::sizes))]
fn record_at(store: &[i32], i: usize) -> Record
    requires { i < length (records store.now) }
    ensures { result ≡ record_at (records store.now) i }
{
    let place = RECORD_LENGTH * i;
    Record {
        corner: Corner {
            x: store[place],
            y: store[place + 1],
        },
        next: store[place + 2],
    }
}

// Reads the chain that starts at an index, and writes its corners to a list. (Its length stays a clause: the type
// `&mut [i32; 512]` would turn longer lists away.)
fn walk(store: &[i32], start: i32, out: &mut [i32]) -> Stop
    requires { 2 * most ≤ length out.old }
    ensures stop { result ≡ stop_of (walk store.now start) }
    ensures list { take (2 * length (walk store.now start).corners) out.new ≡ chain_list store.now start }
{
    let n = store.len() / RECORD_LENGTH;
    let mut index = start;
    for count in 0..MOST {
        let Some(i) = record_number(n, index) else {
            return Stop { count, index };
        };
        let Record { corner, next } = record_at(store, i);
        put_corner(out, count, corner);
        index = next;
    }
    Stop { count: MOST, index }
}

// Reads the chain that starts at an index, and writes its corners to a list, which has room for as many as a chain can
// have. Refusals 11 and 12.
pub fn read_chain(
    store: &[i32],
    start: i32,
    whose: Option<Side>,
    out: &mut [i32],
) -> Result<usize, Refusal>
    requires { 2 * most ≤ length out.old }
    ensures { ReadsChain whose store.now start result out.new }
{
    let stop = walk(store, start, out);
    if stop.index == 0 {
        return Ok(2 * stop.count);
    }
    let place = Place::At(stop.count);
    if stop.count == MOST {
        return refuse(Fault::ChainTooLong, whose, place);
    }
    refuse(Fault::NoSuchRecord, whose, place)
}

// Reads the chains of A and B, and writes their corners to lists. Refusals 10, and 11 and 12 for A, then for B. Where B's
// chain is refused, A's corners are checked, since A's refusals 2 to 6 come before it.
pub fn read_chains(
    store: &[i32],
    a_start: i32,
    b_start: i32,
    a: &mut [i32],
    b: &mut [i32],
) -> Result<(usize, usize), Refusal>
    requires most_in_bounds { 2 * most ≤ length a.old }
    requires most_in_bounds_2 { 2 * most ≤ length b.old }
    ensures { ReadsChains store.now a_start b_start result a.new b.new }
{
    if store.len() % RECORD_LENGTH != 0 {
        return refuse(Fault::PartialRecord, Some(Side::A), Place::Nowhere);
    }
    let n = read_chain(store, a_start, Some(Side::A), a)?;
    match read_chain(store, b_start, Some(Side::B), b) {
        Ok(m) => Ok((n, m)),
        Err(refusal) => {
            checks::check_either(&a[..n], Some(Side::A))?;
            Err(refusal)
        }
    }
}
