//! Clients side by side, each in a thread of its own.
ghost use Rattle.std.specs.Prelude.{◌≡◌, ◌≤◌, ◌<◌, ◌+◌, ◌*◌, ◌^◌, IfErr, IfOk, length, map, true};
ghost use Rattle.std.specs.List.{AllByRecursion, AllZip};
ghost use Rattle.vl_drive.specs.Knowing.{GoesOn};
ghost use Rattle.vl_sequence.specs.Clients.{Gathers, HasActed, IsDone, IsFew, IsOfLease, IsSeated, LeavesStopped};
ghost use Rattle.vl_sequence.specs.Clients.{StopsWith, all_given, all_leases, given_of, last_of, leases_of, shop_of};
ghost use Rattle.vl_sequence.specs.Counted.{ids_key, rounded_up};
ghost use Rattle.vl_sequence.specs.Counting.{HasLeased};

use crate::client::{Tally, take_numbers};
use crate::fails::{NewFail, SeqFail};
use crate::sequence::Sequence;
use std::alloc::{AllocError, Global};
use std::sync::Wait;
use std::thread;
use std::thread::Threads;
use vl_drive::Shop;

// The key from which they take their numbers.
pub(crate) const KEY: u8 = 0x71;

// Why clients came to no end.
#[derive(Drop)]
pub(crate) enum CountFail<S: Drop> {
    NoMemory,
    Stopped { shops: Vec<S>, why: SeqFail },
}

// A thread's sequence, and what its numbers came to.
#[derive(Drop)]
pub(crate) struct Client<S: Shop> {
    pub(crate) sequence: Sequence<S>,
    pub(crate) end: Result<Tally, SeqFail>,
}

// Lets each shop be a client, which takes so many numbers by leases of so many, in a thread of its
// own.
pub(crate) fn take_all<R: Threads + Wait + Sync, S: Shop + Send>(
    rt: &R,
    alloc: Global,
    shops: Vec<S>,
    count: u32,
    lease: u32,
) -> Result<(Tally, Vec<S>), CountFail<S>>
    requires few { (1 ≤ length shops.items) × (length shops.items ≤ 16) }
    requires count { count ≤ 100000 }
    requires lease { (1 ≤ lease) × (lease ≤ 1000) }
    requires new { AllByRecursion (HasLeased ids_key lease 0) (map S.knows shops.items) }
    ensures on { IfOk result (λ r. AllZip GoesOn (map S.knows shops.items) (map S.knows r.1.items)) }
    ensures leased { IfOk result (λ r.
        AllByRecursion (HasLeased ids_key lease (rounded_up count lease)) (map S.knows r.1.items)) }
    ensures given { IfOk result (λ r. r.0.given ≡ length shops.items * count) }
    ensures leases { IfOk result (λ r. r.0.leases ≡ length shops.items * rounded_up count lease) }
    ensures stopped { IfErr result (LeavesStopped S.knows lease count (map S.knows shops.items)) }
{
    let Ok(mut clients) = seated(alloc, shops, lease) else {
        return Err(CountFail::NoMemory);
    };
    let threads = clients.len();
    thread::for_each_mut(
        rt,
        clients.as_mut_slice(),
        threads,
        &|_, client: &mut Client<S>|
            requires { IsSeated S.knows client.now }
            ensures { HasActed S.knows count client.entry.now client.exit.now }
        { act(rt, count, client) },
    );
    gathered(alloc, clients)
}

// Each shop with a sequence.
fn seated<S: Shop>(alloc: Global, shops: Vec<S>, lease: u32) -> Result<Vec<Client<S>>, AllocError>
    requires lease { (1 ≤ lease) × (lease ≤ 1000) }
    ensures shops { IfOk result (λ clients. map shop_of clients.items ≡ shops.items) }
    ensures seated { IfOk result (λ clients. AllByRecursion (IsSeated S.knows) clients.items) }
    ensures lease { IfOk result (λ clients. AllByRecursion (IsOfLease lease) clients.items) }
{
    let mut clients = Vec::with_capacity(alloc, shops.len())?;
    for shop in shops {
        clients.push(seat(alloc, shop, lease)?)?;
    }
    Ok(clients)
}

// A client before its first number. Its key is lawful, so only memory may be wanting.
fn seat<S: Shop>(alloc: Global, shop: S, lease: u32) -> Result<Client<S>, AllocError>
    requires lease { (1 ≤ lease) × (lease ≤ 1000) }
    ensures shop { IfOk result (λ client. shop_of client ≡ shop) }
    ensures seated { IfOk result (IsSeated S.knows) }
    ensures lease { IfOk result (IsOfLease lease) }
{
    match Sequence::new(alloc, shop, &[KEY], lease) {
        Ok(sequence) => Ok(Client {
            sequence,
            end: Ok(Tally {
                given: 0,
                leases: 0,
            }),
        }),
        Err(NewFail::NoMemory(_)) => Err(AllocError),
        Err(NewFail::EmptyKey(_)) => unreachable!(),
        Err(NewFail::KeyTooLong(_)) => unreachable!(),
    }
}

// What a thread does.
fn act<R: Wait, S: Shop>(rt: &R, count: u32, client: &mut Client<S>)
    requires { IsSeated S.knows client.old }
    ensures { HasActed S.knows count client.old client.new }
{
    client.end = take_numbers(rt, &mut client.sequence, count);
}

// The shops again, and what all came to, where none stopped.
fn gathered<S: Shop>(
    alloc: Global,
    clients: Vec<Client<S>>,
) -> Result<(Tally, Vec<S>), CountFail<S>>
    requires few { length clients.items ≤ 16 }
    requires small { AllByRecursion IsFew clients.items }
    ensures shops { IfOk result (λ r. r.1.items ≡ map shop_of clients.items) }
    ensures done { IfOk result (λ r. AllByRecursion IsDone clients.items) }
    ensures given { IfOk result (λ r. r.0.given ≡ all_given clients.items) }
    ensures leases { IfOk result (λ r. r.0.leases ≡ all_leases clients.items) }
    ensures stopped { IfErr result (Gathers clients.items) }
{
    let Ok(mut shops) = Vec::with_capacity(alloc, clients.len()) else {
        return Err(CountFail::NoMemory);
    };
    let mut last = None;
    let mut tally = Tally {
        given: 0,
        leases: 0,
    };
    for client in clients {
        let Client { sequence, end } = client;
        last = added(&mut tally, last, end);
        if shops.push(sequence.into_shop()).is_err() {
            return Err(CountFail::NoMemory);
        }
    }
    match last {
        None => Ok((tally, shops)),
        Some(why) => Err(stopped(shops, why)),
    }
}

// Want of memory needs no shops.
fn stopped<S: Drop>(shops: Vec<S>, why: SeqFail) -> CountFail<S>
    ensures { StopsWith shops.items why result }
{
    match why {
        SeqFail::NoMemory => CountFail::NoMemory,
        why => CountFail::Stopped { shops, why },
    }
}

// What one more came to is added, and the last stop is kept.
fn added(tally: &mut Tally, last: Option<SeqFail>, end: Result<Tally, SeqFail>) -> Option<SeqFail>
    requires given { tally.old.given + given_of end < 2 ^ 64 }
    requires leases { tally.old.leases + leases_of end < 2 ^ 64 }
    ensures given { tally.new.given ≡ tally.old.given + given_of end }
    ensures leases { tally.new.leases ≡ tally.old.leases + leases_of end }
    ensures last { result ≡ last_of last end }
{
    match end {
        Ok(more) => {
            tally.given += more.given;
            tally.leases += more.leases;
            last
        }
        Err(why) => Some(why),
    }
}
