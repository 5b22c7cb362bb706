// Sequences over a store in memory: what they give behind a crash and at the end of all numbers, and what a refusal
// leaves.
ghost use Rattle.std.specs.Prelude.{◌≡◌, ◌≤◌, ◌∷◌, [], IfSome, length};
ghost use Rattle.vl_drive.specs.Knowing.{GoesOn};
ghost use Rattle.vl_mem.specs.SureDisk.{state_on};
ghost use Rattle.vl_model.specs.History.{History};
ghost use Rattle.vlstore.specs.Reopening.{KeepsStore};

mod overtaken;

use overtaken::Overtaken;
use std::alloc::Global;
use std::sync::Wait;
use std::test::Fail;
use vl_drive::{BeginFail, Done, Shop, Shops};
use vl_mem::{Outcome, SureDisk};
use vl_sequence::{SeqFail, Sequence};
use vlstore::SureStore;

const KEY: [u8; 2] = [0x69, 0x64];

const LEASE: u32 = 4;

// More than transactions may live at a time, which are 1,024.
const REFUSALS: u32 = 1_100;

// The next two numbers of a new sequence, and its session.
fn next_two<S: Shop, R: Wait>(rt: &R, alloc: Global, shop: S) -> Option<(u64, u64, S)>
    ensures { IfSome result (λ r. GoesOn (S.knows shop) (S.knows r.2)) }
{
    let Ok(mut ids) = Sequence::new(alloc, shop, &KEY, LEASE) else {
        return None;
    };
    let Ok(first) = ids.next(rt) else {
        return None;
    };
    let Ok(second) = ids.next(rt) else {
        return None;
    };
    Some((first, second, ids.into_shop()))
}

// The one thing of a list.
fn only<T: Drop>(all: Vec<T>) -> Option<T>
    requires { length all.items ≡ 1 }
    ensures { IfSome result (λ x. all.items ≡ x ∷ []) }
{
    let mut rest = all;
    rest.pop()
}

// The first two numbers of a new store, and what it holds when it is closed.
fn two_given<T: Shops, R: Wait>(rt: &R, alloc: Global) -> Option<(u64, u64, T::Closed)>
    ensures { IfSome result (λ r. (h : History) × T.Closed.shows r.2 h) }
{
    let Ok((store, shops)) = T::open(alloc, 1) else {
        return None;
    };
    let (first, second, shop) = next_two(rt, alloc, only(shops)?)?;
    let Ok(shops) = Vec::from_array(alloc, [shop]) else {
        return None;
    };
    match store.close(rt, alloc, shops) {
        Ok(closed) => Some((first, second, closed)),
        Err(_) => None,
    }
}

// So of a store whose disk crashes then, and that disk.
fn two_left<R: Wait>(rt: &R, alloc: Global, outcome: Outcome) -> Option<(u64, u64, SureDisk)>
    ensures { IfSome result (λ r. KeepsStore (state_on r.2)) }
{
    let (first, second, closed) = two_given::<SureStore, R>(rt, alloc)?;
    let disk = closed.into_disk();
    match disk.crash(outcome) {
        Ok(disk) => Some((first, second, disk)),
        Err(_) => None,
    }
}

// The next two numbers of the store that is opened on such a disk.
fn two_behind<R: Wait>(rt: &R, alloc: Global, disk: SureDisk) -> Option<(u64, u64)>
    requires { KeepsStore (state_on disk) }
{
    let Ok((_store, shops)) = SureStore::reopen(alloc, disk, 1) else {
        return None;
    };
    let (first, second, _) = next_two(rt, alloc, only(shops)?)?;
    Some((first, second))
}

// What wasn't given of a lease is lost, and nothing is given twice.
#[test]
fn a_sequence_goes_on_behind_a_crash(rt: HostRuntime) -> Result<(), Fail> {
    for outcome in [Outcome::Lost, Outcome::Kept, Outcome::Halved] {
        let (first, second, disk) = two_left(&rt, rt.alloc(), outcome).expect(
            &rt,
            "there is memory",
        );
        assert_eq!(&rt; (first, second), (1, 2));
        let behind = two_behind(&rt, rt.alloc(), disk).expect(&rt, "there is memory");
        assert_eq!(&rt; behind, (5, 6));
    }
    Ok(())
}

// Makes this the key's value, in a commit.
fn write<S: Shop, R: Wait>(rt: &R, shop: &mut S, value: &[u8]) -> bool
    requires { length value.now ≤ 80 }
{
    let mut txn = match shop.begin(rt) {
        Ok(txn) => txn,
        Err(BeginFail::TooMany | BeginFail::NoMemory) => return false,
    };
    if shop.set(&mut txn, &KEY, value).is_err() {
        shop.forget(rt, txn);
        return false;
    }
    match shop.commit(rt, txn) {
        Ok(Done::At(_)) => true,
        Ok(Done::Nothing) => false,
        Err(why) => {
            drop(why);
            false
        }
    }
}

// Whether a transaction can be begun, which ends then.
fn begins<S: Shop, R: Wait>(rt: &R, shop: &mut S) -> bool {
    match shop.begin(rt) {
        Ok(txn) => {
            shop.forget(rt, txn);
            true
        }
        Err(BeginFail::TooMany | BeginFail::NoMemory) => false,
    }
}

// How often a new sequence is refused since the key's value has so many bytes, and its session.
fn refusals<S: Shop, R: Wait>(rt: &R, alloc: Global, shop: S, bytes: u64) -> Option<(u32, S)> {
    let Ok(mut ids) = Sequence::new(alloc, shop, &KEY, LEASE) else {
        return None;
    };
    let mut count = 0u32;
    for _ in 0..REFUSALS {
        match ids.next(rt) {
            Err(SeqFail::Malformed { len }) if len == bytes => count += 1,
            _ => return None,
        }
    }
    Some((count, ids.into_shop()))
}

// So of a new store whose key has a value of three bytes. Behind them a transaction can be begun.
fn refused<T: Shops, R: Wait>(rt: &R, alloc: Global) -> Option<u32> {
    let Ok((_store, shops)) = T::open(alloc, 1) else {
        return None;
    };
    let mut shop = only(shops)?;
    if !write(rt, &mut shop, b"abc") {
        return None;
    }
    let (count, mut shop) = refusals(rt, alloc, shop, 3)?;
    if begins(rt, &mut shop) {
        Some(count)
    } else {
        None
    }
}

#[test]
fn a_refusal_leaves_no_transaction(rt: HostRuntime) -> Result<(), Fail> {
    let count = refused::<SureStore, HostRuntime>(&rt, rt.alloc()).expect(&rt, "one begins");
    assert_eq!(&rt; count, 1_100);
    Ok(())
}

// Whether a new sequence gives these numbers behind this value of the key, and is spent then.
fn ends_with<S: Shop, R: Wait>(
    rt: &R,
    alloc: Global,
    mut shop: S,
    value: [u8; 8],
    numbers: &[u64],
) -> bool {
    if !write(rt, &mut shop, &value) {
        return false;
    }
    let Ok(mut ids) = Sequence::new(alloc, shop, &KEY, LEASE) else {
        return false;
    };
    for number in numbers {
        match ids.next(rt) {
            Ok(given) if given == *number => {}
            _ => return false,
        }
    }
    matches!(ids.next(rt), Err(SeqFail::Spent))
}

// So in a new store.
fn is_spent_behind<T: Shops, R: Wait>(
    rt: &R,
    alloc: Global,
    value: [u8; 8],
    numbers: &[u64],
) -> bool {
    let Ok((_store, shops)) = T::open(alloc, 1) else {
        return false;
    };
    match only(shops) {
        Some(shop) => ends_with(rt, alloc, shop, value, numbers),
        None => false,
    }
}

// No lease ends above 2^63 - 1.
#[test]
fn a_sequence_is_spent(rt: HostRuntime) -> Result<(), Fail> {
    let value = [0x7f, 0xff, 0xff, 0xff, 0xff, 0xff, 0xff, 0xfc];
    let spent = is_spent_behind::<SureStore, HostRuntime>(&rt, rt.alloc(), value, &[]);
    assert!(&rt; spent);
    Ok(())
}

// The last lease ends at 2^63 - 1.
#[test]
fn a_sequence_gives_its_last_lease(rt: HostRuntime) -> Result<(), Fail> {
    let value = [0x7f, 0xff, 0xff, 0xff, 0xff, 0xff, 0xff, 0xfb];
    let numbers = [
        9223372036854775803,
        9223372036854775804,
        9223372036854775805,
        9223372036854775806,
    ];
    let spent = is_spent_behind::<SureStore, HostRuntime>(&rt, rt.alloc(), value, &numbers);
    assert!(&rt; spent);
    Ok(())
}

// The number of the commit that races a new sequence's first lease, and what the sequence gives when it is asked again.
fn raced<S: Shop, R: Wait>(rt: &R, alloc: Global, shop: S, other: S) -> Option<(u64, u64)> {
    let shop = Overtaken {
        shop,
        other,
        waits: true,
    };
    let Ok(mut ids) = Sequence::new(alloc, shop, &KEY, LEASE) else {
        return None;
    };
    let Err(SeqFail::Raced { number }) = ids.next(rt) else {
        return None;
    };
    let Ok(given) = ids.next(rt) else {
        return None;
    };
    Some((number, given))
}

// So of two sessions of a new store.
fn raced_by<T: Shops, R: Wait>(rt: &R, alloc: Global) -> Option<(u64, u64)> {
    let Ok((_store, mut shops)) = T::open(alloc, 2) else {
        return None;
    };
    let other = shops.pop()?;
    let shop = shops.pop()?;
    raced(rt, alloc, shop, other)
}

// The other's commit is the first of the store, and its value tells 100.
#[test]
fn a_raced_sequence_is_asked_again(rt: HostRuntime) -> Result<(), Fail> {
    let answers = raced_by::<SureStore, HostRuntime>(&rt, rt.alloc()).expect(&rt, "it then gives");
    assert_eq!(&rt; answers, (1, 100));
    Ok(())
}
