ghost use Rattle.std.specs.Prelude.{◌≤◌};

use std::alloc::{AllocError, Global};
use std::test::Fail;
use vl_cache::Cached;
use vl_disk::{FaultPlan, HeldFile, Name, Reader};
use vl_mem::{MemHeld, MemReader};

// Each hundred bytes of a file are alike.
fn file(alloc: Global, name: Name, first: u8) -> Result<MemHeld, AllocError>
    requires { first ≤ 200 }
{
    let mut bytes = Vec::new(alloc);
    for hundred in 0u8..9 {
        for _ in 0..100 {
            bytes.push(first + hundred)?;
        }
    }
    Ok(MemHeld::new(alloc, name, bytes))
}

// Room for two reads, over a reader of which the calls with these numbers fail.
fn cache(alloc: Global, failing: &[u64]) -> Result<Cached<MemReader>, Fail> {
    let plan = FaultPlan::new(Vec::from_slice(alloc, failing)?);
    Ok(Cached::new(alloc, MemReader::new(plan), 2)?)
}

// The byte that all hundred at this place are; none where the read failed, or they differ.
fn read(cache: &mut Cached<MemReader>, held: &MemHeld, place: u64) -> Option<u8> {
    if place > 1000 || place + 100 > held.len() {
        return None;
    }
    let mut out = [0; 100];
    if cache.read(held, place, &mut out).is_err() {
        return None;
    }
    let first = out[0];
    if out.iter().all(|byte| *byte == first) {
        Some(first)
    } else {
        None
    }
}

fn reads(cache: &mut Cached<MemReader>, held: &MemHeld, expected: &[(u64, Option<u8>)]) -> bool {
    for (place, byte) in expected {
        if read(cache, held, *place) != *byte {
            return false;
        }
    }
    true
}

#[test]
fn the_read_used_last_stays(rt: HostRuntime) -> Result<(), Fail> {
    let held = file(rt.alloc(), Name::Table(1), 0)?;
    let firsts = [(0, Some(0)), (100, Some(1)), (0, Some(0)), (200, Some(2))];

    // The third read is a hit and the fifth none, so these are four calls of the reader below.
    let mut fifth = cache(rt.alloc(), &[5])?;
    assert!(rt; reads(&mut fifth, &held, &firsts));
    assert!(rt; reads(&mut fifth, &held, &[(100, Some(1)), (300, None)]));
    let mut fourth = cache(rt.alloc(), &[4])?;
    assert!(rt; reads(&mut fourth, &held, &firsts));
    assert!(rt; reads(&mut fourth, &held, &[(100, None)]));
    Ok(())
}

#[test]
fn a_failed_read_is_not_kept(rt: HostRuntime) -> Result<(), Fail> {
    let held = file(rt.alloc(), Name::Table(1), 0)?;
    let mut cache = cache(rt.alloc(), &[1, 3])?;
    assert!(rt;
        reads(
            &mut cache,
            &held,
            &[(0, None), (0, Some(0)), (0, Some(0)), (100, None)]
        )
    );
    Ok(())
}

#[test]
fn another_file_is_no_hit(rt: HostRuntime) -> Result<(), Fail> {
    let mut cache = cache(rt.alloc(), &[4])?;
    let one = file(rt.alloc(), Name::Table(1), 0)?;
    let other = file(rt.alloc(), Name::Table(1), 10)?;
    let log = file(rt.alloc(), Name::Log(1), 0)?;
    let again = file(rt.alloc(), Name::Table(1), 10)?;
    assert!(rt; reads(&mut cache, &one, &[(100, Some(1))]));
    assert!(rt; reads(&mut cache, &other, &[(100, Some(11))]));
    assert!(rt; reads(&mut cache, &log, &[(100, Some(1))]));

    // A file of the same name and bytes is.
    assert!(rt; reads(&mut cache, &again, &[(100, Some(11))]));
    assert!(rt; reads(&mut cache, &one, &[(100, None)]));
    Ok(())
}

// Whether a read of so many bytes is answered again without the reader below, of which the second call fails.
fn is_kept(alloc: Global, len: usize) -> Result<bool, Fail> {
    let held = MemHeld::new(alloc, Name::Table(1), vec![in alloc; 7; 10_000]?);
    let mut out = vec![in alloc; 0; len]?;
    if held.len() < out.len() as u64 {
        return Ok(false);
    }
    let plan = FaultPlan::new(Vec::from_slice(alloc, &[2])?);
    let mut cache = Cached::new(alloc, MemReader::new(plan), 2)?;
    if cache.read(&held, 0, out.as_mut_slice()).is_err() {
        return Ok(false);
    }
    Ok(cache.read(&held, 0, out.as_mut_slice()).is_ok())
}

#[test]
fn reads_of_up_to_8192_bytes_are_kept(rt: HostRuntime) -> Result<(), Fail> {
    assert!(rt; is_kept(rt.alloc(), 4190)?);
    assert!(rt; is_kept(rt.alloc(), 8192)?);
    assert!(rt; !is_kept(rt.alloc(), 8193)?);
    Ok(())
}
