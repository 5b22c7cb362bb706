//! A table whose blocks stand, each with its check, and aren't in order.

use crate::disk::{failing, open, valued, written};
use std::alloc::{AllocError, Global};
use std::test::Fail;
use vl_disk::ReadFault;
use vl_model::Entry;
use vl_table::first_out_of_order;

// An entry of a key of two bytes has 79: 2 and 2, 8, a kind, a user byte, a length, and 64. So the first block has 51 of them,
// in a frame of 5 + 4 + 51 * 79 + 8 = 4046 bytes at 16, and the second begins at 4062, with 9 in 728 bytes.
const SECOND: usize = 4062;

const INDEX: usize = SECOND + 728;

// Sixty keys that begin with a byte.
fn sixty(alloc: Global, first: u8) -> Result<Vec<Entry>, AllocError> {
    let mut entries = Vec::new(alloc);
    for at in 0..60 {
        entries.push(valued(alloc, &[first, at], 1)?)?;
    }
    Ok(entries)
}

// The bytes between two places, none where there aren't so many.
fn between(bytes: &[u8], from: usize, to: usize) -> &[u8] {
    if from > to || to > bytes.len() {
        return &[];
    }
    &bytes[from..to]
}

// Table 1 of keys that begin with m, but its second block is that of one whose keys begin with another byte.
fn crafted(alloc: Global, second: u8) -> Result<Vec<u8>, Fail> {
    let own = written(alloc, 1, &sixty(alloc, b'm')?)?;
    let other = written(alloc, 1, &sixty(alloc, second)?)?;
    let mut bytes = Vec::new(alloc);
    bytes.extend_from_slice(between(&own, 0, SECOND))?;
    bytes.extend_from_slice(between(&other, SECOND, INDEX))?;
    bytes.extend_from_slice(between(&own, INDEX, own.len()))?;
    Ok(bytes)
}

fn first_place(alloc: Global, bytes: &[u8]) -> Result<Option<u64>, ReadFault> {
    let table = open(alloc, 1, bytes)?;
    let mut reader = failing(alloc, &[])?;
    first_out_of_order(alloc, &mut reader, &table)
}

// The second block's first key is below the last of the first.
#[test]
fn a_block_out_of_order_is_found(rt: HostRuntime) -> Result<(), Fail> {
    let alloc = rt.alloc();
    let bytes = crafted(alloc, b'a')?;
    assert!(rt; first_place(alloc, &bytes)? == Some(4062));
    Ok(())
}

#[test]
fn blocks_in_order_are_passed(rt: HostRuntime) -> Result<(), Fail> {
    let alloc = rt.alloc();
    let same = crafted(alloc, b'm')?;
    assert!(rt; first_place(alloc, &same)? == None);
    let higher = crafted(alloc, b'n')?;
    assert!(rt; first_place(alloc, &higher)? == None);
    Ok(())
}
