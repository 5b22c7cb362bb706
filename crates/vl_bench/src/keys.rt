//! The keys, and the order in which they are gone through.

use anyhow::{Result, bail};
use std::alloc::Global;

/// In which order keys are gone through.
#[derive(Clone, Copy, Debug)]
pub enum Order {
    Rising,
    Scattered,
}

/// A prime, by whose multiples all keys are gone through, far apart.
const STEP: u64 = 2_654_435_761;

impl Order {
    /// The order of this name.
    pub fn named(name: &str) -> Result<Self> {
        match name {
            "rising" => Ok(Order::Rising),
            "scattered" => Ok(Order::Scattered),
            _ => bail!("the order is rising or scattered"),
        }
    }

    /// The place of the key that comes at this turn, among so many.
    pub fn at(self, turn: usize, count: usize) -> usize {
        match self {
            Order::Rising => turn,
            Order::Scattered => ((turn as u64).wrapping_mul(STEP) % (count.max(1) as u64)) as usize,
        }
    }
}

/// So many keys in rising order: of sixteen digits, of which the first are the same in all, or of eight bytes, of which the
/// first tell them apart.
pub fn keys(alloc: Global, spelling: &str, count: u64) -> Result<Vec<Vec<u8>>> {
    let mut keys = Vec::new(alloc);
    for n in 0..count {
        keys.push(key(alloc, spelling, n, u64::MAX / count.max(1))?)?;
    }
    Ok(keys)
}

fn key(alloc: Global, spelling: &str, n: u64, spread: u64) -> Result<Vec<u8>> {
    let mut key = Vec::new(alloc);
    match spelling {
        "digits" => key.extend_from_slice(format!(in alloc; "{n:016}")?.as_bytes())?,
        "bytes" => key.extend_from_slice(&n.wrapping_mul(spread).to_be_bytes())?,
        _ => bail!("keys are digits or bytes"),
    }
    Ok(key)
}
