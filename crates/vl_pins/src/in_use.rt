ghost use Rattle.std.specs.Prelude.{◌≡◌, ◌≤◌, ◌+◌, [], true, IfOk, IfSome, OnOk, vec_capacity, vec_len};
ghost use Rattle.vl_model.specs.Numbers.{has};
ghost use Rattle.vl_pins.specs.Files.{HasRoomIn, IsSameUse};
ghost use Rattle.vl_pins.specs.InUse.{but};

use std::alloc::{AllocError, Global};

/// The files of a store that are in use, of those that a step may retire: its tables, and its sealed logs, the earliest sealed
/// first.
#[derive(Drop)]
pub struct InUse {
    pub tables: Vec<u32>,
    pub logs: Vec<u32>,
}

impl InUse {
    /// None.
    pub fn new(alloc: Global) -> Self
        ensures tables { result.tables.items ≡ [] }
        ensures logs { result.logs.items ≡ [] }
    {
        InUse {
            tables: Vec::new(alloc),
            logs: Vec::new(alloc),
        }
    }

    /// Room for so many tables more, and for one log. It answers how many there may be then, with so many others.
    pub fn make_room(&mut self, tables: usize, others: usize) -> Result<usize, AllocError>
        ensures tables { self.new.tables.items ≡ self.old.tables.items }
        ensures logs { self.new.logs.items ≡ self.old.logs.items }
        ensures room { OnOk result (vec_len self.new.tables + tables ≤ vec_capacity self.new.tables) }
        ensures log_room { OnOk result (vec_len self.new.logs + 1 ≤ vec_capacity self.new.logs) }
        ensures all { IfOk result (λ all. all ≡ vec_len self.new.tables + vec_len self.new.logs + tables + others + 1) }
    {
        self.tables.reserve(tables)?;
        self.logs.reserve(1)?;
        match sum(self.tables.len(), self.logs.len(), tables, others) {
            None => Err(AllocError),
            Some(all) => Ok(all),
        }
    }
}

// What these come to, and one more.
fn sum(a: usize, b: usize, c: usize, d: usize) -> Option<usize>
    ensures { IfSome result (λ all. all ≡ a + b + c + d + 1) }
{
    a.checked_add(b)?
        .checked_add(c)?
        .checked_add(d)?
        .checked_add(1)
}

/// The same where they are kept.
pub fn room_in(
    in_use: &mut Option<InUse>,
    tables: usize,
    others: usize,
) -> Result<usize, AllocError>
    ensures same { IsSameUse in_use.old in_use.new }
    ensures room { IfOk result (λ all. HasRoomIn in_use.new tables others all) }
{
    match in_use {
        None => Err(AllocError),
        Some(in_use) => in_use.make_room(tables, others),
    }
}

/// A number isn't among these any more; whether it was.
pub fn take(numbers: &mut Vec<u32>, number: u32) -> bool
    ensures was { result ≡ has number numbers.old.items }
    ensures numbers { numbers.new.items ≡ but number numbers.old.items }
    ensures fewer { result ≡ true → vec_len numbers.new + 1 ≤ vec_len numbers.old }
    ensures length { vec_len numbers.new ≤ vec_len numbers.old }
    ensures capacity { vec_capacity numbers.new ≡ vec_capacity numbers.old }
{
    let before = numbers.len();
    numbers.retain(|other| *other != number);
    numbers.len() < before
}
