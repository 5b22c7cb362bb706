ghost use Rattle.std.specs.Prelude.{◌≡◌, ◌≤◌, ◌<◌, ◌+◌, ◌++◌, ◌∷◌, [], ℕ, OnOk, OnSome, None};
ghost use Rattle.std.specs.VecDeque.{deque_len, deque_capacity};
ghost use Rattle.vl_pins.specs.Files.{BecomesBy, HasRoom, TakesUpTo, left_at, log_retired, log_sealed, table_retired, with_tables};

use crate::in_use::{room_in, take};
use crate::trash::{Trash, place_up_to};
use crate::{InUse, RetiredFile};
use std::alloc::{AllocError, Global};
use std::collections::VecDeque;
use vl_disk::Name;

/// The files of a store: which are in use, and which wait for their removal.
#[derive(Drop)]
pub struct Stock<L> {
    /// None until a step first wants them.
    pub in_use: Option<InUse>,
    /// The retired files, the earliest retired first.
    pub trash: Trash<L>,
}

impl<L> Stock<L> {
    /// Nothing is known to be in use, and nothing waits.
    pub fn new(alloc: Global) -> Self
        ensures in_use { result.in_use ≡ None }
        ensures trash { result.trash.items ≡ [] }
    {
        Stock {
            in_use: None,
            trash: VecDeque::new(alloc),
        }
    }
}

impl<L: Drop> Stock<L> {
    /// Room for so many tables more and for one log, and for the retirement of each file, these and so many that are lent among
    /// them. Where it isn't known which are in use there is none.
    pub fn make_room(&mut self, tables: usize, lent: usize) -> Result<(), AllocError>
        ensures kept { BecomesBy (λ kept. kept) self.old self.new }
        ensures trash { self.new.trash.items ≡ self.old.trash.items }
        ensures capacity { deque_capacity self.old.trash ≤ deque_capacity self.new.trash }
        ensures none { self.old.in_use ≡ None → self.new.in_use ≡ None }
        ensures room { OnOk result (HasRoom self.new tables 1 lent) }
    {
        let all = room_in(&mut self.in_use, tables, lent)?;
        self.trash.reserve(all)
    }

    /// Room for so many files that are lent.
    pub fn make_room_for_lent(&mut self, lent: usize) -> Result<(), AllocError>
        ensures in_use { self.new.in_use ≡ self.old.in_use }
        ensures trash { self.new.trash.items ≡ self.old.trash.items }
        ensures capacity { deque_capacity self.old.trash ≤ deque_capacity self.new.trash }
        ensures room { OnOk result (deque_len self.new.trash + lent ≤ deque_capacity self.new.trash) }
    {
        self.trash.reserve(lent)
    }

    /// A table comes into use, for which there is room.
    pub fn add_table(&mut self, table: u32)
        requires { HasRoom self.old 1 0 0 }
        ensures added { BecomesBy (with_tables (table ∷ [])) self.old self.new }
        ensures room { (t l n : ℕ) → HasRoom self.old (t + 1) l n → HasRoom self.new t l n }
    {
        if let Some(in_use) = &mut self.in_use {
            in_use.tables.push_reserved(table);
        }
    }

    /// So does a log that is sealed, for which there is room.
    pub fn add_log(&mut self, log: u32)
        requires { HasRoom self.old 0 1 0 }
        ensures sealed { BecomesBy (log_sealed log) self.old self.new }
        ensures trash { self.new.trash ≡ self.old.trash }
    {
        if let Some(in_use) = &mut self.in_use {
            in_use.logs.push_reserved(log);
        }
    }

    /// A table is retired by a step that made this epoch. One that isn't in use stays as it is.
    pub fn retire_table(&mut self, table: u32, epoch: u64)
        requires { HasRoom self.old 0 0 0 }
        ensures retired { BecomesBy (table_retired epoch table) self.old self.new }
        ensures room { (t l n : ℕ) → HasRoom self.old t l n → HasRoom self.new t l n }
    {
        if let Some(in_use) = &mut self.in_use {
            if take(&mut in_use.tables, table) {
                self.trash.push_back_reserved(RetiredFile {
                    name: Name::Table(table),
                    epoch,
                    lent: None,
                });
            }
        }
    }

    /// So is a log.
    pub fn retire_log(&mut self, log: u32, epoch: u64)
        requires { HasRoom self.old 0 0 0 }
        ensures retired { BecomesBy (log_retired epoch log) self.old self.new }
        ensures room { (t l n : ℕ) → HasRoom self.old t l n → HasRoom self.new t l n }
    {
        if let Some(in_use) = &mut self.in_use {
            if take(&mut in_use.logs, log) {
                self.trash.push_back_reserved(RetiredFile {
                    name: Name::Log(log),
                    epoch,
                    lent: None,
                });
            }
        }
    }

    /// The file of a table was lent to a merge which has ended without it. Where there is no room it is let go.
    pub fn leave(&mut self, table: u32, lent: L)
        ensures in_use { self.new.in_use ≡ self.old.in_use }
        ensures left { deque_len self.old.trash < deque_capacity self.old.trash
            → self.new.trash.items ≡ self.old.trash.items ++ left_at table lent ∷ [] }
        ensures length { deque_len self.new.trash ≤ deque_len self.old.trash + 1 }
        ensures capacity { deque_capacity self.new.trash ≡ deque_capacity self.old.trash }
        ensures full { deque_capacity self.old.trash ≤ deque_len self.old.trash → self.new.trash ≡ self.old.trash }
    {
        if self.trash.len() < self.trash.capacity() {
            self.trash.push_back_reserved(RetiredFile {
                name: Name::Table(table),
                epoch: 0,
                lent: Some(lent),
            });
        }
    }

    /// Takes the first file out that was retired at this number or below it, which is to be removed next.
    pub fn take_up_to(&mut self, bound: u64) -> Option<RetiredFile<L>>
        ensures taken { TakesUpTo bound self.old.trash.items self.new.trash.items result }
        ensures in_use { self.new.in_use ≡ self.old.in_use }
        ensures len { OnSome result (deque_len self.new.trash + 1 ≡ deque_len self.old.trash) }
        ensures capacity { deque_capacity self.new.trash ≡ deque_capacity self.old.trash }
    {
        let at = place_up_to(&self.trash, bound);
        self.trash.remove(at)
    }
}
