ghost use Rattle.std.specs.Prelude.{◌≡◌, ◌≤◌, ◌==◌, length, IsTrue, OnOk, OnErr};
ghost use Rattle.std.specs.List.{AllByRecursion, prefix_len};
ghost use Rattle.std.specs.Option.{option_copied};
ghost use Rattle.std.specs.FinMap as map;
ghost use Rattle.vl_model.specs.Formats.{log_format};
ghost use Rattle.vl_model.specs.Keys.{key_cmp, tagged, value_bytes};
ghost use Rattle.vl_model.specs.Limits.{max_key_bytes, max_transaction_bytes, max_transaction_keys, max_value_bytes};
ghost use Rattle.vl_model.specs.declared.change.Change.TheVariants.{Set, Delete};
ghost use Rattle.vl_txn.specs.Refusals.{IsWritten, IsAllowed, HasSizes, write_bytes};
ghost use Rattle.vl_txn.specs.Writes.{is_above, IsLawful};

use crate::{SetFail, check_key};
use std::alloc::{AllocError, Global};
use std::marker::Model;
use vl_model::{
    Change, Key, LOG_FORMAT, MAX_TRANSACTION_BYTES, MAX_TRANSACTION_KEYS, Value, is_value_len,
    key_order,
};

/// What a transaction has written: its keys in order, each with the last write of it.
#[derive(Drop)]
pub struct Writes {
    entries: Vec<(Key, Change)>,
    bytes: usize,
}

impl Model for Writes {
    ghost use Rattle.vl_model.specs.Keys.{Writes};
    ghost use Rattle.vl_txn.specs.Writes.{coded_writes, writes_of, AreWrites};

    ghost Value = { Writes };

    ghost coded = { coded_writes };

    ghost view = { λ a. writes_of a.entries.items };

    ghost invariant = { λ a. AreWrites a.entries.items a.bytes };
}

impl Writes {
    pub fn new(alloc: Global) -> Self
        ensures { result ≡ map.empty }
    {
        Writes {
            entries: Vec::new(alloc),
            bytes: 0,
        }
    }

    /// How many keys are written.
    pub fn len(&self) -> usize
        ensures value { result ≡ map.len self.now }
        ensures few { result ≤ max_transaction_keys }
    {
        self.entries.len()
    }

    pub fn is_empty(&self) -> bool
        ensures { result ≡ (map.len self.now == 0) }
    {
        self.entries.is_empty()
    }

    /// The bytes of the keys and of their values.
    pub fn bytes(&self) -> usize
        ensures value { result ≡ write_bytes self.now }
        ensures bounded { result ≤ max_transaction_bytes }
    {
        self.bytes
    }

    /// The last write of a key.
    pub fn get(&self, key: &[u8]) -> Option<&Change>
        ensures { option_copied result ≡ map.get self.now key.now }
    {
        match self.entries.get(place(&self.entries, key)) {
            Some((held, change)) if key == held.as_slice() => Some(change),
            _ => None,
        }
    }

    /// Writes a value of these bytes and this tag, in the place of an earlier write of its key.
    pub fn set(&mut self, key: &[u8], value: &[u8], tag: u8) -> Result<(), SetFail>
        ensures { IsWritten self.old key.now (Set (tagged value.now tag)) self.new result }
    {
        let bytes = self.allow(key, value.len())?;
        let value = Value::copy_of(*self.entries.allocator(), value, tag)?;
        self.insert(key, Change::Set(value), bytes)?;
        Ok(())
    }

    /// Writes that a key is deleted, in the place of an earlier write of it.
    pub fn delete(&mut self, key: &[u8]) -> Result<(), SetFail>
        ensures { IsWritten self.old key.now Delete self.new result }
    {
        let bytes = self.allow(key, 0)?;
        self.insert(key, Change::Delete, bytes)?;
        Ok(())
    }

    /// The keys in order, each with its change.
    pub fn as_slice(&self) -> &[(Key, Change)]
        ensures entries { result.now ≡ map.entries self.now }
        ensures rising { IsTrue (map.is_sorted key_cmp result.now) }
        ensures lawful { AllByRecursion IsLawful result.now }
    {
        &self.entries
    }

    /// The keys in order, each with its change.
    pub fn into_entries(self) -> Vec<(Key, Change)>
        ensures { result.items ≡ map.entries self }
    {
        self.entries
    }

    // The bytes that there are with a write of a value of this length, where it isn't refused.
    fn allow(&self, key: &[u8], value_len: usize) -> Result<usize, SetFail>
        ensures { IsAllowed self.now key.now value_len result }
    {
        check_key(key)?;
        if !is_value_len(LOG_FORMAT, value_len) {
            return Err(SetFail::ValueTooLong);
        }
        let (keys, bytes) = self.sizes_with(key, value_len);
        if keys > MAX_TRANSACTION_KEYS || bytes > MAX_TRANSACTION_BYTES {
            return Err(SetFail::TooBig);
        }
        Ok(bytes)
    }

    // How many keys and bytes there are with a write of a value of this length, in the place of an earlier one of its key.
    fn sizes_with(&self, key: &[u8], value_len: usize) -> (usize, usize)
        requires key { length key.now ≤ max_key_bytes }
        requires value { value_len ≤ max_value_bytes log_format }
        ensures { HasSizes self.now key.now value_len result }
    {
        match self.get(key) {
            Some(replaced) => (self.len(), self.bytes - replaced.value_len() + value_len),
            None => (self.len() + 1, self.bytes + key.len() + value_len),
        }
    }

    // Makes a write that is allowed.
    fn insert(&mut self, key: &[u8], change: Change, bytes: usize) -> Result<(), AllocError>
        requires { IsAllowed self.old key.now (length (value_bytes change)) (Ok bytes) }
        ensures ok { OnOk result (self.new ≡ map.insert self.old key.now change) }
        ensures err { OnErr result (self.new ≡ self.old) }
    {
        put(&mut self.entries, key, change)?;
        self.bytes = bytes;
        Ok(())
    }
}

// How many of the entries have a key below this one.
fn place(entries: &[(Key, Change)], key: &[u8]) -> usize
    requires { IsTrue (map.is_sorted key_cmp entries.now) }
    ensures { result ≡ prefix_len (is_above key.now) entries.now }
{
    entries.partition_point(|entry| key_order(key, entry.0.as_slice()).is_gt())
}

// Writes a key, in the place of an earlier write of it.
fn put(entries: &mut Vec<(Key, Change)>, key: &[u8], change: Change) -> Result<(), AllocError>
    requires { IsTrue (map.is_sorted key_cmp entries.old.items) }
    ensures ok { OnOk result (entries.new.items ≡ map.put key_cmp key.now change entries.old.items) }
    ensures err { OnErr result (entries.new.items ≡ entries.old.items) }
{
    let at = place(entries, key);
    if at < entries.len() && key == entries[at].0.as_slice() {
        entries[at].1 = change;
    } else {
        let key = Key::copy_of(*entries.allocator(), key)?;
        entries.insert(at, (key, change))?;
    }
    Ok(())
}
