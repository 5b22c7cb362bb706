//! What the body of an entry leads to, in memory or in a log.

ghost use Rattle.std.specs.Prelude.{◌≡◌, IfErr, IfSome, Some, IsErrOf};
ghost use Rattle.std.specs.Option.{option_copied};
ghost use Rattle.vl_disk.specs.Faults.{HasCause};
ghost use Rattle.vl_disk.specs.declared.name.Name.TheVariants as names;
ghost use Rattle.vl_table.specs.body.Founds.{found_of};
ghost use Rattle.vl_model.specs.Keys.{Stored};
ghost use Rattle.vl_version.specs.Answers.{Fills, Gives, IsFound};
ghost use Rattle.vl_version.specs.Faults.{Failed};
ghost use Rattle.vl_version.specs.Naming.{IsLogFault, IsLogOf};
ghost use Rattle.vl_version.specs.Near.{IsNear, IsNearEntry};
ghost use Rattle.vl_version.specs.Newest.{newest_entry};
ghost use Rattle.vl_version.specs.Sources.{AreRising, AreTold, log_in, stored_in};
ghost use Rattle.vl_version.specs.Values.{FillsFar, GivesFar, IsPut};
ghost use Rattle.vl_disk.specs.declared.read_fault.ReadFault.TheVariants as why;

use crate::Found;
use crate::newest::Newest;
use std::alloc::Global;
use vl_disk::{HeldFile, Name, ReadFault, Reader};
use vl_model::{Body, Entry, Pointer, Value};
use vl_seglog::{Filled, SealedLog};
use vl_table::{Found as TableFound, FoundBody};

/// The value to which what counts of a key leads; none where that is a deletion, or nothing.
pub fn resolve_newest<H: HeldFile, R: Reader<Held = H>>(
    alloc: Global,
    reader: &mut R,
    logs: &[SealedLog<H>],
    key: &[u8],
    newest: Newest<'_>,
) -> Result<Option<Value>, ReadFault>
    ensures cause { HasCause (R.faults reader.old) (R.faults reader.new) (Failed result) }
    ensures near { IfSome (newest_entry key.now newest.entry) IsNearEntry → Failed result → ⊥ }
    ensures answers { AreTold H.bytes logs.now → Gives (stored_in H.bytes logs.now) (newest_entry key.now newest.entry) result }
    ensures fault { IfErr result (IsLogFault logs.now) }
{
    match newest {
        Newest::None => Ok(None),
        Newest::Held(entry) => resolve(alloc, reader, logs, entry),
        Newest::Tabled(found) => resolve_found(alloc, reader, logs, key, &found),
    }
}

/// The same without memory: the value is read to the front of the caller's bytes, where it fits.
pub fn resolve_newest_into<H: HeldFile, R: Reader<Held = H>>(
    reader: &mut R,
    logs: &[SealedLog<H>],
    key: &[u8],
    newest: Newest<'_>,
    out: &mut [u8],
) -> Result<Found, ReadFault>
    ensures cause { HasCause (R.faults reader.old) (R.faults reader.new) (Failed result) }
    ensures near { IfSome (newest_entry key.now newest.entry) IsNearEntry → Failed result → ⊥ }
    ensures answers { AreTold H.bytes logs.now
        → Fills (stored_in H.bytes logs.now) (newest_entry key.now newest.entry) out.old out.new result }
    ensures no_memory { IsErrOf result why.NoMemory → ⊥ }
{
    match newest {
        Newest::None => Ok(Found::None),
        Newest::Held(entry) => resolve_into(reader, logs, entry, out),
        Newest::Tabled(found) => resolve_found_into(reader, logs, key, &found, out),
    }
}

/// The value to which an entry leads; none where it is a deletion's. A value in memory is shared, and not copied.
pub fn resolve<H: HeldFile, R: Reader<Held = H>>(
    alloc: Global,
    reader: &mut R,
    logs: &[SealedLog<H>],
    entry: &Entry,
) -> Result<Option<Value>, ReadFault>
    ensures cause { HasCause (R.faults reader.old) (R.faults reader.new) (Failed result) }
    ensures near { IsNear entry.now.body → Failed result → ⊥ }
    ensures answers { AreTold H.bytes logs.now → Gives (stored_in H.bytes logs.now) (Some entry.now) result }
    ensures fault { IfErr result (IsLogFault logs.now) }
{
    match &entry.body {
        Body::Inline(value) => Ok(Some(value.share()?)),
        Body::Logged(value, _) => Ok(Some(value.share()?)),
        Body::Gone => Ok(None),
        Body::Far(pointer) => {
            let value = read_far(alloc, reader, logs, *pointer, entry.key.as_slice())?;
            Ok(Some(value))
        }
    }
}

// The same without memory.
fn resolve_into<H: HeldFile, R: Reader<Held = H>>(
    reader: &mut R,
    logs: &[SealedLog<H>],
    entry: &Entry,
    out: &mut [u8],
) -> Result<Found, ReadFault>
    ensures cause { HasCause (R.faults reader.old) (R.faults reader.new) (Failed result) }
    ensures near { IsNear entry.now.body → Failed result → ⊥ }
    ensures answers { AreTold H.bytes logs.now
        → Fills (stored_in H.bytes logs.now) (Some entry.now) out.old out.new result }
    ensures no_memory { IsErrOf result why.NoMemory → ⊥ }
{
    match &entry.body {
        Body::Inline(value) => Ok(put(value.as_slice(), out)),
        Body::Logged(value, _) => Ok(put(value.as_slice(), out)),
        Body::Gone => Ok(Found::None),
        Body::Far(pointer) => read_far_into(reader, logs, *pointer, entry.key.as_slice(), out),
    }
}

// The value to which what a table has of a key leads. A value that stands beside its key is copied.
fn resolve_found<H: HeldFile, R: Reader<Held = H>>(
    alloc: Global,
    reader: &mut R,
    logs: &[SealedLog<H>],
    key: &[u8],
    found: &TableFound,
) -> Result<Option<Value>, ReadFault>
    ensures cause { HasCause (R.faults reader.old) (R.faults reader.new) (Failed result) }
    ensures near { IsNearEntry (found_of key.now found.now) → Failed result → ⊥ }
    ensures answers { AreTold H.bytes logs.now
        → Gives (stored_in H.bytes logs.now) (Some (found_of key.now found.now)) result }
    ensures fault { IfErr result (IsLogFault logs.now) }
{
    match &found.body {
        FoundBody::Inline(value) => {
            let copy = Value::copy_of(alloc, value.as_slice(), value.tag())?;
            Ok(Some(copy))
        }
        FoundBody::Gone => Ok(None),
        FoundBody::Far(pointer) => {
            let value = read_far(alloc, reader, logs, *pointer, key)?;
            Ok(Some(value))
        }
    }
}

// The same without memory.
fn resolve_found_into<H: HeldFile, R: Reader<Held = H>>(
    reader: &mut R,
    logs: &[SealedLog<H>],
    key: &[u8],
    found: &TableFound,
    out: &mut [u8],
) -> Result<Found, ReadFault>
    ensures cause { HasCause (R.faults reader.old) (R.faults reader.new) (Failed result) }
    ensures near { IsNearEntry (found_of key.now found.now) → Failed result → ⊥ }
    ensures answers { AreTold H.bytes logs.now
        → Fills (stored_in H.bytes logs.now) (Some (found_of key.now found.now)) out.old out.new result }
    ensures no_memory { IsErrOf result why.NoMemory → ⊥ }
{
    match &found.body {
        FoundBody::Inline(value) => Ok(put(value.as_slice(), out)),
        FoundBody::Gone => Ok(Found::None),
        FoundBody::Far(pointer) => read_far_into(reader, logs, *pointer, key, out),
    }
}

// Copies a value's bytes to the front of these, where they fit.
fn put(bytes: &[u8], out: &mut [u8]) -> Found
    ensures { (value : Stored) → value.bytes ≡ bytes.now → IsPut value out.old out.new result }
{
    if bytes.len() > out.len() {
        return Found::Small(bytes.len());
    }
    out[..bytes.len()].copy_from_slice(bytes);
    Found::Here(bytes.len())
}

// The value of this key to which a pointer leads.
fn read_far<H: HeldFile, R: Reader<Held = H>>(
    alloc: Global,
    reader: &mut R,
    logs: &[SealedLog<H>],
    pointer: Pointer,
    key: &[u8],
) -> Result<Value, ReadFault>
    ensures cause { HasCause (R.faults reader.old) (R.faults reader.new) (Failed result) }
    ensures answers { AreTold H.bytes logs.now → GivesFar (stored_in H.bytes logs.now pointer key.now) pointer result }
    ensures fault { IfErr result (IsLogFault logs.now) }
{
    let Some(log) = log_of(logs, pointer.segment) else {
        return Err(nothing_at(pointer));
    };
    Ok(log.read_at(alloc, reader, pointer, key)?)
}

// The same to the front of these bytes.
fn read_far_into<H: HeldFile, R: Reader<Held = H>>(
    reader: &mut R,
    logs: &[SealedLog<H>],
    pointer: Pointer,
    key: &[u8],
    out: &mut [u8],
) -> Result<Found, ReadFault>
    ensures cause { HasCause (R.faults reader.old) (R.faults reader.new) (Failed result) }
    ensures answers { AreTold H.bytes logs.now
        → FillsFar (stored_in H.bytes logs.now pointer key.now) pointer out.old out.new result }
    ensures no_memory { IsErrOf result why.NoMemory → ⊥ }
{
    let Some(log) = log_of(logs, pointer.segment) else {
        return Err(nothing_at(pointer));
    };
    match log.read_into(reader, pointer, key, out)? {
        Filled::Here(len) => Ok(Found::Here(len)),
        Filled::Small(len) => Ok(Found::Small(len)),
    }
}

/// The log with this number, found by halving.
pub fn log_of<H: HeldFile>(logs: &[SealedLog<H>], number: u32) -> Option<&SealedLog<H>>
    ensures found { AreRising logs.now → option_copied result ≡ log_in logs.now number }
    ensures number { IfSome result (λ log. log.now.number ≡ number) }
    ensures among { IfSome result (λ log. IsLogOf logs.now (names.Log log.now.number)) }
{
    let at = logs.partition_point(|log| log.number < number);
    match logs.get(at) {
        Some(log) if log.number == number => Some(log),
        _ => None,
    }
}

// What is answered where no log has the pointer's segment as its number.
fn nothing_at(pointer: Pointer) -> ReadFault
    ensures { result ≡ why.Damaged (names.Log pointer.segment) pointer.place }
{
    ReadFault::Damaged {
        name: Name::Log(pointer.segment),
        place: pointer.place,
    }
}
