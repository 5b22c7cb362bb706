// The disk's calls that an opening makes while it only reads, each with the reason why it isn't opened then.
ghost use Rattle.std.specs.Prelude.{◌≡◌, ◌+◌, All, IfErr, IfOk, Some, length};
ghost use Rattle.std.specs.Option.{ForSome};
ghost use Rattle.vl_disk.specs.Calls.{ChangesNothing};
ghost use Rattle.vl_disk.specs.Disk.{IsInside, Lists, Stands};
ghost use Rattle.vl_disk.specs.DiskState.{bytes_at, file_at};
ghost use Rattle.vl_disk.specs.Name.{IsNumbered};
ghost use Rattle.vl_recover.specs.opening.Answers.{no_file};
ghost use Rattle.vl_recover.specs.opening.Finding.{IsExcused, IsFault, IsFaultOf};
ghost use Rattle.vl_recover.specs.opening.Named.{AreRising};

use crate::OpenError;
use crate::fails::NO_FILE;
use crate::names::in_order;
use std::alloc::Global;
use vl_disk::{Disk, DiskFail, Failed, Name, read_file};

/// The names of the files that stand, in their order.
pub fn list_names<D: Disk>(alloc: Global, disk: &mut D) -> Result<Vec<Name>, OpenError>
    ensures names { IfOk result (λ names. ForSome (D.told disk.old) (Lists names.items)) }
    ensures numbered { IfOk result (λ names. All IsNumbered names.items) }
    ensures rising { IfOk result (λ names. AreRising names.items) }
    ensures excused { IfErr result IsExcused }
    ensures at { IfErr result (IsFaultOf (λ at. at ≡ no_file)) }
    ensures no_change { ChangesNothing D.Watched disk.old disk.new (IsFault result) }
{
    match disk.list(alloc) {
        Ok(names) => Ok(in_order(names)),
        Err(DiskFail::NoMemory) => Err(OpenError::NoMemory),
        Err(DiskFail::Failed) => Err(OpenError::Disk { name: NO_FILE }),
    }
}

/// A whole file.
pub fn read_whole<D: Disk>(alloc: Global, disk: &mut D, name: Name) -> Result<Vec<u8>, OpenError>
    requires { ForSome (D.told disk.old) (Stands name) }
    ensures bytes { IfOk result (λ bytes. ForSome (D.told disk.old)
        (λ state. bytes.items ≡ (file_at state name).bytes)) }
    ensures excused { IfErr result IsExcused }
    ensures at { IfErr result (IsFaultOf (λ at. at ≡ name)) }
    ensures no_change { ChangesNothing D.Watched disk.old disk.new (IsFault result) }
{
    match read_file(alloc, disk, name) {
        Ok(bytes) => Ok(bytes),
        Err(DiskFail::NoMemory) => Err(OpenError::NoMemory),
        Err(DiskFail::Failed) => Err(OpenError::Disk { name }),
    }
}

/// A file's length, in bytes.
pub fn size_of<D: Disk>(disk: &mut D, name: Name) -> Result<u64, OpenError>
    requires { ForSome (D.told disk.old) (Stands name) }
    ensures size { IfOk result (λ size. ForSome (D.told disk.old)
        (λ state. size ≡ length (file_at state name).bytes)) }
    ensures excused { IfErr result IsExcused }
    ensures at { IfErr result (IsFaultOf (λ at. at ≡ name)) }
    ensures no_change { ChangesNothing D.Watched disk.old disk.new (IsFault result) }
{
    match disk.size(name) {
        Ok(size) => Ok(size),
        Err(Failed) => Err(OpenError::Disk { name }),
    }
}

/// So many bytes of a file from a place on.
pub fn read_part<D: Disk>(
    alloc: Global,
    disk: &mut D,
    name: Name,
    place: u64,
    count: u64,
) -> Result<Vec<u8>, OpenError>
    requires stands { ForSome (D.told disk.old) (Stands name) }
    requires inside { ForSome (D.told disk.old) (IsInside name (place + count)) }
    ensures bytes { IfOk result (λ bytes. ForSome (D.told disk.old)
        (λ state. bytes.items ≡ bytes_at place count (file_at state name).bytes)) }
    ensures count { IfOk result (λ bytes. length bytes.items ≡ count) }
    ensures excused { IfErr result IsExcused }
    ensures at { IfErr result (IsFaultOf (λ at. at ≡ name)) }
    ensures no_change { ChangesNothing D.Watched disk.old disk.new (IsFault result) }
{
    let mut bytes = Vec::new(alloc);
    bytes.resize(count as usize, 0)?;
    match disk.read(name, place, &mut bytes) {
        Ok(()) => Ok(bytes),
        Err(Failed) => Err(OpenError::Disk { name }),
    }
}

/// Holds a file as it is.
pub fn hold<D: Disk>(disk: &mut D, name: Name) -> Result<D::Held, OpenError>
    requires { ForSome (D.told disk.old) (Stands name) }
    ensures bytes { IfOk result (λ held. ForSome (D.told disk.old)
        (λ state. D.Held.bytes held ≡ Some (file_at state name).bytes)) }
    ensures excused { IfErr result IsExcused }
    ensures at { IfErr result (IsFaultOf (λ at. at ≡ name)) }
    ensures no_change { ChangesNothing D.Watched disk.old disk.new (IsFault result) }
{
    match disk.hold(name) {
        Ok(held) => Ok(held),
        Err(DiskFail::NoMemory) => Err(OpenError::NoMemory),
        Err(DiskFail::Failed) => Err(OpenError::Disk { name }),
    }
}
