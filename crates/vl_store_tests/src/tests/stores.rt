//! Stores on disks in memory, by their bytes: what runs leave, and what a program before tags left; and runs over them.
ghost use Rattle.std.specs.Prelude.{All, IfOk};
ghost use Rattle.vl_disk.specs.Name.{IsNumbered};

use std::alloc::Global;
use std::test::Fail;
use vl_disk::Name;
use vl_io::{SliceSource, VecSink};
use vl_mem::MemDisk;
use vl_replay::{Ended, replay};

/// A replay of an input: what it prints, and its status.
#[derive(Clone, Copy)]
pub struct Case {
    pub input: &'static str,
    pub printed: &'static str,
    pub status: u8,
}

pub fn plain(input: &'static str, printed: &'static str, status: u8) -> Case {
    Case {
        input,
        printed,
        status,
    }
}

/// The status, what was printed, and the disk that is handed back.
pub fn outcome_over(
    alloc: Global,
    case: &Case,
    disk: MemDisk,
) -> Result<(u8, Vec<u8>, MemDisk), Fail> {
    outcome_of(alloc, case.input, disk)
}

pub fn outcome_of(
    alloc: Global,
    input: &str,
    disk: MemDisk,
) -> Result<(u8, Vec<u8>, MemDisk), Fail> {
    let mut source = SliceSource::new(input.as_bytes(), Vec::new(alloc));
    let mut sink = VecSink::new(alloc, 16_384, Vec::new(alloc))?;
    let Ended { ending, disk } = replay(alloc, &mut source, &mut sink, disk);
    Ok((ending.status(), sink.into_bytes(), disk))
}

/// The manifest of a new store.
pub const MANIFEST_BYTES: [u8; 55] = [
    0x56, 0x4d, 0x41, 0x4e, 0, 0, 0, 4, 0, 0, 0, 1, 0, 0, 0, 0, 6, 0, 0, 0, 0x1a, 0, 0, 0, 2, 3, 0,
    0, 0, 1, 0, 0, 0, 0, 0, 0, 0, 0, 4, 0, 0, 0, 1, 0, 0, 0, 1, 0x8d, 0xf1, 0xd8, 0x60, 0x1b, 0xeb,
    0xe2, 0xd7,
];

/// The log with the commit 1 of key 61 with value 01, whose record stands at 33.
pub const LOG_BYTES: [u8; 51] = [
    0x56, 0x4c, 0x4f, 0x47, 0, 0, 0, 2, 0, 0, 0, 1, 0, 0, 0, 0, 1, 0, 0, 0, 0x16, 0, 0, 0, 0, 0, 0,
    0, 1, 0, 0, 0, 1, 0, 0, 0, 1, 0, 0, 0, 1, 0x61, 1, 0xd9, 0x71, 0x36, 0x59, 0xc0, 0xcd, 0x76,
    0xed,
];

/// That log with a relocation of the record behind its commit.
pub const MOVED_LOG_BYTES: [u8; 86] = [
    0x56, 0x4c, 0x4f, 0x47, 0, 0, 0, 2, 0, 0, 0, 1, 0, 0, 0, 0, 1, 0, 0, 0, 0x16, 0, 0, 0, 0, 0, 0,
    0, 1, 0, 0, 0, 1, 0, 0, 0, 1, 0, 0, 0, 1, 0x61, 1, 0xd9, 0x71, 0x36, 0x59, 0xc0, 0xcd, 0x76,
    0xed, 2, 0, 0, 0, 0x16, 0, 0, 0, 1, 0, 0, 0, 0, 0, 0, 0, 1, 0, 0, 0, 1, 0, 0, 0, 1, 0x61, 1,
    0x69, 0x78, 0x97, 0xb0, 0xbc, 0x24, 8, 0xc2,
];

/// What the manifest says that is made where that store is opened again, with a commit in its log.
pub const SECOND_MANIFEST_BYTES: [u8; 55] = [
    0x56, 0x4d, 0x41, 0x4e, 0, 0, 0, 4, 0, 0, 0, 2, 0, 0, 0, 0, 6, 0, 0, 0, 0x1a, 0, 0, 0, 2, 3, 0,
    0, 0, 1, 0, 0, 0, 0, 0, 0, 0, 0, 4, 0, 0, 0, 2, 0, 0, 0, 1, 0x45, 0xb6, 3, 0xbe, 0, 0x1a, 0x6a,
    0xa0,
];

/// And where it is opened once more, with one in log 2.
pub const THIRD_MANIFEST_BYTES: [u8; 55] = [
    0x56, 0x4d, 0x41, 0x4e, 0, 0, 0, 4, 0, 0, 0, 3, 0, 0, 0, 0, 6, 0, 0, 0, 0x1a, 0, 0, 0, 2, 3, 0,
    0, 0, 1, 0, 0, 0, 0, 0, 0, 0, 0, 4, 0, 0, 0, 3, 0, 0, 0, 1, 0xdc, 0x9e, 7, 0x5b, 0xfa, 0x88,
    0xa7, 0x55,
];

/// Log 2 with the commit 2 of key 61 with value 02.
pub const SECOND_LOG_BYTES: [u8; 51] = [
    0x56, 0x4c, 0x4f, 0x47, 0, 0, 0, 2, 0, 0, 0, 2, 0, 0, 0, 0, 1, 0, 0, 0, 0x16, 0, 0, 0, 0, 0, 0,
    0, 2, 0, 0, 0, 1, 0, 0, 0, 1, 0, 0, 0, 1, 0x61, 2, 0x73, 0x93, 0xc6, 0, 0x25, 0xed, 0xe0, 0x9d,
];

/// Log 3 with the commit 3 of key 62 with value 03.
pub const THIRD_LOG_BYTES: [u8; 51] = [
    0x56, 0x4c, 0x4f, 0x47, 0, 0, 0, 2, 0, 0, 0, 3, 0, 0, 0, 0, 1, 0, 0, 0, 0x16, 0, 0, 0, 0, 0, 0,
    0, 3, 0, 0, 0, 1, 0, 0, 0, 1, 0, 0, 0, 1, 0x62, 3, 0x76, 0xae, 0xe9, 0x2a, 0xc1, 0xb6, 0x5f,
    0xfa,
];

/// The header of log 2.
pub const SECOND_LOG_HEADER: [u8; 16] = [
    0x56, 0x4c, 0x4f, 0x47, 0, 0, 0, 2, 0, 0, 0, 2, 0, 0, 0, 0,
];

/// The manifest of a new store, in format 5.
pub const NEWER_MANIFEST: [u8; 55] = [
    0x56, 0x4d, 0x41, 0x4e, 0, 0, 0, 5, 0, 0, 0, 1, 0, 0, 0, 0, 6, 0, 0, 0, 0x1a, 0, 0, 0, 2, 3, 0,
    0, 0, 1, 0, 0, 0, 0, 0, 0, 0, 0, 4, 0, 0, 0, 1, 0, 0, 0, 1, 0x8d, 0xf1, 0xd8, 0x60, 0x1b, 0xeb,
    0xe2, 0xd7,
];

/// A manifest whose first frame has no Next.
pub const DAMAGED_MANIFEST: [u8; 46] = [
    0x56, 0x4d, 0x41, 0x4e, 0, 0, 0, 4, 0, 0, 0, 1, 0, 0, 0, 0, 6, 0, 0, 0, 0x11, 0, 0, 0, 1, 3, 0,
    0, 0, 1, 0, 0, 0, 0, 0, 0, 0, 0, 0xa7, 0x84, 0xb9, 0xe1, 3, 0x43, 0xdb, 0x2c,
];

/// A manifest behind whose last log none can be made.
pub const LAST_LOG_MANIFEST: [u8; 55] = [
    0x56, 0x4d, 0x41, 0x4e, 0, 0, 0, 4, 0, 0, 0, 1, 0, 0, 0, 0, 6, 0, 0, 0, 0x1a, 0, 0, 0, 2, 3, 0,
    0, 0, 1, 0, 0, 0, 0, 0, 0, 0, 0, 4, 0xff, 0xff, 0xff, 0xff, 0, 0, 0, 1, 0x0d, 0x16, 0xf4, 0x75,
    0x37, 0x26, 0xc5, 0x74,
];

/// A manifest without logs that covers the commits up to the last number that one may have, 9,223,372,036,854,775,806.
pub const LAST_COMMIT_MANIFEST: [u8; 55] = [
    0x56, 0x4d, 0x41, 0x4e, 0, 0, 0, 4, 0, 0, 0, 1, 0, 0, 0, 0, 6, 0, 0, 0, 0x1a, 0, 0, 0, 2, 3, 0,
    0, 0, 1, 0x7f, 0xff, 0xff, 0xff, 0xff, 0xff, 0xff, 0xfe, 4, 0, 0, 0, 1, 0, 0, 0, 1, 0x4c, 0x35,
    0x28, 0x27, 0xd1, 0x5a, 0x33, 0xeb,
];

/// A manifest with the greatest number, 4,294,967,294.
pub const LAST_MANIFEST: [u8; 55] = [
    0x56, 0x4d, 0x41, 0x4e, 0, 0, 0, 4, 0xff, 0xff, 0xff, 0xfe, 0, 0, 0, 0, 6, 0, 0, 0, 0x1a, 0, 0,
    0, 2, 3, 0, 0, 0, 1, 0, 0, 0, 0, 0, 0, 0, 0, 4, 0, 0, 0, 1, 0, 0, 0, 1, 0x43, 0x9f, 0x97, 0xe9,
    0x56, 0x12, 0xd6, 0x57,
];

/// The manifest that a program before tags wrote for a new store: all of it is of format 1.
pub const OLD_MANIFEST: [u8; 55] = [
    0x56, 0x4d, 0x41, 0x4e, 0, 0, 0, 1, 0, 0, 0, 1, 0, 0, 0, 0, 6, 0, 0, 0, 0x1a, 0, 0, 0, 2, 3, 0,
    0, 0, 1, 0, 0, 0, 0, 0, 0, 0, 0, 4, 0, 0, 0, 1, 0, 0, 0, 1, 0x8d, 0xf1, 0xd8, 0x60, 0x1b, 0xeb,
    0xe2, 0xd7,
];

/// Its log: commit 1 of keys 61 with value 01 and 62 with 65 bytes aa, and commit 2, which deletes 61 and sets 63 to
/// nothing.
pub const OLD_LOG: [u8; 164] = [
    0x56, 0x4c, 0x4f, 0x47, 0, 0, 0, 1, 0, 0, 0, 1, 0, 0, 0, 0, 1, 0, 0, 0, 0x5e, 0, 0, 0, 0, 0, 0,
    0, 1, 0, 0, 0, 2, 0, 0, 1, 0, 0, 0, 1, 0x61, 1, 0, 0, 1, 0, 0, 0, 0x41, 0x62, 0xaa, 0xaa, 0xaa,
    0xaa, 0xaa, 0xaa, 0xaa, 0xaa, 0xaa, 0xaa, 0xaa, 0xaa, 0xaa, 0xaa, 0xaa, 0xaa, 0xaa, 0xaa, 0xaa,
    0xaa, 0xaa, 0xaa, 0xaa, 0xaa, 0xaa, 0xaa, 0xaa, 0xaa, 0xaa, 0xaa, 0xaa, 0xaa, 0xaa, 0xaa, 0xaa,
    0xaa, 0xaa, 0xaa, 0xaa, 0xaa, 0xaa, 0xaa, 0xaa, 0xaa, 0xaa, 0xaa, 0xaa, 0xaa, 0xaa, 0xaa, 0xaa,
    0xaa, 0xaa, 0xaa, 0xaa, 0xaa, 0xaa, 0xaa, 0xaa, 0xaa, 0xaa, 0xaa, 0xaa, 0xaa, 0xaa, 0xc2, 0x82,
    0x41, 0x92, 0xa4, 0xd3, 0x0c, 0x27, 1, 0, 0, 0, 0x1c, 0, 0, 0, 0, 0, 0, 0, 2, 0, 0, 0, 2, 1, 0,
    1, 0, 0, 0, 0, 0x61, 0, 0, 1, 0, 0, 0, 0, 0x63, 0x11, 0xd3, 0xdf, 0xbd, 0xa4, 0xbb, 0xea, 0xdf,
];

/// What that program left where the store was opened again: a manifest,
pub const OLD_SECOND_MANIFEST: [u8; 55] = [
    0x56, 0x4d, 0x41, 0x4e, 0, 0, 0, 1, 0, 0, 0, 2, 0, 0, 0, 0, 6, 0, 0, 0, 0x1a, 0, 0, 0, 2, 3, 0,
    0, 0, 1, 0, 0, 0, 0, 0, 0, 0, 0, 4, 0, 0, 0, 2, 0, 0, 0, 1, 0x45, 0xb6, 3, 0xbe, 0, 0x1a, 0x6a,
    0xa0,
];

/// and log 2 with the commit 3 of key 61 with value 02.
pub const OLD_SECOND_LOG: [u8; 50] = [
    0x56, 0x4c, 0x4f, 0x47, 0, 0, 0, 1, 0, 0, 0, 2, 0, 0, 0, 0, 1, 0, 0, 0, 0x15, 0, 0, 0, 0, 0, 0,
    0, 3, 0, 0, 0, 1, 0, 0, 1, 0, 0, 0, 1, 0x61, 2, 0x96, 0x72, 9, 0xd5, 0xeb, 0x5a, 0xa0, 0x5d,
];

/// Files on which a disk is to be started, with one more.
pub fn with(
    alloc: Global,
    mut files: Vec<(Name, Vec<u8>)>,
    name: Name,
    bytes: &[u8],
) -> Result<Vec<(Name, Vec<u8>)>, Fail>
    requires numbered { IsNumbered name }
    requires all { All (λ file. IsNumbered file.0) files.items }
    ensures { IfOk result (λ files. All (λ file. IsNumbered file.0) files.items) }
{
    files.push((name, Vec::from_slice(alloc, bytes)?))?;
    Ok(files)
}

/// Manifest 1 and log 1, with these bytes.
pub fn store(alloc: Global, manifest: &[u8], log: &[u8]) -> Result<Vec<(Name, Vec<u8>)>, Fail>
    ensures { IfOk result (λ files. All (λ file. IsNumbered file.0) files.items) }
{
    let files = with(alloc, Vec::new(alloc), Name::Manifest(1), manifest)?;
    with(alloc, files, Name::Log(1), log)
}

/// A disk that was just started with these files, of whose changing calls these fail.
pub fn started(alloc: Global, files: Vec<(Name, Vec<u8>)>, failing: &[u64]) -> Result<MemDisk, Fail>
    requires { All (λ file. IsNumbered file.0) files.items }
{
    let failing = Vec::from_slice(alloc, failing)?;
    Ok(MemDisk::started(alloc, files, failing, Vec::new(alloc))?)
}

/// Whether a file stands and has these bytes.
pub fn holds(disk: &MemDisk, name: Name, bytes: &[u8]) -> bool {
    match disk.bytes(name) {
        Some(found) => found == bytes,
        None => false,
    }
}
