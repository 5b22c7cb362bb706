//! Merges of a table whose blocks stand, each with its check, and aren't in order.
ghost use Rattle.std.specs.Prelude.{All, IfOk};
ghost use Rattle.vl_disk.specs.Name.{IsNumbered};

use crate::tests::stores::{outcome_of, started, with};
use std::alloc::Global;
use std::test::Fail;
use vl_disk::Name;
use vl_mem::MemDisk;

/// The byte aa 64 times.
const SHORT: &str =
    "aaaaaaaaaaaaaaaaaaaaaaaaaaaaaaaaaaaaaaaaaaaaaaaaaaaaaaaaaaaaaaaaaaaaaaaaaaaaaaaaaaaaaaaaaaaaaaaaaaaaaaaaaaaaaaaaaaaaaaaaaaaaaaaa";

/// An entry of a key of two bytes has 79: 2 and 2, 8, a kind, a user byte, a length, and 64. So of sixty the first block has
/// 51, in a frame of 5 + 4 + 51 * 79 + 8 = 4046 bytes at 16, and the second begins at 4062, with 9 in 728 bytes.
const SECOND: usize = 4062;

const INDEX: usize = SECOND + 728;

/// Lines that make three tables more, so that a merge is due.
const OTHERS: &str = "\
    begin t\nset t ff 01\ncommit t\nrotate\nflush\n\
    begin t\nset t ff 02\ncommit t\nrotate\nflush\n\
    begin t\nset t ff 03\ncommit t\nrotate\nflush\n";

/// Lines that make table 1, of sixty keys that begin with a byte, and those.
fn lines(alloc: Global, first: &str) -> Result<String, Fail> {
    let mut lines = String::new(alloc);
    lines.push_str("begin t\n")?;
    for at in 10..70 {
        lines.push_str(&format!(in alloc; "set t {first}{at} {SHORT}\n")?)?;
    }
    lines.push_str("commit t\nrotate\nflush\n")?;
    lines.push_str(OTHERS)?;
    Ok(lines)
}

/// The disk behind these lines.
fn stored(alloc: Global, first: &str) -> Result<MemDisk, Fail> {
    let disk = MemDisk::new(alloc, Vec::new(alloc), Vec::new(alloc));
    let lines = lines(alloc, first)?;
    let (_, _, disk) = outcome_of(alloc, lines.as_str(), disk)?;
    Ok(disk)
}

/// The bytes between two places, none where there aren't so many.
fn between(bytes: &[u8], from: usize, to: usize) -> &[u8] {
    if from > to || to > bytes.len() {
        return &[];
    }
    &bytes[from..to]
}

/// A table's bytes, but the second block's are those of another one.
fn crafted(alloc: Global, own: &[u8], other: &[u8]) -> Result<Vec<u8>, Fail> {
    let mut bytes = Vec::new(alloc);
    bytes.extend_from_slice(between(own, 0, SECOND))?;
    bytes.extend_from_slice(between(other, SECOND, INDEX))?;
    bytes.extend_from_slice(between(own, INDEX, own.len()))?;
    Ok(bytes)
}

/// Table 1 of a disk with the second block that it has on another one.
fn crafted_table(alloc: Global, disk: &MemDisk, other: &MemDisk) -> Result<Vec<u8>, Fail> {
    let table = Name::Table(1);
    match (disk.bytes(table), other.bytes(table)) {
        (Some(own), Some(other)) => crafted(alloc, own, other),
        _ => Ok(Vec::new(alloc)),
    }
}

/// These files and the disk's of this name.
fn with_copy(
    alloc: Global,
    files: Vec<(Name, Vec<u8>)>,
    disk: &MemDisk,
    name: Name,
) -> Result<Vec<(Name, Vec<u8>)>, Fail>
    requires numbered { IsNumbered name }
    requires all { All (λ file. IsNumbered file.0) files.items }
    ensures { IfOk result (λ files. All (λ file. IsNumbered file.0) files.items) }
{
    match disk.bytes(name) {
        Some(bytes) => with(alloc, files, name, bytes),
        None => Ok(files),
    }
}

/// A store whose table 1 has keys that begin with m, but its second block those of keys that begin with another byte.
fn store(alloc: Global, second: &str) -> Result<MemDisk, Fail> {
    let disk = stored(alloc, "6d")?;
    let table = crafted_table(alloc, &disk, &stored(alloc, second)?)?;
    let files = with(alloc, Vec::new(alloc), Name::Table(1), table.as_slice())?;
    let files = with_copy(alloc, files, &disk, Name::Manifest(1))?;
    let files = with_copy(alloc, files, &disk, Name::Log(5))?;
    let files = with_copy(alloc, files, &disk, Name::Table(2))?;
    let files = with_copy(alloc, files, &disk, Name::Table(3))?;
    let files = with_copy(alloc, files, &disk, Name::Table(4))?;
    started(alloc, files, &[])
}

// The second block's first key is below the last of the first, and the merge reads tables 4, 3 and 2 before this one.
#[test]
fn a_merge_of_blocks_out_of_order_says_where(rt: HostRuntime) -> Result<(), Fail> {
    let alloc = rt.alloc();
    // The byte that the second block's keys begin with, what is printed, and the status.
    let cases = [("61", "damaged table 1 at 4062\n", 4), ("6d", "ok 61\n", 0)];
    for (second, wanted, status) in cases {
        let (found, printed, _) = outcome_of(alloc, "plan j\n", store(alloc, second)?)?;
        assert_eq!(rt; printed.as_slice(), wanted.as_bytes());
        assert_eq!(rt; found, status, "{wanted}");
    }
    Ok(())
}
