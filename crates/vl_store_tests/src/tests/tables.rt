//! Stores with tables that are opened again: files that were changed, steps that fail, and versions that are kept.
ghost use Rattle.std.specs.Prelude.{All, IfOk};
ghost use Rattle.vl_disk.specs.Name.{IsNumbered};

use crate::tests::stores::{outcome_of, outcome_over, plain, started, store, with};
use std::alloc::Global;
use std::test::Fail;
use vl_disk::Name;
use vl_mem::{MemDisk, Outcome};

/// What a program before tags left of a store whose one log it sealed and flushed: the manifest, with a switch to the table,
const OLD_FLUSHED_MANIFEST: [u8; 104] = [
    0x56, 0x4d, 0x41, 0x4e, 0, 0, 0, 1, 0, 0, 0, 1, 0, 0, 0, 0, 6, 0, 0, 0, 0x1a, 0, 0, 0, 2, 3, 0,
    0, 0, 1, 0, 0, 0, 0, 0, 0, 0, 0, 4, 0, 0, 0, 1, 0, 0, 0, 1, 0x8d, 0xf1, 0xd8, 0x60, 0x1b, 0xeb,
    0xe2, 0xd7, 6, 0, 0, 0, 0x24, 0, 0, 0, 3, 1, 0, 0, 0, 0, 0, 0, 0, 0, 1, 3, 0, 0, 0, 2, 0, 0, 0,
    0, 0, 0, 0, 1, 4, 0, 0, 0, 3, 0, 0, 0, 2, 0x4b, 0xd5, 0x4e, 0x7a, 0x30, 0x99, 0xd5, 0x5b,
];

/// the log, with the commit 1 of key 61 with 64 bytes aa and 62 with 65 of them,
const OLD_FLUSHED_LOG: [u8; 186] = [
    0x56, 0x4c, 0x4f, 0x47, 0, 0, 0, 1, 0, 0, 0, 1, 0, 0, 0, 0, 1, 0, 0, 0, 0x9d, 0, 0, 0, 0, 0, 0,
    0, 1, 0, 0, 0, 2, 0, 0, 1, 0, 0, 0, 0x40, 0x61, 0xaa, 0xaa, 0xaa, 0xaa, 0xaa, 0xaa, 0xaa, 0xaa,
    0xaa, 0xaa, 0xaa, 0xaa, 0xaa, 0xaa, 0xaa, 0xaa, 0xaa, 0xaa, 0xaa, 0xaa, 0xaa, 0xaa, 0xaa, 0xaa,
    0xaa, 0xaa, 0xaa, 0xaa, 0xaa, 0xaa, 0xaa, 0xaa, 0xaa, 0xaa, 0xaa, 0xaa, 0xaa, 0xaa, 0xaa, 0xaa,
    0xaa, 0xaa, 0xaa, 0xaa, 0xaa, 0xaa, 0xaa, 0xaa, 0xaa, 0xaa, 0xaa, 0xaa, 0xaa, 0xaa, 0xaa, 0xaa,
    0xaa, 0xaa, 0xaa, 0xaa, 0xaa, 0xaa, 0xaa, 0xaa, 0, 0, 1, 0, 0, 0, 0x41, 0x62, 0xaa, 0xaa, 0xaa,
    0xaa, 0xaa, 0xaa, 0xaa, 0xaa, 0xaa, 0xaa, 0xaa, 0xaa, 0xaa, 0xaa, 0xaa, 0xaa, 0xaa, 0xaa, 0xaa,
    0xaa, 0xaa, 0xaa, 0xaa, 0xaa, 0xaa, 0xaa, 0xaa, 0xaa, 0xaa, 0xaa, 0xaa, 0xaa, 0xaa, 0xaa, 0xaa,
    0xaa, 0xaa, 0xaa, 0xaa, 0xaa, 0xaa, 0xaa, 0xaa, 0xaa, 0xaa, 0xaa, 0xaa, 0xaa, 0xaa, 0xaa, 0xaa,
    0xaa, 0xaa, 0xaa, 0xaa, 0xaa, 0xaa, 0xaa, 0xaa, 0xaa, 0xaa, 0xaa, 0xaa, 0xaa, 0xaa, 0xcf, 0x76,
    0xda, 0x52, 0x1a, 0xa2, 0x58, 0x2b,
];

/// the next log,
const OLD_SECOND_LOG_HEADER: [u8; 16] = [
    0x56, 0x4c, 0x4f, 0x47, 0, 0, 0, 1, 0, 0, 0, 2, 0, 0, 0, 0,
];

/// and the table, whose entry of 62 leads into the log.
const OLD_TABLE: [u8; 241] = [
    0x56, 0x54, 0x41, 0x42, 0, 0, 0, 1, 0, 0, 0, 1, 0, 0, 0, 0, 3, 0, 0, 0, 0x6d, 0, 0, 0, 2, 0, 1,
    0x61, 0, 0, 0, 0, 0, 0, 0, 1, 0, 0x40, 0xaa, 0xaa, 0xaa, 0xaa, 0xaa, 0xaa, 0xaa, 0xaa, 0xaa,
    0xaa, 0xaa, 0xaa, 0xaa, 0xaa, 0xaa, 0xaa, 0xaa, 0xaa, 0xaa, 0xaa, 0xaa, 0xaa, 0xaa, 0xaa, 0xaa,
    0xaa, 0xaa, 0xaa, 0xaa, 0xaa, 0xaa, 0xaa, 0xaa, 0xaa, 0xaa, 0xaa, 0xaa, 0xaa, 0xaa, 0xaa, 0xaa,
    0xaa, 0xaa, 0xaa, 0xaa, 0xaa, 0xaa, 0xaa, 0xaa, 0xaa, 0xaa, 0xaa, 0xaa, 0xaa, 0xaa, 0xaa, 0xaa,
    0xaa, 0xaa, 0xaa, 0xaa, 0xaa, 0xaa, 0xaa, 0, 1, 0x62, 0, 0, 0, 0, 0, 0, 0, 1, 2, 0, 0, 0, 1, 0,
    0, 0, 0, 0, 0, 0, 0x69, 0, 0, 0, 0x49, 0xae, 0x33, 0xfb, 0x36, 0x38, 0x17, 0xdc, 0x47, 4, 0, 0,
    0, 0x13, 0, 0, 0, 1, 0, 0, 0, 0, 0, 0, 0, 0x10, 0, 0, 0, 0x7a, 0, 1, 0x62, 0x3b, 0x2c, 0x27,
    0xdb, 0xc3, 0x3d, 0x44, 0x32, 5, 0, 0, 0, 0x32, 0, 0, 0, 0, 0, 0, 0, 0x8a, 0, 0, 0, 0x20, 0, 0,
    0, 0, 0, 0, 0, 2, 0, 0, 0, 0, 0, 0, 0, 1, 0, 1, 0x61, 0, 1, 0x62, 0, 0, 0, 1, 0, 0, 0, 1, 0, 0,
    0, 0, 0, 0, 0, 0x49, 0x68, 0xdb, 0xc1, 0x59, 0x5b, 0x97, 0x65, 0x46, 0, 0, 0, 0, 0, 0, 0, 0xaa,
];

/// The lines that make table 1, of the commit 1 of key 61 with 64 bytes aa and 62 with 65 of them.
const FLUSHED: &str = "\
    begin t\n\
    set t 61 aaaaaaaaaaaaaaaaaaaaaaaaaaaaaaaaaaaaaaaaaaaaaaaaaaaaaaaaaaaaaaaaaaaaaaaaaaaaaaaaaaaaaaaaaaaaaaaaaaaaaaaaaaaaaaaaaaaaaaaaaaaaaaaa\n\
    set t 62 aaaaaaaaaaaaaaaaaaaaaaaaaaaaaaaaaaaaaaaaaaaaaaaaaaaaaaaaaaaaaaaaaaaaaaaaaaaaaaaaaaaaaaaaaaaaaaaaaaaaaaaaaaaaaaaaaaaaaaaaaaaaaaaaaa\n\
    commit t\nrotate\nflush\n";

/// Lines that read its short value and its long one, and a pass over its log.
const FIRST: &str = "view v\nget v 61\n";

const SECOND: &str = "view v\nget v 62\n";

const PASS: &str = "pick g 1\nbatch g\n";

/// Its longer value.
pub const LONG: &str =
    "aaaaaaaaaaaaaaaaaaaaaaaaaaaaaaaaaaaaaaaaaaaaaaaaaaaaaaaaaaaaaaaaaaaaaaaaaaaaaaaaaaaaaaaaaaaaaaaaaaaaaaaaaaaaaaaaaaaaaaaaaaaaaaaaaa";

/// What a view prints of it.
const LONG_VALUE: &str =
    "ok 1\nvalue aaaaaaaaaaaaaaaaaaaaaaaaaaaaaaaaaaaaaaaaaaaaaaaaaaaaaaaaaaaaaaaaaaaaaaaaaaaaaaaaaaaaaaaaaaaaaaaaaaaaaaaaaaaaaaaaaaaaaaaaaaaaaaaaaa\n";

/// What happens to one file.
#[derive(Clone, Copy)]
enum Change {
    Gone,
    Cut(usize),
    Flipped(usize),
}

/// Its bytes behind that; none where it is gone.
fn changed(alloc: Global, bytes: &[u8], change: Change) -> Result<Option<Vec<u8>>, Fail> {
    let mut copy = Vec::from_slice(alloc, bytes)?;
    match change {
        Change::Gone => return Ok(None),
        Change::Cut(length) => copy.truncate(length),
        Change::Flipped(place) => {
            if let Some(byte) = copy.get_mut(place) {
                *byte ^= 1;
            }
        }
    }
    Ok(Some(copy))
}

/// These files and the disk's of this name, behind what happens to one of them.
fn with_copy(
    alloc: Global,
    files: Vec<(Name, Vec<u8>)>,
    disk: &MemDisk,
    name: Name,
    at: (Name, Change),
) -> Result<Vec<(Name, Vec<u8>)>, Fail>
    requires numbered { IsNumbered name }
    requires all { All (λ file. IsNumbered file.0) files.items }
    ensures { IfOk result (λ files. All (λ file. IsNumbered file.0) files.items) }
{
    let Some(bytes) = disk.bytes(name) else {
        return Ok(files);
    };
    if name != at.0 {
        return with(alloc, files, name, bytes);
    }
    match changed(alloc, bytes, at.1)? {
        Some(bytes) => with(alloc, files, name, bytes.as_slice()),
        None => Ok(files),
    }
}

/// A disk with the files of the store with one table, of which one was changed.
fn flushed_but(alloc: Global, at: (Name, Change)) -> Result<MemDisk, Fail> {
    let disk = MemDisk::new(alloc, Vec::new(alloc), Vec::new(alloc));
    let (_, _, disk) = outcome_of(alloc, FLUSHED, disk)?;
    let files = with_copy(alloc, Vec::new(alloc), &disk, Name::Manifest(1), at)?;
    let files = with_copy(alloc, files, &disk, Name::Log(1), at)?;
    let files = with_copy(alloc, files, &disk, Name::Log(2), at)?;
    let files = with_copy(alloc, files, &disk, Name::Table(1), at)?;
    started(alloc, files, &[])
}

#[test]
fn a_store_with_a_changed_file_says_where(rt: HostRuntime) -> Result<(), Fail> {
    let alloc = rt.alloc();
    // The file, what happens to it, what is then asked for, what is printed, and the status.
    let cases = [
        (
            Name::Table(1),
            Change::Flipped(201),
            FIRST,
            "damaged table 1 at 196\n",
            4,
        ),
        (
            Name::Table(1),
            Change::Cut(23),
            FIRST,
            "damaged table 1 at 0\n",
            4,
        ),
        (
            Name::Table(1),
            Change::Flipped(144),
            FIRST,
            "damaged table 1 at 139\n",
            4,
        ),
        (
            Name::Table(1),
            Change::Gone,
            FIRST,
            "damaged table 1 at 0\n",
            4,
        ),
        (Name::Log(1), Change::Gone, FIRST, "damaged log 1 at 0\n", 4),
        (
            Name::Table(1),
            Change::Flipped(16),
            FIRST,
            "ok 1\ndamaged table 1 at 16\n",
            4,
        ),
        (
            Name::Log(1),
            Change::Flipped(114),
            SECOND,
            "ok 1\ndamaged log 1 at 106\n",
            4,
        ),
        (
            Name::Log(1),
            Change::Flipped(115),
            PASS,
            "ok 1\ndamaged log 1 at 16\n",
            4,
        ),
        // A torn switch never came: the table is a stray, and the log is read.
        (Name::Manifest(1), Change::Cut(103), SECOND, LONG_VALUE, 0),
    ];
    for (file, change, input, printed, status) in cases {
        let disk = flushed_but(alloc, (file, change))?;
        let (found, text, _) = outcome_of(alloc, input, disk)?;
        assert_eq!(rt; text.as_slice(), printed.as_bytes());
        assert_eq!(rt; found, status, "{printed}");
    }
    Ok(())
}

/// A value that is moved, its log and table, which go then, and what is flushed behind them. `A` stands for the value.
pub const SWEPT: &str =
    "begin t\nset t 61 A\ncommit t\nrotate\nflush\npick g 1\nbatch g\nmove g\ndrop g\nsweep\ndrain j 1\n\
    install j\nsweep\nview v\nget v 61\nrotate\nflush\nview w\nget w 61\n";

/// The last changing call of each line that makes some, and what is printed in front of that line since the one before.
const CALLS: [(u64, &str); 9] = [
    (6, ""),
    (8, "ok 0\nok\n"),
    (11, "ok 1\n"),
    (16, "ok 1\n"),
    (18, "ok 1\nok 1\nfound 1\n"),
    (20, "moved 1\nok\nremoved 0\nok 0\n"),
    (22, "ok\n"),
    (25, "removed 2\nok 1\nvalue A\n"),
    (30, "ok 2\n"),
];

/// What is printed where a call fails.
fn printed_by(alloc: Global, call: u64) -> Result<String, Fail> {
    let mut printed = String::new(alloc);
    for (last, answers) in CALLS {
        printed.push_str(answers)?;
        if call <= last {
            break;
        }
    }
    printed.push_str("disk fault\n")?;
    Ok(printed.replace(alloc, "A", LONG)?)
}

#[test]
fn a_step_on_files_that_fails_ends_a_run_and_loses_nothing(rt: HostRuntime) -> Result<(), Fail> {
    let alloc = rt.alloc();
    let input = SWEPT.replace(alloc, "A", LONG)?;
    for call in 1..=30 {
        let mut calls = Vec::new(alloc);
        calls.push(call)?;
        let disk = MemDisk::new(alloc, calls, Vec::new(alloc));
        let wanted = printed_by(alloc, call)?;
        let (status, printed, disk) = outcome_of(alloc, input.as_str(), disk)?;
        assert_eq!(rt; printed.as_slice(), wanted.as_bytes(), "call {call}");
        assert_eq!(rt; status, 3, "call {call}");

        let wanted = if call <= 7 {
            "ok 0\nnone\n"
        } else {
            LONG_VALUE
        };
        let (status, printed, _) = outcome_of(alloc, FIRST, disk)?;
        assert_eq!(rt; printed.as_slice(), wanted.as_bytes(), "call {call}");
        assert_eq!(rt; status, 0, "call {call}");
    }
    Ok(())
}

/// Its record of 73 bytes is moved by a frame of 99 in the present format.
#[test]
fn a_store_of_format_1_with_a_table_is_read(rt: HostRuntime) -> Result<(), Fail> {
    let alloc = rt.alloc();
    let files = store(alloc, &OLD_FLUSHED_MANIFEST, &OLD_FLUSHED_LOG)?;
    let files = with(alloc, files, Name::Log(2), &OLD_SECOND_LOG_HEADER)?;
    let files = with(alloc, files, Name::Table(1), &OLD_TABLE)?;
    let case = plain(
        "view v\ngetb v 62\ngetb v 61\npick g 1\nbatch g\nmove g\nstats\n",
        "ok 1\n\
        value aaaaaaaaaaaaaaaaaaaaaaaaaaaaaaaaaaaaaaaaaaaaaaaaaaaaaaaaaaaaaaaaaaaaaaaaaaaaaaaaaaaaaaaaaaaaaaaaaaaaaaaaaaaaaaaaaaaaaaaaaaaaaaaaaa byte 0\n\
        value aaaaaaaaaaaaaaaaaaaaaaaaaaaaaaaaaaaaaaaaaaaaaaaaaaaaaaaaaaaaaaaaaaaaaaaaaaaaaaaaaaaaaaaaaaaaaaaaaaaaaaaaaaaaaaaaaaaaaaaaaaaaaaaa byte 0\n\
        ok 1\nfound 1\nmoved 1\n\
        segments 2\nsegment 1 bytes 170 live 73\nsegment 2 bytes 99 live 0\n",
        0,
    );
    let (status, printed, _) = outcome_over(alloc, &case, started(alloc, files, &[])?)?;
    assert_eq!(rt; printed.as_slice(), case.printed.as_bytes());
    assert_eq!(rt; status, case.status);
    Ok(())
}

#[test]
fn kept_versions_are_read_after_a_stop(rt: HostRuntime) -> Result<(), Fail> {
    let alloc = rt.alloc();
    let mut disk = MemDisk::new(alloc, Vec::new(alloc), Vec::new(alloc));
    let runs = [
        plain(
            "keep 2\nbegin t\nset t 61 01\ncommit t\nbegin t\nset t 61 02\ncommit t\nrotate\nflush\nbegin t\nset t 61 03\ncommit t\n",
            "ok\nok 0\nok\nok 1\nok 1\nok\nok 2\nok 1\nok 1\nok 2\nok\nok 3\n",
            0,
        ),
        plain(
            "view v\ngetat v 61 3\ngetat v 61 2\ngetat v 61 1\nkeep 3\n",
            "ok 3\nvalue 03\nvalue 02\ndropped 2\nok\n",
            0,
        ),
        // What was raised counts from the last commit on.
        plain("view v\ngetat v 61 2\n", "ok 3\ndropped 3\n", 0),
    ];
    for (i, case) in runs.iter().enumerate() {
        let (status, printed, left) = outcome_over(alloc, case, disk)?;
        assert_eq!(rt; printed.as_slice(), case.printed.as_bytes(), "run {i}");
        assert_eq!(rt; status, case.status, "run {i}");
        disk = left.crash(Outcome::Lost)?;
    }
    Ok(())
}
