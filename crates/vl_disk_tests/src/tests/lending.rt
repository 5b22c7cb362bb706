use crate::tests::setting::{
    Folder, LOG, TABLE, has_bytes, inside, is_long, made_disk, make_four, over,
};
use std::fs::{File, OpenOptions};
use std::io;
use std::test::Fail;
use vl_disk::{Disk, HeldFile, Writer};

fn may_be_sent<T: Send>(_sent: &T) {}

// While a file is lent it is the writer's alone, and other files are the disk's.
fn lends(rt: &HostRuntime, path: &str) -> Result<bool, Fail> {
    let mut disk = made_disk(rt, path)?;
    disk.ready(TABLE, 0)?;
    disk.create(TABLE)?;
    let mut writer = disk.lend(TABLE)?;
    may_be_sent(&writer);
    writer.append(b"abc")?;
    let refused = disk.append(TABLE, b"x").is_err() && disk.size(TABLE).is_err();
    make_four(&mut disk, LOG, 1)?;
    writer.append(b"de")?;
    writer.sync()?;
    disk.adopt(writer);
    let held = disk.hold(TABLE)?;
    let whole = held.len() == 5 && held.name() == TABLE;
    Ok(refused && whole && has_bytes(rt, path, "4294967294.vtab", b"abcde")?)
}

#[test]
fn a_file_is_lent_and_adopted(rt: HostRuntime) -> Result<(), Fail> {
    assert!(rt; over(&rt, lends)?);
    Ok(())
}

// Makes a file as long as the system lets it be, but for one byte, and says how long that is.
fn fill_up(file: &File) -> io::Result<u64> {
    let (mut fits, mut too_long) = (0u64, 1u64 << 63);
    for _ in 0..64 {
        let middle = fits.saturating_add(too_long.saturating_sub(fits) / 2);
        if file.set_len(middle).is_ok() {
            fits = middle;
        } else {
            too_long = middle;
        }
    }
    let end = fits.saturating_sub(1);
    file.set_len(end)?;
    Ok(end)
}

// Whether of three bytes a file of this length takes fewer, and one byte behind a cut.
fn takes_fewer(disk: &mut Folder<'_>, long: &File, end: u64) -> Result<bool, Fail> {
    disk.ready(LOG, 3)?;
    let was = is_long(disk, LOG, end);
    let failed = disk.append(LOG, b"abc").is_err();
    let taken = is_long(disk, LOG, long.metadata()?.len());
    disk.cut(LOG, 0)?;
    disk.append(LOG, b"d")?;
    Ok(was && failed && taken && is_long(disk, LOG, 1))
}

// A piece that the system takes in part is a fault, and the file has what it took.
fn takes_part(rt: &HostRuntime, path: &str) -> Result<bool, Fail> {
    let mut disk = made_disk(rt, path)?;
    let long = File::create(rt, inside(rt, path, "0000000001.vlog")?)?;
    let end = fill_up(&long)?;
    takes_fewer(&mut disk, &long, end)
}

#[test]
fn a_piece_that_is_taken_in_part_is_a_fault(rt: HostRuntime) -> Result<(), Fail> {
    assert!(rt; over(&rt, takes_part)?);
    Ok(())
}

// The log, as long as it can be.
fn filled_up(rt: &HostRuntime, path: &str) -> Result<File, Fail> {
    let path = inside(rt, path, "0000000001.vlog")?;
    let long = OpenOptions::new().write(true).open(rt, path)?;
    fill_up(&long)?;
    Ok(long)
}

// The same of a file that a writer has.
fn writer_takes_part(rt: &HostRuntime, path: &str) -> Result<bool, Fail> {
    let mut disk = made_disk(rt, path)?;
    disk.ready(LOG, 3)?;
    disk.create(LOG)?;
    let mut writer = disk.lend(LOG)?;
    let long = filled_up(rt, path)?;
    let failed = writer.append(b"abc").is_err();
    disk.adopt(writer);
    Ok(failed && is_long(&mut disk, LOG, long.metadata()?.len()))
}

#[test]
fn a_writers_piece_that_is_taken_in_part_is_a_fault(rt: HostRuntime) -> Result<(), Fail> {
    assert!(rt; over(&rt, writer_takes_part)?);
    Ok(())
}
