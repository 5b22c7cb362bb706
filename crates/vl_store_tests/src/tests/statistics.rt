//! What `stats` tells of logs, which a run keeps by what its steps change, against what an opening sums up from the files.

use crate::tests::stores::outcome_of;
use std::alloc::Global;
use std::test::Fail;
use vl_disk::Name;
use vl_mem::MemDisk;

/// The seeds of the scripts, of sixty that were tried those with the most moves and merges.
const SEEDS: [u64; 2] = [4, 8];

/// How many pairs of lines a script has.
const PAIRS: u64 = 80;

/// The number behind another in a row that looks random.
fn behind(x: u64) -> u64 {
    x.wrapping_mul(6_364_136_223_846_793_005)
        .wrapping_add(1_442_695_040_888_963_407)
}

/// The step on files that a number stands for. Some of them are refused, as an `install` where no merge waits.
fn step_of(x: u64) -> &'static str {
    match (x >> 33) % 32 {
        0..=5 => "rotate\n",
        6..=11 => "flush\n",
        12..=14 => "plan j\n",
        15..=18 => "install j\n",
        19..=20 => "pick g 1\n",
        21..=24 => "batch g\n",
        25..=28 => "move g\n",
        29..=30 => "drop g\n",
        _ => match (x >> 40) % 4 {
            0 => "drop j\n",
            1 => "keep 1\n",
            2 => "keep 2\n",
            _ => "keep 3\n",
        },
    }
}

/// Appends a write of one of four keys: a deletion, or a value that a table doesn't have beside its key.
fn push_write(script: &mut String, x: u64) -> Result<(), Fail> {
    let key = match (x >> 33) % 4 {
        0 => "61",
        1 => "62",
        2 => "63",
        _ => "64",
    };
    let is_deletion = (x >> 40) % 8 == 0;
    script.push_str(if is_deletion { "del t " } else { "set t " })?;
    script.push_str(key)?;
    if !is_deletion {
        script.push_str(" ")?;
        for _ in 0..65 + (x >> 43) % 32 {
            script.push_str("aa")?;
        }
    }
    script.push_str("\n")?;
    Ok(())
}

/// Appends a line of a transaction, which writes twice.
fn push_line(script: &mut String, pair: u64, x: u64) -> Result<(), Fail> {
    match pair % 4 {
        0 => script.push_str("begin t\n")?,
        3 => script.push_str("commit t\n")?,
        _ => push_write(script, x)?,
    }
    Ok(())
}

/// So many pairs of lines, and `stats`. In each pair a transaction goes on, and a step changes files: from the first of these on
/// sums are kept.
fn script(alloc: Global, seed: u64, pairs: u64) -> Result<String, Fail> {
    let mut script = String::new(alloc);
    let mut x = seed;
    for pair in 0..pairs {
        x = behind(x);
        push_line(&mut script, pair, x)?;
        x = behind(x);
        script.push_str(step_of(x))?;
    }
    script.push_str("stats\n")?;
    Ok(script)
}

/// What `stats` tells of a log.
#[derive(Clone, Copy, PartialEq)]
struct Row {
    log: u32,
    bytes: u64,
    live: u64,
}

/// The row that a line spells, `segment S bytes B live L`; of zeros where it spells none.
fn row_of(line: &str) -> Row {
    let mut words = line.split(' ').skip(1).step_by(2);
    let log = words.next().unwrap_or("");
    let bytes = words.next().unwrap_or("");
    let live = words.next().unwrap_or("");
    Row {
        log: log.parse().unwrap_or(0),
        bytes: bytes.parse().unwrap_or(0),
        live: live.parse().unwrap_or(0),
    }
}

/// The rows of the last `stats` in what a run printed.
fn last_rows(alloc: Global, printed: &[u8]) -> Result<Vec<Row>, Fail> {
    let mut rows = Vec::new(alloc);
    for line in str::from_utf8(printed).unwrap_or("").split('\n') {
        if line.starts_with("segments ") {
            rows.clear();
        } else if line.starts_with("segment ") {
            rows.push(row_of(line))?;
        }
    }
    Ok(rows)
}

/// Whether each row's log stands with 16 bytes more than the row tells.
fn are_lengths(rows: &[Row], disk: &MemDisk) -> bool {
    rows.iter().all(|row| match disk.bytes(Name::Log(row.log)) {
        Some(bytes) => bytes.len() as u64 == row.bytes.saturating_add(16),
        None => false,
    })
}

/// What an opening is to tell behind these rows: it begins a log where the last one, the active, has frames.
fn push_opened(rows: &mut Vec<Row>) -> Result<(), Fail> {
    if let Some(&active) = rows.as_slice().last()
        && active.bytes > 0
    {
        rows.push(Row {
            log: active.log.saturating_add(1),
            bytes: 0,
            live: 0,
        })?;
    }
    Ok(())
}

/// Whether `stats` tells the same at the end of a run and where its disk is opened again.
fn is_summed_up(alloc: Global, seed: u64, pairs: u64) -> Result<bool, Fail> {
    let input = script(alloc, seed, pairs)?;
    let disk = MemDisk::new(alloc, Vec::new(alloc), Vec::new(alloc));
    let (status, printed, disk) = outcome_of(alloc, input.as_str(), disk)?;
    let mut told = last_rows(alloc, printed.as_slice())?;
    let stand = !told.is_empty() && are_lengths(told.as_slice(), &disk);
    push_opened(&mut told)?;
    let (again, printed, _) = outcome_of(alloc, "stats\n", disk)?;
    let summed = last_rows(alloc, printed.as_slice())?;
    Ok(status == 0 && again == 0 && stand && told.as_slice() == summed.as_slice())
}

/// Behind each pair of lines of two scripts `stats` is compared with what it tells where the run's disk is opened again. There
/// each row comes from the footers of the tables that stand and from the logs. It must be the run's row, and there may be one
/// more, of the log that an opening begins where the active one has frames. Each row's bytes are also compared with its log's.
#[test]
fn statistics_are_what_an_opening_sums_up(rt: HostRuntime) -> Result<(), Fail> {
    for seed in SEEDS {
        for pairs in 0..=PAIRS {
            assert!(rt;
                is_summed_up(rt.alloc(), seed, pairs)?,
                "seed {seed}, {pairs} pairs"
            );
        }
    }
    Ok(())
}
