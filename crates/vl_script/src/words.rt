ghost use Rattle.std.specs.Prelude.{◌≡◌, ◌≢◌, Some, None, IfErr, IfOk, codes, map, string_bytes};
ghost use Rattle.clap.specs.Words.{first_value, found_of, kind_of};
ghost use Rattle.vl_script.specs.Numbers.{number_of};
ghost use Rattle.vl_script.specs.Words.{bench_of, command_of, drive_of, ids_of, is_plain_word, outcome_of, trial_of, word_at};
ghost use Rattle.vl_script.specs.Words.{most_clients, most_counts, most_lease, most_rounds, most_seed, most_stop, most_turns};
ghost use Rattle.vl_script.specs.Words.{HasPlainPair, HasPlainTriple, HasPlainWord};

use crate::numbers::parse_number;
use clap::error::ErrorKind;
use clap::{Arg, ArgMatches};
use std::alloc::{AllocError, Global};
use vl_mem::Outcome;

/// The most changing calls that a trial lets pass.
const MAX_STOP: u64 = 1_000_000;

/// The most rounds of a benchmark.
const MAX_ROUNDS: u64 = 100_000;

/// The most clients, and the most turns of each.
const MAX_CLIENTS: u64 = 16;

const MAX_TURNS: u64 = 100_000;

/// The most numbers that each client takes, and the most of one lease.
const MAX_COUNTS: u64 = 100_000;

const MAX_LEASE: u64 = 1_000;

/// What plain words ask for.
#[derive(Clone, Copy)]
pub enum Command {
    /// The lines of the input are answered over the disk.
    Replay,
    /// The lines of the input are tried over an empty disk that stops behind so many changing calls.
    Trial(u32, Outcome),
    /// The lines that a seed and so many rounds give are answered over an empty disk, and summed up.
    Bench(u64, u32),
    /// So many clients take so many turns each over an empty disk, as a seed says, each in a thread of its own.
    Drive(u32, u32, u64),
    /// So many clients take so many numbers each over an empty disk, from leases of so many, each in a thread of its own.
    Ids(u32, u32, u32),
}

/// What the words ask for; none where they aren't plain. Clap reads plain words alone, and refuses them for want of memory alone.
pub fn command_in(alloc: Global, words: &[String]) -> Result<Option<Command>, AllocError>
    ensures command { IfOk result (λ command. command ≡ command_of (map string_bytes words.now)) }
    ensures refused { IfErr result (λ error. command_of (map string_bytes words.now) ≢ None) }
{
    match spelled(words) {
        Some(Command::Replay) => replay_in(alloc, words),
        Some(Command::Trial(_, _)) => trial_in(alloc, words),
        Some(Command::Bench(_, _)) => bench_in(alloc, words),
        Some(Command::Drive(_, _, _)) => drive_in(alloc, words),
        Some(Command::Ids(_, _, _)) => ids_in(alloc, words),
        None => Ok(None),
    }
}

// By their spelling alone.
fn spelled(words: &[String]) -> Option<Command>
    ensures { result ≡ command_of (map string_bytes words.now) }
{
    match words {
        [command, folder]
            if command.as_bytes() == b"replay".as_slice() && is_plain_word(folder.as_bytes()) => {
            Some(Command::Replay)
        }
        [command, stop, outcome] if command.as_bytes() == b"trial".as_slice() => {
            trial_of(stop.as_bytes(), outcome.as_bytes())
        }
        [command, seed, count] if command.as_bytes() == b"bench".as_slice() => {
            bench_of(seed.as_bytes(), count.as_bytes())
        }
        [command, clients, turns, seed] if command.as_bytes() == b"drive".as_slice() => {
            drive_of(clients.as_bytes(), turns.as_bytes(), seed.as_bytes())
        }
        [command, clients, count, lease] if command.as_bytes() == b"ids".as_slice() => {
            ids_of(clients.as_bytes(), count.as_bytes(), lease.as_bytes())
        }
        _ => None,
    }
}

// A trial, where both words spell numbers in their ranges.
fn trial_of(stop: &[u8], outcome: &[u8]) -> Option<Command>
    ensures { result ≡ trial_of (number_of most_stop stop.now) (outcome_of outcome.now) }
{
    Some(Command::Trial(parse_number(stop, MAX_STOP)? as u32, outcome_in(outcome)?))
}

// A benchmark, where both words spell numbers in their ranges.
fn bench_of(seed: &[u8], count: &[u8]) -> Option<Command>
    ensures { result ≡ bench_of (number_of most_seed seed.now) (number_of most_rounds count.now) }
{
    let seed = parse_number(seed, u64::MAX)?;
    let count = parse_number(count, MAX_ROUNDS)?;
    if count == 0 {
        return None;
    }
    Some(Command::Bench(seed, count as u32))
}

// Clients, where the three words spell numbers in their ranges.
fn drive_of(clients: &[u8], turns: &[u8], seed: &[u8]) -> Option<Command>
    ensures { result ≡ drive_of (number_of most_clients clients.now) (number_of most_turns turns.now) (number_of most_seed seed.now) }
{
    let clients = parse_number(clients, MAX_CLIENTS)?;
    let turns = parse_number(turns, MAX_TURNS)?;
    let seed = parse_number(seed, u64::MAX)?;
    if clients == 0 || turns == 0 {
        return None;
    }
    Some(Command::Drive(clients as u32, turns as u32, seed))
}

// Clients that take numbers, where the three words spell numbers in their ranges.
fn ids_of(clients: &[u8], count: &[u8], lease: &[u8]) -> Option<Command>
    ensures { result ≡ ids_of (number_of most_clients clients.now) (number_of most_counts count.now) (number_of most_lease lease.now) }
{
    let clients = parse_number(clients, MAX_CLIENTS)?;
    let count = parse_number(count, MAX_COUNTS)?;
    let lease = parse_number(lease, MAX_LEASE)?;
    if clients == 0 || count == 0 || lease == 0 {
        return None;
    }
    Some(Command::Ids(clients as u32, count as u32, lease as u32))
}

/// Whether a word isn't empty and doesn't begin with `-`.
fn is_plain_word(word: &[u8]) -> bool
    ensures { result ≡ is_plain_word word.now }
{
    match word {
        [] => false,
        [first, ..] => *first != b'-',
    }
}

fn outcome_in(word: &[u8]) -> Option<Outcome>
    ensures { result ≡ outcome_of word.now }
{
    match word {
        b"0" => Some(Outcome::Lost),
        b"1" => Some(Outcome::Kept),
        b"2" => Some(Outcome::Halved),
        _ => None,
    }
}

// Reads the words of a replay; an `Err` is want of memory.
fn replay_in(alloc: Global, words: &[String]) -> Result<Option<Command>, AllocError>
    requires plain { HasPlainWord (map string_bytes words.now) }
    ensures command { IfOk result (λ command. command ≡ Some Command.Replay) }
{
    match replay_matches(alloc, words) {
        Ok(_) => Ok(Some(Command::Replay)),
        Err(_) => Err(AllocError),
    }
}

// Reads the words of a trial.
fn trial_in(alloc: Global, words: &[String]) -> Result<Option<Command>, AllocError>
    requires plain { HasPlainPair (map string_bytes words.now) }
    ensures command { IfOk result (λ command. command ≡ trial_of (number_of most_stop (word_at 1 (map string_bytes words.now)))
        (outcome_of (word_at 2 (map string_bytes words.now)))) }
{
    let Ok(matches) = trial_matches(alloc, words) else {
        return Err(AllocError);
    };
    let Some(stop) = matches.get_str("STOP") else {
        return Ok(None);
    };
    let Some(outcome) = matches.get_str("OUTCOME") else {
        return Ok(None);
    };
    Ok(trial_of(stop.as_bytes(), outcome.as_bytes()))
}

// Reads the words of a benchmark.
fn bench_in(alloc: Global, words: &[String]) -> Result<Option<Command>, AllocError>
    requires plain { HasPlainPair (map string_bytes words.now) }
    ensures command { IfOk result (λ command. command ≡ bench_of (number_of most_seed (word_at 1 (map string_bytes words.now)))
        (number_of most_rounds (word_at 2 (map string_bytes words.now)))) }
{
    let Ok(matches) = bench_matches(alloc, words) else {
        return Err(AllocError);
    };
    let Some(seed) = matches.get_str("SEED") else {
        return Ok(None);
    };
    let Some(count) = matches.get_str("COUNT") else {
        return Ok(None);
    };
    Ok(bench_of(seed.as_bytes(), count.as_bytes()))
}

// Reads the words of clients.
fn drive_in(alloc: Global, words: &[String]) -> Result<Option<Command>, AllocError>
    requires plain { HasPlainTriple (map string_bytes words.now) }
    ensures command { IfOk result (λ command. command ≡ drive_of (number_of most_clients (word_at 1 (map string_bytes words.now)))
        (number_of most_turns (word_at 2 (map string_bytes words.now))) (number_of most_seed (word_at 3 (map string_bytes words.now)))) }
{
    let Ok(matches) = drive_matches(alloc, words) else {
        return Err(AllocError);
    };
    let Some(clients) = matches.get_str("CLIENTS") else {
        return Ok(None);
    };
    let Some(turns) = matches.get_str("TXNS") else {
        return Ok(None);
    };
    let Some(seed) = matches.get_str("SEED") else {
        return Ok(None);
    };
    Ok(drive_of(clients.as_bytes(), turns.as_bytes(), seed.as_bytes()))
}

// Reads the words of clients that take numbers.
fn ids_in(alloc: Global, words: &[String]) -> Result<Option<Command>, AllocError>
    requires plain { HasPlainTriple (map string_bytes words.now) }
    ensures command { IfOk result (λ command. command ≡ ids_of (number_of most_clients (word_at 1 (map string_bytes words.now)))
        (number_of most_counts (word_at 2 (map string_bytes words.now))) (number_of most_lease (word_at 3 (map string_bytes words.now)))) }
{
    let Ok(matches) = ids_matches(alloc, words) else {
        return Err(AllocError);
    };
    let Some(clients) = matches.get_str("CLIENTS") else {
        return Ok(None);
    };
    let Some(count) = matches.get_str("COUNT") else {
        return Ok(None);
    };
    let Some(lease) = matches.get_str("LEASE") else {
        return Ok(None);
    };
    Ok(ids_of(clients.as_bytes(), count.as_bytes(), lease.as_bytes()))
}

// The word behind the command's name is the folder. Clap takes the name for the program's.
fn replay_matches<'a>(alloc: Global, words: &'a [String]) -> Result<ArgMatches<'a>, clap::Error>
    requires plain { HasPlainWord (map string_bytes words.now) }
    ensures folder { IfOk result (λ m. first_value (found_of m) (codes "DIR") ≡ Some (word_at 1 (map string_bytes words.now))) }
    ensures refused { IfErr result (λ e. kind_of e ≡ ErrorKind.OutOfMemory) }
{
    let folder = Arg::new(alloc, "DIR").required(true);
    let command = clap::Command::new(alloc, "replay").arg(folder)?;
    command.try_get_matches_from(words)
}

// The words behind the command's name are the stop and the outcome.
fn trial_matches<'a>(alloc: Global, words: &'a [String]) -> Result<ArgMatches<'a>, clap::Error>
    requires plain { HasPlainPair (map string_bytes words.now) }
    ensures stop { IfOk result (λ m. first_value (found_of m) (codes "STOP") ≡ Some (word_at 1 (map string_bytes words.now))) }
    ensures outcome { IfOk result (λ m. first_value (found_of m) (codes "OUTCOME") ≡ Some (word_at 2 (map string_bytes words.now))) }
    ensures refused { IfErr result (λ e. kind_of e ≡ ErrorKind.OutOfMemory) }
{
    let stop = Arg::new(alloc, "STOP").required(true);
    let outcome = Arg::new(alloc, "OUTCOME").required(true);
    let command = clap::Command::new(alloc, "trial").arg(stop)?.arg(outcome)?;
    command.try_get_matches_from(words)
}

// The words behind the command's name are the seed and the number of rounds.
fn bench_matches<'a>(alloc: Global, words: &'a [String]) -> Result<ArgMatches<'a>, clap::Error>
    requires plain { HasPlainPair (map string_bytes words.now) }
    ensures seed { IfOk result (λ m. first_value (found_of m) (codes "SEED") ≡ Some (word_at 1 (map string_bytes words.now))) }
    ensures count { IfOk result (λ m. first_value (found_of m) (codes "COUNT") ≡ Some (word_at 2 (map string_bytes words.now))) }
    ensures refused { IfErr result (λ e. kind_of e ≡ ErrorKind.OutOfMemory) }
{
    let seed = Arg::new(alloc, "SEED").required(true);
    let count = Arg::new(alloc, "COUNT").required(true);
    let command = clap::Command::new(alloc, "bench").arg(seed)?.arg(count)?;
    command.try_get_matches_from(words)
}

// The words behind the command's name are how many clients there are, how many turns each has, and the seed.
fn drive_matches<'a>(alloc: Global, words: &'a [String]) -> Result<ArgMatches<'a>, clap::Error>
    requires plain { HasPlainTriple (map string_bytes words.now) }
    ensures clients { IfOk result (λ m. first_value (found_of m) (codes "CLIENTS") ≡ Some (word_at 1 (map string_bytes words.now))) }
    ensures turns { IfOk result (λ m. first_value (found_of m) (codes "TXNS") ≡ Some (word_at 2 (map string_bytes words.now))) }
    ensures seed { IfOk result (λ m. first_value (found_of m) (codes "SEED") ≡ Some (word_at 3 (map string_bytes words.now))) }
    ensures refused { IfErr result (λ e. kind_of e ≡ ErrorKind.OutOfMemory) }
{
    let clients = Arg::new(alloc, "CLIENTS").required(true);
    let turns = Arg::new(alloc, "TXNS").required(true);
    let seed = Arg::new(alloc, "SEED").required(true);
    let command = clap::Command::new(alloc, "drive")
        .arg(clients)?
        .arg(turns)?
        .arg(seed)?;
    command.try_get_matches_from(words)
}

// The words behind the command's name are how many clients there are, how many numbers each takes, and how many a lease has.
fn ids_matches<'a>(alloc: Global, words: &'a [String]) -> Result<ArgMatches<'a>, clap::Error>
    requires plain { HasPlainTriple (map string_bytes words.now) }
    ensures clients { IfOk result (λ m. first_value (found_of m) (codes "CLIENTS") ≡ Some (word_at 1 (map string_bytes words.now))) }
    ensures count { IfOk result (λ m. first_value (found_of m) (codes "COUNT") ≡ Some (word_at 2 (map string_bytes words.now))) }
    ensures lease { IfOk result (λ m. first_value (found_of m) (codes "LEASE") ≡ Some (word_at 3 (map string_bytes words.now))) }
    ensures refused { IfErr result (λ e. kind_of e ≡ ErrorKind.OutOfMemory) }
{
    let clients = Arg::new(alloc, "CLIENTS").required(true);
    let count = Arg::new(alloc, "COUNT").required(true);
    let lease = Arg::new(alloc, "LEASE").required(true);
    let command = clap::Command::new(alloc, "ids")
        .arg(clients)?
        .arg(count)?
        .arg(lease)?;
    command.try_get_matches_from(words)
}
