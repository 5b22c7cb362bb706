//! How a run ends whose store wasn't opened, or had bytes that couldn't be read.
ghost use Rattle.std.specs.Prelude.{◌≡◌, IfOk, string_bytes};
ghost use Rattle.vl_script_model.specs.Endings.{damage_line, refusal_line};
ghost use Rattle.vl_script_model.specs.Opening.{why_refused};
ghost use Rattle.vl_script_model.specs.Steps.{EndsAtDamage, EndsUnopened};

use crate::ended::{DISK_FAULT, NO_MEMORY, finish};
use std::alloc::{AllocError, Global};
use vl_disk::Name;
use vl_io::Sink;
use vl_model::Counter;
use vl_recover::OpenError;
use vl_script::{Answer, print_answer};
use vl_script_model::{Ending, Refusal};

/// Ends a run whose store wasn't opened.
pub fn end_unopened<K: Sink>(alloc: Global, sink: &mut K, why: OpenError) -> Ending
    ensures { EndsUnopened K.Sink sink.old sink.new why result }
{
    match why {
        OpenError::NotAStore => refuse(alloc, sink, Refusal::NotAStore),
        OpenError::NewerFormat(format) => refuse(alloc, sink, Refusal::NewerFormat(format)),
        OpenError::Damaged { name, place } => refuse(alloc, sink, Refusal::Damaged { name, place }),
        OpenError::Exhausted(counter) => refuse(alloc, sink, Refusal::Exhausted(counter)),
        OpenError::NoMemory => finish(sink, NO_MEMORY, Ending::NoMemory),
        OpenError::Disk { .. } => finish(sink, DISK_FAULT, Ending::DiskFault),
    }
}

/// Ends a run whose line met damage, or by want of memory where there is none for what is to be said.
pub fn end_at_damage<K: Sink>(alloc: Global, sink: &mut K, name: Name, place: u64) -> Ending
    ensures { EndsAtDamage K.Sink sink.old sink.new name place result }
{
    match damage_line(alloc, name, place) {
        Ok(line) => finish(sink, line.as_bytes(), Ending::Damaged { name, place }),
        Err(_) => finish(sink, NO_MEMORY, Ending::NoMemory),
    }
}

/// Ends a run by a refusal, or by want of memory where there is none for its line.
fn refuse<K: Sink>(alloc: Global, sink: &mut K, refusal: Refusal) -> Ending
    ensures { EndsUnopened K.Sink sink.old sink.new (why_refused refusal) result }
{
    match line_of(alloc, refusal) {
        Ok(line) => finish(sink, &line, Ending::Refused(refusal)),
        Err(_) => finish(sink, NO_MEMORY, Ending::NoMemory),
    }
}

/// The line that is printed for a refusal.
fn line_of(alloc: Global, refusal: Refusal) -> Result<Vec<u8>, AllocError>
    ensures { IfOk result (λ line. line.items ≡ refusal_line refusal) }
{
    let line = match refusal {
        Refusal::NotAStore => String::from_str(alloc, "not a store\n")?,
        Refusal::NewerFormat(format) => format!(in alloc; "newer format {format}\n")?,
        Refusal::Damaged { name, place } => damage_line(alloc, name, place)?,
        Refusal::Exhausted(counter) => return exhausted_line(alloc, counter),
    };
    Ok(line.into_bytes())
}

/// The line that is printed for a damaged file.
fn damage_line(alloc: Global, name: Name, place: u64) -> Result<String, AllocError>
    ensures { IfOk result (λ line. string_bytes line ≡ damage_line name place) }
{
    match name {
        Name::Log(number) => format!(in alloc; "damaged log {number} at {place}\n"),
        Name::Table(number) => format!(in alloc; "damaged table {number} at {place}\n"),
        Name::Manifest(number) => format!(in alloc; "damaged manifest {number} at {place}\n"),
    }
}

/// The line that is printed where a counter is used up, which is that of the answer to a script's line.
fn exhausted_line(alloc: Global, counter: Counter) -> Result<Vec<u8>, AllocError>
    ensures { IfOk result (λ line. line.items ≡ refusal_line (Refusal.Exhausted counter)) }
{
    let mut line = Vec::new(alloc);
    print_answer(alloc, &mut line, &Answer::Exhausted { counter })?;
    Ok(line)
}
