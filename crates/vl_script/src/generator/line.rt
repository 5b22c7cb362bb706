//! Lines of a benchmark with their keys and values, made of a round's number.

ghost use Rattle.std.specs.Prelude.{◌≡◌, [], codes, IfOk};
ghost use Rattle.vl_model.specs.declared.way.Way.TheVariants.{Up};
ghost use Rattle.vl_script.specs.declared.line.Line.TheVariants.{Drop, Scan};
ghost use Rattle.vl_script.specs.Generator.{key_from, next_number, value_from, write_line};

use crate::{Ident, Line};
use std::alloc::{AllocError, Global};
use vl_model::{Bytes, Way};

// The number of the next round.
pub fn next_number(number: u64) -> u64
    ensures { result ≡ next_number number }
{
    number
        .wrapping_mul(6_364_136_223_846_793_005)
        .wrapping_add(1_442_695_040_888_963_407)
}

// The write of a round with this number.
pub fn write_line(alloc: Global, round: u32, number: u64) -> Result<Line, AllocError>
    ensures { IfOk result (λ line. line ≡ write_line round number) }
{
    let name = ident(alloc, b"t")?;
    let key = key_from(alloc, number)?;
    if (number >> 50) % 8 == 0 {
        return Ok(Line::Delete { name, key });
    }
    let value = value_from(alloc, round, number)?;
    Ok(Line::Set { name, key, value })
}

fn key_from(alloc: Global, number: u64) -> Result<Bytes, AllocError>
    ensures { IfOk result (λ key. key ≡ key_from number) }
{
    let key = (number >> 33) % 1024;
    Bytes::copy_of(alloc, &[(key / 256) as u8, (key % 256) as u8])
}

fn value_from(alloc: Global, round: u32, number: u64) -> Result<Bytes, AllocError>
    ensures { IfOk result (λ value. value ≡ value_from round number) }
{
    let len = (number >> 40) % 256;
    Bytes::new(vec![in alloc; (round % 256) as u8; len as usize]?)
}

// The scan of all rows.
pub fn scan_line(alloc: Global) -> Result<Line, AllocError>
    ensures { IfOk result (λ line. line ≡ Scan (codes "v") [] [] 65535 Up) }
{
    Ok(Line::Scan {
        name: ident(alloc, b"v")?,
        low: Bytes::copy_of(alloc, &[])?,
        high: Bytes::copy_of(alloc, &[])?,
        limit: 65535,
        way: Way::Up,
    })
}

// The end of a view or a pass.
pub fn drop_line(alloc: Global, name: &[u8]) -> Result<Line, AllocError>
    ensures { IfOk result (λ line. line ≡ Drop name.now) }
{
    Ok(Line::Drop {
        name: ident(alloc, name)?,
    })
}

pub fn ident(alloc: Global, name: &[u8]) -> Result<Ident, AllocError>
    ensures { IfOk result (λ ident. ident ≡ name.now) }
{
    Bytes::copy_of(alloc, name)
}
