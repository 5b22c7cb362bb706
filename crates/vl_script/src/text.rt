ghost use Rattle.std.specs.Prelude.{◌≡◌, ◌++◌, ◌∷◌, [], IfOk, OnOk};
ghost use Rattle.std.specs.Fmt.{decimal};
ghost use Rattle.vl_script.specs.Script.{bytes_text};
ghost use Rattle.vl_script.specs.Text.{contents_text, counted_text, driven_text, row_text};

use std::alloc::{AllocError, Global};
use vl_model::{Bytes, Key, Value};

/// What is printed of a store that was reopened at a number and has these rows: `reopened m`, `rows c` and a line for each
/// row, as docs/SCRIPT.md spells keys and values.
pub fn contents_text(
    alloc: Global,
    number: u64,
    rows: &[(Key, Value)],
) -> Result<Vec<u8>, AllocError>
    ensures { IfOk result (λ text. text.items ≡ contents_text number rows.now) }
{
    let mut text = Vec::new(alloc);
    push_count(&mut text, b"reopened ", number)?;
    push_count(&mut text, b"rows ", rows.len() as u64)?;
    for (key, value) in rows {
        push_row(alloc, &mut text, key, value)?;
    }
    Ok(text)
}

/// What is printed of clients over a store: `commits n`, how many transfers were committed, `conflicts m`, how many met a
/// conflict, and `total s`, the sum of all balances in the end.
pub fn driven_text(
    alloc: Global,
    commits: u64,
    conflicts: u64,
    total: u64,
) -> Result<Vec<u8>, AllocError>
    ensures { IfOk result (λ text. text.items ≡ driven_text commits conflicts total) }
{
    let mut text = Vec::new(alloc);
    push_count(&mut text, b"commits ", commits)?;
    push_count(&mut text, b"conflicts ", conflicts)?;
    push_count(&mut text, b"total ", total)?;
    Ok(text)
}

/// What is printed of numbers given over a store: `given c`, how many there were, `leases l`, how many leases they came from,
/// and `next n`, the least number that isn't leased in the end.
pub fn counted_text(
    alloc: Global,
    given: u64,
    leases: u64,
    next: u64,
) -> Result<Vec<u8>, AllocError>
    ensures { IfOk result (λ text. text.items ≡ counted_text given leases next) }
{
    let mut text = Vec::new(alloc);
    push_count(&mut text, b"given ", given)?;
    push_count(&mut text, b"leases ", leases)?;
    push_count(&mut text, b"next ", next)?;
    Ok(text)
}

// The front, the number and the line's end.
fn push_count(text: &mut Vec<u8>, front: &[u8], number: u64) -> Result<(), AllocError>
    ensures { OnOk result (text.new.items ≡ text.old.items ++ front.now ++ decimal number ++ (10 ∷ [])) }
{
    let mut digits = itoa::Buffer::new();
    text.extend_from_slice(front)?;
    text.extend_from_slice(digits.format(number).as_bytes())?;
    text.push(b'\n')?;
    Ok(())
}

fn push_row(alloc: Global, text: &mut Vec<u8>, key: &Key, value: &Value) -> Result<(), AllocError>
    ensures { OnOk result (text.new.items ≡ text.old.items ++ row_text (key.now, value.now)) }
{
    push_bytes(alloc, text, key)?;
    text.push(b' ')?;
    push_bytes(alloc, text, &value.bytes)?;
    text.push(b'\n')?;
    Ok(())
}

fn push_bytes(alloc: Global, text: &mut Vec<u8>, bytes: &Bytes) -> Result<(), AllocError>
    ensures { OnOk result (text.new.items ≡ text.old.items ++ bytes_text bytes.now) }
{
    if bytes.is_empty() {
        text.push(b'-')?;
    } else {
        let digits = hex::encode(alloc, bytes.as_slice())?;
        text.extend_from_slice(digits.as_bytes())?;
    }
    Ok(())
}
