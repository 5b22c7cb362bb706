//! What is printed of a store that was opened.
ghost use Rattle.std.specs.Prelude.{◌≡◌, ◌≤◌, ◌<◌, ◌+◌, ◌^◌, ℕ, length, IfOk};
ghost use Rattle.std.specs.FinMap.{entries};
ghost use Rattle.std.specs.Option.{ForSome};
ghost use Rattle.vl_reads.specs.Reading.{OnlyReads};
ghost use Rattle.vl_engine_laws.specs.Represents.{StandsFor};
ghost use Rattle.vl_reads.specs.Sees.{SeesAlone};
ghost use Rattle.vl_engine_model.specs.declared.layout.Layout.{Layout};
ghost use Rattle.vl_model.specs.History.{History, contents_at, last_number};
ghost use Rattle.vl_script_model.specs.Contents.{AreRead};
ghost use Rattle.vl_script.specs.Text.{reopened_text};

use std::alloc::Global;
use vl_disk::{Disk, HeldFile, Reader};
use vl_engine::{Engine, ReadFail, Rows, View};
use vl_model::Way;
use vl_script::contents_text;

/// What is printed of a store that was just opened: the number of its last commit, and all that stands there. None where no view
/// of it began, or some of it wasn't read.
pub fn store_text<D: Disk + Drop>(alloc: Global, engine: Engine<D>) -> Option<Vec<u8>>
    ensures { (h : History) (l : Layout) → StandsFor D.Held.bytes engine.core h l
        → ForSome result (λ text. text.items ≡ reopened_text (last_number h) (contents_at h (last_number h))) }
{
    let mut engine = engine;
    let Ok(mut view) = engine.view() else {
        return None;
    };
    match view_text(alloc, &mut view) {
        Ok(text) => Some(text),
        Err(_) => None,
    }
}

// What is printed of a view: the number at which it reads, and all that stands there.
fn view_text<H: HeldFile, R: Reader<Held = H> + Drop>(
    alloc: Global,
    view: &mut View<H, R>,
) -> Result<Vec<u8>, ReadFail>
    ensures { (h : History) → SeesAlone H.bytes view.old h
        → IfOk result (λ text. text.items ≡ reopened_text view.old.number (contents_at h view.old.number)) }
{
    let number = view.number();
    let rows = all_rows(view)?;
    Ok(contents_text(alloc, number, &rows)?)
}

/// How many rows are read at a time: two at least, since each piece begins with the last row of the one before.
const ROWS_AT_ONCE: u16 = 4096;

// All rows that a view sees, their keys rising.
fn all_rows<H: HeldFile, R: Reader<Held = H> + Drop>(
    view: &mut View<H, R>,
) -> Result<Rows, ReadFail>
    ensures { (h : History) → SeesAlone H.bytes view.old h
        → IfOk result (λ rows. rows.items ≡ entries (contents_at h view.old.number)) }
{
    let mut rows = view.scan(&[], &[], ROWS_AT_ONCE, Way::Up)?;
    let mut read = rows.len();
    while read >= ROWS_AT_ONCE as usize {
        read = read_on(view, &mut rows)?;
    }
    Ok(rows)
}

// Reads on from the last row of some first ones, and answers how many rows were read, that one with them.
fn read_on<H: HeldFile, R: Reader<Held = H> + Drop>(
    view: &mut View<H, R>,
    rows: &mut Rows,
) -> Result<usize, ReadFail>
    requires { 1 ≤ length rows.old.items }
    ensures rows { (h : History) (read : ℕ) → SeesAlone H.bytes view.old h
        → AreRead (entries (contents_at h view.old.number)) rows.old.items read
        → IfOk result (AreRead (entries (contents_at h view.old.number)) rows.new.items) }
    ensures longer { IfOk result (λ read. length rows.new.items + 1 ≡ length rows.old.items + read) }
    ensures fits { IfOk result (λ _. length rows.new.items < 2 ^ 64) }
    ensures still { (h : History) → SeesAlone H.bytes view.old h → SeesAlone H.bytes view.new h }
    ensures keeps { OnlyReads view.old view.new }
{
    let last = rows.len() - 1;
    let mut more = view.scan(rows[last].0.as_slice(), &[], ROWS_AT_ONCE, Way::Up)?;
    let read = more.len();
    rows.pop();
    rows.append(&mut more)?;
    let _length = rows.len();
    Ok(read)
}
