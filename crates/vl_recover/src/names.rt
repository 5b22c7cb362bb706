// What the names of the files that stand tell.
ghost use Rattle.std.specs.Prelude.{◌≡◌, ◌↔◌, Contains, IsPermutation, IsTrue, filter};
ghost use Rattle.vl_recover.specs.opening.Finding.{greatest_of};
ghost use Rattle.vl_recover.specs.opening.Named as named;

use crate::found::GreatestNumbers;
use vl_disk::Name;
use vl_manifest::{ManifestState, TableList};

/// The greatest number of each kind, 0 where there is none.
pub fn greatest_numbers(names: &[Name]) -> GreatestNumbers
    ensures { named.AreGreatestIn names.now (greatest_of result) }
{
    let mut greatest = GreatestNumbers {
        log: 0,
        table: 0,
        manifest: 0,
    };
    for name in names {
        greatest = greatest_with(*name, greatest);
    }
    greatest
}

fn greatest_with(name: Name, greatest: GreatestNumbers) -> GreatestNumbers
    ensures { greatest_of result ≡ named.greatest_with name (greatest_of greatest) }
{
    match name {
        Name::Log(number) => GreatestNumbers {
            log: greater(number, greatest.log),
            ..greatest
        },
        Name::Table(number) => GreatestNumbers {
            table: greater(number, greatest.table),
            ..greatest
        },
        Name::Manifest(number) => GreatestNumbers {
            manifest: greater(number, greatest.manifest),
            ..greatest
        },
    }
}

fn greater(number: u32, found: u32) -> u32
    ensures { result ≡ named.greater number found }
{
    if number <= found { found } else { number }
}

/// The names in their order: of one kind the numbers rise.
pub fn in_order(names: Vec<Name>) -> Vec<Name>
    ensures rising { named.AreRising result.items }
    ensures same { IsPermutation names.items result.items }
{
    let mut sorted = names;
    sorted.sort_unstable();
    sorted
}

/// Whether a file of this name stands.
pub fn has(names: &[Name], name: Name) -> bool
    ensures { IsTrue result ↔ Contains names.now name }
{
    for other in names {
        if is_same(*other, name) {
            return true;
        }
    }
    false
}

fn is_same(a: Name, b: Name) -> bool
    ensures { IsTrue result ↔ (a ≡ b) }
{
    a == b
}

/// The number of a log that isn't below the least.
pub fn log_from(name: Name, least: u32) -> Option<u32>
    ensures { result ≡ named.log_from least name }
{
    match name {
        Name::Log(number) => if least <= number { Some(number) } else { None },
        Name::Table(_) | Name::Manifest(_) => None,
    }
}

/// The number of a manifest that is below this one.
pub fn manifest_below(name: Name, above: u32) -> Option<u32>
    ensures { result ≡ named.manifest_below above name }
{
    match name {
        Name::Manifest(number) => if number < above { Some(number) } else { None },
        Name::Log(_) | Name::Table(_) => None,
    }
}

/// The files that a store doesn't need behind an opening, by what its manifest says and the logs that its tables lead into.
pub fn strays(names: Vec<Name>, state: &ManifestState, led: &[u32]) -> Vec<Name>
    ensures { result.items ≡ filter (named.is_stray state.now led.now) names.items }
{
    let mut strays = names;
    strays.retain(|name| is_stray(state, led, *name));
    strays
}

fn is_stray(state: &ManifestState, led: &[u32], name: Name) -> bool
    ensures { result ≡ named.is_stray state.now led.now name }
{
    match name {
        Name::Log(number) => number < state.head && !led.contains(&number),
        Name::Table(number) => !is_named(number, state.levels.as_slice()),
        Name::Manifest(_) => true,
    }
}

// Whether a level names this table.
fn is_named(table: u32, levels: &[TableList]) -> bool
    ensures { result ≡ named.is_named table levels.now }
{
    for tables in levels {
        if tables.as_slice().contains(&table) {
            return true;
        }
    }
    false
}
