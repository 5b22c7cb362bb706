// The names of a store's files in its folder: ten digits and an ending, as `0000000001.vlog`.
ghost use Rattle.std.specs.Prelude.{◌≡◌, ◌≢◌, ℕ, length, ◌++◌, ◌∷◌, IfOk, IfSome, string_bytes};
ghost use Rattle.std.specs.Option.{IfNone};
ghost use Rattle.vl_folder.specs.FileName.{ending, file_name, ten_digits};
ghost use Rattle.vl_disk.specs.Name.{IsNumbered, file_number};

use std::alloc::{AllocError, Global};
use std::str;
use vl_disk::Name;

/// The digits before the ending.
const DIGITS: usize = 10;

/// The path of a file in its folder.
pub fn path_of(alloc: Global, folder: &str, name: Name) -> Result<String, AllocError>
    ensures { IfOk result (λ path. string_bytes path ≡ folder.now ++ 47 ∷ file_name name) }
{
    match name {
        Name::Log(number) => format!(in alloc; "{folder}/{number:010}.vlog"),
        Name::Table(number) => format!(in alloc; "{folder}/{number:010}.vtab"),
        Name::Manifest(number) => format!(in alloc; "{folder}/{number:010}.vman"),
    }
}

/// The file that has this name in a folder, if a file of a store has it.
pub fn named(text: &[u8]) -> Option<Name>
    ensures numbered { IfSome result IsNumbered }
    ensures spelled { IfSome result (λ name. text.now ≡ file_name name) }
    ensures of_others { IfNone result ((name : _) → IsNumbered name → text.now ≢ file_name name) }
{
    let (digits, ending) = text.split_at_checked(DIGITS)?;
    let number = number_in(digits)?;
    with_ending(number, ending)
}

/// The file of this number whose name ends so, if a file of a store does.
fn with_ending(number: u32, text: &[u8]) -> Option<Name>
    ensures number { IfSome result (λ name. file_number name ≡ number) }
    ensures spelled { IfSome result (λ name. text.now ≡ ending name) }
    ensures of_others { IfNone result ((name : _) → text.now ≢ ending name) }
{
    match text {
        b".vlog" => Some(Name::Log(number)),
        b".vtab" => Some(Name::Table(number)),
        b".vman" => Some(Name::Manifest(number)),
        _ => None,
    }
}

/// The number that ten digits spell, if a file's name may have it.
fn number_in(digits: &[u8]) -> Option<u32>
    requires { length digits.now ≡ 10 }
    ensures numbered { IfSome result (λ number. IsNumbered (Name.Log number)) }
    ensures spelled { IfSome result (λ number. digits.now ≡ ten_digits number) }
    ensures of_others { IfNone result
        ((number : ℕ) → IsNumbered (Name.Log number) → digits.now ≢ ten_digits number) }
{
    // `parse` would take a sign for the first of them.
    if digits[0] == b'+' {
        return None;
    }
    let number = str::from_utf8(digits).ok()?.parse::<u32>().ok()?;
    if number == 0 || number == u32::MAX {
        return None;
    }
    Some(number)
}
