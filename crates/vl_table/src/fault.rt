ghost use Rattle.std.specs.Prelude.{◌≡◌};
ghost use Rattle.vl_disk.specs.declared.name.Name.TheVariants as names;
ghost use Rattle.vl_disk.specs.declared.read_fault.ReadFault.TheVariants as why;

use vl_disk::{Name, ReadFault};

/// What is answered where the table with this number is damaged at a place.
pub fn damaged(number: u32, place: u64) -> ReadFault
    ensures { result ≡ why.Damaged (names.Table number) place }
{
    ReadFault::Damaged {
        name: Name::Table(number),
        place,
    }
}
