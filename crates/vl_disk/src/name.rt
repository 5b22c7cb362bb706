ghost use Rattle.std.specs.Prelude.{◌≡◌, Some, refl};
ghost use Rattle.std.specs.Cmp.{partial_order_from_agreeing_total};
ghost use Rattle.vl_disk.specs.Name.{name_number, name_cmp, name_cmp_total, name_ties};

use std::cmp::Ordering;

/// The name of a file: its kind, and its number among the files of that kind. A disk has files of the numbers from 1
/// to 4,294,967,294 only.
#[derive(Clone, Copy, Debug, PartialEq, Eq)]
pub enum Name {
    Log(u32),
    Table(u32),
    Manifest(u32),
}

impl Name {
    // Its number among all names.
    fn rank(self) -> u64
        ensures { result ≡ name_number self }
    {
        match self {
            Name::Log(number) => 3 * number as u64,
            Name::Table(number) => 3 * number as u64 + 1,
            Name::Manifest(number) => 3 * number as u64 + 2,
        }
    }
}

impl PartialOrd for Name {
    ghost partial_cmp = { λ a b. Some (name_cmp a b) };

    ghost laws = { partial_order_from_agreeing_total name_cmp name_cmp_total (λ a b. refl) name_ties };

    fn partial_cmp(&self, other: &Name) -> Option<Ordering> {
        Some(self.cmp(other))
    }
}

impl Ord for Name {
    ghost cmp = { name_cmp };

    ghost total = { name_cmp_total };

    ghost matches_partial_cmp = { λ a b. refl };

    ghost matches_eq = { name_ties };

    fn cmp(&self, other: &Name) -> Ordering {
        self.rank().cmp(&other.rank())
    }
}
