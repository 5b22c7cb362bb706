ghost use Rattle.std.specs.Prelude.{◌≡◌, ◌↔◌, ℕ, ◌+◌, ◌≤◌, List, length, Option, None, Some, OnOk, IsErr, IsTrue};
ghost use Rattle.std.specs.Option.{ForSome};
ghost use Rattle.vl_disk.specs.declared.name.Name.{Name};
ghost use Rattle.vl_disk.specs.Held.{AgreeAt};
ghost use Rattle.vl_disk.specs.DiskState.{bytes_at};
ghost use Rattle.vl_disk.specs.Faults.{HasCause};

use crate::{Failed, Name};

/// A file that a disk shares: its bytes never change, also where the disk removes it. A clone is of the same file, and may
/// find no memory.
pub trait HeldFile: Clone + Drop {
    /// Its bytes. One that doesn't tell them claims nothing of them.
    ghost bytes: { Self → Option (List ℕ) };

    /// Its length, which is always known.
    ghost size: { Self → ℕ };

    /// The name that it was held by, which is always known.
    ghost named: { Self → Name };

    /// The length in bytes.
    fn len(&self) -> u64
        ensures { result ≡ size self.now };

    /// The name that it was held by. The disk may have removed the file since, and have another one of this name.
    fn name(&self) -> Name
        ensures { result ≡ named self.now };

    /// Whether it is of the other's name and, if both tell their bytes, has the other's in this range of so many bytes.
    fn same(&self, other: &Self, place: u64, len: u64) -> bool
        ensures { IsTrue result ↔ ((named self.now ≡ named other.now)
            × AgreeAt place len (bytes self.now) (bytes other.now)) };

    /// It has so many bytes.
    ghost sized: { (held : Self) (bytes_of : List ℕ) → bytes held ≡ Some bytes_of → length bytes_of ≡ size held };

    /// A clone is of the same file.
    ghost shared: { (held copy : Self) → Self.is_clone held copy → (bytes copy ≡ bytes held) × (size copy ≡ size held) };

    /// A clone has the same name.
    ghost named_alike: { (held copy : Self) → Self.is_clone held copy → named copy ≡ named held };

    /// All of one type tell their bytes, or none does.
    ghost alike: { (held other : Self) → bytes held ≡ None → bytes other ≡ None };
}

/// What reads held files, beside the disk.
pub trait Reader {
    type Held: HeldFile;

    /// How often it has failed. The count never falls. It is `never` of one of which no read fails, now or later.
    ghost faults: { Self → ℕ };

    /// Reads the bytes of a held file from a place on, as many as fill `out`. If it fails, `out` may hold anything.
    fn read(&mut self, held: &Self::Held, place: u64, out: &mut [u8]) -> Result<(), Failed>
        requires { place + length out.old ≤ Self.Held.size held.now }
        ensures bytes { OnOk result (ForSome (Self.Held.bytes held.now)
            (λ bytes. out.new ≡ bytes_at place (length out.old) bytes)) }
        ensures cause { HasCause (faults self.old) (faults self.new) (IsErr result) };
}
