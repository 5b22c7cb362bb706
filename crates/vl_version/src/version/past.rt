//! The versions of a key, from the newest on.

ghost use Rattle.std.specs.Prelude.{◌≡◌, ◌≤◌, ◌+◌, IfErr};
ghost use Rattle.vl_model.specs.Numbers.{greatest_below, nth_below};
ghost use Rattle.vl_model.specs.Versions.{versions_in};
ghost use Rattle.vl_table.specs.Kept.{Files};
ghost use Rattle.vl_table.specs.KeptBlocks.{ReadsOf};
ghost use Rattle.vl_version.specs.Naming.{IsAskedFault};
ghost use Rattle.vl_version.specs.Over.{LooksOver};
ghost use Rattle.vl_version.specs.Past.{IsVersionOf, LooksBelow, LooksNth, SeeksVersion};
ghost use Rattle.vl_version.specs.Sources.{tables_in};
ghost use Rattle.vl_version.specs.levels.LevelsLooked.{AreLaidOut};

use crate::Version;
use crate::newest::{newer_of, stand_in, version_of};
use vl_disk::{HeldFile, ReadFault, Reader};
use vl_table::BlockReader;

impl<H: HeldFile> Version<H> {
    /// Of the versions of a key that are at most a number the nth newest, if there are so many. Tables are looked through
    /// once for each version, and no log is read.
    pub fn nth_version<R: Reader<Held = H>>(
        &self,
        reader: &mut BlockReader<R>,
        key: &[u8],
        number: u64,
        nth: u8,
    ) -> Result<Option<u64>, ReadFault>
        requires { 1 ≤ nth }
        ensures seeks { SeeksVersion H.bytes R.faults self.now (λ es. nth_below (versions_in es key.now) (number + 1) nth)
            reader.old reader.new result }

        // Where tables are laid out no look-up on the way hides a block that doesn't stand, also if they aren't true.
        ensures looks { (files : Files) → ReadsOf H.bytes files reader.old (tables_in self.now)
            → AreLaidOut self.now.behind.levels → LooksNth H.bytes self.now key.now (number + 1) nth result }
        ensures fault { (files : Files) → ReadsOf H.bytes files reader.old (tables_in self.now)
            → IfErr result (IsAskedFault H.bytes (tables_in self.now) key.now) }
    {
        if nth == 1 {
            return self.newest_version(reader, key, number);
        }
        let newer = self.nth_version(reader, key, number, nth - 1)?;
        match newer {
            None => Ok(None),
            Some(version) => self.version_below(reader, key, version),
        }
    }

    // The newest version of a key that is below a number.
    fn version_below<R: Reader<Held = H>>(
        &self,
        reader: &mut BlockReader<R>,
        key: &[u8],
        bound: u64,
    ) -> Result<Option<u64>, ReadFault>
        ensures seeks { SeeksVersion H.bytes R.faults self.now (λ es. greatest_below bound (versions_in es key.now))
            reader.old reader.new result }
        ensures looks { (files : Files) → ReadsOf H.bytes files reader.old (tables_in self.now)
            → AreLaidOut self.now.behind.levels → LooksBelow H.bytes self.now key.now bound result }
        ensures fault { (files : Files) → ReadsOf H.bytes files reader.old (tables_in self.now)
            → IfErr result (IsAskedFault H.bytes (tables_in self.now) key.now) }
    {
        if bound == 0 {
            return Ok(None);
        }
        self.newest_version(reader, key, bound - 1)
    }

    // The newest version of a key that is at most a number.
    fn newest_version<R: Reader<Held = H>>(
        &self,
        reader: &mut BlockReader<R>,
        key: &[u8],
        number: u64,
    ) -> Result<Option<u64>, ReadFault>
        ensures seeks { SeeksVersion H.bytes R.faults self.now (λ es. greatest_below (number + 1) (versions_in es key.now))
            reader.old reader.new result }
        ensures looks { (files : Files) → ReadsOf H.bytes files reader.old (tables_in self.now)
            → AreLaidOut self.now.behind.levels → LooksOver H.bytes self.now key.now number IsVersionOf result }
        ensures fault { (files : Files) → ReadsOf H.bytes files reader.old (tables_in self.now)
            → IfErr result (IsAskedFault H.bytes (tables_in self.now) key.now) }
    {
        let behind = self.behind.as_ref();
        let held = self.find_held(key, number);
        let found = behind.levels.find(reader, key, number, stand_in(held))?;
        Ok(version_of(newer_of(held, found)))
    }
}
