//! What a merge of some tables asks of all sources.

ghost use Rattle.std.specs.Prelude.{◌≡◌, ◌++◌};
ghost use Rattle.std.specs.Option.{option_copied};
ghost use Rattle.vl_model.specs.Cutting.{joined};
ghost use Rattle.vl_merge.specs.Marked.{is_first_outside, outside_of};
ghost use Rattle.vl_model.specs.Merging.{has_older};
ghost use Rattle.vl_model.specs.Winners.{exact};
ghost use Rattle.vl_version.specs.Bases.{marked_sources};
ghost use Rattle.vl_version.specs.Sources.{in_memory, tables_in};
ghost use Rattle.vl_version.specs.levels.LevelsLooked.{AreInOrder};
ghost use Rattle.vl_version.specs.levels.Marks.{Tells};

use crate::Version;
use crate::frozen::exact_frozen;
use crate::owned::owned_entry;
use vl_disk::{HeldFile, ReadFault, Reader};
use vl_model::Entry;
use vl_table::BlockReader;

impl<H: HeldFile> Version<H> {
    /// The entry of a key and version in the first source that has one.
    pub(crate) fn exact<R: Reader<Held = H>>(
        &self,
        reader: &mut BlockReader<R>,
        key: &[u8],
        version: u64,
    ) -> Result<Option<Entry>, ReadFault>
        ensures { Tells H.bytes R.faults (tables_in self.now) (AreInOrder self.now.behind.levels)
            (λ ess found. found ≡ exact (in_memory self.now ++ joined ess) key.now version) reader.old reader.new result }
    {
        if let Some(entry) = self.exact_held(key, version) {
            return Ok(Some(entry.share()?));
        }
        let behind = self.behind.as_ref();
        match behind.levels.exact(reader, key, version)? {
            Some(found) => {
                let entry = owned_entry(*behind.frozen.allocator(), key, &found)?;
                Ok(Some(entry))
            }
            None => Ok(None),
        }
    }

    /// Whether a source other than these tables has the key at a lower version.
    pub(crate) fn has_older<R: Reader<Held = H>>(
        &self,
        reader: &mut BlockReader<R>,
        inputs: &[u32],
        key: &[u8],
        version: u64,
    ) -> Result<bool, ReadFault>
        ensures { Tells H.bytes R.faults (tables_in self.now) (AreInOrder self.now.behind.levels)
            (λ ess found. found ≡ has_older (outside_of (marked_sources inputs.now self.now ess)) key.now version)
            reader.old reader.new result }
    {
        if version == 0 {
            return Ok(false);
        }
        if self.find_held(key, version - 1).is_some() {
            return Ok(true);
        }
        let levels = &self.behind.as_ref().levels;
        levels.has_outside(reader, inputs, key, version - 1)
    }

    /// Whether the first source that has the key and version is none of these tables.
    pub(crate) fn is_first_outside<R: Reader<Held = H>>(
        &self,
        reader: &mut BlockReader<R>,
        inputs: &[u32],
        key: &[u8],
        version: u64,
    ) -> Result<bool, ReadFault>
        ensures { Tells H.bytes R.faults (tables_in self.now) (AreInOrder self.now.behind.levels)
            (λ ess found. found ≡ is_first_outside (marked_sources inputs.now self.now ess) key.now version)
            reader.old reader.new result }
    {
        if self.exact_held(key, version).is_some() {
            return Ok(true);
        }
        let levels = &self.behind.as_ref().levels;
        levels.is_first_outside(reader, inputs, key, version)
    }

    // The entry in memory of a key and version in the first source that has one.
    fn exact_held(&self, key: &[u8], version: u64) -> Option<&Entry>
        ensures { option_copied result ≡ exact (in_memory self.now) key.now version }
    {
        match self.active.exact(key, version) {
            Some(entry) => Some(entry),
            None => exact_frozen(&self.behind.as_ref().frozen, key, version),
        }
    }
}
