//! The sources of a merge.

ghost use Rattle.std.specs.Prelude.{◌≡◌};

use crate::Version;
use std::marker::PhantomData;
use vl_disk::{HeldFile, ReadFault, Reader};
use vl_merge::Sources;
use vl_model::Entry;
use vl_table::BlockReader;

/// The sources of a store as a moment had them, as a merge of some of their tables asks them.
///
/// What memory has costs a look-up in each memtable. Of the tables each of level 0 is asked, and of a deeper level one at most;
/// one isn't read whose range, filter or greatest version says that it hasn't got what is looked for.
#[derive(Drop)]
pub struct Base<H: HeldFile, R> {
    version: Version<H>,
    read_with: PhantomData<R>,
}

impl<H: HeldFile, R> Base<H, R> {
    /// The sources of this version.
    pub fn new(version: Version<H>) -> Self
        ensures { result.version ≡ version }
    {
        Base {
            version,
            read_with: PhantomData,
        }
    }

    /// The version whose sources these are.
    pub fn version(&self) -> &Version<H>
        ensures { result.now ≡ self.now.version }
    {
        &self.version
    }
}

impl<H: HeldFile, R: Reader<Held = H>> Sources for Base<H, R> {
    ghost use Rattle.vl_table.specs.CursorParts.{MayFailOn, is_disk_fault};
    ghost use Rattle.vl_version.specs.Bases.{Fits, HasSources};
    ghost use Rattle.vl_version.specs.Sources.{tables_in};

    type Reader = BlockReader<R>;

    type Fault = ReadFault;

    ghost has = { λ base inputs ms. HasSources H.bytes base.version inputs ms };

    ghost fits = { λ base reader. Fits H.bytes base.version reader };

    ghost faults = { λ reader. R.faults reader.reader };

    ghost is_read_fault = { λ fault. is_disk_fault fault };

    ghost may_fail = { λ base fault. MayFailOn H.bytes (tables_in base.version) fault };

    fn exact(
        &self,
        reader: &mut BlockReader<R>,
        key: &[u8],
        version: u64,
    ) -> Result<Option<Entry>, ReadFault> {
        self.version.exact(reader, key, version)
    }

    fn older(
        &self,
        reader: &mut BlockReader<R>,
        inputs: &[u32],
        key: &[u8],
        version: u64,
    ) -> Result<bool, ReadFault> {
        self.version.has_older(reader, inputs, key, version)
    }

    fn shadowed(
        &self,
        reader: &mut BlockReader<R>,
        inputs: &[u32],
        key: &[u8],
        version: u64,
    ) -> Result<bool, ReadFault> {
        self.version.is_first_outside(reader, inputs, key, version)
    }
}
