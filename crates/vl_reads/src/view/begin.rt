ghost use Rattle.std.specs.Prelude.{◌≡◌};

use crate::View;
use crate::past::Past;
use std::alloc::Global;
use vl_disk::HeldFile;
use vl_table::BlockReader;
use vl_version::Version;

impl<H: HeldFile, R> View<H, R> {
    /// One with this ticket, which reads this version at this number, and as far back as is said.
    pub fn new(
        alloc: Global,
        ticket: u32,
        number: u64,
        past: Past,
        version: Version<H>,
        reader: BlockReader<R>,
    ) -> Self
        ensures ticket { result.ticket ≡ ticket }
        ensures number { result.number ≡ number }
        ensures past { result.past ≡ past }
        ensures version { result.version ≡ version }
        ensures reader { result.reader ≡ reader }
    {
        View {
            alloc,
            ticket,
            number,
            past,
            version,
            reader,
        }
    }

    /// Of the live things of its engine none other has this one.
    pub fn ticket(&self) -> u32
        ensures { result ≡ self.now.ticket }
    {
        self.ticket
    }
}
