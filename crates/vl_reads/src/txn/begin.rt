ghost use Rattle.std.specs.Prelude.{◌≡◌, []};
ghost use Rattle.vl_model.specs.History.{History};
ghost use Rattle.vl_reads.specs.Sees.{IsNew, Sees, SeesAlone};

use crate::{Txn, View};
use vl_disk::HeldFile;
use vl_txn::{Reads, Writes};

impl<H: HeldFile, R> Txn<H, R> {
    /// One that sees what the view does, and has read and written nothing. It has the view's ticket.
    pub fn new(view: View<H, R>) -> Self
        ensures ticket { result.ticket ≡ view.ticket }
        ensures number { result.number ≡ view.number }
        ensures past { result.past ≡ view.past }
        ensures version { result.version ≡ view.version }
        ensures reader { result.reader ≡ view.reader }
        ensures fresh { IsNew result }
        ensures sees { (h : History) → SeesAlone H.bytes view h → Sees H.bytes result h [] }
    {
        let View {
            alloc,
            ticket,
            number,
            past,
            version,
            reader,
        } = view;
        Txn {
            alloc,
            ticket,
            number,
            past,
            version,
            reader,
            reads: Reads::new(alloc),
            writes: Writes::new(alloc),
        }
    }

    /// Of the live things of its engine none other has this one.
    pub fn ticket(&self) -> u32
        ensures { result ≡ self.now.ticket }
    {
        self.ticket
    }

    /// What it has read.
    pub fn reads(&self) -> &Reads
        ensures { result.now ≡ self.now.reads }
    {
        &self.reads
    }

    /// What it has written.
    pub fn writes(&self) -> &Writes
        ensures { result.now ≡ self.now.writes }
    {
        &self.writes
    }
}
