// A disk in memory for trials: it stops behind so many changing calls, and no other call fails.
use crate::held::MemHeld;
use crate::mem_disk::MemDisk;
use crate::outcome::Outcome;
use crate::steady_reader::SteadyReader;
use crate::steady_writer::SteadyWriter;
use std::alloc::Global;
use vl_disk::{Disk, DiskFail, Failed, Name, NoMemory, Watched};

/// A disk in memory that lets so many changing calls pass, and fails each later one. Nothing else of it fails, and neither what
/// reads the files that it shares nor what writes those that it lends ever does.
#[derive(Drop)]
pub struct StoppingDisk {
    disk: MemDisk,
}

impl StoppingDisk {
    ghost use Rattle.std.specs.Prelude.{◌≡◌, None, Some, IfOk};
    ghost use Rattle.vl_disk.specs.Crash.{MayLeave};
    ghost use Rattle.vl_disk.specs.DiskState.{empty_disk};
    ghost use Rattle.vl_disk.specs.Started.{Started};
    ghost use Rattle.vl_mem.specs.CrashImage.{crash_image};
    ghost use Rattle.vl_mem.specs.StoppingDisk.{calls_on, state_on, StopsPast};

    /// An empty disk that stops behind so many changing calls.
    pub fn new(alloc: Global, calls: u64) -> Self
        ensures empty { state_on result ≡ empty_disk }
        ensures calls { calls_on result ≡ 0 }
        ensures stops { StopsPast result (Some calls) }
    {
        let mut disk = MemDisk::new(alloc, Vec::new(alloc), Vec::new(alloc));
        disk.stop_after(calls);
        StoppingDisk { disk }
    }

    /// A disk that was just started from what a crash of this one leaves. Its count begins anew, and none of its calls fails.
    /// Where memory runs out, nothing is left of either.
    pub fn crash(self, outcome: Outcome) -> Result<StoppingDisk, NoMemory>
        ensures started { IfOk result (λ disk. Started (crash_image outcome (state_on self)) (state_on disk)) }
        ensures left { MayLeave (state_on self) (crash_image outcome (state_on self)) }
        ensures stops { IfOk result (λ disk. StopsPast disk None) }
    {
        let disk = self.disk.crash(outcome)?;
        Ok(StoppingDisk { disk })
    }
}

impl Watched for StoppingDisk {
    ghost use Rattle.std.specs.Prelude.{true};
    ghost use Rattle.vl_mem.specs.MemDisk.{told_by, moment_of, was_since, changes_of, faults_of, room_of};
    ghost use Rattle.vl_mem.specs.FailsPast.{FailsPast};

    ghost told = { λ d. told_by d.disk };

    ghost moment = { λ d. moment_of d.disk };

    ghost states_since = { λ d. was_since d.disk };

    ghost calls = { λ d. (changes_of d.disk).listed.calls };

    ghost faults = { λ d. faults_of d.disk };

    ghost spare = { λ d. room_of d.disk };

    ghost fails_cleanly = { true };

    ghost fails_past = { λ d. FailsPast d.disk };

    ghost gives_steady = { λ _. Unit {0} };
}

impl Disk for StoppingDisk {
    type Held = MemHeld;

    type Reader = SteadyReader;

    type Writer = SteadyWriter;

    ghost use Rattle.vl_mem.specs.Event.{told_lawful, counts_present, only_present};
    ghost use Rattle.vl_mem.specs.FailsPast.{counted_past};
    ghost use Rattle.vl_mem.specs.Held.{is_told};
    ghost use Rattle.vl_mem.specs.MemDisk.{state_of};

    ghost lawful = { λ d. told_lawful d.disk.events.items d.disk.kept.sound };

    ghost counts_now = { λ d. counts_present d.disk.events.items };

    ghost only_now = { λ d. only_present d.disk.events.items };

    ghost counts_past = { λ d. counted_past d.disk };

    ghost alike = { λ one other none. is_told (state_of one.disk) none };

    fn list(&mut self, alloc: Global) -> Result<Vec<Name>, DiskFail> {
        self.disk.list(alloc)
    }

    fn size(&mut self, name: Name) -> Result<u64, Failed> {
        self.disk.size(name)
    }

    fn read(&mut self, name: Name, place: u64, out: &mut [u8]) -> Result<(), Failed> {
        self.disk.read(name, place, out)
    }

    fn ready(&mut self, name: Name, bytes: u64) -> Result<(), NoMemory> {
        self.disk.ready(name, bytes)
    }

    fn create(&mut self, name: Name) -> Result<(), Failed> {
        self.disk.create(name)
    }

    fn append(&mut self, name: Name, piece: &[u8]) -> Result<(), Failed> {
        self.disk.append(name, piece)
    }

    fn sync(&mut self, name: Name) -> Result<(), Failed> {
        self.disk.sync(name)
    }

    fn cut(&mut self, name: Name, len: u64) -> Result<(), Failed> {
        self.disk.cut(name, len)
    }

    fn remove(&mut self, name: Name) -> Result<(), Failed> {
        self.disk.remove(name)
    }

    fn hold(&mut self, name: Name) -> Result<MemHeld, DiskFail> {
        self.disk.hold(name)
    }

    #[tactic(auto, using(vl_disk::specs::laws::Counting::counts_never))]
    fn lend(&mut self, name: Name) -> Result<SteadyWriter, Failed> {
        let writer = self.disk.lend(name)?;
        Ok(SteadyWriter { writer })
    }

    fn adopt(&mut self, writer: SteadyWriter) {
        self.disk.adopt(writer.writer);
    }

    #[tactic(auto, using(vl_disk::specs::laws::Counting::counts_never))]
    fn reader(&self, _alloc: Global) -> Result<SteadyReader, NoMemory> {
        Ok(SteadyReader {})
    }
}
