use vl_disk::Disk;
use vl_mem::SureDisk;

/// A disk of which nothing fails but for want of memory: neither its calls, nor what reads or writes its files.
pub trait Unfailing: Disk {
    ghost use Rattle.vlstore.specs.Standing.{NeverFails};

    ghost unfailing: { NeverFails Self.faults Self.Reader.faults Self.Writer.faults };
}

impl Unfailing for SureDisk {
    ghost use Rattle.vl_disk.specs.laws.Counting.{never_counted, zero_counted};
    ghost use Rattle.vl_mem.specs.SureDisk.{faults_on, never_fails};

    ghost unfailing = { record {
      disks = λ disk. zero_counted (faults_on disk) (never_fails disk);
      readers = λ reader. never_counted;
      writers = λ writer. never_counted;
    } };
}
