//! A client's numbers.
ghost use Rattle.std.specs.Prelude.{◌≡◌, ◌≤◌, ◌<◌, ◌+◌, ℕ, List, IfErr, IfOk, OnErr, OnOk};
ghost use Rattle.vl_drive.specs.Answers.{is_step_fault};
ghost use Rattle.vl_drive.specs.Knowing.{GoesOn, IsCounted, Knows};
ghost use Rattle.vl_sequence.specs.Causes.{IsCause};
ghost use Rattle.vl_sequence.specs.Counted.{rounded_up};
ghost use Rattle.vl_sequence.specs.Counting.{CanGive, HasDrawn, IsStop, MovesOn, Stops};

use crate::fails::SeqFail;
use crate::sequence::Sequence;
use std::sync::Wait;
use vl_drive::{Shop, StepFail};

// How many numbers were given, and how many leases were taken for them.
#[derive(Clone, Copy)]
pub(crate) struct Tally {
    pub(crate) given: u64,
    pub(crate) leases: u64,
}

// Takes so many numbers, by a sequence that has none left.
pub(crate) fn take_numbers<R: Wait, S: Shop>(
    rt: &R,
    sequence: &mut Sequence<S>,
    count: u32,
) -> Result<Tally, SeqFail>
    requires ready { CanGive S.knows sequence.old }
    requires none { sequence.old.end ≡ sequence.old.next }
    ensures on { GoesOn (S.knows sequence.old.shop) (S.knows sequence.new.shop) }
    ensures given { IfOk result (λ tally. (tally.given ≡ count)
        × (tally.leases ≡ rounded_up count sequence.old.lease)) }
    ensures few { IfOk result (λ tally. tally.leases ≤ count) }
    // Each commit is a lease, also where it came to no end.
    ensures leased { HasDrawn S.knows sequence.old 0 sequence.old
        → IfOk result (λ tally. HasDrawn S.knows sequence.old tally.leases sequence.new) }
    ensures some { HasDrawn S.knows sequence.old 0 sequence.old
        → (leases : ℕ) × (leases ≤ count) × HasDrawn S.knows sequence.old leases sequence.new }
    ensures stopped { IfErr result (Stops S.knows sequence.old sequence.new) }
{
    let mut tally = Tally {
        given: 0,
        leases: 0,
    };
    while tally.given < u64::from(count) {
        if sequence.left() == 0 {
            tally.leases += 1;
        }
        take_number(rt, sequence)?;
        tally.given += 1;
    }
    Ok(tally)
}

// Takes the next number. It is asked for again where another client was first, and where the log
// was full.
fn take_number<R: Wait, S: Shop>(rt: &R, sequence: &mut Sequence<S>) -> Result<u64, SeqFail>
    requires ready { CanGive S.knows sequence.old }
    ensures on { GoesOn (S.knows sequence.old.shop) (S.knows sequence.new.shop) }
    ensures same { (sequence.new.key ≡ sequence.old.key) × (sequence.new.lease ≡ sequence.old.lease) }
    ensures ready { CanGive S.knows sequence.new }
    ensures moves { OnOk result (MovesOn sequence.old sequence.new) }
    ensures held { (leases : ℕ) → HasDrawn S.knows sequence.old leases sequence.old
        → sequence.old.next < sequence.old.end
        → OnOk result (HasDrawn S.knows sequence.old leases sequence.new) }
    ensures taken { (leases : ℕ) → HasDrawn S.knows sequence.old leases sequence.old
        → sequence.old.end ≤ sequence.old.next
        → OnOk result (HasDrawn S.knows sequence.old (leases + 1) sequence.new) }
    ensures refused { (leases : ℕ) → HasDrawn S.knows sequence.old leases sequence.old
        → OnErr result (HasDrawn S.knows sequence.old leases sequence.new) }
    ensures stopped { IfErr result (Stops S.knows sequence.old sequence.new) }
{
    for _ in rt.forever() {
        match sequence.next(rt) {
            Ok(number) => return Ok(number),
            Err(why) => pass_over(rt, sequence, why)?,
        }
    }
    unreachable!()
}

// Passes over that another client was first; and where the log was full, seals it.
fn pass_over<R: Wait, S: Shop>(
    rt: &R,
    sequence: &mut Sequence<S>,
    why: SeqFail,
) -> Result<(), SeqFail>
    ensures on { GoesOn (S.knows sequence.old.shop) (S.knows sequence.new.shop) }
    ensures same { (sequence.new.key ≡ sequence.old.key) × (sequence.new.lease ≡ sequence.old.lease)
        × (sequence.new.next ≡ sequence.old.next) × (sequence.new.end ≡ sequence.old.end) }
    ensures ready { CanGive S.knows sequence.old → CanGive S.knows sequence.new }
    ensures leased { (leases : ℕ) → HasDrawn S.knows sequence.old leases sequence.old
        → HasDrawn S.knows sequence.old leases sequence.new }
    ensures stopped { (v : Knows) → GoesOn v (S.knows sequence.old.shop)
        → IsCause v (S.knows sequence.old.shop) sequence.old.key sequence.old.lease why
        → IfErr result (IsStop v (S.knows sequence.new.shop) sequence.old.key sequence.old.lease) }
{
    match why {
        SeqFail::Raced { .. } => Ok(()),
        SeqFail::Full { .. } => sealed(sequence.rotate(rt)),
        other => Err(other),
    }
}

// What was refused may be asked for again.
fn sealed(answer: Result<(), StepFail>) -> Result<(), SeqFail>
    ensures { (v w : Knows) (key : List ℕ) (lease : ℕ) → IsCounted (is_step_fault answer) v w
        → IfErr result (IsStop v w key lease) }
{
    match answer {
        Ok(()) | Err(StepFail::Refused) => Ok(()),
        Err(StepFail::NoMemory) => Err(SeqFail::NoMemory),
        Err(StepFail::Disk { name }) => Err(SeqFail::Disk { name }),
        Err(StepFail::Damaged { name, place }) => Err(SeqFail::Damaged { name, place }),
    }
}
