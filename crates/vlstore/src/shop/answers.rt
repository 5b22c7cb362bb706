//! Answers of calls that can't fail, as a shop gives them.
ghost use Rattle.std.specs.Prelude.{◌≡◌, ◌≢◌, IfErr, IsErrAnd, IsOk, Ok, Option, false};
ghost use Rattle.vl_drive.specs.Answers as drive;
ghost use Rattle.vl_drive.specs.declared.fails.StepFail.TheVariants as fails;
ghost use Rattle.vl_engine.specs.declared.fails.MergeFail.TheVariants as merge;
ghost use Rattle.vl_steps.specs.Answers.{begin_outcome, commit_outcome, handed_back};
ghost use Rattle.vl_reads.specs.declared.txn.Txn.{Txn};
ghost use Rattle.vl_model.specs.Keys.{Stored};
ghost use Rattle.vlstore.specs.Shops.{IsFaultyCommit, IsFaultyStep, IsFaultySweep, IsOnlyWant, IsOnlyWantOfSet};

use std::alloc::AllocError;
use vl_disk::HeldFile;
use vl_engine::{
    BeginFail, CommitFail, Done, MergeFail, ReadFail, SetFail, StepFail, SweepFail, Txn,
};
use vl_model::Value;

// A begin's answer.
pub(super) fn as_begin<H: HeldFile, R: Drop>(
    answer: Result<Txn<H, R>, BeginFail>,
) -> Result<Txn<H, R>, vl_drive::BeginFail>
    ensures outcome { drive.begin_outcome (λ t. t.ticket) (λ t. t.number) result ≡ begin_outcome answer }
    ensures ok { (txn : Txn H R) → result ≡ Ok txn → answer ≡ Ok txn }
{
    match answer {
        Ok(txn) => Ok(txn),
        Err(BeginFail::TooMany) => Err(vl_drive::BeginFail::TooMany),
        Err(BeginFail::NoMemory) => Err(vl_drive::BeginFail::NoMemory),
    }
}

// A commit's answer.
pub(super) fn as_commit<H: HeldFile, R: Drop>(
    answer: Result<Done, CommitFail<H, R>>,
) -> Result<vl_drive::Done, vl_drive::CommitFail<Txn<H, R>>>
    requires { IsFaultyCommit answer → ⊥ }
    ensures outcome { drive.commit_outcome result ≡ commit_outcome answer }
    ensures back { drive.handed_back result ≡ handed_back answer }
    ensures faults { drive.is_commit_fault result ≡ false }
{
    match answer {
        Ok(Done::At(number)) => Ok(vl_drive::Done::At(number)),
        Ok(Done::Nothing) => Ok(vl_drive::Done::Nothing),
        Err(CommitFail::Exhausted(txn)) => Err(vl_drive::CommitFail::Exhausted(txn)),
        Err(CommitFail::Conflict { key, number }) => {
            Err(vl_drive::CommitFail::Conflict { key, number })
        }
        Err(CommitFail::Full { txn, length, frame }) => {
            Err(vl_drive::CommitFail::Full { txn, length, frame })
        }
        Err(CommitFail::NoMemory(txn)) => Err(vl_drive::CommitFail::NoMemory(txn)),
        Err(CommitFail::Halted { .. } | CommitFail::Disk { .. }) => unreachable!(),
    }
}

// A read's answer.
pub(super) fn as_read(
    answer: Result<Option<Value>, ReadFail>,
) -> Result<Option<Value>, vl_drive::ReadFail>
    requires { IsOnlyWant answer }
    ensures ok { (value : Option Stored) → result ≡ Ok value → answer ≡ Ok value }
    ensures faults { drive.is_read_fault result ≡ false }
{
    match answer {
        Ok(value) => Ok(value),
        Err(ReadFail::NoMemory) => Err(vl_drive::ReadFail::NoMemory),
        Err(
            ReadFail::EmptyKey
            | ReadFail::KeyTooLong
            | ReadFail::Disk { .. }
            | ReadFail::Damaged { .. },
        ) => unreachable!(),
    }
}

// A write's answer.
pub(super) fn as_set(answer: Result<(), SetFail>) -> Result<(), AllocError>
    requires { IsOnlyWantOfSet answer }
    ensures { IsOk result → answer ≡ Ok tt }
{
    match answer {
        Ok(()) => Ok(()),
        Err(SetFail::NoMemory) => Err(AllocError),
        Err(SetFail::EmptyKey | SetFail::KeyTooLong | SetFail::ValueTooLong | SetFail::TooBig) =>
            unreachable!(),
    }
}

// A rotation's answer, and a flush's.
pub(super) fn as_step(answer: Result<Option<u32>, StepFail>) -> Result<(), vl_drive::StepFail>
    requires { IsFaultyStep answer → ⊥ }
    ensures { drive.is_step_fault result ≡ false }
{
    match answer {
        Ok(_) => Ok(()),
        Err(StepFail::Exhausted(_)) => Err(vl_drive::StepFail::Refused),
        Err(StepFail::NoMemory) => Err(vl_drive::StepFail::NoMemory),
        Err(StepFail::Halted { .. } | StepFail::Disk { .. }) => unreachable!(),
    }
}

// A merge's answer.
pub(super) fn as_merge(answer: Result<Option<u64>, MergeFail>) -> Result<(), vl_drive::StepFail>
    ensures faults { drive.is_step_fault result ≡ false }
    ensures refused { IfErr result (λ fail. fail ≡ fails.Refused → IsErrAnd answer (λ why. why ≢ merge.NoMemory)) }
{
    match answer {
        Ok(_) => Ok(()),
        Err(MergeFail::NoMemory) => Err(vl_drive::StepFail::NoMemory),
        Err(
            MergeFail::Halted { .. }
            | MergeFail::Exhausted(_)
            | MergeFail::Raced
            | MergeFail::Disk { .. }
            | MergeFail::Damaged { .. },
        ) => Err(vl_drive::StepFail::Refused),
    }
}

// A sweep's answer.
pub(super) fn as_sweep(answer: Result<u64, SweepFail>) -> Result<(), vl_drive::StepFail>
    requires { IsFaultySweep answer → ⊥ }
    ensures { drive.is_step_fault result ≡ false }
{
    match answer {
        Ok(_) => Ok(()),
        Err(SweepFail::Halted { .. } | SweepFail::Disk { .. }) => unreachable!(),
    }
}
