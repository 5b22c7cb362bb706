//! The first commit, and the upkeep beside the clients.
ghost use Rattle.std.specs.Prelude.{◌≡◌, [], ℕ, List, IfErr, IfOk, OnOk};
ghost use Rattle.vl_drive.specs.Clients.{HasOpened};
ghost use Rattle.vl_drive.specs.Knowing.{GoesOn};
ghost use Rattle.vl_drive.specs.Modest.{IsModest};
ghost use Rattle.vl_drive.specs.Playing.{IsTrouble};
ghost use Rattle.vl_engine_model.specs.declared.lock_history.LockEntry.{LockEntry};

use crate::client::{Score, begin, set};
use crate::commit::{commit, passed_over};
use crate::shop::Shop;
use crate::trouble::Trouble;
use std::alloc::Global;
use std::sync::Wait;

// Each of the 64 accounts gets 1,000.
pub(crate) fn open_accounts<R: Wait, S: Shop>(rt: &R, shop: &mut S) -> Result<(), Trouble>
    ensures on { GoesOn (S.knows shop.old) (S.knows shop.new) }
    ensures opened { (S.knows shop.old).own ≡ []
        → OnOk result (HasOpened (S.knows shop.new).seen (S.knows shop.new)) }
    ensures modest { (S.knows shop.old).own ≡ [] → IsModest 0 (S.knows shop.new) }
    ensures trouble { IfErr result (IsTrouble (S.knows shop.old) (S.knows shop.new)) }
{
    let mut txn = begin(rt, shop)?;
    for account in 0..64 {
        set(shop, &mut txn, account, 1000)?;
    }
    commit(rt, shop, txn)?;
    Ok(())
}

// Goes so many rounds of all steps that keep a store small.
pub(crate) fn keep_up<R: Wait, S: Shop>(
    rt: &R,
    alloc: Global,
    shop: &mut S,
    rounds: u32,
) -> Result<Score, Trouble>
    ensures on { GoesOn (S.knows shop.old) (S.knows shop.new) }
    ensures opened { (note : List LockEntry) → HasOpened note (S.knows shop.old)
        → OnOk result (HasOpened note (S.knows shop.new)) }
    ensures modest { (turns : ℕ) → IsModest turns (S.knows shop.old) → IsModest turns (S.knows shop.new) }
    ensures none { IfOk result (λ score. (score.commits ≡ 0) × (score.conflicts ≡ 0)) }
    ensures trouble { IfErr result (IsTrouble (S.knows shop.old) (S.knows shop.new)) }
{
    for _ in 0..rounds {
        passed_over(shop.rotate(rt))?;
        passed_over(shop.flush(rt))?;
        passed_over(shop.merge(rt, alloc))?;
        passed_over(shop.collect(rt, alloc, 50))?;
        passed_over(shop.sweep(rt))?;
    }
    Ok(Score {
        commits: 0,
        conflicts: 0,
    })
}
