//! A store that is opened on what another one left on its disk, with its sessions as shops.
ghost use Rattle.std.specs.Prelude.{◌≡◌, None, IfErr, IfOk, length, map, true};
ghost use Rattle.std.specs.Option.{ForSome};
ghost use Rattle.vl_drive.specs.Stores as drive;
ghost use Rattle.vl_engine_laws.specs.Carries.{Tells};
ghost use Rattle.vl_model.specs.Limits.{max_room};
ghost use Rattle.vlstore.specs.Reopening.{GoesOnFrom, IsOnlyWantOfOpening, KeepsStore};
ghost use Rattle.vlstore.specs.Shops.{known_of, opened_by, origin_of};

use super::SureSession;
use super::hand::all_sure;
use crate::store::Store;
use crate::unfailing::Unfailing;
use std::alloc::Global;
use vl_engine::{OpenError, OpenFail};
use vl_model::MAX_ROOM;

// A store that goes on with what was left on the disk, and so many shops.
pub(super) fn open_again<D: Unfailing + Drop>(
    alloc: Global,
    disk: D,
    count: u32,
) -> Result<(Store<D>, Vec<SureSession<D>>), OpenError>
    requires { Tells D.Watched disk KeepsStore }
    ensures from { IfOk result (λ r. ForSome (D.told disk) (λ left. GoesOnFrom left max_room (origin_of r.0.origin))) }
    ensures tells { IfOk result (λ r. r.0.tells ≡ true) }
    ensures runs { IfOk result (λ r. r.0.origin.layout.halted ≡ None) }
    ensures count { IfOk result (λ r. (r.0.session ≡ count) × (length r.1.items ≡ count)) }
    ensures first { IfOk result (λ r. drive.AreFirst (opened_by r.0) 0 (map known_of r.1.items)) }
    ensures refused { IfErr result (λ why. ForSome (D.told disk) (λ left. IsOnlyWantOfOpening left why)) }
{
    match Store::open(alloc, disk, MAX_ROOM, count) {
        Ok((store, sessions)) => {
            let Ok(shops) = all_sure(alloc, sessions) else {
                return Err(OpenError::NoMemory);
            };
            Ok((store, shops))
        }
        Err(OpenFail { why, .. }) => Err(why),
    }
}
