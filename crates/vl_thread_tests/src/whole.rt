// Whole runs of clients over a store. How many of their turns meet a conflict hangs on the moment.
use std::test::Fail;
use vl_drive::drive_store;
use vlstore::SureStore;

// One client that takes one turn, and eight that take many, with upkeep beside them.
#[test]
fn clients_come_to_their_end(rt: HostRuntime) -> Result<(), Fail> {
    let (one, _) = drive_store::<SureStore, HostRuntime>(&rt, rt.alloc(), 1, 1, 0)?;
    assert_eq!(&rt; (one.commits, one.conflicts, one.total), (1, 0, 64000));
    let (many, _) = drive_store::<SureStore, HostRuntime>(&rt, rt.alloc(), 8, 50, 7)?;
    assert_eq!(&rt; many.commits + many.conflicts, 400);
    assert_eq!(&rt; many.total, 64000);
    Ok(())
}
