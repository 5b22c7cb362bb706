// Laws of live bytes: each is the contract of a function that does nothing.
ghost use Rattle.std.specs.Prelude.{◌≡◌, ◌+◌, ◌++◌, ℕ, List};
ghost use Rattle.vl_engine_model.specs.Garbage.{live_bytes};
ghost use Rattle.vl_engine_model.specs.declared.table.Table.{Table};

/// Where tables stay, those that were dropped stood beside them, and those that were added stand in front of them: so with
/// the dropped ones the tables after a switch lead to as many bytes as those before it with the added ones.
pub fn tables_come_and_go()
    ensures { (segment : ℕ) (kept added dropped : List Table)
        → live_bytes (added ++ kept) segment + live_bytes dropped segment
        ≡ live_bytes added segment + live_bytes (kept ++ dropped) segment }
{}
