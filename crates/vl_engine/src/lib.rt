//! A store over any disk: many transactions and views at a time, each on its own snapshot. A commit is synced to the
//! active log before it is answered, and refused where something that was read was overwritten since.
//!
//! What a transaction or a view reads stands in memory and in files that never change, so that its own calls need no engine.
//! It is given back to the engine that made it, while it lives: by `commit`, `forget` or `release`.
//!
//! docs/API.md tells what each call answers, and what it costs.
#![tactic(auto)]

mod engine;
mod fails;

pub use engine::Engine;
pub use fails::MergeFail;
pub use vl_oracle::BeginFail;
pub use vl_reads::{
    AtFail, Changes, Found, ReadFail, ReadFault, Rows, SetFail, Txn, View, what_is_seen_stays,
};
pub use vl_recover::{OpenError, OpenFail};
pub use vl_space::{PickFail, SweepFail};
pub use vl_steps::{CommitFail, Done, InstallFail, KeepFail, MoveFail, StepFail};
