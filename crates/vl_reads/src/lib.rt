//! What a transaction and a view read: a snapshot of the store, and its past.
//!
//! It stands in memory and in files that never change, so that these calls need no engine.
#![tactic(auto)]

mod fails;
mod laws;
mod past;
mod txn;
mod view;

pub use fails::{AtFail, ReadFail, ReadFault};
pub use laws::what_is_seen_stays;
pub use past::Past;
pub use txn::Txn;
pub use view::View;
pub use vl_txn::SetFail;
pub use vl_version::{Changes, Found};

/// The rows of a scan: keys with their values.
pub type Rows = std::vec::Vec<(vl_model::Key, vl_model::Value)>;
