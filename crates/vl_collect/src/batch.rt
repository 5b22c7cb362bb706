//! Records of a log that are to be moved.

ghost use Rattle.std.specs.Prelude.{◌≡◌, length, IfNone, IfSome};

use std::marker::Model;
use vl_model::Moved;

/// A record that was found, and its place in the log.
#[derive(Drop)]
pub struct Found {
    pub moved: Moved,
    pub place: u64,
}

/// What a pass gives at once: records in their order in the log, which may be written again. Clauses see the list of them.
#[derive(Drop)]
pub struct Batch {
    records: Vec<Found>,
}

impl Model for Batch {
    ghost use Rattle.std.specs.Prelude.{List};
    ghost use Rattle.vl_collect.specs.Batches.{IsBatch};
    ghost use Rattle.vl_collect.specs.Taking.{candidates};
    ghost use Rattle.vl_engine_model.specs.Relocation.{Candidate};

    ghost Value = { List Candidate };

    ghost view = { λ b. candidates b.records.items };

    ghost invariant = { λ b. IsBatch b.records.items };
}

impl Batch {
    ghost use Rattle.std.specs.Prelude.{◌≡◌, length};
    ghost use Rattle.vl_collect.specs.Batches.{IsBatch};
    ghost use Rattle.vl_collect.specs.Taking.{candidates};
    ghost use Rattle.vl_engine_model.specs.Relocation.{if_any};

    /// These records; None where there are none.
    pub fn of(records: Vec<Found>) -> Option<Self>
        requires { IsBatch records.items }
        ensures { result ≡ if_any (candidates records.items) }
    {
        if records.is_empty() {
            None
        } else {
            Some(Batch { records })
        }
    }

    pub fn records(&self) -> &[Found]
        ensures are { candidates result.now ≡ self.now }
        ensures batch { IsBatch result.now }
    {
        &self.records
    }

    pub fn len(&self) -> usize
        ensures { result ≡ length self.now }
    {
        self.records.len()
    }
}
