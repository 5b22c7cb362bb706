// What an engine does with the records of a log: each is the contract of a function that does nothing.
ghost use Rattle.std.specs.Prelude.{◌≡◌, ◌↔◌, ◌≤◌, ◌++◌, ℕ, List, [], map, length, Some, None};
ghost use Rattle.std.specs.List.{flat_map};
ghost use Rattle.vl_model.specs.declared.log_frame.LogFrame.{LogFrame};
ghost use Rattle.vl_seglog.specs.Stored.{frame_pointers};
ghost use Rattle.vl_engine_model.specs.Logs.{frame_records, pointer_to};
ghost use Rattle.vl_engine_model.specs.Relocation.{Candidate, Pass, next_batch};
ghost use Rattle.vl_engine_model_laws.specs.Passes.{AreBatches, IsWithinLimits, found_by};

/// The pointers that staging a frame gives lead to the places that a layout has of its records, those of
/// a commit and those that are moved.
pub fn pointers_of_a_frame_lead_to_its_records()
    ensures { (format : ℕ) (log : ℕ) (place : ℕ) (f : LogFrame)
        → frame_pointers format log place f ≡ map (pointer_to format log) (frame_records format place f) }
{}

/// A batch that a pass gives has a record, keeps within the limits, and with what is found behind it it is all that was found; none
/// is given exactly where nothing is found any more. So the batches up to none, which there are, are all
/// that the pass finds, in order, each once.
pub fn a_pass_gives_all_that_it_finds()
    ensures some { (pass : Pass) (batch : List Candidate) → (next_batch pass).0 ≡ Some batch → 1 ≤ length batch }
    ensures within { (pass : Pass) (batch : List Candidate) → (next_batch pass).0 ≡ Some batch
        → IsWithinLimits batch }
    ensures found { (pass : Pass) (batch : List Candidate) → (next_batch pass).0 ≡ Some batch
        → batch ++ found_by (next_batch pass).1 ≡ found_by pass }
    ensures none { (pass : Pass) → (((next_batch pass).0 ≡ None) ↔ (found_by pass ≡ [])) }
    ensures all { (pass : Pass) (batches : List (List Candidate)) → AreBatches batches pass
        → flat_map (λ (batch : List Candidate). batch) batches ≡ found_by pass }
    ensures end { (pass : Pass) → (batches : List (List Candidate)) × AreBatches batches pass }
{}
