// Laws of what a store shows and holds: each is the contract of a function that does nothing.
ghost use Rattle.std.specs.Prelude.{List, Some, ℕ};
ghost use Rattle.vl_disk.specs.Crash.{Image, WhileCreating, WhileRemoving};
ghost use Rattle.vl_disk.specs.DiskState.{DiskState, created, settled, without};
ghost use Rattle.vl_disk.specs.Lending.{WhileAdopting, adopted};
ghost use Rattle.vl_disk.specs.Name.{IsNumbered};
ghost use Rattle.vl_disk.specs.declared.name.Name.TheVariants.{Table};
ghost use Rattle.vl_engine_laws.specs.Held.{Base, Holds, IsBase};
ghost use Rattle.vl_engine_laws.specs.Pointed.{layout_logs};
ghost use Rattle.vl_engine_laws.specs.Shown.{LeavesBetween, Shown};
ghost use Rattle.vl_engine_laws.specs.Spared.{Spares, SparesRuled};
ghost use Rattle.vl_engine_laws.specs.laws.KeptLaws.{AreOtherTables};
ghost use Rattle.vl_engine_model.specs.Jobs.{AreOutputs, Made};
ghost use Rattle.vl_engine_model.specs.OpenJobs.{IsOpenWell};
ghost use Rattle.vl_engine_model.specs.Rulings.Fresh.{drawn};
ghost use Rattle.vl_engine_model.specs.Rulings.Install.{install_ruling};
ghost use Rattle.vl_engine_model.specs.Sources.{tables};
ghost use Rattle.vl_engine_model.specs.Tidy.{IsTidy};
ghost use Rattle.vl_engine_model.specs.declared.job.OpenJob.{OpenJob};
ghost use Rattle.vl_engine_model.specs.declared.layout.Layout.{Layout};
ghost use Rattle.vl_model.specs.History.{History};
ghost use Rattle.vl_recover.specs.crash.Starts.{MayOpen};
ghost use Rattle.vl_recover.specs.opening.Intact.{IsIntact};

/// An image that shows a history is intact: a store opens from it, and every live pointer resolves, by the image's own bytes.
pub fn what_is_shown_is_intact()
    ensures { (image : Image) (h : History) (m : ℕ) → Shown image h m → IsIntact image }
{}

/// Whatever an install answers, and however much later than its plan it comes, it leaves of each key's versions what tells from
/// where on the key can be read.
pub fn an_install_spares_versions()
    ensures { (l : Layout) (h : History) (o : OpenJob) (made : Made) → IsOpenWell l h o.job o.moved → AreOutputs o.job made
        → Spares l h → SparesRuled (install_ruling l h o.job made) }
{}

/// While a table's file is made beside the layout, lent to the writer of a merge and taken back, whatever a crash leaves shows
/// the history, and the disk holds the layout.
pub fn a_merge_writes_beside_the_layout()
    ensures making { (b : Base) (l : Layout) (h : History) (disk now : DiskState) (n : ℕ) → IsBase b l h
        → IsTidy (layout_logs l) l h → Holds b l disk → AreOtherTables (Table n) (tables l) → IsNumbered (Table n)
        → WhileCreating (Table n) disk now → LeavesBetween h h now × MayOpen now }
    ensures lending { (b : Base) (l : Layout) (h : History) (disk now : DiskState) (n : ℕ) → IsBase b l h
        → IsTidy (layout_logs l) l h → Holds b l disk → AreOtherTables (Table n) (tables l) → IsNumbered (Table n)
        → WhileRemoving (Table n) (created (Table n) disk) now → LeavesBetween h h now × MayOpen now }
    ensures lent { (b : Base) (l : Layout) (h : History) (disk : DiskState) → IsBase b l h → IsTidy (layout_logs l) l h
        → Holds b l disk → IsNumbered (Table l.next_table)
        → Holds b (drawn l) (without (Table l.next_table) (created (Table l.next_table) disk)) }
    ensures adopting { (b : Base) (l : Layout) (h : History) (disk now : DiskState) (n : ℕ) (bytes : List ℕ) → IsBase b l h
        → IsTidy (layout_logs l) l h → Holds b l disk → AreOtherTables (Table n) (tables l) → IsNumbered (Table n)
        → WhileAdopting (Table n) (Some (settled bytes)) disk now → LeavesBetween h h now × MayOpen now }
    ensures adopted { (b : Base) (l : Layout) (h : History) (disk : DiskState) (n : ℕ) (bytes : List ℕ) → IsBase b l h
        → IsTidy (layout_logs l) l h → Holds b l disk → AreOtherTables (Table n) (tables l) → IsNumbered (Table n)
        → Holds b l (adopted (Table n) (settled bytes) disk) }
{}
