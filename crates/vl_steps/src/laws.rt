// Laws of installs: each is the contract of a function that does nothing.
ghost use Rattle.std.specs.Prelude.{◌≡◌};
ghost use Rattle.vl_disk.specs.DiskState.{DiskState};
ghost use Rattle.vl_engine_laws.specs.Held.{Base, Holds, IsBase};
ghost use Rattle.vl_engine_laws.specs.Laid.{AreLevelsOf, HasLayout};
ghost use Rattle.vl_engine_laws.specs.Pointed.{layout_logs};
ghost use Rattle.vl_engine_laws.specs.Shown.{LeavesBetween};
ghost use Rattle.vl_steps.specs.laws.InstallApplies.{edits_of};
ghost use Rattle.vl_steps.specs.laws.InstallBase.{CanInstall};
ghost use Rattle.vl_steps.specs.laws.InstallLaws.{IsHeldTidy};
ghost use Rattle.vl_engine_laws.specs.laws.SwitchLaws.{switch_frame};
ghost use Rattle.vl_engine_model.specs.Jobs.{Made};
ghost use Rattle.vl_engine_model.specs.Rulings.Install.{install_ruling, installed};
ghost use Rattle.vl_engine_model.specs.Tidy.{IsTidy};
ghost use Rattle.vl_engine_model.specs.declared.job.OpenJob.{OpenJob};
ghost use Rattle.vl_engine_model.specs.declared.layout.Layout.{Layout};
ghost use Rattle.vl_manifest.specs.Switching.{WhileSwitching, switched};
ghost use Rattle.vl_model.specs.History.{History};
ghost use Rattle.vl_recover.specs.crash.Starts.{MayOpen};
ghost use Rattle.vl_version.specs.Shared.{AreSameLogs};
ghost use Rattle.vl_version.specs.declared.version.Version.{Version};

use vl_disk::HeldFile;

/// While a switch puts the tables of a merge in the place of its inputs, whatever a crash leaves shows the history; and behind it
/// the disk holds the layout that the ruling leaves.
pub fn an_install_is_one_switch()
    ensures through { (b : Base) (l : Layout) (h : History) (o : OpenJob) (made : Made) (disk now : DiskState) → IsBase b l h
        → IsTidy (layout_logs l) l h → Holds b l disk → CanInstall b l o made disk
        → WhileSwitching b.manifest.number (switch_frame b (edits_of b l o.job made)) disk now → LeavesBetween h h now }
    ensures again { (b : Base) (l : Layout) (h : History) (o : OpenJob) (made : Made) (disk now : DiskState) → IsBase b l h
        → IsTidy (layout_logs l) l h → Holds b l disk → CanInstall b l o made disk
        → WhileSwitching b.manifest.number (switch_frame b (edits_of b l o.job made)) disk now → MayOpen now }
    ensures holds { (b : Base) (l : Layout) (h : History) (o : OpenJob) (made : Made) (disk : DiskState) → IsBase b l h
        → IsTidy (layout_logs l) l h → Holds b l disk → CanInstall b l o made disk
        → IsHeldTidy (install_ruling l h o.job made).layout h
        (switched b.manifest.number (switch_frame b (edits_of b l o.job made)) disk) }
{}

/// Where the tables of an install take the place of its inputs in a version, and the rest stays, the version has the layout that
/// the ruling leaves.
pub fn a_version_has_what_is_installed<H: HeldFile>()
    ensures { (before after : Version H) (b : Base) (l : Layout) (h : History) (o : OpenJob) (made : Made) (disk : DiskState)
        → IsBase b l h → IsTidy (layout_logs l) l h → Holds b l disk → CanInstall b l o made disk → HasLayout H.bytes before l
        → AreLevelsOf H.bytes after.behind.levels (installed o.job made l).levels → after.active ≡ before.active
        → after.behind.frozen.items ≡ before.behind.frozen.items
        → AreSameLogs H.bytes before.behind.logs.items after.behind.logs.items
        → HasLayout H.bytes after (installed o.job made l) }
{}
