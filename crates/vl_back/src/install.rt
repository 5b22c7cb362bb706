//! What an install's switch spells, and the room that it makes, before anything is written.

ghost use Rattle.std.specs.Prelude.{◌≡◌, ◌++◌, ◌∷◌, [], length, max, Some, IfOk, IsErrOf, OnOk};
ghost use Rattle.vl_back.specs.InstallEdits.{drops_of, gone_since, install_switch};
ghost use Rattle.vl_back.specs.InstallStaging.{IsStagedInstall, replacing_of};
ghost use Rattle.vl_disk.specs.Calls.{ChangesNothing};
ghost use Rattle.vl_disk.specs.Spare.{CanAppend, SameSpareElsewhere};
ghost use Rattle.vl_disk.specs.declared.name.Name.TheVariants as names;
ghost use Rattle.vl_manifest.specs.Levels.{all_tables};
ghost use Rattle.vl_manifest.specs.States.{level_adds, next_state};
ghost use Rattle.vl_manifest.specs.declared.state.ManifestState.{ManifestState};

use crate::{Back, StageFail};
use std::alloc::{AllocError, Global};
use vl_disk::Disk;
use vl_manifest::{Edit, ManifestState, StagedEdits, TableList};

/// The switch of an install, before it is written.
#[derive(Drop)]
pub struct StagedInstall {
    /// The frame that names the tables.
    pub edits: StagedEdits,
    /// What the manifest says behind the switch.
    pub state: ManifestState,
}

impl Back {
    /// Takes all the memory that the switch of an install wants of the manifest, the disk's too. Tables with these numbers take
    /// the place of the inputs: once these are out, they come to this position of this level. `gone` is the greatest version of
    /// a deletion that the merge drops for good, 0 where it drops none.
    pub fn stage_install<D: Disk>(
        &self,
        alloc: Global,
        disk: &mut D,
        inputs: &[u32],
        level: u8,
        position: u32,
        made: &[u32],
        gone: u64,
    ) -> Result<StagedInstall, StageFail>
        ensures staged { IfOk result (IsStagedInstall self.now (replacing_of self.now inputs.now made.now level position gone)) }

        // Where the switch can be applied to what the manifest says, only memory may be wanting.
        ensures lawful { (state : ManifestState)
            → next_state (install_switch (replacing_of self.now inputs.now made.now level position gone) self.now.state)
            self.now.state ≡ Some state
            → IsErrOf result StageFail.NotLawful → ⊥ }

        // Writing it will want no memory, and the room of other names stays, also where it was refused.
        ensures append { IfOk result (λ staged.
            CanAppend (length staged.edits.frame.items) (D.spare disk.new (names.Manifest self.now.manifest.number))) }
        ensures elsewhere { SameSpareElsewhere (names.Manifest self.now.manifest.number) (D.spare disk.old) (D.spare disk.new) }
        ensures no_change { ChangesNothing D.Watched disk.old disk.new ⊥ }
    {
        let edits = self.install_edits(alloc, inputs, level, position, made, gone)?;
        let Some(state) = self.state.then(alloc, &edits)? else {
            return Err(StageFail::NotLawful);
        };
        let edits = self.manifest.stage(alloc, disk, &edits)?;
        Ok(StagedInstall { edits, state })
    }

    // The switch. Want of memory is the answer too where a position is more than can be counted.
    fn install_edits(
        &self,
        alloc: Global,
        inputs: &[u32],
        level: u8,
        position: u32,
        made: &[u32],
        gone: u64,
    ) -> Result<Vec<Edit>, AllocError>
        ensures { IfOk result (λ edits. edits.items
            ≡ install_switch (replacing_of self.now inputs.now made.now level position gone) self.now.state) }
    {
        let mut edits = Vec::new(alloc);
        add_all_drops(&mut edits, inputs, self.state.levels.as_slice())?;
        add_adds(&mut edits, level, position, made)?;
        edits.push(Edit::Next {
            log: self.next_log,
            table: self.state.next_table,
        })?;
        add_gone(&mut edits, self.state.gone, gone)?;
        Ok(edits)
    }
}

// Puts a Drop for each of these tables that is an input behind the edits, level by level.
fn add_all_drops(
    edits: &mut Vec<Edit>,
    inputs: &[u32],
    levels: &[TableList],
) -> Result<(), AllocError>
    ensures { OnOk result (edits.new.items ≡ edits.old.items ++ drops_of inputs.now (all_tables levels.now)) }
{
    for tables in levels {
        add_drops(edits, inputs, tables.as_slice())?;
    }
    Ok(())
}

fn add_drops(edits: &mut Vec<Edit>, inputs: &[u32], tables: &[u32]) -> Result<(), AllocError>
    ensures { OnOk result (edits.new.items ≡ edits.old.items ++ drops_of inputs.now tables.now) }
{
    for at in 0..tables.len() {
        add_drop(edits, inputs, tables[at])?;
    }
    Ok(())
}

fn add_drop(edits: &mut Vec<Edit>, inputs: &[u32], table: u32) -> Result<(), AllocError>
    ensures { OnOk result (edits.new.items ≡ edits.old.items ++ drops_of inputs.now (table ∷ [])) }
{
    if inputs.contains(&table) {
        edits.push(Edit::Drop { table })?;
    }
    Ok(())
}

// Puts an Add for each of these tables behind the edits, their positions rising.
fn add_adds(
    edits: &mut Vec<Edit>,
    level: u8,
    position: u32,
    tables: &[u32],
) -> Result<(), AllocError>
    ensures { OnOk result (edits.new.items ≡ edits.old.items ++ level_adds level position tables.now) }
{
    if tables.len() > (u32::MAX - position) as usize {
        return Err(AllocError);
    }
    for at in 0..tables.len() {
        edits.push(Edit::Add {
            level,
            position: position + at as u32,
            table: tables[at],
        })?;
    }
    Ok(())
}

// Puts a Gone behind the edits, where this version is above the one that was said.
fn add_gone(edits: &mut Vec<Edit>, said: u64, gone: u64) -> Result<(), AllocError>
    ensures { OnOk result (edits.new.items ≡ edits.old.items ++ gone_since said (max said gone)) }
{
    if gone > said {
        edits.push(Edit::Gone { number: gone })?;
    }
    Ok(())
}
