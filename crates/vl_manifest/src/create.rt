//! Making a manifest.

ghost use Rattle.std.specs.Prelude.{◌≡◌, ◌∷◌, [], IfOk, OnOk};
ghost use Rattle.std.specs.Option.{ForSome};
ghost use Rattle.vl_disk.specs.declared.name.Name.TheVariants as names;
ghost use Rattle.vl_disk.specs.Disk.{IsFree};
ghost use Rattle.vl_disk.specs.Name.{IsNumbered};
ghost use Rattle.vl_model.specs.Formats.{manifest_format};
ghost use Rattle.vl_manifest.specs.Making.{MakesManifest, new_manifest};
ghost use Rattle.vl_manifest.specs.Manifest.{ReadsManifest};

use crate::edit::Edit;
use crate::fails::IoFail;
use crate::manifest_log::ManifestLog;
use crate::writer::write_edits;
use std::alloc::{AllocError, Global};
use vl_disk::{Disk, Name, make_file};
use vl_frame::{FileKind, HEADER_BYTES, file_header};
use vl_model::MANIFEST_FORMAT;

impl ManifestLog {
    /// Makes the manifest with this number, whose first frame says these edits, and makes it durable. All memory is
    /// taken before the disk is changed.
    pub fn create<D: Disk>(
        alloc: Global,
        disk: &mut D,
        number: u32,
        edits: &[Edit],
    ) -> Result<Self, IoFail>
        requires numbered { IsNumbered (names.Manifest number) }
        requires free { ForSome (D.told disk.old) (IsFree (names.Manifest number)) }
        ensures { MakesManifest D.Watched number edits.now disk.old disk.new result }
    {
        let bytes = manifest_bytes(alloc, number, edits)?;
        let name = Name::Manifest(number);
        disk.ready(name, bytes.len() as u64)?;
        if make_file(disk, name, &bytes).is_err() {
            return Err(IoFail::Disk { name });
        }
        Ok(ManifestLog {
            number,
            length: bytes.len() as u64,
        })
    }
}

fn manifest_bytes(alloc: Global, number: u32, edits: &[Edit]) -> Result<Vec<u8>, AllocError>
    ensures bytes { IfOk result (λ bytes. bytes.items ≡ new_manifest number edits.now) }
    ensures reads { OnOk result (ReadsManifest manifest_format number (new_manifest number edits.now) (edits.now ∷ [])) }
{
    let mut bytes = Vec::new(alloc);
    bytes.extend_from_slice(&file_header(FileKind::Manifest, MANIFEST_FORMAT, number))?;
    write_edits(alloc, &mut bytes, number, HEADER_BYTES as u64, edits)?;
    Ok(bytes)
}
