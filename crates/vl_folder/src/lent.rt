// What a disk lends to a writer.
ghost use Rattle.std.specs.Prelude.{◌≡◌, true, OnOk};

use crate::common::Common;
use crate::folder_error::Trouble;
use crate::named::Named;
use crate::open_file::OpenFile;
use crate::open_folder::OpenFolder;
use std::alloc::Global;
use std::sync::Arc;

/// A file that is lent, and its folder, opened anew.
#[derive(Drop)]
pub struct Lent {
    // so that it counts as held
    pub named: Arc<Named, Global>,
    pub file: OpenFile,
    pub folder: OpenFolder,
    pub common: Arc<Common, Global>,
}

impl Lent {
    /// Makes the file durable, and that it stands in its folder.
    pub fn sync(&mut self) -> Result<(), Trouble>
        ensures { OnOk result (self.new.folder.durable ≡ true) }
    {
        self.file.sync()?;
        let named = self.folder.sync();
        if named.is_err() {
            self.file.lose();
        }
        named
    }
}
