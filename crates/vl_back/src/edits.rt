//! What a flush changes of what the manifest says.

ghost use Rattle.std.specs.Prelude.{◌≡◌, ◌∷◌, List};
ghost use Rattle.vl_back.specs.Deciding.{MayFlush};
ghost use Rattle.vl_back.specs.FlushEdits.{flush_switch, head_of};
ghost use Rattle.vl_manifest.specs.declared.waiting.Waiting.{Waiting};

use crate::Back;
use vl_manifest::Edit;

impl Back {
    /// The switch of the flush of the log that waits for longest, where `active` is the log that takes commits.
    pub fn flush_edits(&self, active: u32) -> [Edit; 3]
        requires { MayFlush self.now }
        ensures { result ≡ flush_switch active self.now }
    {
        [
            Edit::Add {
                level: 0,
                position: 0,
                table: self.state.next_table,
            },
            Edit::Head {
                segment: self.head_behind(active),
                number: self.waiting[0].covered,
            },
            Edit::Next {
                log: self.next_log,
                table: self.state.next_table + 1,
            },
        ]
    }

    // The first log whose commits aren't in tables then.
    fn head_behind(&self, active: u32) -> u32
        ensures { (w : Waiting) (ws : List Waiting) → self.now.waiting.items ≡ w ∷ ws → result ≡ head_of active ws }
    {
        match self.waiting.get(1) {
            Some(next) => next.number,
            None => active,
        }
    }
}
