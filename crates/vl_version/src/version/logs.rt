//! The logs into which pointers lead.

ghost use Rattle.std.specs.Prelude.{◌≡◌, IfSome};
ghost use Rattle.std.specs.Option.{option_copied};
ghost use Rattle.vl_version.specs.Sources.{AreRising, log_in};

use crate::Version;
use crate::resolve::log_of;
use vl_disk::HeldFile;
use vl_seglog::SealedLog;

impl<H: HeldFile> Version<H> {
    /// Those that are sealed, by rising numbers.
    pub fn logs(&self) -> &[SealedLog<H>]
        ensures { result.now ≡ self.now.behind.logs.items }
    {
        &self.behind.as_ref().logs
    }

    /// The sealed log with this number, found by halving.
    pub fn log(&self, number: u32) -> Option<&SealedLog<H>>
        ensures found { AreRising self.now.behind.logs.items → option_copied result ≡ log_in self.now.behind.logs.items number }
        ensures number { IfSome result (λ log. log.now.number ≡ number) }
    {
        log_of(&self.behind.as_ref().logs, number)
    }
}
