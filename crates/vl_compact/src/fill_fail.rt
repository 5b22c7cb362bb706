ghost use Rattle.std.specs.Prelude.{◌≡◌};
ghost use Rattle.vl_compact.specs.declared.fill_fail.FillFail.TheVariants as why;

use vl_disk::ReadFault;

/// Why a table wasn't filled.
#[derive(Clone, Copy, Debug, PartialEq, Eq)]
pub enum FillFail {
    /// Reading or writing failed.
    Fault(ReadFault),
    /// An entry came that its table may not have behind the one before it.
    NotInOrder,
}

impl From<ReadFault> for FillFail {
    ghost from_gives = { λ fault e. e ≡ why.Fault fault };

    fn from(fault: ReadFault) -> Self {
        FillFail::Fault(fault)
    }
}
