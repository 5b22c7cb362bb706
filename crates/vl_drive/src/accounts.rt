//! Balances as values of a store.
ghost use Rattle.std.specs.Prelude.{◌≡◌};
ghost use Rattle.vl_drive.specs.Accounts.{balance_bytes, balance_in, balance_of};

use byteorder::{BigEndian, ByteOrder};
use vl_model::Value;

// A balance in eight bytes, the greatest first, and 72 zero bytes.
pub(crate) fn balance_bytes(balance: u64) -> [u8; 80]
    ensures { result ≡ balance_bytes balance }
{
    let mut bytes = [0; 80];
    BigEndian::write_u64(&mut bytes, balance);
    bytes
}

// A value of another length counts as balance 0.
fn balance_of(bytes: &[u8]) -> u64
    ensures { result ≡ balance_of bytes.now }
{
    if bytes.len() == 80 {
        BigEndian::read_u64(bytes)
    } else {
        0
    }
}

// And so does none.
pub(crate) fn balance_in(value: &Option<Value>) -> u64
    ensures { result ≡ balance_in value.now }
{
    match value {
        Some(value) => balance_of(value.as_slice()),
        None => 0,
    }
}
