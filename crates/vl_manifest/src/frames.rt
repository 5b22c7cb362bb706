ghost use Rattle.std.specs.Prelude.{◌≡◌, ◌≤◌, drop, length};

use vl_frame::HEADER_BYTES;

/// What stands behind a file's header.
pub fn behind_header(bytes: &[u8]) -> &[u8]
    requires { HEADER_BYTES ≤ length bytes.now }
    ensures { result.now ≡ drop HEADER_BYTES bytes.now }
{
    &bytes[HEADER_BYTES..]
}
