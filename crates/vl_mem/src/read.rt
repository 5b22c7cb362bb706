ghost use Rattle.std.specs.Prelude.{◌≡◌, ◌+◌, ◌≤◌, length};
ghost use Rattle.vl_disk.specs.DiskState.{bytes_at};

/// Reads from a place on, as many bytes as fill `out`.
pub fn read_bytes(bytes: &[u8], place: usize, out: &mut [u8])
    requires { place + length out.old ≤ length bytes.now }
    ensures { out.new ≡ bytes_at place (length out.old) bytes.now }
{
    out.copy_from_slice(&bytes[place..place + out.len()]);
}
