ghost use Rattle.std.specs.Prelude.{◌≡◌, ◌+◌, ◌<◌, ◌≤◌, [], length, take, IfOk, IfSome, IsErr};
ghost use Rattle.vl_disk.specs.Faults.{HasCause};
ghost use Rattle.vl_io.specs.Source.{HandsOver};

use vl_disk::Failed;
use vl_io::Source;

/// Fills `out` with the next bytes of a source, and says how many there were: fewer only where the source is at its end.
pub fn fill<S: Source>(source: &mut S, out: &mut [u8]) -> Result<usize, Failed>
    ensures within { IfOk result (λ n. n ≤ length out.new) }
    ensures length { length out.new ≡ length out.old }
    ensures given { IfOk result (λ n. HandsOver (S.left source.old) (S.left source.new) (take n out.new)) }
    ensures end { IfOk result (λ n. n < length out.new → IfSome (S.left source.new) (λ rest. rest ≡ [])) }
    ensures spends { IfOk result (λ n. S.budget source.new + n ≤ S.budget source.old) }
    ensures cause { HasCause (S.faults source.old) (S.faults source.new) (IsErr result) }
{
    let mut filled = 0;
    while filled < out.len() {
        let given = source.next(&mut out[filled..])?;
        if given == 0 {
            return Ok(filled);
        }
        filled += given;
    }
    Ok(filled)
}
