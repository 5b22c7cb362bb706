ghost use Rattle.std.specs.Prelude.{◌≡◌, ◌≢◌, ◌+◌, ◌<◌, ◌≤◌, ◌++◌, ℕ, List, length, IfOk, Err, Option, Some};
ghost use Rattle.vl_disk.specs.Faults.{HasCause};
ghost use Rattle.vl_script_model.specs.Exchanges.{KeepsUp};
ghost use Rattle.vl_script_model.specs.Input.{ReadsLine, FailsWithin};

use crate::input::{Buffer, InputFail};
use vl_io::Source;
use vl_script::{MAX_LINE_BYTES, Next};

/// Reads the next line, without its end, in the place of what `line` held.
pub fn read_line<S: Source>(
    buffer: &mut Buffer,
    source: &mut S,
    line: &mut Vec<u8>,
) -> Result<Next, InputFail>
    ensures line { IfOk result (λ next. (left : List ℕ) → S.left source.old ≡ Some left
        → ReadsLine next (buffer.old ++ left) line.new.items buffer.new (S.left source.new)) }
    ensures shorter { IfOk result (λ next. next ≡ Next.Line
        → length buffer.new + S.budget source.new < length buffer.old + S.budget source.old) }
    ensures within { result ≡ Err InputFail.Fault → (left : List ℕ) → S.left source.old ≡ Some left
        → FailsWithin (buffer.old ++ left) (S.left source.new) }
    // Where no answer was owed when the source was last asked before, none was when it was last asked now: it is asked
    // only within a line.
    ensures keeps_up { (left : List ℕ) → S.left source.old ≡ Some left
        → KeepsUp (buffer.old ++ left) (S.asked source.old) 0
        → KeepsUp (buffer.old ++ left) (S.asked source.new) 0 }
    ensures cause { HasCause (S.faults source.old) (S.faults source.new) (result ≡ Err InputFail.Fault) }
    // What is told of the source stays told.
    ensures still_told { (left : List ℕ) → S.left source.old ≡ Some left → (rest : List ℕ) × (S.left source.new ≡ Some rest) }
{
    line.clear();
    loop {
        if buffer.take_line(line)? {
            return Ok(Next::Line);
        }
        if line.len() > MAX_LINE_BYTES {
            return Ok(Next::TooLong);
        }
        if !buffer.refill(source)? {
            return Ok(if line.is_empty() {
                Next::End
            } else {
                Next::LastLine
            });
        }
    }
}
