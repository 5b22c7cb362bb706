//! How rotations and flushes are answered.
ghost use Rattle.std.specs.Prelude.{◌≡◌};
ghost use Rattle.vl_replay_laws.specs.Standing.{step_answer};

use vl_engine::StepFail;
use vl_script::Answer;
use vl_script_model::Halt;

// How a step on files is answered.
pub(super) fn step_answer(stepped: Result<Option<u32>, StepFail>) -> Result<Answer, Halt>
    ensures { result ≡ step_answer stepped }
{
    match stepped {
        Ok(Some(number)) => Ok(Answer::Number {
            number: u64::from(number),
        }),
        Ok(None) => Ok(Answer::Idle),
        Err(StepFail::Exhausted(counter)) => Ok(Answer::Exhausted { counter }),
        Err(StepFail::NoMemory) => Err(Halt::NoMemory),
        Err(StepFail::Disk { name }) => Err(Halt::Disk { name }),
        Err(StepFail::Halted { name }) => Err(Halt::Halted { name }),
    }
}
