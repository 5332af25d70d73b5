//! The exit codes of runs.
ghost use Rattle.json_fields.specs.Readings.{Gives};
ghost use Rattle.bot_bodies.specs.ExitCodes.{code_of as spec_code_of};

use task_props::PropRule;

/// An exit code, where there is one.
#[tactic(auto, unfolding(crate::specs::ExitCodes::code_of))]
pub(crate) fn code_of(number: Option<i128>) -> Result<Option<i32>, PropRule>
    ensures { Gives (λ code. code) result (spec_code_of number) }
{
    let Some(number) = number else {
        return Ok(None);
    };
    if -2_147_483_648 <= number && number <= 2_147_483_647 {
        Ok(Some(number as i32))
    } else {
        Err(PropRule::Range)
    }
}
