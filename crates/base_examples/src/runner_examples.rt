//! How a runner in memory takes its answers, as facts that the check computes.
ghost use Rattle.std.specs.Prelude.{◌≡◌, ◌∷◌, [], codes};
ghost use Rattle.runners.specs.Answers.{answer_for};
ghost use Rattle.runners.specs.declared.answer.RunnerAnswer.TheVariants as answer;
ghost use Rattle.runners.specs.declared.call.RunnerCall.TheVariants as call;

/// A look whose answer is a failure fails; only a child that is quiet shows nothing.
pub fn a_failed_look_is_not_quiet()
    ensures failure { answer_for (call.Look 8) (answer.Failure ∷ []) ≡ (answer.Failure, []) }
    ensures quiet { answer_for (call.Look 8) (answer.Quiet ∷ []) ≡ (answer.Quiet, []) }
{}
