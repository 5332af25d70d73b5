use bot_core::BotLimits;

/// The limits of a bot where no line says others.
pub(crate) const OPEN_LIMITS: BotLimits = BotLimits {
    tasks: 100,
    polls: 1000,
    steps: 100_000,
};

/// Limits, as `tasks 1 polls 10 steps 100`.
pub(crate) fn read_limits(text: &str) -> Option<BotLimits> {
    let (tasks, rest) = text.strip_prefix("tasks ")?.split_once(" polls ")?;
    let (polls, steps) = rest.split_once(" steps ")?;
    Some(BotLimits {
        tasks: tasks.parse().ok()?,
        polls: polls.parse().ok()?,
        steps: steps.parse().ok()?,
    })
}
