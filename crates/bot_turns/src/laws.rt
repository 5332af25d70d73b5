ghost use Rattle.bot_turns.specs.Runs.{FollowTable};

/// The states that a bot goes through in its turns are those that its table tells for the events and
/// the moments of the turns. So the laws on the table hold of each run of a bot.
pub fn turns_follow_the_table()
    ensures { FollowTable }
{}
