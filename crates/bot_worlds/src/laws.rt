ghost use Rattle.bot_worlds.specs.TwoEnds.{TwoEndsAgree};

/// Whatever is lost, repeated or reordered between a bot and its pool: the output that is kept of
/// each run of the bot is a prefix of what its command wrote, all of it where the last report drops
/// nothing; and the command is started at most once for a claim, and only for one that the log holds.
pub fn two_ends_agree()
    ensures { TwoEndsAgree }
{}
