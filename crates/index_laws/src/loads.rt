ghost use Rattle.index_laws.specs.Loads.{QueueGains, QueueIsFree, ClaimsGain, ClaimsAreNew, UuidsGain, UuidIsNew, SourcesGain, UsesGain, CountsGain, TaskDeadlinesGain, BotDeadlinesGain, BlobDeadlinesGain};

/// With a row that is added as it was kept, the indexes gain what the row has itself.
pub fn indexes_gain()
    ensures queues { QueueGains }
    ensures queue_free { QueueIsFree }
    ensures claims { ClaimsGain }
    ensures claims_new { ClaimsAreNew }
    ensures uuids { UuidsGain }
    ensures uuid_new { UuidIsNew }
    ensures sources { SourcesGain }
    ensures uses { UsesGain }
    ensures counts { CountsGain }
    ensures task_ends { TaskDeadlinesGain }
    ensures bot_ends { BotDeadlinesGain }
    ensures blob_ends { BlobDeadlinesGain }
{}
