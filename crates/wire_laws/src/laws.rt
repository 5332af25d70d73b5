ghost use Rattle.wire_laws.specs.Meant.{BlobGetsAreMeant, BlobPutsAreMeant, BlobsAreFound, CallsAreFound, ClaimsAreMeant, HandshakesAreMeant, PollsAreMeant, PoolsAreNamed, RangesLieWithin, ReportsAreMeant};
ghost use Rattle.wire_laws.specs.Told.{RepliesAreTold};
ghost use Rattle.swarm_model.specs.Examples.{properties};
ghost use Rattle.wire_laws.specs.Fitting.{AreChecked, SoundAreChecked};

/// What the reader of a call is told of the status and the body of a reply is that reply, and the
/// place of the pool where an id in it names the pool: a refusal is told by its code, with its body,
/// an output by its bytes without its parts, and a blob by its bytes. It holds of each reply to the
/// call all of which fits its place: numbers within their types, texts in UTF-8, and numbers of
/// pools, tasks and tries that ids can show.
pub fn replies_are_told()
    ensures { RepliesAreTold }
{}

/// A bot's handshake, poll and claim ask for just that, under all settings: with the names of the bot,
/// its session and its claim, and with its dimensions, its caches among them, as the server holds
/// them. The first two ask the pool that these dimensions name, which is the bot's where none of its
/// own pairs has the key `pool`, and the claim asks the bot's.
pub fn requests_for_work_are_meant()
    ensures handshake { HandshakesAreMeant }
    ensures poll { PollsAreMeant }
    ensures claim { ClaimsAreMeant }
    ensures pool { PoolsAreNamed }
{}

/// A report is that of its run, with the bytes of its chunk and the end that the bot told.
pub fn reports_are_meant()
    ensures { ReportsAreMeant }
{}

/// A blob is asked for and put under the digest that was written into the target.
pub fn blob_requests_are_meant()
    ensures get { BlobGetsAreMeant }
    ensures put { BlobPutsAreMeant }
{}

/// At each target that a bot names stands that call, and the parts of the target of a blob are those
/// that were written.
pub fn targets_are_found()
    ensures calls { CallsAreFound }
    ensures blobs { BlobsAreFound }
{}

/// The numbers that a bot sends lie within the ranges of the server while it goes on: those of its
/// sessions and claims, where its output stands and how long it is, and how much of it was dropped.
pub fn ranges_lie_within()
    ensures { RangesLieWithin }
{}

/// There are properties that fit a reply: those of a small task, so the law on replies speaks of runs.
pub fn small_properties_fit()
    ensures { AreChecked properties }
{}

/// Properties that are sound are checked: they break no rule, and a check leaves them as they are. The
/// properties of each task of a pool are sound, by `properties_are_checked` of `log_laws`.
pub fn sound_properties_are_checked()
    ensures { SoundAreChecked }
{}
