ghost use Rattle.index_laws.specs.TaskClaims.{ClaimsFollow, ClaimsAreFresh, ClaimIsFound};
ghost use Rattle.index_laws.specs.TaskUuids.{UuidsFollow, UuidsAreFresh, UuidIsFound};

/// After an entry the claims of tasks are those of before and the one that the entry makes.
pub fn claims_follow()
    ensures { ClaimsFollow }
{}

/// No task was claimed before under the key of a claim that an entry makes.
pub fn claims_are_fresh()
    ensures { ClaimsAreFresh }
{}

/// A look-up among the claims finds the task that the bot claimed under the id.
pub fn claim_is_found()
    ensures { ClaimIsFound }
{}

/// After an entry the uuids of tasks are those of before and the one that the entry brings.
pub fn uuids_follow()
    ensures { UuidsFollow }
{}

/// No task was sent before under the caller and the uuid that an entry brings.
pub fn uuids_are_fresh()
    ensures { UuidsAreFresh }
{}

/// A look-up among the uuids finds the task that the caller sent under the uuid.
pub fn uuid_is_found()
    ensures { UuidIsFound }
{}
