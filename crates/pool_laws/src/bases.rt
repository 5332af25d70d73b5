ghost use Rattle.std.specs.Prelude.{◌≡◌};
ghost use Rattle.pool_laws.specs.BaseLaws.{KeepsBaseRows, LeadsToABase, OpeningIsABase, OpeningWeighsNothing, WeightAfter, WeightIsBounded};
ghost use Rattle.pool_laws.specs.Worked.{retrying};
ghost use Rattle.pool_laws.specs.WorkedRules.{BaseIsReached, NeedsItsOutput, IsTooHeavy, lost_log, lost_rows};
ghost use Rattle.swarm_model.specs.BaseRules.{IsBase};
ghost use Rattle.swarm_model.specs.Effects.{opening};
ghost use Rattle.swarm_model.specs.History.{replay};
ghost use Rattle.swarm_model.specs.StateWeight.{state_weight};

/// The rows of a pool gain no more weight by an entry than the entry has. So the rows to which a log
/// leads weigh no more than those from which it begins and its entries together; empty rows weigh
/// nothing.
pub fn weight_is_bounded()
    ensures opening { OpeningWeighsNothing }
    ensures entry { WeightAfter }
    ensures log { WeightIsBounded }
{}

/// The empty rows are a base. Each entry that may follow keeps what holds of a base's rows, so a log
/// leads from a base to a base, where both are light enough together and the count stays small enough.
pub fn bases_lead_to_bases()
    ensures opening { OpeningIsABase }
    ensures keeps { KeepsBaseRows }
    ensures leads { LeadsToABase }
{}

/// A log that leads to a base: a run reports a chunk and is lost, and another bot runs the task once
/// more. Without the blob of that chunk, which the lost run needs as long as the task goes on, the rows
/// are no base, and neither are they where the pool may weigh less.
pub fn a_base_is_reached()
    ensures happens { BaseIsReached }
    ensures rows { replay (opening retrying) lost_log ≡ lost_rows }
    ensures weight { state_weight lost_rows ≡ 132 }
    ensures base { IsBase retrying 7 lost_rows }
    ensures needs_output { NeedsItsOutput }
    ensures too_heavy { IsTooHeavy }
{}
