//! The printed summary of pools, as facts that the check computes.
ghost use Rattle.std.specs.Prelude.{◌≡◌, ◌++◌, [], slice_index_or, codes};
ghost use Rattle.pool_summaries.specs.Summaries.{summary_of};
ghost use Rattle.swarm_model.specs.Bases.{empty_base};
ghost use Rattle.swarm_model.specs.Examples.{settings};
ghost use Rattle.model_examples.specs.SummaryExamples.{two_pools, two_starts, two_logs};

/// Each pool is told by its name, the rows from which its log begins, and its own log: how many
/// entries there were, with those that led to the rows, how many tasks it accepted, and how many of
/// those are in each state.
pub fn each_pool_is_told_by_its_own_log()
    ensures { summary_of two_pools (λ place. slice_index_or two_starts place (empty_base settings)) (λ place. slice_index_or two_logs place [])
        ≡ codes "pool default entries 3 accepted 2\nPENDING 1\nRUNNING 0\nEXPIRED 0\nTIMED_OUT 0\nBOT_DIED 0\nCANCELED 1\nCOMPLETED 0\nKILLED 0\nNO_RESOURCE 0\n"
        ++ codes "pool lab entries 7 accepted 2\nPENDING 1\nRUNNING 0\nEXPIRED 0\nTIMED_OUT 0\nBOT_DIED 0\nCANCELED 1\nCOMPLETED 0\nKILLED 0\nNO_RESOURCE 0\n" }
{}
