//! The definitions of what a pool may be asked, at work, as facts that the check computes.
ghost use Rattle.std.specs.Prelude.{◌≡◌, None, true, false, codes};
ghost use Rattle.swarm_model.specs.declared.request.Request.TheVariants as ask;
ghost use Rattle.swarm_model.specs.Fits.{fits};
ghost use Rattle.swarm_model.specs.Examples.{settings, small_task};
ghost use Rattle.model_examples.specs.FitExamples.{leaves_file};

/// A pool is asked for tasks of its own that break no rule.
pub fn new_tasks_break_no_rule()
    ensures sound { fits settings (ask.New (small_task 600)) ≡ true }
    ensures no_time { fits settings (ask.New (small_task 0)) ≡ false }
    ensures past_255 { fits settings (ask.New (record (small_task 600) { priority = 256 })) ≡ false }
    ensures another_pool { fits (record settings { name = codes "other" }) (ask.New (small_task 600)) ≡ false }
{}

/// A report names a run, and not the task.
pub fn reports_name_a_run()
    ensures run { fits settings (ask.Update (codes "b1") 1 1 None None) ≡ true }
    ensures task { fits settings (ask.Update (codes "b1") 1 0 None None) ≡ false }
{}

/// A file that a run leaves has at most 16777216 bytes.
pub fn files_have_at_most_16_mebibytes()
    ensures largest { fits settings (leaves_file 16777216) ≡ true }
    ensures larger { fits settings (leaves_file 16777217) ≡ false }
{}
