//! The lines of a base at work.
ghost use Rattle.std.specs.Prelude.{◌≡◌, ◌∷◌, [], true, false, Some, None, codes};
ghost use Rattle.serde_json.specs.Written.{compact_text};
ghost use Rattle.base_lines.specs.declared.base_row.BaseRow.TheVariants as row;
ghost use Rattle.base_lines.specs.Attempts.{attempt_data};
ghost use Rattle.base_lines.specs.Lines.{row_line};
ghost use Rattle.wire_examples.specs.LineExamples.{hello_digest};
ghost use Rattle.wire_examples.specs.BaseLineExamples.{pool_line, bot_line, blob_line, run_text};

/// The line of a pool has the moment of the last entry, and how many blobs were placed.
#[tactic(auto, unfolding(crate::specs::BaseLineExamples::base_lines_are_written))]
pub fn the_line_of_a_pool()
    ensures { row_line (row.Pool (record { last = 1120; placed = 0 })) ≡ pool_line }
{}

/// The line of a bot does not name the task that it runs.
#[tactic(auto, unfolding(crate::specs::BaseLineExamples::base_lines_are_written))]
pub fn the_line_of_a_bot()
    ensures { row_line (row.Bot (record {
      no = 1;
      name = codes "b1";
      session = codes "1";
      dims = (codes "id", codes "b1" ∷ []) ∷ (codes "pool", codes "default" ∷ []) ∷ [];
      contact = 1000;
      streak = 0;
      quarantined = [];
      dead = false;
      terminating = false;
      task = Some 1;
    })) ≡ bot_line }
{}

/// The line of a blob has its size in bytes, and its place in units.
#[tactic(auto, unfolding(crate::specs::BaseLineExamples::base_lines_are_written))]
pub fn the_line_of_a_blob()
    ensures { row_line (row.Blob (record { no = 1; digest = hello_digest; size = 6; extent = record { at = 0; units = 1 }; deadline = 605800 })) ≡ blob_line }
{}

/// A run that is to be stopped stands in the line of its task without its length.
#[tactic(auto, unfolding(crate::specs::BaseLineExamples::base_lines_are_written))]
pub fn the_run_of_a_task()
    ensures { compact_text (attempt_data (record {
      try_no = 1;
      bot = 1;
      claim = codes "c1";
      begun = 1000;
      kill = true;
      chunks = [];
      length = 0;
      last = None;
      last_chunk = None;
    })) ≡ run_text }
{}
