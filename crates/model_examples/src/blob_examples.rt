//! The definitions of blobs at work, as facts that the check computes.
ghost use Rattle.std.specs.Prelude.{◌≡◌, ◌∷◌, ◌++◌, [], Some, None, true, false, pos, codes};
ghost use Rattle.swarm_model.specs.declared.entry.EntryKind.TheVariants as kind;
ghost use Rattle.swarm_model.specs.declared.request.Request.TheVariants as ask;
ghost use Rattle.swarm_model.specs.declared.reply.Reply.TheVariants as reply;
ghost use Rattle.swarm_model.specs.declared.rule.Rule.TheVariants as rule;
ghost use Rattle.swarm_model.specs.declared.task_state.TaskState.TheVariants.{Pending, Running};
ghost use Rattle.swarm_model.specs.Bytes.{new_digest, removed_digest};
ghost use Rattle.swarm_model.specs.Effects.{opening};
ghost use Rattle.swarm_model.specs.Entries.{weight_of, file_weight};
ghost use Rattle.swarm_model.specs.Examples.{exited_with};
ghost use Rattle.model_examples.specs.EndExamples.{begun, reports};
ghost use Rattle.model_examples.specs.BlobExamples.{brief, pool_after, replies_to, puts, kept_until, with_input, writes, shown_from};

/// A blob is kept for a life from the moment at which it was put, last of all.
pub fn a_put_keeps_a_blob_for_a_life()
    ensures put { kept_until (codes "a") (pool_after ((1000, puts (codes "a")) ∷ [])) ≡ Some 1060 }
    ensures again { kept_until (codes "a") (pool_after ((1000, puts (codes "a")) ∷ (1030, puts (codes "a")) ∷ [])) ≡ Some 1090 }
    ensures last_second { kept_until (codes "a") (pool_after ((1000, puts (codes "a")) ∷ (1059, ask.Count None) ∷ [])) ≡ Some 1060 }
{}

/// At its deadline a blob is removed that no task needs, and no other one with it.
pub fn a_blob_is_removed_at_its_deadline()
    ensures removed { kept_until (codes "a") (pool_after ((1000, puts (codes "a")) ∷ (1010, puts (codes "b")) ∷ (1060, ask.Count None) ∷ [])) ≡ None }
    ensures other { kept_until (codes "b") (pool_after ((1000, puts (codes "a")) ∷ (1010, puts (codes "b")) ∷ (1060, ask.Count None) ∷ [])) ≡ Some 1070 }
{}

/// At its deadline a blob is kept for another life that a task needs which waits or runs: as an
/// input, or as a piece of its output.
pub fn a_blob_that_a_task_needs_is_kept()
    ensures input { kept_until (codes "a") (pool_after ((1000, puts (codes "a")) ∷ (1001, ask.New (with_input (codes "a") 5)) ∷ (1060, ask.Count None) ∷ [])) ≡ Some 1120 }
    ensures output { kept_until (codes "a") (pool_after (begun ++ (1001, writes 0 (codes "a")) ∷ (1061, ask.Count None) ∷ [])) ≡ Some 1121 }
    ensures ended { kept_until (codes "a") (pool_after (begun ++ (1001, writes 0 (codes "a")) ∷ (1002, reports (Some (exited_with (pos 0)))) ∷ (1061, ask.Count None) ∷ [])) ≡ None }
{}

/// An input is there where a blob has its digest and its size.
pub fn inputs_have_their_size()
    ensures same_size { replies_to ((1000, puts (codes "a")) ∷ (1001, ask.New (with_input (codes "a") 5)) ∷ []) ≡ reply.Put true ∷ reply.New 1 Pending ∷ [] }
    ensures another_size { replies_to ((1000, puts (codes "a")) ∷ (1001, ask.New (with_input (codes "a") 6)) ∷ []) ≡ reply.Put true ∷ reply.No (rule.BlobMissing (codes "a")) ∷ [] }
{}

/// Those blobs are missing that the pool doesn't hold with their digest and their size, each as
/// often as it was asked for.
pub fn missing_blobs_are_told_in_their_order()
    ensures { replies_to ((1000, puts (codes "a")) ∷ (1001, ask.FindMissing ((codes "a", 6) ∷ (codes "a", 5) ∷ (codes "b", 5) ∷ (codes "a", 6) ∷ [])) ∷ [])
        ≡ reply.Put true ∷ reply.Missing ((codes "a", 6) ∷ (codes "b", 5) ∷ (codes "a", 6) ∷ []) ∷ [] }
{}

/// A put brings the bytes of a blob that was not held, and the end of its life takes them where the
/// blob isn't kept for another one.
pub fn bytes_come_and_go_with_their_blobs()
    ensures brought { new_digest (opening brief) (kind.Put (codes "a") 5) ≡ Some (codes "a") }
    ensures held { new_digest (pool_after ((1000, puts (codes "a")) ∷ [])) (kind.Put (codes "a") 5) ≡ None }
    ensures removed { removed_digest (pool_after ((1000, puts (codes "a")) ∷ [])) (kind.Blob 1 false) ≡ Some (codes "a") }
    ensures kept { removed_digest (pool_after ((1000, puts (codes "a")) ∷ [])) (kind.Blob 1 true) ≡ None }
{}

/// A digest weighs 36 bytes in the log: of a put, and beside the path of a file.
pub fn a_digest_weighs_36()
    ensures put { weight_of (kind.Put (codes "a") 5) ≡ 36 }
    ensures file { file_weight (record { path = codes "in"; digest = codes "a"; size = 5 }) ≡ 38 }
{}

/// A reader is shown the bytes of the output from a place on, at most so many, chunk by chunk.
pub fn output_is_shown_from_a_place_on()
    ensures within { shown_from 1 2 ≡ Some (reply.Stdout Running ((record { digest = codes "a"; from = 1; to = 3 }) ∷ [])) }
    ensures across { shown_from 3 3 ≡ Some (reply.Stdout Running ((record { digest = codes "a"; from = 3; to = 5 }) ∷ (record { digest = codes "b"; from = 0; to = 1 }) ∷ [])) }
    ensures past_the_end { shown_from 10 5 ≡ Some (reply.Stdout Running []) }
{}
