//! What a bot sends, as facts that the check computes.
ghost use Rattle.std.specs.Prelude.{◌≡◌, ◌∷◌, [], None, true, false, codes};
ghost use Rattle.serde_json.specs.Written.{compact_text};
ghost use Rattle.bot_requests.specs.declared.hands.Hands.{Hands};
ghost use Rattle.bot_requests.specs.Dimensions.{caches_group};
ghost use Rattle.bot_requests.specs.Bodies.{session_name, claim_name, report_data, last_report_data, update_data};
ghost use Rattle.bot_requests.specs.Requests.{blob_path};
ghost use Rattle.wire_examples.specs.BotRequestExamples.{small_end};

/// A session is named by the bot's first second and its number, and a claim by its session and its
/// own number.
pub fn a_claim_is_named_behind_its_session()
    ensures session { session_name 1000 2 ≡ codes "1000-2" }
    ensures claim { claim_name 1000 2 3 ≡ codes "1000-2-3" }
{}

/// A blob is found below its pool, by its digest in hexadecimal.
pub fn a_blob_is_found_below_its_pool()
    ensures { blob_path (codes "lab") (0 ∷ 171 ∷ []) ≡ codes "/blobs/lab/00ab" }
{}

/// A bot tells its caches where it has one, and else no such key.
pub fn one_cache_is_told()
    ensures one { caches_group (codes "builder" ∷ []) ≡ (codes "caches", codes "builder" ∷ []) ∷ [] }
    ensures none { caches_group [] ≡ [] }
{}

/// A report has the first bytes of the pending output, and no more than it says.
#[tactic(auto, unfolding(bot_requests::specs::Bodies::update_data))]
pub fn a_report_has_the_first_bytes_that_wait()
    ensures { (h : Hands) → h.pending.items ≡ codes "hello" → update_data h (codes "11") 0 2 None ≡ report_data h.id (codes "11") 0 (codes "he") }
{}

/// A report names the run on which it is, with its output in base64 (RFC 4648, section 4).
pub fn a_report_names_its_run()
    ensures { compact_text (report_data (codes "b1") (codes "11") 0 (codes "hello\n")) ≡ codes "{\"bot_id\":\"b1\",\"output\":\"aGVsbG8K\",\"output_chunk_start\":0,\"task_id\":\"11\"}" }
{}

/// A last report tells how the run ended, and how many bytes were dropped.
pub fn a_last_report_tells_what_was_dropped()
    ensures { compact_text (last_report_data (codes "b1") (codes "11") 6 [] small_end [])
        ≡ codes "{\"bot_id\":\"b1\",\"dropped\":7,\"duration_ms\":5210,\"exit_code\":-1,\"files\":[],\"hard_timeout\":true,\"io_timeout\":false,\"output\":\"\",\"output_chunk_start\":6,\"task_id\":\"11\"}" }
{}
