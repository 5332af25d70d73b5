//! The replies of the server at work: their statuses, their bodies and how these are to be read.
ghost use Rattle.std.specs.Prelude.{◌≡◌, ℕ, List, [], ◌∷◌, None, Some, codes};
ghost use Rattle.serde_json.specs.Data.{string, member, no_members};
ghost use Rattle.swarm_model.specs.declared.reply.Reply.TheVariants.{Blob, No, Skip};
ghost use Rattle.swarm_model.specs.declared.rule.Rule.TheVariants.{BadHead, NoRoute, BotUnfit, AttemptOver, OutputGone};
ghost use Rattle.request_head.specs.declared.method.Method.TheVariants as method;
ghost use Rattle.swarm_model.specs.declared.rule.Unfit.TheVariants.{Dead};
ghost use Rattle.swarm_model.specs.declared.task_state.TaskState.TheVariants.{Completed};
ghost use Rattle.reply_bodies.specs.Bodies.{status_of, body_of, content_type_of};
ghost use Rattle.refusal_codes.specs.Codes.{code_name};
ghost use Rattle.reply_bodies.specs.Refusals.{code_of, refusal_members};
ghost use Rattle.swarm_http.specs.Replies.{refusal, sent_to};

/// A bot that gets no work since it was silent is told so.
pub fn a_dead_bot_is_told_that_it_is_dead()
    ensures { refusal_members 0 (BotUnfit Dead) ≡ member (codes "code") (string (codes "bot_unfit")) (member (codes "why") (string (codes "dead")) no_members) }
{}

/// A report on a run that has ended conflicts with it.
pub fn a_report_after_the_end_has_status_409()
    ensures { status_of (No (AttemptOver Completed)) ≡ 409 }
{}

/// Output whose blob is held no more is gone.
pub fn output_that_is_held_no_more_has_status_410()
    ensures status { (digest : List ℕ) → status_of (No (OutputGone digest)) ≡ 410 }
    ensures code { (digest : List ℕ) → code_name (code_of (OutputGone digest)) ≡ codes "output_gone" }
{}

/// A blob is bytes, and any other reply JSON.
pub fn a_blob_is_bytes()
    ensures blob { (digest : List ℕ) → content_type_of (Blob digest 6) ≡ codes "application/octet-stream" }
    ensures other { content_type_of Skip ≡ codes "application/json" }
{}

/// The body of a blob is the first piece that was brought for it.
#[tactic(auto, unfolding(reply_bodies::specs::Bodies::body_of))]
pub fn the_body_of_a_blob_is_its_piece()
    ensures { (digest : List ℕ) → body_of 0 (Blob digest 5) (codes "first" ∷ codes "second" ∷ []) ≡ codes "first" }
{}

/// The reply to HEAD is the head of the reply, with the size of its body, and no body (RFC 9110,
/// section 9.3.2). Bytes that are no head have no method, and their refusal has its body.
pub fn the_reply_to_head_has_no_body()
    ensures head { sent_to (Some method.Head) (refusal None NoRoute)
        ≡ codes "HTTP/1.1 404 Not Found\r\nContent-Length: 19\r\nContent-Type: application/json\r\n\r\n" }
    ensures get { sent_to (Some method.Get) (refusal None NoRoute)
        ≡ codes "HTTP/1.1 404 Not Found\r\nContent-Length: 19\r\nContent-Type: application/json\r\n\r\n{\"code\":\"no_route\"}" }
    ensures no_head { sent_to None (refusal None BadHead)
        ≡ codes "HTTP/1.1 400 Bad Request\r\nContent-Length: 19\r\nContent-Type: application/json\r\n\r\n{\"code\":\"bad_head\"}" }
{}
