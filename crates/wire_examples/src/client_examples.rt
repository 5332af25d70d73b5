//! What a client makes of replies, as facts that the check computes.
ghost use Rattle.std.specs.Prelude.{◌≡◌, ℕ, List, Some, None, Ok, codes};
ghost use Rattle.sha2.specs.Sha256.{sha256};
ghost use Rattle.serde_json.specs.Data.{object};
ghost use Rattle.swarm_model.specs.declared.rule.Rule.{Rule};
ghost use Rattle.swarm_model.specs.declared.reply.Reply.TheVariants as reply;
ghost use Rattle.routes.specs.declared.route.Route.TheVariants as route;
ghost use Rattle.reply_bodies.specs.Refusals.{code_of, refusal_members};
ghost use Rattle.server_calls.specs.declared.told.Told.TheVariants.{Good, No};
ghost use Rattle.server_calls.specs.Refusals.{refusal_in};
ghost use Rattle.server_calls.specs.Reading.{told_of};
ghost use Rattle.client_commands.specs.Commands.{pieces_of};

/// The bytes of a blob come with status 200 alone. With another status they are no blob.
pub fn a_blob_comes_with_status_200()
    ensures good { told_of route.GetBlob 200 (codes "abc") ≡ Some (Good 0 (reply.Blob (sha256 (codes "abc")) 3) (codes "abc")) }
    ensures other { told_of route.GetBlob 404 (codes "abc") ≡ None }
{}

/// Of each refusal that the server writes a client reads the code that it was written for.
pub fn each_refusal_is_read_as_it_is_written()
    ensures { (body : List ℕ) (place : ℕ) (why : Rule) → refusal_in body (object (refusal_members place why)) ≡ Ok (No (code_of why) body) }
{}

/// An output is asked for in pieces of 65536 bytes, and none is asked for behind its end, nor behind
/// the 67108864 bytes that an output may have.
pub fn no_piece_is_asked_for_behind_the_end()
    ensures empty { pieces_of 0 ≡ 0 }
    ensures whole { pieces_of 65536 ≡ 1 }
    ensures part { pieces_of 65537 ≡ 2 }
    ensures longest { pieces_of 67108864 ≡ 1024 }
    ensures longer { pieces_of 67108865 ≡ 1024 }
{}
