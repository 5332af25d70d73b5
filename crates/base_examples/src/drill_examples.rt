//! The requests of a drill and their bytes, as facts that the check computes.
ghost use Rattle.std.specs.Prelude.{◌≡◌, ◌++◌, ◌∷◌, [], true, false, codes};
ghost use Rattle.drill_requests.specs.Requests.{ending};
ghost use Rattle.drill_requests.specs.Texts.{output, request_bytes};
ghost use Rattle.drill_requests.specs.declared.request.DrillRequest.TheVariants.{Handshake, CancelTask, Claim, FinalUpdate};

/// A run that is killed is asked to stop while its bot works on it.
pub fn a_killed_run_is_asked_to_stop()
    ensures { ending 5 2 1 ≡ Claim 2 5 ∷ CancelTask 5 true ∷ FinalUpdate 2 5 0 false ∷ [] }
{}

/// A run writes one whole line, which stands in base64 (RFC 4648, section 4).
pub fn a_run_writes_a_whole_line()
    ensures { output 1 ≡ codes "Y3ljbGUgMQo=" }
{}

/// The head of a request tells the length of its body.
pub fn a_head_tells_the_length_of_the_body()
    ensures { request_bytes (Handshake 1)
        ≡ codes "POST /bot/handshake HTTP/1.1\r\nHost: drill\r\nX-Swarming-Caller: drill\r\nContent-Length: 107\r\n\r\n"
        ++ codes "{\"bot_id\":\"b1\",\"session\":\"s\",\"dimensions\":[{\"key\":\"pool\",\"value\":[\"default\"]},{\"key\":\"id\",\"value\":[\"b1\"]}]}" }
{}
