//! What holds of the bytes of replies.
ghost use Rattle.std.specs.Prelude.{◌↔◌, IsTrue};
ghost use Rattle.swarm_http.specs.Exchange.{Exchange, reply_of, is_accepted};
ghost use Rattle.swarm_http.specs.Statuses.{start_of, Begins, ShowsStatus};

/// The bytes of a reply begin with the status of the reply that its exchange carries: with 200
/// exactly where the exchange counts as accepted.
pub fn a_reply_begins_with_its_status()
    ensures status { (x : Exchange) → ShowsStatus x }
    ensures accepted { (x : Exchange) → IsTrue (is_accepted x) ↔ Begins (start_of 200) (reply_of x) }
{}
