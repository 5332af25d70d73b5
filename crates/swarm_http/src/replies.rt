ghost use Rattle.std.specs.Prelude.{◌+◌, ◌≤◌, ℕ, List, IfSome, IsTrue, length};
ghost use Rattle.httparse.specs.Grammar.{RequestHead};
ghost use Rattle.swarm_model.specs.Settings.{are_settings};
ghost use Rattle.swarm_http.specs.Sends.{status_in, shown_in};
ghost use Rattle.swarm_http.specs.Takes.{IsHeld};

use crate::reply::ReplyBytes;
use crate::request::Received;
use std::alloc::Global;
use swarm_model::Settings;

/// How the requests of a connection are answered by a desk `D`, with what it needs beside, `C`. It is
/// implemented by a marker: no value of it is made.
pub trait Replies<D, C> {
    ghost use Rattle.std.specs.Prelude.{ℕ, List};
    ghost use Rattle.httparse.specs.Grammar.{RequestHead};
    ghost use Rattle.swarm_model.specs.declared.pool_settings.Settings.{Settings};
    ghost use Rattle.swarm_http.specs.Replies.{Shown};

    /// What a request with this head and this body does, where its reply has this status and these
    /// bytes.
    ghost does: { RequestHead → List ℕ → ℕ → Shown → D × C → D × C → Type 0 };

    /// So many requests more may be answered under these settings.
    ghost may: { Settings → ℕ → D × C → Type 0 };

    /// Answers a request.
    fn answer(
        alloc: Global,
        settings: &Settings,
        received: Received,
        desk: &mut D,
        clock: &mut C,
    ) -> ReplyBytes
        requires rules { IsTrue (are_settings settings.now) }
        requires short { IfSome received.body (λ body. length body.items ≤ 16777216) }
        requires may { (n : ℕ) × may settings.now (n + 1) (desk.old, clock.old) }
        ensures does { (body : List ℕ) (head : RequestHead) → IsHeld received body head →
            does head body (status_in result) (shown_in result) (desk.old, clock.old) (desk.new, clock.new) }
        ensures may { (n : ℕ) → may settings.now (n + 1) (desk.old, clock.old) → may settings.now n (desk.new, clock.new) };
}
