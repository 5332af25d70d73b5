//! One connection, whose requests views answer.
ghost use Rattle.std.specs.Prelude.{◌≡◌, IsTrue};
ghost use Rattle.sw_base.specs.Link.{IsClean};
ghost use Rattle.swarm_model.specs.Settings.{are_settings};
ghost use Rattle.pool_views.specs.Views.{pools_of};
ghost use Rattle.board_sessions.specs.Steps.{Answers};
ghost use Rattle.board_sessions.specs.Boards.{IsBoardAnswered, KeepsViews};

use crate::answer::answer_request;
use pool_views::Views;
use std::alloc::Global;
use sw_base::Link;
use swarm_http::{Ended, Received, Replies, ReplyBytes, RequestReader, converse};
use swarm_model::Settings;

/// Views answer. They need no clock.
struct ByViews;

impl<V: Views> Replies<V, ()> for ByViews {
    ghost does = { λ head body status shown a b. Answers head body status shown (V.known a.0) (V.known b.0) };

    ghost may = { λ settings n a. pools_of (V.known a.0) ≡ settings.pools };

    fn answer(
        alloc: Global,
        settings: &Settings,
        received: Received,
        desk: &mut V,
        _clock: &mut (),
    ) -> ReplyBytes {
        answer_request(alloc, settings, received, desk)
    }
}

/// Answers the requests that come over a link, until it ends or has asked 65536 times. Each is asked
/// of the view of its pool, which may show what was published some time before.
pub fn board_session<V: Views, L: Link>(
    alloc: Global,
    settings: &Settings,
    reader: &mut RequestReader,
    views: &mut V,
    link: &mut L,
) -> Ended
    requires rules { IsTrue (are_settings settings.now) }
    requires pools { pools_of (V.known views.old) ≡ settings.now.pools }
    requires clean { IsClean (L.state link.old) }
    ensures answered { IsBoardAnswered
        (record { link = L.state link.old; views = V.known views.old })
        (record { link = L.state link.new; views = V.known views.new }) result }
    ensures keeps { KeepsViews (V.known views.old) (V.known views.new) }
{
    converse::<V, (), ByViews, L>(alloc, settings, reader, views, &mut (), link).ended
}
