ghost use Rattle.std.specs.Prelude.{◌≡◌, ◌∷◌, [], IfOk, IsTrue};
ghost use Rattle.swarm_model.specs.Settings.{are_settings};
ghost use Rattle.pool_views.specs.Views.{pools_of};

use crate::boards::links::{compare, link_of};
use board_sessions::board_session;
use pool_views::Views;
use std::alloc::Global;
use swarm_boards::{BoardViews, Poster};
use swarm_http::RequestReader;
use swarm_model::Settings;
use test_transcript_reader::{Conversation, TranscriptError};

/// A board of the one pool.
#[derive(Drop)]
pub(crate) struct Board<'a> {
    alloc: Global,
    settings: &'a Settings,
    views: BoardViews,
    ghost rules: { IsTrue (are_settings settings.now) },
    ghost pools: { pools_of (⟦<BoardViews as Views>⟧.known views) ≡ settings.now.pools },
}

impl<'a> Board<'a> {
    /// A board with a new view of what the poster publishes.
    pub(crate) fn new(
        alloc: Global,
        settings: &'a Settings,
        poster: &mut Poster,
    ) -> Result<Board<'a>, TranscriptError>
        requires rules { IsTrue (are_settings settings.now) }
        requires pools { settings.now.pools ≡ poster.old.start.rows.settings ∷ [] }
        ensures same { poster.new ≡ poster.old }
    {
        let view = poster.view()?;
        let views = BoardViews::new(vec![in alloc; view]?);
        Ok(Board {
            alloc,
            settings,
            views,
        })
    }

    /// Serves a connection, and compares what was written to it with its rows.
    pub(crate) fn check(
        &mut self,
        connection: Option<&Conversation>,
    ) -> Result<(), TranscriptError> {
        let mut link = link_of(self.alloc, connection)?;
        let mut reader = RequestReader::new(self.alloc)?;
        board_session(
            self.alloc,
            self.settings,
            &mut reader,
            &mut self.views,
            &mut link,
        );
        compare(self.alloc, connection, &link)
    }
}
