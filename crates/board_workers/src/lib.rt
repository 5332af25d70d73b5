//! Workers and boards beside each other, over the pools of one server.
//!
//! [`serve_with_boards`] does what `serve_shared` of `swarm_workers` does, and has boards beside the
//! workers: each board serves the links of an acceptor of its own by `board_session`, over a view of each
//! pool. In the background a poster of each pool copies what the pool's log has got meanwhile, and
//! publishes it to the views, in rounds. `ServesWithBoards` of `specs/Crews.antt` says what that comes
//! to: the workers did what `ServesShared` says, each board served its links over views that were new
//! ([`run_boards`], `HasServedBoard`), and nobody but the workers wrote to a log. Each session of a board
//! is told as `IsBoardAnswered` of `board_sessions` tells it.
//!
//! Posters and views are made before anything listens. The posters go on until they had so many rounds, or all workers
//! and boards are done, whichever is first; they end behind the boards, since a view without
//! its poster has no memory to answer.
//!
//! Not proved is that anything is ever posted, nor that workers, boards and posts really run beside each other.
#![tactic(auto)]

mod beside;
mod board;
mod ending;
mod making;
mod plan;
mod posters;
mod rounds;
mod serving;

pub use board::{Board, run_boards};
pub use plan::BoardPlan;
pub use serving::serve_with_boards;
