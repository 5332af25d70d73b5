//! One connection to a board: the requests that come over a link are taken, each is answered by the view
//! of its pool, and their replies are written, one after the other.
//!
//! [`board_session`] is the whole of it. It serves CountTasks, ListTasks, GetResult, ListBots and GetBot;
//! at any other target nothing stands. Its contract, `IsBoardAnswered` of `specs/Boards.antt`, is a
//! relation between what it finds and what it leaves of its link and its views (`BoardState`): there is a
//! list of exchanges, each a request as it stood on the link with its outcome, such that the bytes taken
//! from the link are those requests one after the other and a rest, the bytes written are their replies,
//! and the views went from one to the next by what each outcome says. `IsAsk` of `pool_views` says what
//! a view shows; only that of the request's pool changes. How the connection ended then says what the
//! rest is, as for `session` of `swarm_http`. A board has no clock, and no log grows.
//!
//! `KeepsViews` says of the whole connection that no view goes back.
#![tactic(auto)]

mod answer;
mod session;

pub use session::board_session;
