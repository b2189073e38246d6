//! Boards may be shared among threads, and passes may go from one to another.
use crate::board::Board;
use crate::pass::{BarePass, Pass};
use sim_game::Game;

fn may_be_sent<T: Send>() {}

fn may_be_shared<T: Sync>() {}

/// A board may be sent and shared, and a pass may be sent.
pub fn crosses<G: Game + Send + Sync>()
where
    G::State: Send + Sync,
{
    may_be_sent::<Board<G>>();
    may_be_shared::<Board<G>>();
    may_be_sent::<Pass<G>>();
    may_be_sent::<BarePass<G>>();
}
