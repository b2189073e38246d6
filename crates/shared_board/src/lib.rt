//! A board of bounds that threads share without a lock: what is proved of the states of a game.
#![tactic(auto)]

mod board;
mod close;
mod crossing;
mod desk;
mod known;
mod laws;
mod marks;
mod pass;
mod rule;
mod steps;
mod view;
mod words;

pub use board::{Board, JoinError, TooMany};
pub use close::{CloseError, Closed, Kept};
pub use crossing::crosses;
pub use desk::Desk;
pub use laws::each_step_keeps;
pub use pass::{BarePass, Pass};
pub use view::View;
