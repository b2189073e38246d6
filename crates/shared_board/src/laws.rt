//! What holds of every step.
ghost use Rattle.shared_board.specs.Laws.{EachStepKeeps};

use sim_game::Game;

/// Each kind of step keeps the rule, from any words and views.
pub fn each_step_keeps<G: Game>(game: G, rows: u32)
    ensures { EachStepKeeps (G.model game) rows game }
{
    let _ = (game, rows);
}
