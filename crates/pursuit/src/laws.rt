//! Laws of the game.
ghost use Rattle.std.specs.Prelude.{◌≡◌, ℕ, ◌≤◌, ◌≤ℤ◌, List};
ghost use Rattle.sim_game.specs.declared.Side.TheVariants.{One};
ghost use Rattle.plan_book.specs.Serial.{serial_bound};
ghost use Rattle.pursuit.specs.declared.Setting.{Setting};
ghost use Rattle.pursuit.specs.declared.State.{State};
ghost use Rattle.pursuit.specs.Position.{IsSettingOf};
ghost use Rattle.pursuit.specs.Rules.{pursuit_root, pursuit_game, HasMoreRounds, IsLongerChase};

/// The same nodes, edges, players and rounds give one setting, and so one game.
pub fn position_has_one_game()
    ensures { (nodes : ℕ) (edges : List ℕ) (one two rounds : ℕ) (g h : Setting)
        → IsSettingOf nodes edges one two rounds g → IsSettingOf nodes edges one two rounds h → g ≡ h }
{}

/// Of two states, or positions, that differ only in the rounds, One's serial bound of the one with more rounds is at
/// least that of the other.
pub fn more_rounds_are_no_worse()
    ensures states { (g : Setting) (few many : State) → HasMoreRounds few many
        → serial_bound (pursuit_game g) One few ≤ℤ serial_bound (pursuit_game g) One many }
    ensures positions { (few many : Setting) → IsLongerChase few many
        → serial_bound (pursuit_game few) One (pursuit_root few)
        ≤ℤ serial_bound (pursuit_game many) One (pursuit_root many) }
{}
