//! Laws on the nested form of a position's states, from which the six lists are made.

ghost use Rattle.std.specs.Prelude.{◌≡◌, List, None, true};
ghost use Rattle.sim_game.specs.declared.Limits.{Limits};
ghost use Rattle.sim_game.specs.declared.Limits.TheVariants.{Wide};
ghost use Rattle.table.specs.Faults.{do_fit, first_fault, AreOrdered};
ghost use Rattle.table.specs.Nested.{are_in_range, lists_of_states, StateForm};
ghost use Rattle.table.specs.NestedGame.{IsNestedGame};
ghost use Rattle.table.specs.NestedRanks.{HaveLongestWays};
ghost use Rattle.table.specs.Ranges.{AreListsInRange};
ghost use Rattle.table.specs.Rules.{table_game};

/// The most states of a position, and the most cells. Draws are fewer.
pub const MOST_STATES: u32 = 16_777_216;

/// States in range within some limits are in range within the wide ones.
pub fn states_widen()
    ensures { (limits : Limits) (forms : List StateForm) → are_in_range limits forms ≡ true
        → are_in_range Wide forms ≡ true }
{}

/// The lists of a position's states are those of a text: no list is too long, and each number is in its range.
pub fn states_have_short_lists()
    ensures { (limits : Limits) (forms : List StateForm) → are_in_range limits forms ≡ true
        → AreListsInRange (lists_of_states forms) }
{}

/// The lists of a position's states fit each other, so that only those of a report can break the first rule.
pub fn states_fit()
    ensures { (limits : Limits) (forms : List StateForm) → are_in_range limits forms ≡ true
        → do_fit (lists_of_states forms) ≡ true }
{}

/// The game of the lists is the one that the states tell: its moves, draws, chances, next states, rewards, payoffs, what
/// can still be got, its width, and whether there is chance.
pub fn states_have_one_game()
    ensures { (limits : Limits) (forms : List StateForm) → are_in_range limits forms ≡ true
        → first_fault limits (lists_of_states forms) ≡ None
        → IsNestedGame forms (table_game (lists_of_states forms)) }
{}

/// Where all cells lead to later states, the ranks of a position's states are those of the longest ways, so that the
/// rule of turns refuses nothing but ways of more turns than the limits allow.
pub fn states_have_longest_ways()
    ensures { (limits : Limits) (forms : List StateForm) → are_in_range limits forms ≡ true
        → AreOrdered (lists_of_states forms)
        → HaveLongestWays (lists_of_states forms) }
{}
