//! Bounds as words of a board.
ghost use Rattle.std.specs.Prelude.{◌≡◌, ◌+◌, ◌*◌, ◌≤◌, pos, neg_ℤ, ◌≤ℤ◌, IfOk};
ghost use Rattle.sums.specs.declared.TheConstants.{MOST_BOUND};
ghost use Rattle.sim_game.specs.declared.TheConstants.{MOST_ROWS};
ghost use Rattle.shared_board.specs.Words.{word_of, as_bound, IsBlank};

use sim_game::NoMemory;
use std::alloc::Global;

const SHIFT: i64 = 4000000000;

/// The word of a bound.
pub(crate) fn word_of_bound(bound: i64) -> u64
    requires low { neg_ℤ (pos MOST_BOUND) ≤ℤ bound }
    requires high { bound ≤ℤ pos MOST_BOUND }
    ensures word { result ≡ word_of bound }
    ensures small { result ≤ 8000000000 }
{
    (bound + SHIFT) as u64
}

/// The bound of a word.
pub(crate) fn bound_of_word(word: u64) -> i64
    requires { word ≤ 8000000000 }
    ensures { result ≡ as_bound word }
{
    word as i64 - SHIFT
}

/// The words of a board of free rows.
pub(crate) fn blank_words(
    alloc: Global,
    rows: u32,
    low: u64,
    high: u64,
) -> Result<Vec<u64>, NoMemory>
    requires { rows ≤ MOST_ROWS }
    ensures { IfOk result (λ v. IsBlank v.items rows low high) }
{
    let mut words = Vec::with_capacity(alloc, 3 * rows as usize + 1)?;
    words.push(0)?;
    for _row in 0..rows {
        words.push(0)?;
        words.push(low)?;
        words.push(high)?;
    }
    Ok(words)
}
