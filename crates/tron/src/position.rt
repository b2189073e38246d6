//! Sets of cells, and the rules that the lists of a position keep.
ghost use Rattle.std.specs.Prelude.{◌≡◌, ◌<◌, ◌≤◌, ◌^◌, ◌*◌, ◌%◌, ◌==◌, ℕ, List, nat_le, IfSome, All, length, position, MatchResult, None, Some};
ghost use Rattle.tron.specs.Cells.{is_taken, with_cell, IsSetOf};
ghost use Rattle.tron.specs.declared.Setting.{Setting};
ghost use Rattle.tron.specs.Position.{named_cells, cell_range, IsSettingOf};

use crate::TronError;

/// Whether the cell is in the set.
#[inline]
pub(crate) fn is_taken(taken: u64, cell: u8) -> bool
    requires { cell < 64 }
    ensures { result ≡ is_taken taken cell }
{
    (taken >> cell) & 1 == 1
}

/// The set with one more cell.
#[inline]
pub(crate) fn with_cell(taken: u64, cell: u8) -> u64
    requires { cell < 64 }
    ensures { result ≡ with_cell taken cell }
{
    taken | 1 << cell
}

/// The first place of walls and heads whose cell is not below the bound.
fn first_past(walls: &[u8], one: u8, two: u8, bound: u8) -> Option<usize>
    requires { length walls.now < 2 ^ 31 }
    ensures place { result ≡ position (λ cell. nat_le bound cell) (named_cells walls.now one two) }
    ensures within { IfSome result (λ place. place < 2 ^ 32) }
{
    walls
        .iter()
        .chain([one, two].iter())
        .position(|cell| *cell >= bound)
}

/// How many cells a grid has.
#[inline]
pub(crate) fn cell_count(height: u8, width: u8) -> u8
    requires height { height ≤ 6 }
    requires width { width ≤ 6 }
    ensures is { result ≡ height * width }
    ensures small { result ≤ 36 }
{
    height * width
}

/// The cells of the western column of a grid of this width, from 0 to 36.
#[inline]
pub(crate) fn western_column(width: u8) -> u64
    requires low { 1 ≤ width }
    requires high { width ≤ 6 }
    ensures { (cell : ℕ) → cell ≤ 36 → is_taken result cell ≡ (cell % width == 0) }
{
    match width {
        1 => 0x1f_ffff_ffff,
        2 => 0x15_5555_5555,
        3 => 0x12_4924_9249,
        4 => 0x11_1111_1111,
        5 => 0x08_4210_8421,
        _ => 0x10_4104_1041,
    }
}

/// Refuses a cell that is not below the bound.
pub(crate) fn check_cells(walls: &[u8], one: u8, two: u8, bound: u8) -> Result<(), TronError>
    requires { length walls.now < 2 ^ 31 }
    ensures { MatchResult result
        (λ _. (position (λ cell. nat_le bound cell) (named_cells walls.now one two) ≡ None)
        × All (λ cell. cell < bound) walls.now × (one < bound) × (two < bound))
        (λ fault. cell_range bound (named_cells walls.now one two) ≡ Some fault) }
{
    match first_past(walls, one, two, bound) {
        Some(place) => Err(TronError::CellRange {
            place: place as u32,
        }),
        None => Ok(()),
    }
}

/// The set of the cells.
pub(crate) fn set_of(cells: &[u8]) -> u64
    requires { All (λ cell. cell < 64) cells.now }
    ensures { IsSetOf cells.now result }
{
    let mut taken: u64 = 0;
    for cell in cells {
        taken = with_cell(taken, *cell);
    }
    taken
}

/// The same grid, walls and heads give one setting, and so one game.
pub fn position_has_one_game()
    ensures { (height width : ℕ) (walls : List ℕ) (one two : ℕ) (g h : Setting)
        → IsSettingOf height width walls one two g → IsSettingOf height width walls one two h → g ≡ h }
{}
