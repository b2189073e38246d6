ghost use Rattle.std.specs.Prelude.{◌≡◌, true, IsTrue};
ghost use Rattle.sim_game.specs.Model.{Reachable};
ghost use Rattle.bounds_board.specs.Views.{IsInnerKey, IsLater};
ghost use Rattle.shared_board.specs.Values.{IsPassOf};

use crate::games::{one_push, two_cards};
use crate::steps::after;
use bounds_board::Bounds;
use shared_board::{Board, CloseError, Desk, Pass};
use sim_game::{Game, Side};
use std::alloc::{AllocError, Global};
use std::process::Abort;
use std::test::Fail;

// Whether the key is that of a state or of one below it, and not of an end.
fn is_inner_key<G: Game>(g: G, s: G::State, key: u64) -> bool
    requires { Reachable (G.model g) s }
    ensures { IsTrue result → IsInnerKey (G.model g) key }
{
    if g.rank(s) == 0 {
        return false;
    }
    if g.key(s) == key {
        return true;
    }
    for one in 0..g.moves(Side::One, s) {
        for two in 0..g.moves(Side::Two, s) {
            if is_inner_key(g, after(g, s, one, two), key) {
                return true;
            }
        }
    }
    false
}

// Claims keys in turn: each with its row, or with none where the board is full.
pub(crate) fn claim_each<G: Game, B: Bounds<G>>(
    rt: &impl Abort,
    alloc: Global,
    keys: &[u64],
    board: &mut B,
) -> Result<Vec<(u64, Option<u32>)>, AllocError>
    ensures { IsLater (B.view board.old) (B.view board.new) }
{
    let mut rows = Vec::new(alloc);
    for key in keys {
        let g = board.game();
        assert!(rt; is_inner_key(g, g.root(), *key));
        let row = board.claim(*key).ok().map(|row| row.place());
        rows.push((*key, row))?;
    }
    Ok(rows)
}

#[test]
fn keys_with_one_home(rt: HostRuntime) -> Result<(), Fail> {
    let (board, lead) = Board::create(rt.alloc(), two_cards(&rt), 2, 8192)?;
    let mut desk = Desk::new(&board, lead);
    let keys = [335595772, 67127548, 67143933, 67127548];
    let rows = claim_each(&rt, rt.alloc(), &keys, &mut desk)?;
    let want = [
        (335595772, Some(0)),
        (67127548, Some(1)),
        (67143933, None),
        (67127548, Some(1)),
    ];
    assert_eq!(rt; rows.as_slice(), want.as_slice());
    Ok(())
}

#[test]
fn a_dropped_pass_is_missed(rt: HostRuntime) -> Result<(), Fail> {
    let (board, mut lead) = Board::create(rt.alloc(), one_push(&rt), 2, 8192)?;
    let Ok(other) = board.split(&mut lead) else {
        panic!(rt; "two numbers are few");
    };
    drop(other);
    match board.close(lead) {
        Err(
            CloseError::MissingPass {
                drawn,
                held,
                board,
                pass,
            },
        ) => {
            assert_eq!(rt; (drawn, held), (2, 1));
            let mut desk = Desk::new(&board, pass);
            let rows = claim_each(&rt, rt.alloc(), &[16416], &mut desk)?;
            assert_eq!(rt; rows.as_slice(), [(16416, Some(0))].as_slice());
        }
        Err(CloseError::NoMemory { .. }) => panic!(rt; "there is memory"),
        Ok(_) => panic!(rt; "a pass is missing"),
    }
    Ok(())
}

// Splits passes from the lead and joins each again: whether all of it could be done.
fn split_and_join<G: Game>(board: &Board<G>, lead: &mut Pass<G>, times: u32) -> bool
    requires ours { IsPassOf board.now lead.old }
    requires lead { lead.old.view.lead ≡ true }
    ensures ours { IsPassOf board.now lead.new }
    ensures lead { lead.new.view.lead ≡ true }
{
    for _time in 0..times {
        let Ok(other) = board.split(lead) else {
            return false;
        };
        if board.join(lead, other).is_err() {
            return false;
        }
    }
    true
}

#[test]
fn the_numbers_of_passes_end(rt: HostRuntime) -> Result<(), Fail> {
    let (board, mut lead) = Board::create(rt.alloc(), one_push(&rt), 2, 8192)?;
    assert!(rt; split_and_join(&board, &mut lead, 65534));
    assert!(rt; board.split(&mut lead).is_err());
    let Ok(closed) = board.close(lead) else {
        panic!(rt; "each pass was joined");
    };
    assert!(rt; closed.kept.as_slice().is_empty());
    Ok(())
}
