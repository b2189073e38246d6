ghost use Rattle.std.specs.Prelude.{◌≡◌, true};
ghost use Rattle.sim_game.specs.Model.{Reachable};
ghost use Rattle.bounds_board.specs.Views.{IsLater};
ghost use Rattle.shared_board.specs.Values.{IsPassOf};

use crate::boards::claim_each;
use crate::games::{four_cards, one_push, two_cards};
use crate::steps::{after, bound_pairs, root_bounds};
use bounds_board::Bounds;
use plan_book::Entry;
use seq::Seq;
use shared_board::{Board, Desk, Kept, Pass};
use sim_game::{Game, Side, end_bound, state_bound};
use std::alloc::{AllocError, Global};
use std::process::Abort;
use std::test::Fail;
use std::thread::join_mut;

// A desk with a new pass.
fn new_desk<'a, G: Game>(rt: &impl Abort, board: &'a Board<G>, lead: &mut Pass<G>) -> Desk<'a, G>
    requires ours { IsPassOf board.now lead.old }
    requires lead { lead.old.view.lead ≡ true }
    ensures board { result.board ≡ board.now }
    ensures pass { IsPassOf board.now result.pass }
    ensures ours { IsPassOf board.now lead.new }
    ensures lead { lead.new.view.lead ≡ true }
{
    let Ok(pass) = board.split(lead) else {
        panic!(rt; "there are few passes");
    };
    Desk::new(board, pass)
}

// Takes the pass in, where there is memory for its entries.
fn join_pass<G: Game>(rt: &impl Abort, board: &Board<G>, lead: &mut Pass<G>, pass: Pass<G>)
    requires ours { IsPassOf board.now lead.old }
    requires theirs { IsPassOf board.now pass }
    requires lead { lead.old.view.lead ≡ true }
    ensures ours { IsPassOf board.now lead.new }
    ensures lead { lead.new.view.lead ≡ true }
{
    assert!(rt; board.join(lead, pass).is_ok());
}

// Posts a lower bound at the root of a game that ends after the one move of each side and its one draw, which pays nothing.
fn post_root<G: Game, B: Bounds<G>>(rt: &impl Abort, alloc: Global, bound: i64, board: &mut B)
    ensures { IsLater (B.view board.old) (B.view board.new) }
{
    let g = board.game();
    let root = g.root();
    assert!(rt; g.rank(root) >= 1);
    assert!(rt; g.moves(Side::One, root) == 1);
    assert!(rt; g.moves(Side::Two, root) == 1);
    assert!(rt; g.draws(root, 0, 0) == 1);
    assert!(rt; g.reward(root, 0, 0, 0) == 0);
    let end = after(g, root, 0, 0);
    assert!(rt; g.rank(end) == 0);
    let payoff = end_bound(g, end);
    assert!(rt; state_bound(g, Side::One, root) <= bound);
    assert!(rt; bound <= payoff);
    let weights = vec![in alloc; board.total()].expect(rt, "memory");
    let key = g.key(root);
    let e = Entry {
        key,
        side: Side::One,
        bound,
        weights: Seq::from_vec(weights),
    };
    let Ok(row) = board.claim(key) else {
        panic!(rt; "a row is free");
    };
    assert!(rt; board.post(row, e).is_ok());
}

#[test]
fn two_threads_post_in_one_row(rt: HostRuntime) -> Result<(), Fail> {
    let g = one_push(&rt);
    let alloc = rt.alloc();
    let (board, mut lead) = Board::create(alloc, g, 2, 8192)?;
    let mut low = new_desk(&rt, &board, &mut lead);
    let mut high = new_desk(&rt, &board, &mut lead);
    join_mut(
        &rt,
        &mut || post_root(&rt, alloc, 5, &mut low),
        &mut || post_root(&rt, alloc, 7, &mut high),
    );
    join_pass(&rt, &board, &mut lead, low.into_pass());
    join_pass(&rt, &board, &mut lead, high.into_pass());
    let mut desk = Desk::new(&board, lead);
    assert_eq!(rt; root_bounds(&rt, g, &mut desk), Some((7, 1000000)));
    post_root(&rt, alloc, 6, &mut desk);
    assert_eq!(rt; root_bounds(&rt, g, &mut desk), Some((7, 1000000)));
    let lead = desk.into_pass();
    let Ok(closed) = board.close(lead) else {
        panic!(rt; "each pass was joined");
    };
    let want = Kept {
        key: 16416,
        lower: 7,
        upper: 1000000,
    };
    assert_eq!(rt; closed.kept.as_slice(), [want].as_slice());
    Ok(())
}

// Adds the keys of a state and of those below it, each once, without those of ends.
fn add_inner_keys<G: Game>(g: G, s: G::State, keys: &mut Vec<u64>) -> Result<(), AllocError>
    requires { Reachable (G.model g) s }
{
    if g.rank(s) == 0 || keys.contains(&g.key(s)) {
        return Ok(());
    }
    keys.push(g.key(s))?;
    for one in 0..g.moves(Side::One, s) {
        for two in 0..g.moves(Side::Two, s) {
            add_inner_keys(g, after(g, s, one, two), keys)?;
        }
    }
    Ok(())
}

#[test]
fn two_threads_claim_in_opposite_orders(rt: HostRuntime) -> Result<(), Fail> {
    let g = four_cards(&rt);
    let alloc = rt.alloc();
    let mut keys = Vec::new(alloc);
    add_inner_keys(g, g.root(), &mut keys)?;
    assert_eq!(rt; keys.len(), 69);
    keys.truncate(64);
    let mut reversed = Vec::from_slice(alloc, &keys)?;
    reversed.reverse();
    let (board, mut lead) = Board::create(alloc, g, 64, 8192)?;
    let mut forth = new_desk(&rt, &board, &mut lead);
    let mut back = new_desk(&rt, &board, &mut lead);
    let (forth, back) = join_mut(
        &rt,
        &mut || claim_each(&rt, alloc, &keys, &mut forth),
        &mut || claim_each(&rt, alloc, &reversed, &mut back),
    );
    let forth = forth?;
    let mut back = back?;
    back.reverse();
    assert_eq!(rt; forth, back);
    assert!(rt; forth.iter().all(|(_, row)| row.is_some()));
    Ok(())
}

#[test]
fn four_threads_want_one_row(rt: HostRuntime) -> Result<(), Fail> {
    let alloc = rt.alloc();
    let (board, mut lead) = Board::create(alloc, two_cards(&rt), 1, 8192)?;
    let mut first = new_desk(&rt, &board, &mut lead);
    let mut second = new_desk(&rt, &board, &mut lead);
    let mut third = new_desk(&rt, &board, &mut lead);
    let mut fourth = new_desk(&rt, &board, &mut lead);
    // Each thread claims the four keys, and first one that no other claims first.
    let keys = [
        335595772, 67127548, 67143933, 268454139, 335595772, 67127548, 67143933,
    ];
    let (front, back) = join_mut(
        &rt,
        &mut || join_mut(
            &rt,
            &mut || claim_each(&rt, alloc, &keys[0..4], &mut first),
            &mut || claim_each(&rt, alloc, &keys[1..5], &mut second),
        ),
        &mut || join_mut(
            &rt,
            &mut || claim_each(&rt, alloc, &keys[2..6], &mut third),
            &mut || claim_each(&rt, alloc, &keys[3..7], &mut fourth),
        ),
    );
    join_pass(&rt, &board, &mut lead, first.into_pass());
    join_pass(&rt, &board, &mut lead, second.into_pass());
    join_pass(&rt, &board, &mut lead, third.into_pass());
    join_pass(&rt, &board, &mut lead, fourth.into_pass());
    let Ok(closed) = board.close(lead) else {
        panic!(rt; "each pass was joined");
    };
    let [kept] = closed.kept.as_slice() else {
        panic!(rt; "one row was claimed");
    };
    assert_eq!(rt; (kept.lower, kept.upper), (-2000000, 2000000));
    for rows in [front.0?, front.1?, back.0?, back.1?] {
        assert!(rt; rows.contains(&(kept.key, Some(0))), "{rows:?}");
        assert_eq!(rt; rows.iter().filter(|(_, row)| row.is_none()).count(), 3);
    }
    Ok(())
}

#[test]
fn threads_that_meet_on_one_board(rt: HostRuntime) -> Result<(), Fail> {
    let alloc = rt.alloc();
    let (board, mut lead) = Board::create(alloc, two_cards(&rt), 16, 8192)?;
    let mut forth = new_desk(&rt, &board, &mut lead);
    let mut back = new_desk(&rt, &board, &mut lead);
    join_mut(
        &rt,
        &mut || bound_pairs(&rt, alloc, false, &mut forth),
        &mut || bound_pairs(&rt, alloc, true, &mut back),
    );
    join_pass(&rt, &board, &mut lead, forth.into_pass());
    join_pass(&rt, &board, &mut lead, back.into_pass());
    let Ok(closed) = board.close(lead) else {
        panic!(rt; "each pass was joined");
    };
    let kept = closed.kept.as_slice();
    assert_eq!(rt; kept.len(), 4);
    for (key, bound) in [
        (67127548, -1000000),
        (67143933, 0),
        (268454139, 0),
        (268470523, -1000000),
    ] {
        let want = Kept {
            key,
            lower: bound,
            upper: bound,
        };
        assert!(rt; kept.contains(&want), "{kept:?}");
    }
    Ok(())
}
