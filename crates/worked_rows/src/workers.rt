ghost use Rattle.std.specs.Prelude.{◌≡◌, ◌≤◌};

use crate::games::{cards_to_four, two_cards};
use crate::reports::CARDS;
use crate::steps::search_root;
use certificate::{Ask, LEAST, read, write};
use oracle_search::{Gate, OpenGate, SearchEnd};
use seq::Seq;
use shared_board::{Board, Desk, Kept};
use sim_game::Game;
use solution::solve;
use std::alloc::Global;
use std::process::Abort;
use std::sync::atomic::{AtomicBool, Ordering};
use std::test::Fail;
use std::thread::Threads;

const MOST_LOOKS: u32 = 268435456;

// Goofspiel with the cards and prizes 1 to 4 on both sides; nothing is found yet.
const FOUR_CARDS: &str =
    "dosolve report 1\ngame goofspiel 1,2,3,4 1,2,3,4 1,2,3,4 0 margin\nweight 8192\nturns 1000\nasked 0\nresolution 0\noutcome full\nlower -10000000\nupper 10000000\nspent 0\none 0\ntwo 0\nend\n";

/// Holds a turn of one worker until another one comes to a turn of its own, for so many looks at most. A turn is told by
/// the worker and the turns that it has spent.
#[derive(Drop)]
struct Meeting {
    held: (u32, u64),
    awaited: (u32, u64),
    has_come: AtomicBool,
    was_missed: AtomicBool,
}

impl Meeting {
    fn new(held: (u32, u64), awaited: (u32, u64)) -> Meeting {
        Meeting {
            held,
            awaited,
            has_come: AtomicBool::new(false),
            was_missed: AtomicBool::new(false),
        }
    }

    fn wait(&self) {
        for _look in 0..MOST_LOOKS {
            if self.has_come.load(Ordering::SeqCst) {
                return;
            }
        }
        self.was_missed.store(true, Ordering::SeqCst);
    }
}

impl Gate for Meeting {
    fn at_turn(&self, worker: u32, turn: u64) {
        if (worker, turn) == self.awaited {
            self.has_come.store(true, Ordering::SeqCst);
        }
        if (worker, turn) == self.held {
            self.wait();
        }
    }
}

// Solves the game of two cards a side by several workers: the turns that each spent. All else of the report is as one
// worker leaves it.
fn solve_cards<R: Threads + Abort + Sync, T: Gate + Sync>(
    rt: &R,
    alloc: Global,
    workers: u32,
    visits: u64,
    gate: &T,
) -> Result<Seq<u64>, Fail>
    requires some { 1 ≤ workers }
    requires few { workers ≤ 16 }
    requires visits { visits ≤ 1000 }
{
    let g = two_cards(rt);
    let alone = read(alloc, CARDS.as_bytes())?;
    let ask = Ask {
        gap: alone.asked,
        weight: alone.weight,
        turns: alone.turns,
        visits,
        rows: 1024,
        workers,
        ..LEAST
    };
    let report = solve(rt, alloc, g, alone.position, &ask, gate)?.report;
    let Some((head, tail)) = CARDS.split_once(" 3\n") else {
        panic!(rt; "one worker spent three turns");
    };
    let mut want = String::from_str(alloc, head)?;
    for turns in report.spent.as_slice() {
        write!(want, " {turns}")?;
    }
    write!(want, "\n{tail}")?;
    let text = write(alloc, &report)?;
    assert_eq!(rt; text.as_slice(), want.as_bytes());
    Ok(report.spent)
}

// The turns that each of several workers spends on Goofspiel with the cards and prizes 1 to 4.
fn turns_of_four<R: Threads + Abort + Sync, T: Gate + Sync>(
    rt: &R,
    alloc: Global,
    workers: u32,
    gate: &T,
) -> Result<Seq<u64>, Fail>
    requires some { 1 ≤ workers }
    requires few { workers ≤ 16 }
{
    let g = cards_to_four(rt);
    let asked = read(alloc, FOUR_CARDS.as_bytes())?;
    let ask = Ask {
        gap: asked.asked,
        weight: asked.weight,
        turns: asked.turns,
        visits: 100000,
        rows: 4096,
        workers,
        ..LEAST
    };
    let report = solve(rt, alloc, g, asked.position, &ask, gate)?.report;
    Ok(report.spent)
}

#[test]
fn a_search_through_a_desk(rt: HostRuntime) -> Result<(), Fail> {
    let g = two_cards(&rt);
    let alloc = rt.alloc();
    let (board, lead) = Board::create(alloc, g, 1024, 65536)?;
    let mut desk = Desk::new(&board, lead);
    let (end, turns) = search_root(alloc, g, 1000, 1000, &mut desk)?;
    assert_eq!(rt; end, SearchEnd::Reached);
    assert_eq!(rt; turns, 3);
    let lead = desk.into_pass();
    let Ok(closed) = board.close(lead) else {
        panic!(rt; "each pass was joined");
    };
    let want = Kept {
        key: 335595772,
        lower: -500000,
        upper: -500000,
    };
    assert!(rt; closed.kept.as_slice().contains(&want));
    Ok(())
}

#[test]
fn four_workers_report_as_one(rt: HostRuntime) -> Result<(), Fail> {
    let spent = solve_cards(&rt, rt.alloc(), 4, 1000, &OpenGate)?;
    assert_eq!(rt; spent.len(), 4);
    Ok(())
}

#[test]
fn workers_run_at_the_same_time(rt: HostRuntime) -> Result<(), Fail> {
    // Of workers that run one after another, the first would wait in vain in one of the two cases.
    for (held, awaited) in [(0, 1), (1, 0)] {
        let gate = Meeting::new((held, 0), (awaited, 0));
        let spent = solve_cards(&rt, rt.alloc(), 2, 1000, &gate)?;
        assert_eq!(rt; spent.len(), 2);
        assert!(rt;
            !gate.was_missed.load(Ordering::SeqCst),
            "{held} waits for {awaited}"
        );
    }
    Ok(())
}

#[test]
fn workers_share_a_board(rt: HostRuntime) -> Result<(), Fail> {
    let gate = Meeting::new((1, 0), (0, 5));
    let spent = solve_cards(&rt, rt.alloc(), 2, 0, &gate)?;
    let [first, second] = spent.as_slice() else {
        panic!(rt; "there are two workers");
    };
    // On a board of its own the second would spend as many.
    assert_eq!(rt; *first, 6);
    assert!(rt; *second <= 4, "{second}");
    assert!(rt; !gate.was_missed.load(Ordering::SeqCst));
    Ok(())
}

#[test]
fn a_worker_leaves_states_to_others(rt: HostRuntime) -> Result<(), Fail> {
    let alone = turns_of_four(&rt, rt.alloc(), 1, &OpenGate)?;
    let [all] = alone.as_slice() else {
        panic!(rt; "there is one worker");
    };
    // The second comes to its first turn, and waits until the first has one turn to go.
    let gate = Meeting::new((1, 0), (0, all.saturating_sub(1)));
    let spent = turns_of_four(&rt, rt.alloc(), 2, &gate)?;
    let [first, second] = spent.as_slice() else {
        panic!(rt; "there are two workers");
    };
    assert_eq!(rt; first, all);
    assert!(rt; *second < *all / 4, "{second} of {all}");
    assert!(rt; !gate.was_missed.load(Ordering::SeqCst));
    Ok(())
}
