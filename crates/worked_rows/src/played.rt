//! Games that sheets play against each other.
ghost use Rattle.referee.specs.Transcripts.{IsPlayable};

use crate::chance::OneInThree;
use crate::games::two_cards;
use crate::reports::CARDS;
use certificate::read;
use plan_book::Sheet;
use referee::{PlayedTurn, RefereeError, play};
use seq::Seq;
use sim_game::Side;
use std::alloc::Global;
use std::test::Fail;

fn turn(key: u64, one: u32, two: u32, draw: u32) -> PlayedTurn {
    PlayedTurn {
        key,
        one,
        two,
        draw,
    }
}

// A sheet that plays the first move everywhere.
fn first_moves(alloc: Global, side: Side) -> Sheet
    ensures { IsPlayable side result }
{
    Sheet {
        side,
        total: 1,
        rows: Seq::from_vec(Vec::new(alloc)),
    }
}

#[test]
fn mixed_sheets_play_by_words(rt: HostRuntime) -> Result<(), Fail> {
    let g = two_cards(&rt);
    let report = read(rt.alloc(), CARDS.as_bytes())?;
    let Ok(record) = play(rt.alloc(), g, &report.one, &report.two, &[0; 6]) else {
        panic!(rt; "six words are enough");
    };
    let turns = [turn(335595772, 0, 0, 0), turn(268470523, 0, 0, 0)];
    assert_eq!(rt; record.turns.as_slice(), turns.as_slice());
    assert_eq!(rt; record.payoff, -1);
    let words = [32768, 32767, 0, 5, 5, 5];
    let Ok(record) = play(rt.alloc(), g, &report.one, &report.two, &words) else {
        panic!(rt; "six words are enough");
    };
    let turns = [turn(335595772, 1, 0, 0), turn(67143933, 0, 0, 0)];
    assert_eq!(rt; record.turns.as_slice(), turns.as_slice());
    assert_eq!(rt; record.payoff, 0);
    match play(rt.alloc(), g, &report.one, &report.two, &words[..5]) {
        Err(e) => assert_eq!(rt; e, RefereeError::WordsShort { need: 6 }),
        Ok(_) => panic!(rt; "five words are too few"),
    }
    Ok(())
}

#[test]
fn words_pick_draws(rt: HostRuntime) -> Result<(), Fail> {
    let one = first_moves(rt.alloc(), Side::One);
    let two = first_moves(rt.alloc(), Side::Two);
    for (word, draw, payoff) in [
        (120119, 0, 1),
        (120120, 1, 0),
        (360359, 2, 0),
        (360360, 0, 1),
    ] {
        let Ok(record) = play(rt.alloc(), OneInThree, &one, &two, &[5, 6, word]) else {
            panic!(rt; "three words are enough");
        };
        assert_eq!(rt; record.turns.as_slice(), [turn(0, 0, 0, draw)].as_slice());
        assert_eq!(rt; record.payoff, payoff);
    }
    Ok(())
}
