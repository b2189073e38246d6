use crate::games::two_cards;
use certificate::read;
use checker::{Verdict, Why, check};
use oshi_zumo::OshiZumo;
use sim_game::{Game, Limits, Side};
use std::alloc::{AllocError, Global};
use std::process::Abort;
use std::test::Fail;

// The line at a place, as the last of the changes at this place has it.
fn line_at<'a>(line: &'a str, place: usize, changes: &[(usize, &'a str)]) -> &'a str {
    let mut now = line;
    for (at, changed) in changes {
        if *at == place {
            now = changed;
        }
    }
    now
}

// A text of which some lines are changed, with those left out that are changed to nothing.
fn text_of<'a>(
    alloc: Global,
    base: &'a str,
    changes: &[(usize, &'a str)],
) -> Result<String, AllocError> {
    let mut text = String::new(alloc);
    for (place, line) in base.lines().enumerate() {
        let now = line_at(line, place, &*changes);
        if !now.is_empty() {
            text.push_str(now)?;
            text.push_str("\n")?;
        }
    }
    Ok(text)
}

fn check_changed<'a, G: Game>(
    rt: &impl Abort,
    alloc: Global,
    g: G,
    base: &'a str,
    changes: &[(usize, &'a str)],
    want: Verdict,
) -> Result<(), Fail> {
    let text = text_of(alloc, base, &*changes)?;
    let report = read(alloc, text.as_bytes())?;
    assert_eq!(rt; check(alloc, g, &report), Ok(want), "{text}");
    Ok(())
}

fn weights(side: Side, key: u64) -> Why {
    Why::Weights { side, key }
}

fn idle(side: Side, key: u64) -> Why {
    Why::Idle { side, key }
}

fn outside(side: Side, key: u64) -> Why {
    Why::Outside { side, key }
}

pub(crate) const CARDS: &str =
    "dosolve report 1\ngame goofspiel 1,3 2,3 1,1 0 margin\nweight 65536\nturns 1000\nasked 0\nresolution 62502\noutcome closed\nlower -500000\nupper -500000\nspent 3\none 5\n67127548 -1000000 65536\n67143933 0 65536\n268454139 0 65536\n268470523 -1000000 65536\n335595772 -500000 32768 32768\ntwo 5\n67127548 -1000000 65536\n67143933 0 65536\n268454139 0 65536\n268470523 -1000000 65536\n335595772 -500000 32768 32768\nend\n";

#[test]
fn two_cards_each(rt: HostRuntime) -> Result<(), Fail> {
    let g = two_cards(&rt);
    let root = 335595772;
    let won = 67127548;
    let bound = |side, sum, need| Why::Bound {
        side,
        key: root,
        reply: 0,
        sum,
        need,
    };
    check_changed(&rt, rt.alloc(), g, CARDS, &[], Verdict::Accepted)?;
    let cases: [(&[(usize, &str)], Why); 10] = [
        (
            &[(7, "lower -499999"), (15, "335595772 -499999 32768 32768")],
            bound(Side::One, -32768000000, -32767934464),
        ),
        (
            &[(21, "335595772 -500001 32768 32768")],
            bound(Side::Two, -32768000000, -32768065536),
        ),
        (
            &[(15, "335595772 -500000 32767 32768")],
            weights(Side::One, root),
        ),
        (&[(7, "lower -500001")], Why::Root { side: Side::One }),
        (&[(8, "upper -500001")], Why::Root { side: Side::Two }),
        (
            &[(5, "resolution 62503")],
            Why::ResolutionWrong { want: 62502 },
        ),
        (&[(6, "outcome spent")], Why::OutcomeWrong),
        (&[(11, "67127548 -2000001 65536")], outside(Side::One, won)),
        (&[(10, "one 4"), (15, "")], idle(Side::One, won)),
        (&[(21, "335595772 -500000 32768")], idle(Side::Two, won)),
    ];
    for (changes, why) in cases {
        check_changed(&rt, rt.alloc(), g, CARDS, changes, Verdict::Refused(why))?;
    }
    Ok(())
}

const PUSH: &str =
    "dosolve report 1\ngame oshi_zumo 1 2 1 1 0\nweight 65536\nturns 0\nasked 0\nresolution 31252\noutcome closed\nlower 1000000\nupper 1000000\nspent 0\none 2\n16416 1000000 65536\n16449 1000000 65536 0\ntwo 0\nend\n";

#[test]
fn a_tie_and_a_push(rt: HostRuntime) -> Result<(), Fail> {
    let Ok(g) = OshiZumo::new(Limits::Narrow, 1, 2, 1, 1, 0) else {
        panic!(rt; "the position is valid");
    };
    let root = 16449;
    let tied = 16416;
    check_changed(&rt, rt.alloc(), g, PUSH, &[], Verdict::Accepted)?;
    let cases: [(&[(usize, &str)], Why); 7] = [
        (&[(12, "16449 1000000 65535 0")], weights(Side::One, root)),
        (
            &[(10, "one 1"), (11, "")],
            Why::Bound {
                side: Side::One,
                key: root,
                reply: 0,
                sum: -65536000000,
                need: 65536000000,
            },
        ),
        (&[(12, "16449 1000000 0 65536")], idle(Side::One, tied)),
        (
            &[(7, "lower 1000001"), (12, "16449 1000001 65536 0")],
            outside(Side::One, root),
        ),
        (&[(7, "lower 999999")], Why::Root { side: Side::One }),
        (
            &[(5, "resolution 31253")],
            Why::ResolutionWrong { want: 31252 },
        ),
        (&[(6, "outcome spent")], Why::OutcomeWrong),
    ];
    for (changes, why) in cases {
        check_changed(&rt, rt.alloc(), g, PUSH, changes, Verdict::Refused(why))?;
    }
    Ok(())
}
