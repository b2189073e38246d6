//! Worst cases of sheets.
ghost use Rattle.std.specs.Prelude.{◌≡◌, ◌≤◌, [], map};
ghost use Rattle.std.specs.List.Sorted.{IsStrictlyIncreasing};

use crate::chance::OneInThree;
use crate::games::two_cards;
use crate::reports::CARDS;
use certificate::read;
use exploit::{WorstCase, WorstError, Worth, worst};
use plan_book::Sheet;
use seq::Seq;
use sim_game::Side;
use std::alloc::Global;
use std::process::Abort;
use std::test::Fail;

// A sheet that plays the first move everywhere.
fn first_moves(alloc: Global, side: Side, total: u32) -> Sheet
    ensures total { result.total ≡ total }
    ensures rows { result.rows ≡ [] }
{
    Sheet {
        side,
        total,
        rows: Seq::from_vec(Vec::new(alloc)),
    }
}

fn expect_case(rt: &impl Abort, found: Result<WorstCase, WorstError>) -> WorstCase {
    match found {
        Ok(case) => case,
        Err(_) => panic!(rt; "there are few states"),
    }
}

// The sheet's plan is worth minus half a prize, and comes to five states that are no ends.
fn expect_half_a_prize(rt: &impl Abort, alloc: Global, sheet: &Sheet)
    requires low { 1 ≤ sheet.now.total }
    requires high { sheet.now.total ≤ 1048576 }
    requires rising { IsStrictlyIncreasing (map (λ r. r.key) sheet.now.rows) }
{
    let case = expect_case(rt, worst(alloc, two_cards(rt), sheet, 5));
    let want = Worth::Exact {
        sum: -2147483648,
        base: 65536,
        power: 2,
    };
    assert_eq!(rt; case.worth, want);
    assert_eq!(rt; case.reply.len(), 5);
    match worst(alloc, two_cards(rt), sheet, 4) {
        Err(e) => assert_eq!(rt; e, WorstError::TooMany { limit: 4 }),
        Ok(_) => panic!(rt; "five states are more than four"),
    }
}

#[test]
fn mixed_sheets_have_an_exact_worst_case(rt: HostRuntime) -> Result<(), Fail> {
    let alloc = rt.alloc();
    let report = read(alloc, CARDS.as_bytes())?;
    expect_half_a_prize(&rt, alloc, &report.one);
    expect_half_a_prize(&rt, alloc, &report.two);
    Ok(())
}

// One of three draws pays 1, whatever is played.
#[test]
fn draws_are_weighed(rt: HostRuntime) -> Result<(), Fail> {
    let alloc = rt.alloc();
    for side in [Side::One, Side::Two] {
        let sheet = first_moves(alloc, side, 2);
        let case = expect_case(&rt, worst(alloc, OneInThree, &sheet, 1));
        let want = Worth::Exact {
            sum: 240240,
            base: 720720,
            power: 1,
        };
        assert_eq!(rt; case.worth, want);
    }
    Ok(())
}
