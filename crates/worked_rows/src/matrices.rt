use best_reply::{BestReply, reply_one, reply_two};
use matrix_game::{Matrix, ShapeError, SolverKind, StageError, StageMemory, StageSolver, Turns};
use std::alloc::{AllocError, Global};
use std::test::Fail;

fn is_send<T: Send>(_value: &T) {}

#[test]
fn turns_and_memories_may_be_sent() {
    is_send(&Turns::new(1));
    is_send(&StageMemory::new(1));
}

#[test]
fn shapes_and_cells_are_refused(rt: HostRuntime) -> Result<(), Fail> {
    let three = vec![in rt.alloc(); 1, 2, 3]?;
    assert_eq!(rt; Matrix::new(2, 2, three).err(), Some(ShapeError::BadShape));
    let large = vec![in rt.alloc(); 0, 4000000001, 0, 0]?;
    assert_eq!(rt;
        Matrix::new(2, 2, large).err(),
        Some(ShapeError::CellRange { place: 1 })
    );
    Ok(())
}

#[test]
fn what_is_missing_goes_to_the_first_row(rt: HostRuntime) -> Result<(), Fail> {
    let game = Matrix::new(2, 2, vec![in rt.alloc(); -1000000, 0, 0, -1000000]?)?;
    let mut turns = Turns::new(1);
    let plans = game.solve(rt.alloc(), 8193, &mut turns)?;
    assert_eq!(rt; plans.p.as_slice(), [4097, 4096].as_slice());
    assert_eq!(rt; plans.v.as_slice(), [4097, 4096].as_slice());
    assert_eq!(rt; (plans.low, plans.high), (-4097000000, -4096000000));
    assert_eq!(rt; (turns.limit(), turns.spent(), turns.left()), (1, 1, 0));
    assert_eq!(rt;
        game.solve(rt.alloc(), 8193, &mut turns).err(),
        Some(StageError::Spent)
    );
    Ok(())
}

#[test]
fn a_matrix_is_remembered_up_to_one_number(rt: HostRuntime) -> Result<(), Fail> {
    for (limit, kept) in [(0, 0), (1, 1), (8, 3)] {
        let mut memory = StageMemory::new(limit);
        let mut turns = Turns::new(5);
        for (cells, total) in [
            ([3, -1, -2, 4], 64),
            ([5, -1, -2, 4], 64),
            ([3, -1, -2, 4], 65),
            ([-2, -6, -7, -1], 64),
            ([8, 4, 3, 9], 64),
        ] {
            assert!(rt; 1 <= total && total <= 1048576);
            let game = Matrix::new(2, 2, Vec::from_array(rt.alloc(), cells)?)?;
            let plans = game.solve_with_memory(rt.alloc(), total, &mut turns, &mut memory)?;
            let played = game.solve(rt.alloc(), total, &mut Turns::new(1))?;
            assert_eq!(rt; plans.p.as_slice(), played.p.as_slice());
            assert_eq!(rt; plans.v.as_slice(), played.v.as_slice());
        }
        assert_eq!(rt; (memory.len(), turns.left()), (kept, 0));
    }
    Ok(())
}

#[test]
fn a_stage_is_solved_by_either_method(rt: HostRuntime) -> Result<(), Fail> {
    let game = Matrix::new(2, 2, vec![in rt.alloc(); 3, -1, -2, 4]?)?;
    let mut turns = Turns::new(2);
    for (kind, low, high) in [
        (SolverKind::Regret { kept: 1 }, 5, 10),
        (SolverKind::Linear, 10, 10),
    ] {
        let mut solver = StageSolver::new(kind);
        let plans = solver.solve(rt.alloc(), &game, 10, &mut turns)?;
        assert_eq!(rt; (plans.low, plans.high), (low, high));
    }
    let mut solver = StageSolver::new(SolverKind::Linear);
    let refused = solver.solve(rt.alloc(), &game, 10, &mut turns);
    assert_eq!(rt; refused.err(), Some(StageError::Spent));
    Ok(())
}

// Cells of at most the size, either way, by a linear congruence.
fn cells(alloc: Global, seed: u64, count: u32, size: u32) -> Result<Vec<i64>, AllocError> {
    let mut state = seed;
    let mut cells = Vec::new(alloc);
    for _ in 0..count {
        state = state
            .wrapping_mul(6364136223846793005)
            .wrapping_add(1442695040888963407);
        let number = (state >> 33) % (2 * u64::from(size) + 1);
        cells.push(number as i64 - i64::from(size))?;
    }
    Ok(cells)
}

// Seed, rows, columns, greatest size of a cell, total; low, high, and the weights of the rows and then of the columns as
// the digits of a number to base 31, without its bits above 64. By a solver in another language.
#[rattlefmt::skip]
const BY_ROUNDS: [(u64, u32, u32, u32, u32, i64, i64, u64); 14] = [
    (1, 1, 1, 9, 1, -6, -6, 32),
    (3, 1, 6, 10, 5, 15, 15, 4442136010),
    (4, 6, 1, 10, 5, 15, 15, 143145760),
    (9, 2, 2, 1000, 100, 24400, 25700, 2115650),
    (13, 2, 2, 4000000000, 1048576, -3289279458443264, -3289279458443264, 31239176192),
    (17, 2, 3, 1000000, 65536, 9954808470, 9960697788, 30102916352),
    (21, 3, 3, 4000000000, 65536, -216654900690944, -216654900690944, 1876303020032),
    (24, 5, 4, 100, 1001, -5431, -4912, 425405164516882),
    (26, 5, 5, 3000000, 8192, -1021621360, -932765128, 24556737129799474),
    (30, 2, 32, 50, 4096, -152760, -152644, 18182012756295457286),
    (31, 32, 2, 50, 4097, 176171, 176171, 254972196167761888),
    (33, 9, 10, 7, 300, 251, 293, 6295503980870373130),
    (38, 20, 30, 1000, 600, -24659, -5322, 6180684623676862044),
    (40, 32, 32, 4000000000, 8192, -24393832534209, -24332400195177, 12796395587843734820),
];

#[test]
fn rounds_agree_with_another_solver(rt: HostRuntime) -> Result<(), Fail> {
    for row in &BY_ROUNDS {
        let (seed, rows, cols, size, total, low, high, weights) = *row;
        assert!(rt; rows <= 32 && cols <= 32 && 1 <= total && total <= 1048576);
        let game = Matrix::new(rows, cols, cells(rt.alloc(), seed, rows * cols, size)?)?;
        let plans = game.solve(rt.alloc(), total, &mut Turns::new(1))?;
        let mut digits: u64 = 0;
        for weight in plans.p.as_slice().iter().chain(plans.v.as_slice()) {
            digits = digits.wrapping_mul(31).wrapping_add(u64::from(*weight));
        }
        assert_eq!(rt;
            (plans.low, plans.high, digits),
            (low, high, weights),
            "seed {seed}"
        );
    }
    Ok(())
}

// Seed, rows, columns, greatest size of a cell; low and high at the total 8192, by the same linear programs in another
// language.
#[rattlefmt::skip]
const BY_PROGRAMS: [(u64, u32, u32, u32, i64, i64); 7] = [
    (100, 2, 2, 10, 49152, 49152),
    (102, 2, 5, 1000000, -4632125440, -4632125440),
    (103, 5, 2, 1000000, 5074968268, 5075029072),
    (104, 4, 4, 1, 2730, 2731),
    (108, 13, 13, 1000000, 79899470, 80667717),
    (110, 20, 32, 1000000, -1120107636, -1119079586),
    (111, 32, 32, 4000000000, -23968779455812, -23967181609158),
];

#[test]
fn programs_agree_with_another_solver(rt: HostRuntime) -> Result<(), Fail> {
    for row in &BY_PROGRAMS {
        let (seed, rows, cols, size, low, high) = *row;
        assert!(rt; rows <= 32 && cols <= 32);
        let game = Matrix::new(rows, cols, cells(rt.alloc(), seed, rows * cols, size)?)?;
        let plans = game.solve_linear(rt.alloc(), 8192, &mut Turns::new(1))?;
        assert_eq!(rt; (plans.low, plans.high), (low, high), "seed {seed}");
    }
    Ok(())
}

#[test]
fn replies_range_over_all_moves(rt: HostRuntime) {
    let cells = [-1000000, 0, 0, -1000000];
    let fresh = BestReply {
        place: 1,
        sum: -65536000000,
        fresh: true,
    };
    assert_eq!(rt; reply_two(&cells, 2, &[0, 65536], &[0]), fresh);
    let held = BestReply {
        place: 1,
        sum: -32768000000,
        fresh: false,
    };
    assert_eq!(rt; reply_two(&cells, 2, &[32768, 32768], &[1]), held);
    let first = BestReply {
        place: 0,
        sum: -32768000000,
        fresh: true,
    };
    assert_eq!(rt; reply_one(&cells, 2, &[32768, 32768], &[]), first);
}
