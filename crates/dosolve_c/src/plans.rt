//! Calls that answer in numbers: a row of a plan, a whole plan, the best replies to one, the worst cases of both, and the
//! bounds of a root.

ghost use Rattle.std.specs.Prelude.{◌≡◌, map, IfOk, MatchResult};
ghost use Rattle.certificate.specs.Ranges.{IsInRange};
ghost use Rattle.dosolve_c.specs.Plans.{side_at, status_of_fault, status_of_refusal};
ghost use Rattle.dosolve_c.specs.Plans.{IsReportIn, IsUnread, IsPlanIn, IsFault};
ghost use Rattle.dosolve_c.specs.Plans.{bounds_told, row_told, weights_in, IsSplit, IsWorthTold, IsCaseTold};
ghost use Rattle.dosolve_c.specs.Plans.{IsWorstOf, IsUnmeasured, IsWorstTold};
ghost use Rattle.dosolve_c.specs.Plans.{IsRootTold, IsRowTold, IsPlanTold, AreRepliesTold, AreWorstTold};

use crate::put;
use certificate::{Report, TextError};
use commands::alone::search;
use commands::{ReportFault, ReportedGame, open, row_of, sheet_of, status_of, worst_of};
use exploit::{ReplyRow, WorstCase, WorstError, Worth};
use plan_book::SheetRow;
use position::InputError;
use sim_game::Side;
use std::alloc::{AllocError, Global};

/// What the searches of a root found, in millionths of a payoff.
#[repr(C)]
#[derive(Clone, Copy)]
pub struct RootBounds {
    pub lower: i64,
    pub upper: i64,
    /// A gap that the search is certain to reach where turns and rows suffice.
    pub resolution: i64,
}

/// A row of a plan without its weights.
#[repr(C)]
#[derive(Clone, Copy)]
pub struct PlanRow {
    pub key: u64,
    /// In millionths of a payoff.
    pub bound: i64,
    /// How many moves have a weight, from the first on; 0 where the plan has no row.
    pub moves: u64,
}

/// How much there is of a plan.
#[repr(C)]
#[derive(Clone, Copy)]
pub struct PlanSize {
    pub rows: u64,
    /// The weights of all rows.
    pub weights: u64,
    /// What the weights of a row sum to.
    pub total: u64,
}

/// What One gets where the best replies are made to a plan.
#[repr(C)]
#[derive(Clone, Copy)]
pub struct WorstPayoff {
    pub replies: u64,
    /// 1 where the payoff is known exactly, and else 0.
    pub exact: u32,
    /// Where exact, the payoff is the sum divided by this power of the base.
    pub power: u32,
    pub base: u64,
    /// The upper 64 bits of the sum, with its sign, and the lower ones.
    pub sum_high: i64,
    pub sum_low: u64,
    /// Else the payoff lies between the two, in millionths, ends included.
    pub low: i64,
    pub high: i64,
}

/// The bounds of the root of a position, as `solve` finds them, without the plans. The status is that of `solve`.
#[unsafe(no_mangle)]
pub extern "C" fn dosolve_root(alloc: Global, input: &[u8], root: &mut RootBounds) -> u32
    ensures { IsRootTold input.now root.old root.new result }
{
    match search(alloc, input) {
        Ok(report) => {
            *root = told_bounds(&report);
            status_of(report.outcome) as u32
        }
        Err(error) => status_of_refusal(&error),
    }
}

/// The row of a side's plan at a key: its weights as far as there is room, its bound, and how many weights it has; or
/// none, where the plan has no row there.
#[unsafe(no_mangle)]
pub extern "C" fn dosolve_row(
    alloc: Global,
    side: u32,
    key: u64,
    input: &[u8],
    weights: &mut [u32],
    row: &mut PlanRow,
) -> u32
    ensures { IsRowTold side key input.now weights.old weights.new row.old row.new result }
{
    match opened(alloc, side, input) {
        Ok(plan) => match row_of(&plan.found.report, plan.side, key) {
            Some(found) => {
                put(found.weights.as_slice(), weights);
                *row = told_row(found);
                0
            }
            None => {
                *row = PlanRow {
                    key,
                    bound: 0,
                    moves: 0,
                };
                0
            }
        },
        Err(status) => status,
    }
}

/// The plan of a side: its rows in rising order of keys, and all their weights in the same order, each as far as there is
/// room, and how many there are.
#[unsafe(no_mangle)]
pub extern "C" fn dosolve_plan(
    alloc: Global,
    side: u32,
    input: &[u8],
    rows: &mut [PlanRow],
    weights: &mut [u32],
    size: &mut PlanSize,
) -> u32
    ensures { IsPlanTold side input.now rows.old rows.new weights.old weights.new size.old size.new result }
{
    match opened(alloc, side, input) {
        Ok(plan) => {
            let sheet = sheet_of(&plan.found.report, plan.side);
            match list_rows(alloc, sheet.rows.as_slice()) {
                Ok(all) => {
                    put(&all.rows, rows);
                    put(&all.weights, weights);
                    *size = PlanSize {
                        rows: sheet.rows.len() as u64,
                        weights: all.weights.len() as u64,
                        total: sheet.total as u64,
                    };
                    0
                }
                Err(_) => 8,
            }
        }
        Err(status) => status,
    }
}

/// The best replies to a side's plan, a move of the other side for each state that the plan comes to, in rising order of
/// keys, as far as there is room; and what they leave to the plan.
#[unsafe(no_mangle)]
pub extern "C" fn dosolve_replies(
    alloc: Global,
    side: u32,
    input: &[u8],
    keys: &mut [u64],
    moves: &mut [u32],
    worst: &mut WorstPayoff,
) -> u32
    ensures { AreRepliesTold side input.now keys.old keys.new moves.old moves.new worst.old worst.new result }
{
    match opened(alloc, side, input) {
        Ok(plan) => match measured(alloc, &plan.found, plan.side) {
            Ok(case) => match split(alloc, case.reply.as_slice()) {
                Ok(replies) => {
                    put(&replies.keys, keys);
                    put(&replies.moves, moves);
                    *worst = told_case(&case);
                    0
                }
                Err(_) => 8,
            },
            Err(status) => status,
        },
        Err(status) => status,
    }
}

/// What the best replies leave to the plan of each side, from one reading of the report.
#[unsafe(no_mangle)]
pub extern "C" fn dosolve_worst(
    alloc: Global,
    input: &[u8],
    one: &mut WorstPayoff,
    two: &mut WorstPayoff,
) -> u32
    ensures { AreWorstTold input.now one.old one.new two.old two.new result }
{
    match open_report(alloc, input) {
        Ok(found) => match worst_told(alloc, &found, Side::One) {
            Ok(of_one) => match worst_told(alloc, &found, Side::Two) {
                Ok(of_two) => {
                    *one = of_one;
                    *two = of_two;
                    0
                }
                Err(status) => status,
            },
            Err(status) => status,
        },
        Err(status) => status,
    }
}

/// A report that was read, and the side that was asked for.
#[derive(Drop)]
struct OpenPlan {
    side: Side,
    found: ReportedGame,
}

/// The report of the input and the side of a number, or the status of what is wrong.
fn opened(alloc: Global, side: u32, input: &[u8]) -> Result<OpenPlan, u32>
    ensures { MatchResult result
        (λ plan. IsPlanIn side input.now plan.side plan.found.report) (IsFault side input.now) }
{
    match side_at(side) {
        Some(side) => match open_report(alloc, input) {
            Ok(found) => Ok(OpenPlan { side, found }),
            Err(status) => Err(status),
        },
        None => Err(1),
    }
}

/// The report of the input, or the status of what is wrong.
pub(crate) fn open_report(alloc: Global, input: &[u8]) -> Result<ReportedGame, u32>
    ensures { MatchResult result (λ found. IsReportIn input.now found.report) (IsUnread input.now) }
{
    match open(alloc, input) {
        Ok(found) => Ok(found),
        Err(fault) => Err(status_of_fault(&fault)),
    }
}

fn side_at(side: u32) -> Option<Side>
    ensures { result ≡ side_at side }
{
    match side {
        0 => Some(Side::One),
        1 => Some(Side::Two),
        _ => None,
    }
}

fn status_of_fault(fault: &ReportFault) -> u32
    ensures { result ≡ status_of_fault fault.now }
{
    match fault {
        ReportFault::Text(TextError::NoMemory) => 8,
        _ => 9,
    }
}

fn status_of_refusal(error: &InputError) -> u32
    ensures { result ≡ status_of_refusal error.now }
{
    match error {
        InputError::NoMemory => 8,
        _ => 2,
    }
}

fn told_bounds(report: &Report) -> RootBounds
    ensures { result ≡ bounds_told report.now }
{
    RootBounds {
        lower: report.lower,
        upper: report.upper,
        resolution: report.resolution,
    }
}

fn told_row(row: &SheetRow) -> PlanRow
    ensures { result ≡ row_told row.now }
{
    PlanRow {
        key: row.key,
        bound: row.bound,
        moves: row.weights.len() as u64,
    }
}

/// Rows and their weights, as they are told.
#[derive(Drop)]
struct Listed {
    rows: Vec<PlanRow>,
    weights: Vec<u32>,
}

fn list_rows(alloc: Global, rows: &[SheetRow]) -> Result<Listed, AllocError>
    ensures rows { IfOk result (λ all. all.rows.items ≡ map row_told rows.now) }
    ensures weights { IfOk result (λ all. all.weights.items ≡ weights_in rows.now) }
{
    let told = rows.iter().map(told_row).collect(alloc)?;
    let weights = weights_in(alloc, rows)?;
    Ok(Listed {
        rows: told,
        weights,
    })
}

/// The weights of all rows, one row behind the other.
fn weights_in(alloc: Global, rows: &[SheetRow]) -> Result<Vec<u32>, AllocError>
    ensures { IfOk result (λ all. all.items ≡ weights_in rows.now) }
{
    let mut all = Vec::new(alloc);
    for row in rows {
        all.extend_from_slice(row.weights.as_slice())?;
    }
    Ok(all)
}

/// Keys, and the moves that are made there.
#[derive(Drop)]
struct Replies {
    keys: Vec<u64>,
    moves: Vec<u32>,
}

fn split(alloc: Global, replies: &[ReplyRow]) -> Result<Replies, AllocError>
    ensures keys { IfOk result (λ all. all.keys.items ≡ map (λ r. r.key) replies.now) }
    ensures moves { IfOk result (λ all. all.moves.items ≡ map (λ r. r.place) replies.now) }
{
    let keys = replies.iter().map(|reply| reply.key).collect(alloc)?;
    let moves = replies.iter().map(|reply| reply.place).collect(alloc)?;
    Ok(Replies { keys, moves })
}

/// The worst case of the plan of a side, or the status of what is wrong.
fn measured(alloc: Global, found: &ReportedGame, side: Side) -> Result<WorstCase, u32>
    requires { IsInRange found.now.report }
    ensures { let r = found.now.report in MatchResult result (IsWorstOf side r) (IsUnmeasured side r) }
{
    match worst_of(alloc, found, side) {
        Ok(case) => Ok(case),
        Err(WorstError::TooMany { .. }) => Err(5),
        Err(WorstError::NoMemory) => Err(8),
    }
}

/// The numbers of the worst case of the plan of a side, or the status of what is wrong.
fn worst_told(alloc: Global, found: &ReportedGame, side: Side) -> Result<WorstPayoff, u32>
    requires { IsInRange found.now.report }
    ensures { let r = found.now.report in MatchResult result (IsWorstTold side r) (IsUnmeasured side r) }
{
    match measured(alloc, found, side) {
        Ok(case) => Ok(told_case(&case)),
        Err(status) => Err(status),
    }
}

fn told_case(case: &WorstCase) -> WorstPayoff
    ensures { IsCaseTold case.now result }
{
    told_worth(case.worth, case.reply.len() as u64)
}

fn told_worth(worth: Worth, replies: u64) -> WorstPayoff
    ensures worth { IsWorthTold worth result }
    ensures replies { result.replies ≡ replies }
{
    let nothing = WorstPayoff {
        replies,
        exact: 0,
        power: 0,
        base: 0,
        sum_high: 0,
        sum_low: 0,
        low: 0,
        high: 0,
    };
    match worth {
        Worth::Exact { sum, base, power } => {
            let halves = halves_of(&sum);
            WorstPayoff {
                exact: 1,
                power,
                base,
                sum_high: halves.upper,
                sum_low: halves.lower,
                ..nothing
            }
        }
        Worth::Between { low, high } => WorstPayoff {
            low,
            high,
            ..nothing
        },
    }
}

/// A whole number, halved into 64 bits with a sign and 64 without.
#[derive(Clone, Copy)]
struct Halves {
    upper: i64,
    lower: u64,
}

fn halves_of(sum: &i128) -> Halves
    ensures { IsSplit sum.now result.upper result.lower }
{
    Halves {
        upper: sum.div_euclid(18446744073709551616) as i64,
        lower: sum.rem_euclid(18446744073709551616) as u64,
    }
}
