//! Games of many seeds between the plans of one report.

ghost use Rattle.std.specs.Prelude.{◌≡◌, ◌≤◌, IfOk};
ghost use Rattle.certificate.specs.Ranges.{IsInRange};
ghost use Rattle.dosolve_c.specs.Seeds.{AreGamesTold, AreMatchesTold, IsMatchTold, payoffs_told};

use crate::plans::open_report;
use crate::{can_play, put};
use certificate::Report;
use position::GameVisitor;
use referee::{Record, Totals, tally};
use sim_game::{Game, NoMemory};
use std::alloc::Global;

/// What One gets in the games of a seed, in whole payoffs.
#[repr(C)]
#[derive(Clone, Copy)]
pub struct MatchPayoffs {
    /// How many games there are.
    pub games: u32,
    /// The payoff of the first game.
    pub first: i32,
    pub sum: i64,
    pub least: i32,
    pub most: i32,
}

/// What `play` tells in numbers of 1 to 100000 games, for each seed that there is room for, in their order.
#[unsafe(no_mangle)]
pub extern "C" fn dosolve_games(
    alloc: Global,
    games: u32,
    seeds: &[u64],
    input: &[u8],
    results: &mut [MatchPayoffs],
) -> u32
    ensures { AreGamesTold games seeds.now input.now results.old results.new result }
{
    if !can_play(games) {
        return 1;
    }
    let count = results.len().min(seeds.len());
    match open_report(alloc, input) {
        Ok(found) => match found.game().accept(Series {
            alloc,
            report: &found.report,
            games,
            seeds: &seeds[..count],
        }) {
            Ok(told) => {
                put(&told, results);
                0
            }
            Err(_) => 8,
        },
        Err(status) => status,
    }
}

/// Plays games of each seed between the plans of a report.
#[derive(Drop)]
struct Series<'a> {
    alloc: Global,
    report: &'a Report,
    games: u32,
    seeds: &'a [u64],
}

impl<'a> GameVisitor for Series<'a> {
    type Answer = Result<Vec<MatchPayoffs>, NoMemory>;

    ghost can_visit = { λ v _. IsInRange v.report.now × (1 ≤ v.games) × (v.games ≤ 100000) };

    ghost says = { λ v _ m answer. IfOk answer (λ told. AreMatchesTold m v.report.now v.games v.seeds.now told.items) };

    fn visit<G: Game + Send + Sync>(self, game: G) -> Result<Vec<MatchPayoffs>, NoMemory>
    where
        G::State: Send + Sync,
    {
        play_each(self.alloc, game, self.report, self.games, self.seeds)
    }
}

/// The matches of the seeds.
fn play_each<G: Game>(
    alloc: Global,
    game: G,
    report: &Report,
    games: u32,
    seeds: &[u64],
) -> Result<Vec<MatchPayoffs>, NoMemory>
    requires range { IsInRange report.now }
    requires some { 1 ≤ games }
    requires few { games ≤ 100000 }
    ensures { IfOk result (λ told. AreMatchesTold (G.model game) report.now games seeds.now told.items) }
{
    let mut told = Vec::new(alloc);
    for seed in seeds {
        let payoffs = play_match(alloc, game, report, games, *seed)?;
        told.push(payoffs)?;
    }
    Ok(told)
}

/// The match of a seed.
fn play_match<G: Game>(
    alloc: Global,
    game: G,
    report: &Report,
    games: u32,
    seed: u64,
) -> Result<MatchPayoffs, NoMemory>
    requires range { IsInRange report.now }
    requires some { 1 ≤ games }
    requires few { games ≤ 100000 }
    ensures { IfOk result (IsMatchTold (G.model game) report.now games seed) }
{
    let (first, totals) = tally(alloc, game, &report.one, &report.two, seed, games)?;
    Ok(told_payoffs(&first, &totals))
}

fn told_payoffs(first: &Record, totals: &Totals) -> MatchPayoffs
    ensures { result ≡ payoffs_told first.now.payoff totals.now }
{
    MatchPayoffs {
        games: totals.games,
        first: first.payoff,
        sum: totals.sum,
        least: totals.least,
        most: totals.most,
    }
}
