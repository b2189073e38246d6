//! The turns of the workers.

ghost use Rattle.std.specs.Prelude.{◌≡◌, ◌≤◌, false, Contains, IfOk};
ghost use Rattle.fields.specs.Ranges.{IsAskInRange};
ghost use Rattle.lazy_workers.specs.Keeping.{AreBudgets, begun_whole, begun_by};

use fields::Ask;
use matrix_game::Turns;
use sim_game::NoMemory;
use std::alloc::Global;

/// What all budgets of a search have in common.
#[derive(Clone, Copy)]
pub struct Begun {
    /// The most turns that a worker may have spent before.
    pub spent: u64,
    /// Whether the turns that are left may be given up.
    pub may_stop: bool,
}

/// The turns of each worker.
#[derive(Drop)]
pub struct Budgets {
    pub turns: Vec<Turns>,
    pub begun: Begun,
}

impl Budgets {
    /// Those that are asked, none of them spent.
    pub fn whole(alloc: Global, ask: &Ask, may_stop: bool) -> Result<Budgets, NoMemory>
        requires { IsAskInRange ask.now }
        ensures budgets { IfOk result (λ b. AreBudgets ask.now (begun_whole may_stop) b.turns.items) }
        ensures begun { IfOk result (λ b. b.begun ≡ begun_whole may_stop) }
    {
        Budgets::begun(alloc, ask, Turns::with_stop(ask.turns, may_stop))
    }

    /// Those that are asked, of which the first worker has spent some.
    pub fn begun(alloc: Global, ask: &Ask, first: Turns) -> Result<Budgets, NoMemory>
        requires ask { IsAskInRange ask.now }
        requires few { first.limit ≤ ask.now.turns }
        requires whole { first.may_stop ≡ false → first.limit ≡ ask.now.turns }
        ensures budgets { IfOk result (λ b. AreBudgets ask.now (begun_by first) b.turns.items) }
        ensures begun { IfOk result (λ b. b.begun ≡ begun_by first) }
        ensures first { IfOk result (λ b. Contains b.turns.items first) }
    {
        let begun = Begun {
            spent: first.spent(),
            may_stop: first.may_stop(),
        };
        let mut turns = Vec::with_capacity(alloc, ask.workers as usize)?;
        turns.push(first)?;
        for _worker in 1..ask.workers {
            turns.push(Turns::with_stop(ask.turns, begun.may_stop))?;
        }
        Ok(Budgets { turns, begun })
    }
}
