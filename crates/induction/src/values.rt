//! Values of states, those of lower rank first, by linear programs or by those of their mirror images, and the weights that
//! the programs find. Nothing is promised of how near the values are.

ghost use Rattle.std.specs.Prelude.{◌≡◌, ◌⊎◌, ℕ, ◌+◌, ◌<◌, ◌≤◌, ◌*◌, length, All, IfErr, IfOk, OnOk};
ghost use Rattle.sums.specs.declared.TheConstants.{MOST_WEIGHT};
ghost use Rattle.sim_game.specs.Model.{Reachable};
ghost use Rattle.matrix_game.specs.Budget.{left_of, HasGivenUp};
ghost use Rattle.induction.specs.Listed.{GoesOn, HasValues};
ghost use Rattle.induction.specs.Spent.{HasSpent, IsReason, IsStopped};
ghost use Rattle.induction.specs.Undecided.{HasUndecided};

use crate::GaveUp;
use crate::listed::list_states;
use crate::places::PlaceTable;
use crate::proposals::{Proposals, add_words};
use crate::watch::{InductionStep, Watch};
use matrix_game::{FloatPlans, FloatSolver, Turns};
use sim_game::{CHANCE, Game, NoMemory, Side, Transition};
use std::alloc::{AllocError, Global};
use std::num::{f64_from_bits_with_nan, f64_to_bits_with_nan};

/// Values that are being made, and the turns that they take.
#[derive(Drop)]
pub(crate) struct Values {
    // The bits of each value, by the place of its state.
    known: PlaceTable,
    // The weights that were found with them.
    proposals: Proposals,
    // How many states may be given values.
    rows: u64,
    turns: Turns,
}

/// Weights that are proposed, and what may end the plans by them.
#[derive(Drop)]
pub(crate) struct Guide<'a, W> {
    proposals: &'a Proposals,
    watch: &'a W,
}

/// Values of states, and the words of the weights that were found with them.
#[derive(Drop)]
pub(crate) struct FoundValues {
    values: Vec<f64>,
    // Where the words of each state begin; empty where none has any.
    starts: Vec<usize>,
    words: Vec<u32>,
}

/// What states are solved in, kept from one to the next.
#[derive(Drop)]
pub(crate) struct Stage {
    transitions: Vec<Transition>,
    // The mean payoff of each pair of moves to One, those of One's first move first.
    cells: Vec<f64>,
    solver: FloatSolver,
    plans: FloatPlans,
}

/// The payoff of an end, else the least that One can still get, which is the value of a decided state.
fn decided_value<G: Game>(g: G, s: G::State) -> f64
    requires { Reachable (G.model g) s }
{
    if g.rank(s) == 0 {
        f64::from(g.payoff(s))
    } else {
        f64::from(g.least(s))
    }
}

/// The mean, over the draws of a pair of moves, of the turn's reward with the value of the state that follows. The next
/// transitions are those of the pair.
#[inline]
fn cell<G: Game>(
    known: &PlaceTable,
    g: G,
    s: G::State,
    moves: (u32, u32),
    transitions: &[Transition],
    next: &mut usize,
) -> f64
    requires reachable { Reachable (G.model g) s }
    requires one { moves.0 < (G.model g).moves Side.One s }
    requires two { moves.1 < (G.model g).moves Side.Two s }
{
    let mut mean = 0.0;
    for d in 0..g.draws(s, moves.0, moves.1) {
        if let Some(transition) = transitions.get(*next) {
            let value = match known.word(transition.place) {
                0 => decided_value(g, g.drawn(s, moves.0, moves.1, d)),
                bits => f64_from_bits_with_nan(bits),
            };
            let number = value + f64::from(transition.reward);
            mean += if transition.chance == CHANCE {
                number
            } else {
                number * (f64::from(transition.chance) / f64::from(CHANCE))
            };
        }
        *next = next.wrapping_add(1);
    }
    mean
}

impl Stage {
    /// That of no state yet.
    pub(crate) fn new(alloc: Global) -> Result<Stage, AllocError> {
        Ok(Stage {
            transitions: Vec::new(alloc),
            cells: Vec::new(alloc),
            solver: FloatSolver::new(alloc)?,
            plans: FloatPlans::new(alloc),
        })
    }

    /// Takes on the cells of a state.
    fn read<G: Game>(&mut self, known: &PlaceTable, g: G, s: G::State) -> Result<(), AllocError>
        requires { Reachable (G.model g) s }
        ensures { OnOk result
            (length self.new.cells.items ≡ (G.model g).moves Side.One s * (G.model g).moves Side.Two s) }
    {
        self.transitions.clear();
        g.add_transitions(s, &mut self.transitions)?;
        self.cells.clear();
        let mut next: usize = 0;
        for a in 0..g.moves(Side::One, s) {
            for b in 0..g.moves(Side::Two, s) {
                let mean = cell(known, g, s, (a, b), &self.transitions, &mut next);
                self.cells.push(mean)?;
            }
        }
        Ok(())
    }

    /// The value of a state, by those that are known, and the weights of both sides' plans, which sum to the total. The turn
    /// that it takes is the caller's to spend.
    fn value<G: Game>(
        &mut self,
        known: &PlaceTable,
        g: G,
        total: u32,
        s: G::State,
    ) -> Result<f64, AllocError>
        requires state { GoesOn (G.model g) s }
        requires light { total ≤ MOST_WEIGHT }
    {
        self.read(known, g, s)?;
        let rows = g.moves(Side::One, s) as usize;
        let cols = g.moves(Side::Two, s) as usize;
        let turns = &mut Turns::new(1);
        self.solver
            .solve(rows, cols, &self.cells, total, turns, &mut self.plans)
    }
}

impl FoundValues {
    /// None yet, with room for the values of so many states.
    pub(crate) fn new(alloc: Global, states: usize) -> Result<FoundValues, AllocError> {
        Ok(FoundValues {
            values: Vec::with_capacity(alloc, states)?,
            starts: Vec::with_capacity(alloc, states)?,
            words: Vec::new(alloc),
        })
    }

    /// Adds the value of a state, and the weights that were found with it.
    fn push(&mut self, value: f64, plans: &FloatPlans) -> Result<(), AllocError> {
        self.values.push(value)?;
        self.starts.push(self.words.len())?;
        add_words(&mut self.words, &plans.rows)?;
        add_words(&mut self.words, &plans.cols)
    }

    /// Adds what was found of further states.
    pub(crate) fn add(&mut self, more: &FoundValues) -> Result<(), AllocError> {
        let first = self.words.len();
        self.values.extend_from_slice(&more.values)?;
        for start in &more.starts {
            self.starts.push(first.saturating_add(*start))?;
        }
        self.words.extend_from_slice(&more.words)
    }
}

/// The values of states, one for each, by those that are known, and weights that sum to the total; those of the first ones
/// alone, where the watch ends it.
pub(crate) fn values_of<G: Game, W: Watch>(
    alloc: Global,
    g: G,
    total: u32,
    known: &PlaceTable,
    states: &[G::State],
    watch: &W,
) -> Result<FoundValues, NoMemory>
    requires states { All (GoesOn (G.model g)) states.now }
    requires light { total ≤ MOST_WEIGHT }
{
    let mut stage = Stage::new(alloc)?;
    let mut found = FoundValues::new(alloc, states.len())?;
    for s in states {
        if !watch.goes_on(InductionStep::Value) {
            break;
        }
        let value = stage.value(known, g, total, *s)?;
        found.push(value, &stage.plans)?;
    }
    Ok(found)
}

/// Whether the mirror image of a state has a smaller place, so that its value is made before that of the state.
fn is_mirrored<G: Game>(g: G, s: G::State) -> bool
    requires { Reachable (G.model g) s }
{
    match g.mirrored_place(s) {
        None => false,
        Some(place) => place < g.place(s),
    }
}

/// The negative of what is known at the mirror image of a state, 0 where nothing is.
fn mirrored_value<G: Game>(known: &PlaceTable, g: G, s: G::State) -> f64
    requires { Reachable (G.model g) s }
{
    let bits = match g.mirrored_place(s) {
        None => 0,
        Some(place) => known.word(place),
    };
    if bits == 0 {
        return 0.0;
    }
    -f64_from_bits_with_nan(bits)
}

/// The values of states, one for each, by those of their mirror images; those of the first ones alone, where the watch ends
/// it.
fn mirrored_values<G: Game, W: Watch>(
    alloc: Global,
    g: G,
    known: &PlaceTable,
    states: &[G::State],
    watch: &W,
) -> Result<FoundValues, NoMemory>
    requires { All (GoesOn (G.model g)) states.now }
{
    let mut found = FoundValues::new(alloc, states.len())?;
    for s in states {
        if !watch.goes_on(InductionStep::Value) {
            break;
        }
        found.values.push(mirrored_value(known, g, *s))?;
    }
    Ok(found)
}

/// The states by when they get values: at twice their rank those that are solved, and behind them those that get the value
/// of their mirror image.
fn halves_of<G: Game>(
    alloc: Global,
    g: G,
    states: &[G::State],
) -> Result<Vec<Vec<G::State>>, AllocError>
    requires { All (GoesOn (G.model g)) states.now }
    ensures { IfOk result (λ halves. All (λ half. All (GoesOn (G.model g)) half.items) halves.items) }
{
    let count = 2 * g.rank(g.root()) as usize + 2;
    let mut halves = Vec::with_capacity(alloc, count)?;
    for _ in 0..count {
        halves.push(Vec::new(alloc))?;
    }
    for s in states {
        let half = 2 * g.rank(*s) as usize + is_mirrored(g, *s) as usize;
        if half < halves.len() {
            halves[half].push(*s)?;
        }
    }
    Ok(halves)
}

/// The first states, at most so many.
fn first_of<G: Game>(_g: G, states: &[G::State], most: usize) -> &[G::State]
    requires { All (GoesOn (G.model _g)) states.now }
    ensures each { All (GoesOn (G.model _g)) result.now }
    ensures few { length result.now ≤ most }
{
    &states[..states.len().min(most)]
}

impl Values {
    /// No values yet, for no more states than `rows`. Each takes a turn.
    pub(crate) fn new(known: PlaceTable, proposals: Proposals, rows: u64, turns: Turns) -> Values
        ensures rows { result.rows ≡ rows }
        ensures turns { result.turns ≡ turns }
    {
        Values {
            known,
            proposals,
            rows,
            turns,
        }
    }

    /// The weights that were found, and the turns with those that are spent.
    pub(crate) fn into_parts(self) -> (Proposals, Turns)
        ensures { result.1 ≡ self.turns }
    {
        let Values {
            proposals,
            turns,
            ..
        } = self;
        (proposals, turns)
    }

    /// Gives values to states, for a turn each, as far as there are turns: by the function, or those of their mirror images.
    /// Where fewer values are made, since the watch has ended it, the turns that are left are given up.
    fn give<G: Game, W: Watch, F: Fn(&PlaceTable, &[G::State]) -> Result<FoundValues, NoMemory>>(
        &mut self,
        alloc: Global,
        g: G,
        watch: &W,
        states: &[G::State],
        mirrored: bool,
        values_of: &F,
    ) -> Result<(), GaveUp>
        requires states { All (GoesOn (G.model g)) states.now }
        requires may_call { (known : _) (some : _) → All (GoesOn (G.model g)) some.now
            → F.pre values_of.now known some }
        ensures rows { self.new.rows ≡ self.old.rows }
        ensures spent { HasSpent 0 (length states.now) self.old.turns self.new.turns }
        ensures err { IfErr result (IsReason ⊥ self.new.turns) }
    {
        let left = self.turns.left();
        let count = if left < states.len() as u64 {
            left as usize
        } else {
            states.len()
        };
        let some = &states[..count];
        let found = if mirrored {
            mirrored_values(alloc, g, &self.known, some, watch)?
        } else {
            values_of(&self.known, some)?
        };
        let made = found.values.len().min(count);
        self.turns.split(made as u64);
        for place in 0..made {
            let bits = f64_to_bits_with_nan(found.values[place]).max(1);
            self.known.replace(g.place(states[place]), bits);
        }
        self.proposals
            .take(alloc, g, some, &found.starts, &found.words)?;
        if made == states.len() {
            return Ok(());
        }
        self.turns.stop();
        if self.turns.left() == 0 {
            return Err(GaveUp::Spent);
        }
        Ok(())
    }
}

/// Gives values to the undecided states of the game, those of lower rank first. Of a state and its mirror image only the one
/// of smaller place is solved.
pub(crate) fn value_states<
    G: Game,
    W: Watch,
    F: Fn(&PlaceTable, &[G::State]) -> Result<FoundValues, NoMemory>,
>(alloc: Global, g: G, watch: &W, values: &mut Values, values_of: &F) -> Result<(), GaveUp>
    requires may_call { (known : _) (some : _) → All (GoesOn (G.model g)) some.now
        → F.pre values_of.now known some }
    ensures rows { values.new.rows ≡ values.old.rows }
    ensures valued { OnOk result (HasValues (G.model g) values.old.rows values.old.turns values.new.turns) }
    ensures err { IfErr result (IsStopped (G.model g) (HasUndecided (G.model g) (values.old.rows + 1))
        0 values.old.turns values.new.turns) }
{
    let states = list_states(alloc, g, values.rows, watch, &mut values.known)?;
    let count = states.len();
    let halves = halves_of(alloc, g, &states)?;
    drop(states);
    let mut missing = count;
    for half in 0..halves.len() {
        let some = first_of(g, &halves[half], missing);
        values.give(alloc, g, watch, some, half % 2 == 1, values_of)?;
        missing -= some.len();
    }
    Ok(())
}

impl<'a, W> Guide<'a, W> {
    /// These proposals, as far as the watch goes on.
    pub(crate) fn new(proposals: &'a Proposals, watch: &'a W) -> Guide<'a, W> {
        Guide { proposals, watch }
    }
}

impl<W: Watch> Guide<'_, W> {
    /// Weights of a side's moves at a state; none where the watch ends it.
    pub(crate) fn weights<G: Game>(
        &self,
        alloc: Global,
        g: G,
        side: Side,
        s: G::State,
    ) -> Result<Option<Vec<u32>>, NoMemory>
        requires { GoesOn (G.model g) s }
    {
        if !self.watch.goes_on(InductionStep::Plan) {
            return Ok(None);
        }
        Ok(Some(self.proposals.weights(alloc, g, side, s)?))
    }
}
