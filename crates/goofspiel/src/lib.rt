//! Goofspiel: two players bid their cards for prizes.
#![tactic(auto)]

ghost use Rattle.std.specs.Prelude.{◌≡◌, ◌+◌, ◌*◌, ◌<◌, ◌≤◌, ◌^◌, length, sum, unsigned_abs, MatchResult, None, Some};
ghost use Rattle.goofspiel.specs.declared.Pay.TheVariants.{Margin, Prizes};
ghost use Rattle.goofspiel.specs.declared.Setting.{Setting};
ghost use Rattle.goofspiel.specs.laws.Game.{goofspiel_is_game};
ghost use Rattle.goofspiel.specs.laws.Places.{goofspiel_numbered};
ghost use Rattle.goofspiel.specs.Places.{deals_with, far_with, goofspiel_numbering};
ghost use Rattle.goofspiel.specs.SameTree.{with_pay, HasSameSerialBounds, HasSameTree};
ghost use Rattle.goofspiel.specs.Position.{first_fault, prizes_of, IsPosition, IsSettingOf};
ghost use Rattle.goofspiel.specs.Rules.{deal_of, goofspiel_game, high_of, low_of, next_prize, prizes_left, KeepsRules};
ghost use Rattle.sim_game.specs.Model.{Reachable};
ghost use Rattle.goofspiel.specs.Cards.{cards};
ghost use Rattle.sums.specs.Sums.{count_below};

mod counts;
mod drawn;
mod hands;
mod places;
mod position;
mod refusals;
mod sets;
mod transitions;

use counts::{choose, deals, far_by, pairs_below, spread};
pub use drawn::{
    DrawnState, GoofspielDrawn, drawn_margin_by_prizes, drawn_position_has_one_game,
    drawn_same_serial_bounds, keeps_drawn_rules,
};
use hands::{hands_key, play, won_by};
use places::{deal_number, is_mirrored, mirrored_number};
pub use position::position_has_one_game;
use position::{
    check_cards, check_lengths, check_prizes, check_score, hand_of, prize_array, prize_sum,
};
use sets::{count_below_gone, number_at, size};
use sim_game::{CHANCE, Game, Side, Transition};
use std::alloc::AllocError;
use thiserror::Error;
use transitions::{NextDeals, NextDraws, add_deals, parts_without};

/// What One gets; Two gets its negative.
#[derive(Clone, Copy, PartialEq, Eq, Debug)]
pub enum Pay {
    /// The score at an end.
    Margin,
    /// The score's sign at an end.
    Win,
    /// Each prize when it is won, and at an end the position's score. No turn changes the score of a state.
    Prizes,
}

/// The hands of both sides, packed, and the score: One's prizes less Two's, but for those that were paid when they were
/// won. In a packed hand the lowest bit stands for card 1, and that of each card held is 1.
#[derive(Clone, Copy, PartialEq, Eq, Debug)]
pub struct State {
    pub one: u16,
    pub two: u16,
    pub score: i32,
}

/// What a position holds: the packed hands, the score, the pay, and `count` prizes with zeros behind them.
#[derive(Clone, Copy, PartialEq, Eq, Debug)]
pub struct Setting {
    pub one: u16,
    pub two: u16,
    pub score: i32,
    pub pay: Pay,
    pub count: u8,
    pub prizes: [u8; 13],
}

/// A position of the game.
#[derive(Clone, Copy, PartialEq, Eq, Debug)]
pub struct Goofspiel {
    pub setting: Setting,
    low: i32,
    high: i32,
    ghost valid: { IsPosition setting },
    ghost low_is: { low ≡ low_of setting.pay setting.score (sum (prizes_of setting)) },
    ghost high_is: { high ≡ high_of setting.pay setting.score (sum (prizes_of setting)) },
}

/// Why there is no such position. Places are numbered from 0.
#[derive(Clone, Copy, PartialEq, Eq, Debug, Error)]
pub enum GoofspielError {
    #[error("the card at place {place} of a hand is not 1 to 13")]
    CardRange { side: Side, place: u32 },
    #[error("the card {card} stands twice in a hand")]
    CardTwice { side: Side, card: u8 },
    #[error("{one} cards, {two} cards and {prizes} prizes are not equally many")]
    Lengths { one: u32, two: u32, prizes: u32 },
    #[error("the prize at place {place} is not 1 to 100")]
    PrizeRange { place: u32 },
    #[error("the score is not -1000 to 1000")]
    ScoreRange,
}

impl Goofspiel {
    /// The position with these cards, prizes in the order in which they are bid for, and score. An error names the
    /// first rule that is broken, with places numbered from 0: a card is 1 to 13, One's cards before Two's; no card
    /// stands twice in a hand, One's before Two's; both hands and the prizes have one length; a prize is 1 to 100;
    /// the score is -1000 to 1000.
    pub fn new(
        one: &[u8],
        two: &[u8],
        prizes: &[u8],
        score: i32,
        pay: Pay,
    ) -> Result<Goofspiel, GoofspielError>
        requires one { length one.now < 2 ^ 31 }
        requires two { length two.now < 2 ^ 31 }
        requires prizes { length prizes.now < 2 ^ 31 }
        ensures { MatchResult result
            (λ game. (first_fault one.now two.now prizes.now score ≡ None)
            × IsSettingOf one.now two.now prizes.now score pay game.setting)
            (λ fault. first_fault one.now two.now prizes.now score ≡ Some fault) }
    {
        check_cards(Side::One, one)?;
        check_cards(Side::Two, two)?;
        let one_hand = hand_of(Side::One, one)?;
        let two_hand = hand_of(Side::Two, two)?;
        check_lengths(one, two, prizes)?;
        check_prizes(prizes)?;
        check_score(score)?;
        let setting = Setting {
            one: one_hand,
            two: two_hand,
            score,
            pay,
            count: prizes.len() as u8,
            prizes: prize_array(prizes),
        };
        let total = prize_sum(prizes);
        Ok(Goofspiel {
            setting,
            low: least_payoff(pay, score, total),
            high: greatest_payoff(pay, score, total),
        })
    }
}

/// The least sum that One gets from a score, where the prizes have this sum.
fn least_payoff(pay: Pay, score: i32, total: u32) -> i32
    requires score { unsigned_abs score ≤ 1000 }
    requires total { total ≤ 3315 }
    ensures { result ≡ low_of pay score total }
{
    match pay {
        Pay::Margin | Pay::Prizes => score - total as i32,
        Pay::Win => -1,
    }
}

/// The greatest sum that One gets from a score, where the prizes have this sum.
fn greatest_payoff(pay: Pay, score: i32, total: u32) -> i32
    requires score { unsigned_abs score ≤ 1000 }
    requires total { total ≤ 3315 }
    ensures { result ≡ high_of pay score total }
{
    match pay {
        Pay::Margin | Pay::Prizes => score + total as i32,
        Pay::Win => 1,
    }
}

impl Goofspiel {
    /// The prize that is bid for.
    #[inline]
    fn prize(&self, s: State) -> u8
        requires reachable { Reachable (goofspiel_game self.now.setting) s }
        requires some { 1 ≤ length (cards s.one) }
        ensures { result ≡ next_prize (prizes_of self.now.setting) (deal_of s) }
    {
        let gone = self.setting.count as u32 - self.rank(s);
        self.setting.prizes[gone as usize]
    }

    /// The sum of the prizes that are still to be won, the current one included.
    fn prizes_left(&self, s: State) -> u32
        requires { Reachable (goofspiel_game self.now.setting) s }
        ensures is { result ≡ prizes_left (prizes_of self.now.setting) (deal_of s) }
        ensures small { result ≤ 3315 }
    {
        let count = self.setting.count as usize;
        let gone = count - self.rank(s) as usize;
        prize_sum(&self.setting.prizes[gone..count])
    }
}

impl Goofspiel {
    /// How far the score can be from the first one where each side has so many cards.
    #[inline]
    fn spread(&self, left: u32) -> u32
        requires { left ≤ self.now.setting.count }
        ensures is { result ≡ far_with self.now.setting left }
        ensures few { result ≤ 3315 }
    {
        let gone = self.setting.count as usize - left as usize;
        spread(self.setting.pay, &self.setting.prizes[..gone])
    }

    /// How many deals there are with fewer cards a side.
    #[inline]
    fn deals_below(&self, size: u32) -> u64
        requires { size ≤ self.now.setting.count + 1 }
        ensures is { result ≡ count_below size (deals_with self.now.setting) }
        ensures few { result ≤ size * 2 ^ 39 }
    {
        match self.setting.pay {
            Pay::Margin | Pay::Win => self.deals_summed(size),
            Pay::Prizes => pairs_below(self.setting.count as u32, size),
        }
    }

    /// How many deals there are with fewer cards a side, summed up: with so many cards left, each side has one of the
    /// sets of so many of its cards, and the score differs from the first one by no more than the prizes that are gone.
    fn deals_summed(&self, size: u32) -> u64
        requires { size ≤ self.now.setting.count + 1 }
        ensures is { result ≡ count_below size (deals_with self.now.setting) }
        ensures few { result ≤ size * 2 ^ 39 }
    {
        let count = self.setting.count as u32;
        let mut spent = prize_sum(&self.setting.prizes[..count as usize]);
        let mut sum = 0;
        for left in 0..size {
            sum += deals(choose(count, left), far_by(self.setting.pay, spent));
            if left < count {
                spent -= self.setting.prizes[(count - left - 1) as usize] as u32;
            }
        }
        sum
    }
}

impl Game for Goofspiel {
    type State = State;

    ghost model = { λ game. goofspiel_game game.setting };

    ghost numbering = { λ game. goofspiel_numbering game.setting };

    fn root(&self) -> State {
        State {
            one: self.setting.one,
            two: self.setting.two,
            score: self.setting.score,
        }
    }

    #[inline]
    fn moves(&self, side: Side, s: State) -> u32 {
        match side {
            Side::One => size(s.one),
            Side::Two => size(s.two),
        }
    }

    #[inline]
    fn next(&self, s: State, a: u32, b: u32) -> State {
        play(self.setting.pay, s, a, b, self.prize(s))
    }

    #[inline]
    fn payoff(&self, s: State) -> i32 {
        match self.setting.pay {
            Pay::Margin | Pay::Prizes => s.score,
            Pay::Win => s.score.signum(),
        }
    }

    #[inline]
    fn reward(&self, s: State, a: u32, b: u32, _d: u32) -> i32 {
        match self.setting.pay {
            Pay::Margin | Pay::Win => 0,
            Pay::Prizes => won_by(s, a, b, self.prize(s)),
        }
    }

    #[inline]
    fn least(&self, s: State) -> i32 {
        match self.setting.pay {
            Pay::Margin | Pay::Win => self.low,
            Pay::Prizes => s.score - self.prizes_left(s) as i32,
        }
    }

    #[inline]
    fn most(&self, s: State) -> i32 {
        match self.setting.pay {
            Pay::Margin | Pay::Win => self.high,
            Pay::Prizes => s.score + self.prizes_left(s) as i32,
        }
    }

    #[inline]
    fn rank(&self, s: State) -> u32 {
        self.moves(Side::One, s)
    }

    #[inline]
    fn key(&self, s: State) -> u64 {
        hands_key(s).0
    }

    fn most_states(&self) -> u64 {
        self.deals_below(self.setting.count as u32 + 1)
    }

    #[inline]
    fn place(&self, s: State) -> u64 {
        let left = self.rank(s);
        self.deals_below(left) + deal_number(&self.setting, self.spread(left), s)
    }

    #[inline]
    fn low(&self) -> i32 {
        self.low
    }

    #[inline]
    fn high(&self) -> i32 {
        self.high
    }

    fn width(&self) -> u32 {
        1.max(size(self.setting.one))
    }

    fn label(&self, side: Side, s: State, i: u32) -> u8 {
        match side {
            Side::One => number_at(s.one, 1, i),
            Side::Two => number_at(s.two, 1, i),
        }
    }

    #[inline]
    fn chance_free(&self) -> bool {
        true
    }

    #[inline]
    fn draws(&self, _s: State, _a: u32, _b: u32) -> u32 {
        1
    }

    #[inline]
    fn chance(&self, _s: State, _a: u32, _b: u32, _d: u32) -> u32 {
        CHANCE
    }

    #[inline]
    fn drawn(&self, s: State, a: u32, b: u32, _d: u32) -> State {
        self.next(s, a, b)
    }

    #[inline]
    fn mirrored_place(&self, s: State) -> Option<u64> {
        if !is_mirrored(&self.setting) {
            return None;
        }
        let left = self.rank(s);
        let number = mirrored_number(&self.setting, self.spread(left), s);
        Some(self.deals_below(left).wrapping_add(number))
    }

    // Where prizes are paid, a state is what its hands are: it is listed behind the one from which each side has bid the
    // greatest card that is gone.
    #[inline]
    fn first_listed(&self, side: Side, s: State) -> u32 {
        match self.setting.pay {
            Pay::Margin | Pay::Win => 0,
            Pay::Prizes => match side {
                Side::One => count_below_gone(self.setting.one, s.one),
                Side::Two => count_below_gone(self.setting.two, s.two),
            },
        }
    }

    fn add_transitions(
        &self,
        s: State,
        transitions: &mut Vec<Transition>,
    ) -> Result<(), AllocError> {
        if self.rank(s) == 0 {
            return Ok(());
        }
        let left = self.rank(s) - 1;
        let first = self.deals_below(left);
        let far = self.spread(left);
        let deals = NextDeals::new(&self.setting, left, far, s.score, self.prize(s));
        let ones = parts_without(self.setting.one, s.one);
        let twos = parts_without(self.setting.two, s.two);
        add_deals(&ones, &twos, &deals, &NextDraws::known(first), transitions)
    }

    ghost lawful = { λ game. goofspiel_is_game game.setting game.valid };

    ghost numbered = { λ game. goofspiel_numbered game.setting game.valid };
}

/// The states stand for hands of cards and a score, and every call answers by the rules on these.
pub fn keeps_rules(_game: &Goofspiel)
    ensures { KeepsRules _game.now.setting }
{}

/// The same cards and prizes with `Pay::Margin` and with `Pay::Prizes` are one game but for its states: each way of
/// play has the same moves in both, and pays the same in the end. So any two plans that look at the turns alone, and
/// not at the score of the state, lead to the same sum in both.
pub fn margin_by_prizes()
    ensures { (g : Setting) → HasSameTree (goofspiel_game (with_pay Margin g)) (goofspiel_game (with_pay Prizes g)) }
{}

/// The same cards and prizes with `Pay::Margin` and with `Pay::Prizes` have the same serial bounds at the root.
pub fn same_serial_bounds()
    ensures { (g : Setting) → IsPosition g
        → HasSameSerialBounds (goofspiel_game (with_pay Margin g)) (goofspiel_game (with_pay Prizes g)) }
{}
