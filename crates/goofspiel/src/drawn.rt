//! Goofspiel with prizes drawn by chance: the first prize is bid for first, and after both bids each of those that
//! are left is the next one with equal chances.

ghost use Rattle.std.specs.Prelude.{◌≡◌, ℕ, ℤ, List, ◌+◌, ◌*◌, ◌<◌, ◌≤◌, ◌^◌, max, length, slice_index, sum, MatchResult, None, Some};
ghost use Rattle.goofspiel.specs.declared.Pay.TheVariants.{Margin, Prizes};
ghost use Rattle.goofspiel.specs.SameTree.{with_pay, HasSameSerialBounds, HasSameTree};
ghost use Rattle.goofspiel.specs.laws.Drawn.{drawn_is_game};
ghost use Rattle.goofspiel.specs.DrawnRules.{drawn_deal_of, drawn_game, drawn_left, KeepsDrawnRules};
ghost use Rattle.sim_game.specs.Model.{Reachable};
ghost use Rattle.std.specs.List.{sum_by};
ghost use Rattle.goofspiel.specs.Cards.{places};
ghost use Rattle.goofspiel.specs.laws.Places.{drawn_numbered};
ghost use Rattle.goofspiel.specs.Places.{drawn_deals_with, drawn_far, drawn_numbering, sets};
ghost use Rattle.goofspiel.specs.Position.{first_fault, prizes_of, IsPosition, IsSettingOf};
ghost use Rattle.goofspiel.specs.Rules.{high_of, low_of};
ghost use Rattle.sums.specs.Sums.{count_below};

use crate::counts::{choose, deals, spread};
use crate::hands::{hands_key, play, won_by};
use crate::places::{deal_number, is_mirrored, mirrored_number, part_number};
use crate::sets::{count_below_gone, number_at, size, take_out};
use crate::transitions::{NextDeals, NextDraws, Part, add_deals, parts_without};
use crate::{Goofspiel, GoofspielError, Pay, Setting, State};
use sim_game::{CHANCE, Game, Side, Transition};
use state_key::put;
use std::alloc::AllocError;

/// The hands and the score, the places of the prizes that are not drawn yet, packed, and the place of the prize that
/// is bid for, 0 at an end. In the packed places the lowest bit stands for place 0, and that of each place that is
/// not drawn is 1.
#[derive(Clone, Copy, PartialEq, Eq, Debug)]
pub struct DrawnState {
    pub hands: State,
    pub undrawn: u16,
    pub place: u8,
}

/// A position of the game.
#[derive(Clone, Copy, PartialEq, Eq, Debug)]
pub struct GoofspielDrawn {
    pub setting: Setting,
    low: i32,
    high: i32,
    ghost valid: { IsPosition setting },
    ghost low_is: { low ≡ low_of setting.pay setting.score (sum (prizes_of setting)) },
    ghost high_is: { high ≡ high_of setting.pay setting.score (sum (prizes_of setting)) },
}

impl GoofspielDrawn {
    /// The position with these cards, prizes and score, of which the first prize is bid for first. The ranges and the
    /// errors are those of `Goofspiel::new`.
    pub fn new(
        one: &[u8],
        two: &[u8],
        prizes: &[u8],
        score: i32,
        pay: Pay,
    ) -> Result<GoofspielDrawn, GoofspielError>
        requires one { length one.now < 2 ^ 31 }
        requires two { length two.now < 2 ^ 31 }
        requires prizes { length prizes.now < 2 ^ 31 }
        ensures { MatchResult result
            (λ game. (first_fault one.now two.now prizes.now score ≡ None)
            × IsSettingOf one.now two.now prizes.now score pay game.setting)
            (λ fault. first_fault one.now two.now prizes.now score ≡ Some fault) }
    {
        let game = Goofspiel::new(one, two, prizes, score, pay)?;
        Ok(GoofspielDrawn {
            setting: game.setting,
            low: game.low,
            high: game.high,
        })
    }
}

/// The sum of the prizes at the places of a set.
fn sum_at(prizes: &[u8; 13], set: u16) -> u32
    requires { set < 2 ^ 13 }
    ensures is { result ≡ sum_by (slice_index prizes.now) (places set) }
    ensures small { result ≤ 3315 }
{
    let mut rest = set;
    let mut sum: u32 = 0;
    for _ in 0..size(set) {
        let prize = prizes[rest.trailing_zeros() as usize];
        sum += prize as u32;
        rest &= rest - 1;
    }
    sum
}

impl GoofspielDrawn {
    /// The sum of the prizes that are still to be won, the current one included.
    fn prizes_left(&self, s: DrawnState) -> u32
        requires { Reachable (drawn_game self.now.setting) s }
        ensures is { result ≡ drawn_left (prizes_of self.now.setting) (drawn_deal_of s) }
        ensures small { result ≤ 3570 }
    {
        if self.rank(s) == 0 {
            return 0;
        }
        let prize = self.setting.prizes[s.place as usize] as u32;
        prize + sum_at(&self.setting.prizes, s.undrawn)
    }
}

impl GoofspielDrawn {
    /// How far the score can be from the first one.
    #[inline]
    fn spread(&self) -> u32
        ensures is { result ≡ drawn_far self.now.setting }
        ensures few { result ≤ 3315 }
    {
        spread(
            self.setting.pay,
            &self.setting.prizes[..self.setting.count as usize],
        )
    }

    /// How many places the current prize can have: one at an end without prizes too.
    #[inline]
    fn place_count(&self) -> u64
        ensures { result ≡ max 1 self.now.setting.count }
    {
        1.max(self.setting.count as u64)
    }

    /// How many sets of undrawn places there are where each side has so many cards.
    #[inline]
    fn sets(&self, left: u32) -> u64
        requires { left ≤ self.now.setting.count }
        ensures is { result ≡ sets self.now.setting left }
        ensures few { result ≤ 8192 }
    {
        choose(
            (self.setting.count as u32).saturating_sub(1),
            left.saturating_sub(1),
        )
    }

    /// How many deals there are with fewer cards a side: with so many cards left, besides what `Goofspiel` counts, one
    /// set of places fewer by one than the cards is not drawn, and any place is bid for.
    fn deals_below(&self, size: u32) -> u64
        requires { size ≤ self.now.setting.count + 1 }
        ensures is { result ≡ count_below size (drawn_deals_with self.now.setting) }
        ensures few { result ≤ size * 2 ^ 56 }
    {
        let count = self.setting.count as u32;
        let far = self.spread();
        let mut sum = 0;
        for left in 0..size {
            sum += self.place_count() * (self.sets(left) * deals(choose(count, left), far));
        }
        sum
    }
}

impl GoofspielDrawn {
    /// The draws after a state's turns: the place of each as a bit, and the number of the set of places without it. The
    /// last turn has one draw, of place 0.
    fn draw_parts(&self, s: DrawnState) -> [Part; 13]
        requires { s.undrawn < 2 ^ 13 }
    {
        let all = self.root().undrawn;
        let mut parts = parts_without(all, s.undrawn);
        if s.undrawn == 0 {
            parts[0] = Part {
                bit: 1,
                number: part_number(all, 0),
            };
        }
        parts
    }
}

impl Game for GoofspielDrawn {
    type State = DrawnState;

    ghost model = { λ game. drawn_game game.setting };

    ghost numbering = { λ game. drawn_numbering game.setting };

    fn root(&self) -> DrawnState {
        let later = self.setting.count.saturating_sub(1);
        DrawnState {
            hands: State {
                one: self.setting.one,
                two: self.setting.two,
                score: self.setting.score,
            },
            undrawn: 2 * ((1 << later) - 1),
            place: 0,
        }
    }

    #[inline]
    fn moves(&self, side: Side, s: DrawnState) -> u32 {
        match side {
            Side::One => size(s.hands.one),
            Side::Two => size(s.hands.two),
        }
    }

    #[inline]
    fn next(&self, s: DrawnState, a: u32, b: u32) -> DrawnState {
        self.drawn(s, a, b, 0)
    }

    #[inline]
    fn payoff(&self, s: DrawnState) -> i32 {
        match self.setting.pay {
            Pay::Margin | Pay::Prizes => s.hands.score,
            Pay::Win => s.hands.score.signum(),
        }
    }

    #[inline]
    fn reward(&self, s: DrawnState, a: u32, b: u32, _d: u32) -> i32 {
        match self.setting.pay {
            Pay::Margin | Pay::Win => 0,
            Pay::Prizes => won_by(s.hands, a, b, self.setting.prizes[s.place as usize]),
        }
    }

    #[inline]
    fn least(&self, s: DrawnState) -> i32 {
        match self.setting.pay {
            Pay::Margin | Pay::Win => self.low,
            Pay::Prizes => s.hands.score - self.prizes_left(s) as i32,
        }
    }

    #[inline]
    fn most(&self, s: DrawnState) -> i32 {
        match self.setting.pay {
            Pay::Margin | Pay::Win => self.high,
            Pay::Prizes => s.hands.score + self.prizes_left(s) as i32,
        }
    }

    #[inline]
    fn rank(&self, s: DrawnState) -> u32 {
        self.moves(Side::One, s)
    }

    #[inline]
    fn key(&self, s: DrawnState) -> u64 {
        let later = put(hands_key(s.hands), s.undrawn as u64, 13);
        put(later, s.place as u64, 4).0
    }

    fn most_states(&self) -> u64 {
        self.deals_below(self.setting.count as u32 + 1)
    }

    #[inline]
    fn place(&self, s: DrawnState) -> u64 {
        let left = self.rank(s);
        let deal = deal_number(&self.setting, self.spread(), s.hands);
        let undrawn = part_number(self.root().undrawn, s.undrawn);
        let number = deal * self.sets(left) + undrawn;
        self.deals_below(left) + (number * self.place_count() + s.place as u64)
    }

    #[inline]
    fn low(&self) -> i32 {
        self.low
    }

    #[inline]
    fn high(&self) -> i32 {
        self.high
    }

    fn width(&self) -> u32 {
        1.max(size(self.setting.one))
    }

    fn label(&self, side: Side, s: DrawnState, i: u32) -> u8 {
        match side {
            Side::One => number_at(s.hands.one, 1, i),
            Side::Two => number_at(s.hands.two, 1, i),
        }
    }

    #[inline]
    fn chance_free(&self) -> bool {
        false
    }

    #[inline]
    fn draws(&self, s: DrawnState, _a: u32, _b: u32) -> u32 {
        1.max(size(s.undrawn))
    }

    #[inline]
    fn chance(&self, s: DrawnState, a: u32, b: u32, _d: u32) -> u32 {
        CHANCE / self.draws(s, a, b)
    }

    #[inline]
    fn drawn(&self, s: DrawnState, a: u32, b: u32, d: u32) -> DrawnState {
        let prize = self.setting.prizes[s.place as usize];
        let hands = play(self.setting.pay, s.hands, a, b, prize);
        if s.undrawn == 0 {
            return DrawnState {
                hands,
                undrawn: 0,
                place: 0,
            };
        }
        let (place, undrawn) = take_out(s.undrawn, 0, d);
        DrawnState {
            hands,
            undrawn,
            place,
        }
    }

    #[inline]
    fn mirrored_place(&self, s: DrawnState) -> Option<u64> {
        if !is_mirrored(&self.setting) {
            return None;
        }
        let left = self.rank(s);
        let deal = mirrored_number(&self.setting, self.spread(), s.hands);
        let undrawn = part_number(self.root().undrawn, s.undrawn);
        let number = deal.wrapping_mul(self.sets(left)).wrapping_add(undrawn);
        let below = number.wrapping_mul(self.place_count());
        Some(
            self.deals_below(left)
                .wrapping_add(below)
                .wrapping_add(u64::from(s.place)),
        )
    }

    // As for known prizes; and each state is listed behind one whose prize is the last in order of those that are gone.
    fn first_listed(&self, side: Side, s: DrawnState) -> u32 {
        let gone = self.root().undrawn & !s.undrawn;
        let is_last = 15 <= u32::from(s.place) + gone.leading_zeros();
        match self.setting.pay {
            Pay::Margin | Pay::Win => 0,
            Pay::Prizes if !is_last => self.moves(side, s),
            Pay::Prizes => match side {
                Side::One => count_below_gone(self.setting.one, s.hands.one),
                Side::Two => count_below_gone(self.setting.two, s.hands.two),
            },
        }
    }

    fn add_transitions(
        &self,
        s: DrawnState,
        transitions: &mut Vec<Transition>,
    ) -> Result<(), AllocError> {
        if self.rank(s) == 0 {
            return Ok(());
        }
        let left = self.rank(s) - 1;
        let prize = self.setting.prizes[s.place as usize];
        let deals = NextDeals::new(&self.setting, left, self.spread(), s.hands.score, prize);
        let draws = NextDraws {
            first: self.deals_below(left),
            sets: self.sets(left),
            places: self.place_count(),
            chance: CHANCE / 1.max(size(s.undrawn)),
            parts: self.draw_parts(s),
        };
        let ones = parts_without(self.setting.one, s.hands.one);
        let twos = parts_without(self.setting.two, s.hands.two);
        add_deals(&ones, &twos, &deals, &draws, transitions)
    }

    ghost lawful = { λ game. drawn_is_game game.setting game.valid };

    ghost numbered = { λ game. drawn_numbered game.setting game.valid };
}

/// The states stand for hands of cards, a score and places, and every call answers by the rules on these, draws and
/// chances too.
pub fn keeps_drawn_rules(_game: &GoofspielDrawn)
    ensures { KeepsDrawnRules _game.now.setting }
{}

/// The same cards, prizes, score and pay give one game.
pub fn drawn_position_has_one_game()
    ensures { (one two prizes : List ℕ) (score : ℤ) (pay : Pay) (g h : Setting)
        → IsSettingOf one two prizes score pay g → IsSettingOf one two prizes score pay h
        → drawn_game g ≡ drawn_game h }
{}

/// The same cards and prizes with `Pay::Margin` and with `Pay::Prizes` are one game but for its states, draws and
/// chances too.
pub fn drawn_margin_by_prizes()
    ensures { (g : Setting) → HasSameTree (drawn_game (with_pay Margin g)) (drawn_game (with_pay Prizes g)) }
{}

/// The same cards and prizes with `Pay::Margin` and with `Pay::Prizes` have the same serial bounds at the root.
pub fn drawn_same_serial_bounds()
    ensures { (g : Setting) → IsPosition g
        → HasSameSerialBounds (drawn_game (with_pay Margin g)) (drawn_game (with_pay Prizes g)) }
{}
