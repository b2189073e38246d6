//! Oshi-Zumo: two players bid coins to push a wrestler off the board.
#![tactic(auto)]

ghost use Rattle.std.specs.Prelude.{◌≡◌, ◌+◌, ◌<◌, ◌≤◌, length, slice_index, unsigned_abs, MatchResult};
ghost use Rattle.oshi_zumo.specs.declared.Setting.{Setting};
ghost use Rattle.oshi_zumo.specs.laws.Game.{oshi_zumo_is_game, oshi_zumo_numbered};
ghost use Rattle.oshi_zumo.specs.Position.{first_fault, most_coins, setting_of, IsPosition, IsSettingOf};
ghost use Rattle.oshi_zumo.specs.Rules.{bids_from, coin_bits, coins_of, from_end, is_off, is_bout_over, oshi_zumo_game, oshi_zumo_numbering, push_of, KeepsRules};
ghost use Rattle.sim_game.specs.declared.Limits.TheVariants.{Wide};

mod refusals;

pub use refusals::position_has_one_game;
use sim_game::{CHANCE, Game, Limits, Side};
use state_key::{Key, put};
use thiserror::Error;

/// The wrestler's place and the coins of both sides. With a board of size K the places on it are -K to K; One pushes
/// toward K, Two toward -K.
#[derive(Clone, Copy, PartialEq, Eq, Debug)]
pub struct State {
    pub place: i8,
    pub one: u8,
    pub two: u8,
}

/// What a position holds: the size of the board, the coins of both sides, the least bid and the wrestler's place.
#[derive(Clone, Copy, PartialEq, Eq, Debug)]
pub struct Setting {
    pub size: u8,
    pub one: u8,
    pub two: u8,
    pub least: u8,
    pub place: i8,
}

/// A position of the game, within the wide limits.
#[derive(Clone, Copy, PartialEq, Eq, Debug)]
pub struct OshiZumo {
    pub setting: Setting,
    ghost valid: { IsPosition setting },
}

/// Why there is no such position.
#[derive(Clone, Copy, PartialEq, Eq, Debug, Error)]
pub enum OshiError {
    #[error("the size is above 8")]
    SizeRange,
    #[error("a side has too many coins")]
    CoinRange,
    #[error("the least bid is 0 or too high")]
    LeastRange,
    #[error("the place is off the board")]
    PlaceRange,
}

/// The most coins that a side may have, and the highest least bid.
fn most_coins(limits: Limits) -> u8
    ensures is { result ≡ most_coins limits }
    ensures small { result ≤ most_coins Wide }
{
    match limits {
        Limits::Narrow => 31,
        Limits::Wide => 63,
    }
}

impl OshiZumo {
    /// The position with these numbers. An error names the first rule that is broken: the size is at most 8; each
    /// side has at most 31 coins, 63 where the limits are wide; the least bid is 1 to as many; the place is -size to
    /// size.
    pub fn new(
        limits: Limits,
        size: u8,
        one: u8,
        two: u8,
        least: u8,
        place: i8,
    ) -> Result<OshiZumo, OshiError>
        ensures { let g = setting_of size one two least place in
            MatchResult result
            (λ game. (first_fault limits g ≡ None) × IsSettingOf size one two least place game.setting)
            (λ fault. first_fault limits g ≡ Some fault) }
    {
        let most = most_coins(limits);
        if size > 8 {
            return Err(OshiError::SizeRange);
        }
        if one > most || two > most {
            return Err(OshiError::CoinRange);
        }
        if least == 0 || least > most {
            return Err(OshiError::LeastRange);
        }
        if place.unsigned_abs() > size {
            return Err(OshiError::PlaceRange);
        }
        let setting = Setting {
            size,
            one,
            two,
            least,
            place,
        };
        Ok(OshiZumo { setting })
    }
}

impl Setting {
    /// Whether the wrestler is off the board.
    #[inline]
    fn is_off(self, s: State) -> bool
        ensures { result ≡ is_off self s }
    {
        s.place.unsigned_abs() > self.size
    }

    /// Whether the wrestler is off the board or neither side has the least bid.
    #[inline]
    fn is_over(self, s: State) -> bool
        ensures { result ≡ is_bout_over self s }
    {
        self.is_off(s) || (s.one < self.least && s.two < self.least)
    }

    /// How far the wrestler is from the place behind Two's end of the board.
    #[inline]
    fn from_end(self, s: State) -> u64
        requires size { self.size ≤ 8 }
        requires near { unsigned_abs s.place ≤ self.size + 1 }
        ensures { result ≡ from_end self s }
    {
        (s.place + self.size as i8 + 1) as u64
    }

    /// How many bits of a key a side's coins take.
    #[inline]
    fn coin_bits(self) -> u32
        ensures is { result ≡ coin_bits self }
        ensures small { result ≤ 6 }
    {
        if self.one > 31 || self.two > 31 || self.least > 31 {
            6
        } else {
            5
        }
    }

    /// How many bids a side with these coins has.
    #[inline]
    fn bid_count(self, coins: u8) -> u32
        ensures { result ≡ length (bids_from self.least coins) }
    {
        if coins < self.least {
            1
        } else {
            coins as u32 + 1 - self.least as u32
        }
    }

    /// The bid of this number of a side with these coins.
    #[inline]
    fn bid(self, coins: u8, i: u32) -> u8
        requires { i < length (bids_from self.least coins) }
        ensures is { result ≡ slice_index (bids_from self.least coins) i }
        ensures paid { result ≤ coins }
    {
        if coins < self.least {
            0
        } else {
            self.least + i as u8
        }
    }
}

/// The coins of a side.
#[inline]
fn coins(side: Side, s: State) -> u8
    ensures { result ≡ coins_of side s }
{
    match side {
        Side::One => s.one,
        Side::Two => s.two,
    }
}

/// How far these bids move the wrestler.
#[inline]
fn push(one: u8, two: u8) -> i8
    ensures is { result ≡ push_of one two }
    ensures small { unsigned_abs result ≤ 1 }
{
    if one > two {
        1
    } else if one < two {
        -1
    } else {
        0
    }
}

impl Game for OshiZumo {
    type State = State;

    ghost model = { λ game. oshi_zumo_game game.setting };

    ghost numbering = { λ game. oshi_zumo_numbering game.setting };

    fn root(&self) -> State {
        State {
            place: self.setting.place,
            one: self.setting.one,
            two: self.setting.two,
        }
    }

    #[inline]
    fn moves(&self, side: Side, s: State) -> u32 {
        if self.setting.is_over(s) {
            0
        } else {
            self.setting.bid_count(coins(side, s))
        }
    }

    #[inline]
    fn next(&self, s: State, a: u32, b: u32) -> State {
        let one = self.setting.bid(s.one, a);
        let two = self.setting.bid(s.two, b);
        State {
            place: s.place + push(one, two),
            one: s.one - one,
            two: s.two - two,
        }
    }

    #[inline]
    fn payoff(&self, s: State) -> i32 {
        s.place.signum() as i32
    }

    #[inline]
    fn reward(&self, _s: State, _a: u32, _b: u32, _d: u32) -> i32 {
        0
    }

    #[inline]
    fn least(&self, _s: State) -> i32 {
        -1
    }

    #[inline]
    fn most(&self, _s: State) -> i32 {
        1
    }

    #[inline]
    fn rank(&self, s: State) -> u32 {
        if self.setting.is_off(s) {
            0
        } else {
            (s.one.max(s.two) / self.setting.least) as u32
        }
    }

    #[inline]
    fn key(&self, s: State) -> u64 {
        let bits = self.setting.coin_bits();
        let place = put(Key(0), (s.place + 16) as u64, 5);
        put(put(place, s.one as u64, bits), s.two as u64, bits).0
    }

    /// The places of the wrestler, one behind each end of the board included, with the coins of each side.
    fn most_states(&self) -> u64 {
        let places = 2 * self.setting.size as u64 + 3;
        (self.setting.two as u64 + 1) * ((self.setting.one as u64 + 1) * places)
    }

    #[inline]
    fn place(&self, s: State) -> u64 {
        let front = self.setting.from_end(s) * (self.setting.one as u64 + 1) + s.one as u64;
        front * (self.setting.two as u64 + 1) + s.two as u64
    }

    #[inline]
    fn low(&self) -> i32 {
        -1
    }

    #[inline]
    fn high(&self) -> i32 {
        1
    }

    fn width(&self) -> u32 {
        let least = self.setting.least as u32;
        1.max((self.setting.one as u32 + 1).saturating_sub(least))
            .max((self.setting.two as u32 + 1).saturating_sub(least))
    }

    fn label(&self, side: Side, s: State, i: u32) -> u8 {
        self.setting.bid(coins(side, s), i)
    }

    #[inline]
    fn chance_free(&self) -> bool {
        true
    }

    #[inline]
    fn draws(&self, _s: State, _a: u32, _b: u32) -> u32 {
        1
    }

    #[inline]
    fn chance(&self, _s: State, _a: u32, _b: u32, _d: u32) -> u32 {
        CHANCE
    }

    #[inline]
    fn drawn(&self, s: State, a: u32, b: u32, _d: u32) -> State {
        self.next(s, a, b)
    }

    #[inline]
    fn mirrored_place(&self, s: State) -> Option<u64> {
        if self.setting.one != self.setting.two || self.setting.place != 0 {
            return None;
        }
        let coins = u64::from(self.setting.one) + 1;
        let size = i64::from(self.setting.size);
        let from_end = (size + 1 - i64::from(s.place)).unsigned_abs();
        let front = from_end.wrapping_mul(coins).wrapping_add(u64::from(s.two));
        Some(front.wrapping_mul(coins).wrapping_add(u64::from(s.one)))
    }

    ghost lawful = { λ game. oshi_zumo_is_game game.setting game.valid };

    ghost numbered = { λ game. oshi_zumo_numbered game.setting game.valid };
}

/// Every call answers by the rules on the place and the coins.
pub fn keeps_rules(_game: &OshiZumo)
    ensures { KeepsRules _game.now.setting }
{}
