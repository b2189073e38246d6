//! The hands of both sides and the score, as both games have them.
ghost use Rattle.std.specs.Prelude.{◌≡◌, ◌<◌, ◌≤◌, ◌^◌, length, unsigned_abs};
ghost use Rattle.goofspiel.specs.Cards.{cards};
ghost use Rattle.goofspiel.specs.Rules.{after_bids, deal_of, goofspiel_key, score_after, state_of, won, won_by};
ghost use Rattle.goofspiel.specs.Deals.{FitsKey};

use crate::sets::{number_at, take_out};
use crate::{Pay, State};
use state_key::{Key, put};

/// What One wins by a prize where these cards are bid.
#[inline]
fn change(one: u8, two: u8, prize: u8) -> i32
    ensures is { result ≡ won one two prize }
    ensures small { unsigned_abs result ≤ 255 }
{
    if one > two {
        prize as i32
    } else if one < two {
        -(prize as i32)
    } else {
        0
    }
}

/// What One wins by both bids for a prize.
#[inline]
pub(crate) fn won_by(s: State, a: u32, b: u32, prize: u8) -> i32
    requires small { FitsKey s }
    requires one { a < length (cards s.one) }
    requires two { b < length (cards s.two) }
    ensures { result ≡ won_by prize (deal_of s) a b }
{
    change(number_at(s.one, 1, a), number_at(s.two, 1, b), prize)
}

/// The score after a turn by which One wins so much.
#[inline]
fn score_after(pay: Pay, score: i32, win: i32) -> i32
    requires score { unsigned_abs score ≤ 2300 }
    requires win { unsigned_abs win ≤ 255 }
    ensures { result ≡ score_after pay score win }
{
    match pay {
        Pay::Margin | Pay::Win => score + win,
        Pay::Prizes => score,
    }
}

/// The hands and the score after both bids for a prize.
#[inline]
pub(crate) fn play(pay: Pay, s: State, a: u32, b: u32, prize: u8) -> State
    requires small { FitsKey s }
    requires one { a < length (cards s.one) }
    requires two { b < length (cards s.two) }
    ensures { result ≡ state_of (after_bids pay prize (deal_of s) a b) }
{
    let (card_one, one) = take_out(s.one, 1, a);
    let (card_two, two) = take_out(s.two, 1, b);
    State {
        one,
        two,
        score: score_after(pay, s.score, change(card_one, card_two, prize)),
    }
}

/// The key of the hands and the score.
#[inline]
pub(crate) fn hands_key(s: State) -> Key
    requires { FitsKey s }
    ensures is { result.0 ≡ goofspiel_key (deal_of s) }
    ensures small { result.0 < 2 ^ 39 }
{
    let hands = put(put(Key(0), s.one as u64, 13), s.two as u64, 13);
    put(hands, (s.score + 2300) as u64, 13)
}
