//! The rules that the lists of a position keep, tried one by one.
ghost use Rattle.std.specs.Prelude.{◌≡◌, ℕ, ℤ, List, ◌<◌, ◌≤◌, ◌^◌, ◌-◌, ◌++◌, IfSome, length, replicate, sum, unsigned_abs, MatchResult, position};
ghost use Rattle.state_key.specs.Sets.{is_in, with_number};
ghost use Rattle.text.specs.Faults.{is_outside};
ghost use Rattle.goofspiel.specs.Position.{card_range, card_twice, lengths, prize_range, score_range, IsHandOf, IsSettingOf};
ghost use Rattle.goofspiel.specs.declared.Pay.{Pay};
ghost use Rattle.goofspiel.specs.declared.Setting.{Setting};

use crate::GoofspielError;
use sim_game::Side;

/// The first place whose number is not `low` to `high`.
fn first_outside(numbers: &[u8], low: u8, high: u8) -> Option<usize>
    ensures place { result ≡ position (is_outside low high) numbers.now }
    ensures within { IfSome result (λ place. place < length numbers.now) }
{
    numbers
        .iter()
        .position(|number| *number < low || *number > high)
}

/// Refuses a card that is not 1 to 13.
pub(crate) fn check_cards(side: Side, hand: &[u8]) -> Result<(), GoofspielError>
    requires { length hand.now < 2 ^ 31 }
    ensures { MatchResult result
        (λ _. position (is_outside 1 13) hand.now ≡ None)
        (λ fault. card_range side hand.now ≡ Some fault) }
{
    match first_outside(hand, 1, 13) {
        Some(place) => Err(GoofspielError::CardRange {
            side,
            place: place as u32,
        }),
        None => Ok(()),
    }
}

/// Whether the card is in the hand.
fn has(hand: u16, card: u8) -> bool
    requires { (1 ≤ card) × (card ≤ 13) }
    ensures { result ≡ is_in hand (card - 1) }
{
    (hand >> (card - 1)) & 1 == 1
}

/// The hand with one more card.
fn with_card(hand: u16, card: u8) -> u16
    requires { (1 ≤ card) × (card ≤ 13) }
    ensures { result ≡ with_number hand (card - 1) }
{
    hand | 1 << (card - 1)
}

/// The packed hand of a list of cards. Refuses a card that stood before.
pub(crate) fn hand_of(side: Side, hand: &[u8]) -> Result<u16, GoofspielError>
    requires { position (is_outside 1 13) hand.now ≡ None }
    ensures { MatchResult result (IsHandOf hand.now) (λ fault. card_twice side hand.now ≡ Some fault) }
{
    let mut packed: u16 = 0;
    for card in hand {
        if has(packed, *card) {
            return Err(GoofspielError::CardTwice { side, card: *card });
        }
        packed = with_card(packed, *card);
    }
    Ok(packed)
}

/// Refuses lists that are not equally long.
pub(crate) fn check_lengths(one: &[u8], two: &[u8], prizes: &[u8]) -> Result<(), GoofspielError>
    requires one { length one.now < 2 ^ 31 }
    requires two { length two.now < 2 ^ 31 }
    requires prizes { length prizes.now < 2 ^ 31 }
    ensures { MatchResult result
        (λ _. (length one.now ≡ length two.now) × (length two.now ≡ length prizes.now))
        (λ fault. lengths one.now two.now prizes.now ≡ Some fault) }
{
    if one.len() == two.len() && two.len() == prizes.len() {
        return Ok(());
    }
    Err(GoofspielError::Lengths {
        one: one.len() as u32,
        two: two.len() as u32,
        prizes: prizes.len() as u32,
    })
}

/// Refuses a prize that is not 1 to 100.
pub(crate) fn check_prizes(prizes: &[u8]) -> Result<(), GoofspielError>
    requires { length prizes.now < 2 ^ 31 }
    ensures { MatchResult result
        (λ _. position (is_outside 1 100) prizes.now ≡ None)
        (λ fault. prize_range prizes.now ≡ Some fault) }
{
    match first_outside(prizes, 1, 100) {
        Some(place) => Err(GoofspielError::PrizeRange {
            place: place as u32,
        }),
        None => Ok(()),
    }
}

/// Refuses a score that is not -1000 to 1000.
pub(crate) fn check_score(score: i32) -> Result<(), GoofspielError>
    ensures { MatchResult result (λ _. unsigned_abs score ≤ 1000) (λ fault. score_range score ≡ Some fault) }
{
    if score.unsigned_abs() > 1000 {
        return Err(GoofspielError::ScoreRange);
    }
    Ok(())
}

/// The prizes with zeros behind them.
pub(crate) fn prize_array(prizes: &[u8]) -> [u8; 13]
    requires { length prizes.now ≤ 13 }
    ensures { result ≡ prizes.now ++ replicate (13 - length prizes.now) 0 }
{
    let mut array = [0; 13];
    for place in 0..prizes.len() {
        array[place] = prizes[place];
    }
    array
}

/// The sum of the prizes.
pub(crate) fn prize_sum(prizes: &[u8]) -> u32
    requires { length prizes.now ≤ 13 }
    ensures is { result ≡ sum prizes.now }
    ensures small { result ≤ 3315 }
{
    let mut sum: u32 = 0;
    for prize in prizes {
        sum += *prize as u32;
    }
    sum
}

/// The same cards, prizes, score and pay give one setting, and so one game.
pub fn position_has_one_game()
    ensures { (one two prizes : List ℕ) (score : ℤ) (pay : Pay) (g h : Setting)
        → IsSettingOf one two prizes score pay g → IsSettingOf one two prizes score pay h → g ≡ h }
{}
