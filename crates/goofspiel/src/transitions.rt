//! All transitions of a state at once: each side's hands after its moves are numbered once, not once for each pair.

ghost use Rattle.std.specs.Prelude.{◌<◌, ◌≤◌, ◌^◌};

use crate::counts::choose;
use crate::places::part_number;
use crate::{Pay, Setting};
use sim_game::{CHANCE, Transition};
use std::alloc::AllocError;

/// A member of a set, as its bit, and the number of the set without it.
#[derive(Clone, Copy)]
pub(crate) struct Part {
    pub(crate) bit: u16,
    pub(crate) number: u64,
}

/// For each member of a part of a set, that of the lowest bit first, the number of the part without it among the parts of
/// its size. Behind the last one stand zeros.
pub(crate) fn parts_without(set: u16, part: u16) -> [Part; 13]
    requires set { set < 2 ^ 13 }
    requires part { part < 2 ^ 13 }
{
    let mut parts = [Part { bit: 0, number: 0 }; 13];
    let mut rest = part;
    for place in 0..13usize {
        if rest == 0 {
            break;
        }
        let bit = rest & rest.wrapping_neg();
        let number = part_number(set, (part ^ bit) % 8192);
        parts[place] = Part { bit, number };
        rest ^= bit;
    }
    parts
}

/// What One gets by a turn, and the number of the hands and the score after it.
#[derive(Clone, Copy)]
pub(crate) struct NextDeal {
    pub(crate) reward: i32,
    pub(crate) number: u64,
}

/// What the deals after a state's turns have in common.
#[derive(Clone, Copy)]
pub(crate) struct NextDeals {
    pay: Pay,
    prize: u8,
    // How many hands a side can have.
    hands: u64,
    // How many scores there can be, and how far the score is above the least.
    scores: u64,
    above: i64,
}

impl NextDeals {
    /// The deals after a turn at which a prize is bid for, with so many cards a side, and scores so far from the first one.
    pub(crate) fn new(setting: &Setting, left: u32, far: u32, score: i32, prize: u8) -> NextDeals
        requires left { left ≤ setting.now.count }
        requires count { setting.now.count ≤ 13 }
        requires far { far ≤ 3315 }
    {
        let least = i64::from(setting.score) - i64::from(far);
        NextDeals {
            pay: setting.pay,
            prize,
            hands: choose(setting.count as u32, left),
            scores: 2 * u64::from(far) + 1,
            above: i64::from(score) - least,
        }
    }

    /// The deal after these moves.
    #[inline]
    pub(crate) fn after(&self, one: Part, two: Part) -> NextDeal {
        let won = if one.bit > two.bit {
            i32::from(self.prize)
        } else if one.bit < two.bit {
            -i32::from(self.prize)
        } else {
            0
        };
        let (reward, change) = match self.pay {
            Pay::Margin | Pay::Win => (0, won),
            Pay::Prizes => (won, 0),
        };
        let hands = one.number.wrapping_mul(self.hands).wrapping_add(two.number);
        let score = self.above.wrapping_add(i64::from(change)).unsigned_abs();
        NextDeal {
            reward,
            number: hands.wrapping_mul(self.scores).wrapping_add(score),
        }
    }
}

/// What the draws after a state's turns have in common.
#[derive(Clone, Copy)]
pub(crate) struct NextDraws {
    // The first place of the states that follow.
    pub(crate) first: u64,
    // How many sets of prizes can be left after a draw, and how many places a prize can have.
    pub(crate) sets: u64,
    pub(crate) places: u64,
    // The weight of each draw.
    pub(crate) chance: u32,
    // The place of each prize that can be drawn, as a bit, and the number of the set without it.
    pub(crate) parts: [Part; 13],
}

impl NextDraws {
    /// The one draw of known prizes.
    pub(crate) fn known(first: u64) -> NextDraws {
        let mut parts = [Part { bit: 0, number: 0 }; 13];
        parts[0].bit = 1;
        NextDraws {
            first,
            sets: 1,
            places: 1,
            chance: CHANCE,
            parts,
        }
    }

    /// The place of the state after a deal and a draw.
    #[inline]
    fn place(&self, deal: NextDeal, draw: Part) -> u64 {
        let number = deal.number.wrapping_mul(self.sets);
        let set = number.wrapping_add(draw.number);
        let place = u64::from(draw.bit.trailing_zeros());
        self.first
            .wrapping_add(set.wrapping_mul(self.places))
            .wrapping_add(place)
    }
}

/// Adds the transitions after moves that leave these parts of the hands.
pub(crate) fn add_deals(
    ones: &[Part; 13],
    twos: &[Part; 13],
    deals: &NextDeals,
    draws: &NextDraws,
    transitions: &mut Vec<Transition>,
) -> Result<(), AllocError> {
    for one in ones {
        if one.bit == 0 {
            break;
        }
        for two in twos {
            if two.bit == 0 {
                break;
            }
            let deal = deals.after(*one, *two);
            for draw in &draws.parts {
                if draw.bit == 0 {
                    break;
                }
                transitions.push(Transition {
                    place: draws.place(deal, *draw),
                    reward: deal.reward,
                    chance: draws.chance,
                })?;
            }
        }
    }
    Ok(())
}
