//! A budget of turns.

ghost use Rattle.std.specs.Prelude.{◌≡◌, ◌⊎◌, ◌+◌, ◌<◌, ◌≤◌, false};
ghost use Rattle.matrix_game.specs.Budget.{left_of, after_one_turn, after_stop, HasGivenUp};

use std::marker::Model;

/// A budget of turns, of which each solved matrix spends one. Those that are left can be given up, where they may be.
#[derive(Drop)]
pub struct Turns {
    limit: u64,
    spent: u64,
    may_stop: bool,
}

impl Model for Turns {
    ghost use Rattle.std.specs.Prelude.{◌≤◌};
    ghost use Rattle.matrix_game.specs.Budget.{Budget};

    ghost Value = { Budget };

    ghost view = { λ t. record { limit = t.limit; spent = t.spent; may_stop = t.may_stop } };

    ghost invariant = { λ t. t.spent ≤ t.limit };
}

impl Turns {
    /// So many turns, none of them spent. None is ever given up.
    pub fn new(limit: u64) -> Turns
        ensures { result ≡ record { limit = limit; spent = 0; may_stop = false } }
    {
        Turns::with_stop(limit, false)
    }

    /// So many turns, none of them spent, and whether those that are left may be given up.
    pub fn with_stop(limit: u64, may_stop: bool) -> Turns
        ensures { result ≡ record { limit = limit; spent = 0; may_stop = may_stop } }
    {
        Turns {
            limit,
            spent: 0,
            may_stop,
        }
    }

    /// How many turns there are: as many as at first, but for those that were given up.
    pub fn limit(&self) -> u64
        ensures { result ≡ self.now.limit }
    {
        self.limit
    }

    /// How many turns are spent.
    pub fn spent(&self) -> u64
        ensures spent { result ≡ self.now.spent }
        ensures within { self.now.spent ≤ self.now.limit }
    {
        self.spent
    }

    /// How many turns are left.
    pub fn left(&self) -> u64
        ensures left { result ≡ left_of self.now }
        ensures within { self.now.spent ≤ self.now.limit }
    {
        self.limit - self.spent
    }

    /// Whether the turns that are left may be given up.
    pub fn may_stop(&self) -> bool
        ensures { result ≡ self.now.may_stop }
    {
        self.may_stop
    }

    /// Spends so many turns, and gives them as a budget of their own, none of them spent there.
    pub fn split(&mut self, count: u64) -> Turns
        requires { count ≤ left_of self.old }
        ensures rest { self.new ≡ record self.old { spent = self.old.spent + count } }
        ensures part { result ≡ record self.old { limit = count; spent = 0 } }
    {
        self.spent += count;
        Turns::with_stop(count, self.may_stop)
    }

    /// Gives up the turns that are left, where they may be: no turn is left then.
    pub fn stop(&mut self)
        ensures exact { self.new ≡ after_stop self.old }
        ensures either { (self.new ≡ self.old) ⊎ HasGivenUp self.old self.new }
    {
        if self.may_stop {
            self.limit = self.spent;
        }
    }

    pub(crate) fn spend(&mut self)
        requires { 0 < left_of self.old }
        ensures { self.new ≡ after_one_turn self.old }
    {
        self.spent += 1;
    }
}
