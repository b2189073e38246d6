//! What an induction comes to.

use crate::plan::BothPlans;
use lazy_workers::{Budgets, Found};

/// All that is asked, or what a search by double oracle is to better.
#[derive(Drop)]
pub(crate) enum Step {
    Found(Found),
    Left(Left),
}

/// BothPlans whose bounds are too far apart, and the turns that each worker has left.
#[derive(Drop)]
pub(crate) struct Left {
    pub plans: BothPlans,
    pub budgets: Budgets,
}
