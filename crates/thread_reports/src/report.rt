//! What a threaded run gave.
use crate::Receipts;
use world::{Step, World};

/// What a threaded run gave.
#[derive(Drop)]
pub struct Report {
    /// The steps that changed the world, in order.
    pub steps: Vec<Step>,
    /// What each client received.
    pub receipts: Vec<Receipts>,
    /// The world after the steps.
    pub world: World,
}
