//! What is under way in a round.

use vx_findings::{Piece, Shared};
use vx_group::Callers;
use vx_heap::Heap;
use vx_link::Program;
use vx_sched::Waiting;
use vx_space::Space;
use vx_value::End;

/// What changes in a round beside the heap. What holds of it is said by `IsUnderway`.
#[derive(Drop)]
pub struct Round<S: Space> {
    pub callers: Callers<S>,
    /// The groups that wait for their next attempt.
    pub groups: Waiting<S>,
    pub ends: Vec<Shared<End, S>>,
    pub spent: Vec<Shared<u64, S>>,
    /// What this round wrote.
    pub texts: Vec<Shared<Piece, S>>,
}

/// What stays while outcomes are placed.
#[derive(Drop)]
pub struct Setting<'s, S: Space> {
    pub program: &'s Program,
    pub heap: &'s Heap<S>,
    /// How many attempts a run makes at most.
    pub limit: u64,
}
