//! What all runs have come to.

use std::marker::Model;
use vx_findings::{Piece, Shared};
use vx_space::Space;
use vx_value::End;

/// What all runs have come to.
#[derive(Drop)]
pub struct Findings<S: Space> {
    /// How many rounds were made.
    pub rounds: u128,
    /// The texts in the order in which they were written.
    pub found: Vec<Shared<Piece, S>>,
    /// The ends, ascending.
    pub ends: Vec<Shared<End, S>>,
    /// The numbers of attempts, ascending.
    pub spent: Vec<Shared<u64, S>>,
}

impl<S: Space> Model for Findings<S> {
    ghost use Rattle.vx_lockstep.specs.Findings.{FindingsView};

    ghost Value = { FindingsView S S.Id };

    ghost view = { λ f. record { rounds = f.rounds; found = f.found.items; ends = f.ends.items; spent = f.spent.items } };
}
