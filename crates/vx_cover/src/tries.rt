//! The lines of a cover.

use crate::blocks::Block;
use vx_list::Items;
use vx_space::Config;

/// A configuration, and what it covers that no earlier line does. Numbers of pieces and of ends count from 1 on, each kind by
/// itself.
#[derive(Drop)]
pub struct Try {
    /// With a value for each option.
    pub configuration: Config,
    /// Its end, the first one of the report whose node holds it, if no earlier line has that.
    pub ends: Items<u64>,
    /// Its pieces that no earlier line has, ascending.
    pub pieces: Items<u64>,
}

/// The lines so far, and what is still to be covered.
#[derive(Drop)]
pub struct Covering<I> {
    pub ends: Vec<Block<I>>,
    pub pieces: Vec<Block<I>>,
    pub tries: Vec<Try>,
}
