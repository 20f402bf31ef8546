//! The numbers of components: places that are ancestors of each other have one number, and a place has no lesser number than its
//! ancestors. They are found by one walk over all parents (the algorithm of Tarjan), and nothing is said of them here.

use crate::ranks::{parents_of, rank_of};
use crate::ways::put;
use std::alloc::{AllocError, Global};
use vx_list::Items;

/// What is known of the places so far.
#[derive(Drop)]
struct Numbering {
    /// When a place was first come to, from 1 on, or 0.
    orders: Vec<usize>,
    /// The number of a place's component, from 1 on, or 0.
    numbers: Vec<usize>,
    /// The places without a component that were come to, in that order, and how many these are.
    open: Vec<usize>,
    height: usize,
    /// How many places were come to, and how many components there are.
    count: usize,
    components: usize,
}

impl Numbering {
    fn new(alloc: Global, count: usize) -> Result<Numbering, AllocError> {
        Ok(Numbering {
            orders: vec![in alloc; 0; count]?,
            numbers: vec![in alloc; 0; count]?,
            open: vec![in alloc; 0; count]?,
            height: 0,
            count: 0,
            components: 0,
        })
    }

    /// Comes to a place, and gives its order.
    fn enter(&mut self, place: usize) -> usize {
        self.count = self.count.saturating_add(1);
        put(&mut self.orders, place, self.count);
        put(&mut self.open, self.height, place);
        self.height = self.height.saturating_add(1);
        self.count
    }

    /// Makes a component of the open places from an order on.
    fn close(&mut self, order: usize) {
        self.components = self.components.saturating_add(1);
        for _place in 0..self.height {
            let last = self.height.saturating_sub(1);
            let place = rank_of(&self.open, last);
            if rank_of(&self.orders, place) < order {
                return;
            }
            put(&mut self.numbers, place, self.components);
            self.height = last;
        }
    }

    /// Comes to a place and those above it, and gives the least order of an open place that it leads to.
    fn visit(&mut self, parents: &[Items<usize>], place: usize, depth: usize) -> usize {
        if depth == 0 || place >= parents.len() || rank_of(&self.numbers, place) > 0 {
            return usize::MAX;
        }
        if rank_of(&self.orders, place) > 0 {
            return rank_of(&self.orders, place);
        }
        let own = self.enter(place);
        let mut least = own;
        for parent in parents_of(parents, place) {
            least = self.visit(parents, *parent, depth - 1).min(least);
        }
        if least == own {
            self.close(own);
        }
        least
    }
}

/// The numbers of the places' components.
pub(crate) fn component_numbers(
    alloc: Global,
    parents: &[Items<usize>],
) -> Result<Vec<usize>, AllocError> {
    let count = parents.len();
    let mut numbering = Numbering::new(alloc, count)?;
    for place in 0..count {
        numbering.visit(parents, place, count.saturating_add(1));
    }
    Ok(numbering.numbers)
}
