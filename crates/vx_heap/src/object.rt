//! Objects of the shared heap.

use crate::cell_list::CellList;
use vx_space::Space;
use vx_value::ClassId;

/// An object. Its class and length never change, and it is present in the configurations of `presence`. It has one cell per
/// index of an array, else one per instance field of its class and superclasses (own).
#[derive(Drop)]
pub struct HeapObject<S: Space> {
    pub class: ClassId,
    /// The number of elements of an array, and 0 for an object that is none.
    pub length: u32,
    pub presence: S::Id,
    pub cells: CellList<S>,
}
