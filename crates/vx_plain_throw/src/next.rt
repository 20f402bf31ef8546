//! Where an outcome leads.

use vx_value::End;

/// Where an outcome leads.
#[derive(Drop)]
pub enum Next {
    /// The run goes on from the state.
    Goes,
    /// The run is over.
    Ends(End),
}
