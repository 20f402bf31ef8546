//! Pictures: the pieces and ends of a report with their titles, and its diagrams, or those of its ends or of one piece, as ellipses, edges
//! and boxes, and as a text for Graphviz.
#![tactic(auto)]

pub mod drawing;
pub mod marks;
pub mod shape;
pub mod subject;
pub mod text;
pub mod title;

pub use drawing::picture;
pub use shape::{Drawn, Edge, Ellipse, Picture};
pub use subject::{Subject, subjects};
pub use text::picture_text;
