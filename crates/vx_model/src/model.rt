//! What a feature model is.

use crate::expr::Expr;
use vx_list::Items;
use vx_value::Name;

/// Where an option's value stands: a static field of a class. The class is a name with `/` between its parts.
#[derive(Debug, Drop)]
pub struct FieldPlace {
    pub class: Name,
    pub field: Name,
}

/// An option, and the field that holds it where the model gives one.
#[derive(Debug, Drop)]
pub struct OptionField {
    pub name: Name,
    pub place: Option<FieldPlace>,
}

/// A feature model: its options in order, and the rules that an allowed configuration makes true.
#[derive(Debug, Drop)]
pub struct Model {
    pub options: Items<OptionField>,
    pub rules: Items<Expr>,
}
