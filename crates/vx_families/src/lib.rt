//! What the families of instructions share: what each is given and promises, the outcomes in which a whole group ends or
//! raises, the operands on top, and the sorts of slots.
#![tactic(auto)]

pub mod changes;
pub mod endings;
pub mod missing;
pub mod names;
pub mod pushing;
mod slots;
pub mod sorts;
pub mod words;

pub use changes::{attempts_follow, changes_follow, outcomes_stay, statics_change_in};
pub use endings::{raise, unsupported};
pub use missing::no_class;
pub use names::{names_are_references, values_stay};
pub use pushing::push_answers;
pub use slots::{fits, narrowed, second_operand, top_operand};
pub use sorts::slot_is_of;
pub use words::{CLASS_WORD, CONSTANT_WORD, FIELD_WORD, FLOAT_WORD, METHOD_WORD, NATIVE_WORD};
