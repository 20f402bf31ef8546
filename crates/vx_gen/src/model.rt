//! The model of the workload.

ghost use Rattle.std.specs.Prelude.{◌≡◌, IfOk};
ghost use Rattle.vx_gen.specs.Parts.{AreNames, option_of};
ghost use Rattle.vx_gen.specs.Workload.{Texts, work_model};

use std::alloc::{AllocError, Global};
use vx_list::Items;
use vx_model::{FieldPlace, Model, OptionField};
use vx_value::Name;

/// An option, whose field is that of Main with its name.
fn option_of(alloc: Global, name: &str) -> Result<OptionField, AllocError>
    ensures { IfOk result (λ option. option ≡ option_of name.now) }
{
    Ok(OptionField {
        name: Name::of(alloc, name.as_bytes())?,
        place: Some(FieldPlace {
            class: Name::of(alloc, b"Main")?,
            field: Name::of(alloc, name.as_bytes())?,
        }),
    })
}

/// The model of these options, without rules.
pub fn model_of(alloc: Global, names: &[&str]) -> Result<Model, AllocError>
    ensures { IfOk result (λ model. (texts : Texts) → AreNames names.now texts → model ≡ work_model texts) }
{
    let mut options = Vec::new(alloc);
    for name in names {
        options.push(option_of(alloc, name)?)?;
    }
    Ok(Model {
        options: Items::of(options),
        rules: Items::of(Vec::new(alloc)),
    })
}
