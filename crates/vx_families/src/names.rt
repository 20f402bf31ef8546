//! Laws of names.

ghost use Rattle.vx_families.specs.Names.{NamesGrow, NamesTell, NewNameIsNext, ValuesStay};

use vx_space::Space;

/// A slot that names what is there keeps its plain value where the heap grows, and a new object is named by the number of objects that
/// stood there.
pub fn values_stay<S: Space>()
    ensures stay { ValuesStay S S.Id }
    ensures next { NewNameIsNext S S.Id }
{}

/// References to what is there are equal exactly where their names are, and names ascend as references do.
pub fn names_are_references<S: Space>()
    ensures tell { NamesTell S S.Id }
    ensures grow { NamesGrow S S.Id }
{}
