//! What a verdict rests on is so of each linked program: its members, the cells of its objects, the core objects, and the values that runs begin with.
#![tactic(auto)]

ghost use Rattle.vx_sound_objects.specs.Law.{LinkedHaveCells, LinkedHaveCoreObjects, LinkedHaveFirstValues, LinkedHaveMembers};

/// What a class declares is its own; a field of an interface is static, and Object has no field; a method's local variables have room for what it is given
/// (JVMS 4.5, 4.6, 4.7.3).
pub fn linked_have_members()
    ensures { LinkedHaveMembers }
{}

/// Each field of an object has a cell of its own, which begins with the default of the field's type (JVMS 2.3, 2.4).
pub fn linked_have_cells()
    ensures { LinkedHaveCells }
{}

/// The cells that instructions and native methods read and write are those of fields of the types that they take, and what they make is of its class's types.
pub fn linked_have_core_objects()
    ensures { LinkedHaveCoreObjects }
{}

/// The objects with which a run begins are of their classes, and each static field begins with a value of its type in each configuration (JVMS 4.7.2, 5.4).
pub fn linked_have_first_values()
    ensures { LinkedHaveFirstValues }
{}
