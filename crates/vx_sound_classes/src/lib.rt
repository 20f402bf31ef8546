//! Laws of linked programs: what the law of verified programs asks of classes and of methods that are begun.
#![tactic(auto)]

ghost use Rattle.vx_sound_classes.specs.Law.{LinkedHaveCore, LinkedHaveForms, LinkedHaveHierarchy, LinkedHaveRanks};

/// The core classes that values, instructions and native methods name are there.
pub fn linked_have_core()
    ensures { LinkedHaveCore }
{}

/// Each class has a number above that of its superclass, below the number of classes (JVMS 5.3.5).
pub fn linked_have_ranks()
    ensures { LinkedHaveRanks }
{}

/// Object is above each class, what is above a class is there, and interfaces stand where they may (JVMS 4.1, 5.3.5).
pub fn linked_have_hierarchy()
    ensures { LinkedHaveHierarchy }
{}

/// What initialises a class is given nothing, and main an array of Strings (JVMS 2.9, 5.2, 5.5).
pub fn linked_have_forms()
    ensures { LinkedHaveForms }
{}
