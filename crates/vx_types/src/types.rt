//! The types of local variables and operands, and what an instruction asks of them.

use vx_desc::Base;
use vx_java::{Shuffle, Sort};
use vx_list::Items;
use vx_value::{ClassId, Name};

/// What the components of an array are behind all its dimensions, or what a reference is that is no array.
#[derive(Drop)]
pub enum ElementType {
    /// A class of the program that is no interface: an interface counts as `java/lang/Object` (JVMS 4.10.1.2).
    Class(ClassId),
    /// A class that the program hasn't, by its name.
    Missing(Name),
    /// An array of a primitive type, taken as one class, since such arrays have no component that is a reference.
    Primitives(Base),
}

/// The type of a local variable or an operand (JVMS 4.10.1.2, 4.10.2.3). Nothing is uninitialised here: a new object has its class.
#[derive(Drop)]
pub enum VerType {
    /// Anything: a local variable that cannot be read.
    Top,
    Int,
    Long,
    /// The null reference, which is of each reference type.
    Null,
    /// An array of so many dimensions, from 0 on, over an element; with none the element itself.
    Ref(u32, ElementType),
}

/// What an operand has to be.
#[derive(Drop)]
pub enum Want {
    /// A value of a sort; a reference may be null.
    OfSort(Sort),
    /// What fits a type.
    Fits(VerType),
    /// What fits both types.
    FitsBoth(VerType, VerType),
    /// What fits one of these types.
    FitsOne(Items<VerType>),
}

/// What an instruction needs and gives, as far as its program decides alone.
#[derive(Drop)]
pub enum Row {
    /// It is refused, whatever stands before it.
    Refused,
    /// The run ends or raises by what program and instruction decide: nothing is needed, and nothing follows.
    Ends,
    /// These operands are taken, the top first, and nothing follows.
    Leaves(Items<Want>),
    /// These operands are taken, the top first, and a value of a type is put there, or none.
    Takes(Items<Want>, Option<VerType>),
    /// The local variable of a place, which is of a sort, is put on the operands.
    Load(Sort, u16),
    /// An operand of a sort is put into the local variable of a place.
    Store(Sort, u16),
    /// The local variable of a place is an int, and stays one.
    Increase(u16),
    /// Values of so many words are taken off the top, and put back in another order.
    Move(Shuffle),
    /// A component of an array of references.
    LoadReference,
}
