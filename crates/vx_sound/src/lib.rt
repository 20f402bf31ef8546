//! What a verdict of yes says of runs: values are of the types that the typings of their methods tell, and no instruction's rule is broken.
#![tactic(auto)]

ghost use Rattle.vx_sound.specs.Law.{BeginningsKeepTypes, CarryingFollows, GridsKeepTypes, NextKeepsTypes, OperationsKeepTypes, RowsKeepTypes, StartIsTyped, is_call, is_of_arrays, is_of_objects, is_of_operands, is_return};

/// The law of the rows of operands: in a typed state of a program that has a typing of each method, an instruction that works on operands
/// and local variables alone breaks no rule, and what it leads to is typed (JVMS 4.10.2.2).
pub fn operand_rows_keep_types()
    ensures { OperationsKeepTypes is_of_operands }
{}

/// The law of the rows of arrays, but for those that make arrays with their parts: an array and its cells are of the types that its class says (JVMS 4.10.1.9).
pub fn array_rows_keep_types()
    ensures { OperationsKeepTypes is_of_arrays }
{}

/// The law of the rows that make arrays with their parts: each array is of its class, and the cells of one that has parts are the arrays of one dimension less
/// (JVMS 4.10.1.9).
pub fn grid_rows_keep_types()
    ensures { GridsKeepTypes }
{}

/// The law of the rows of constants of the pool, fields, new objects, casts and what is thrown (JVMS 4.10.1.9).
pub fn object_rows_keep_types()
    ensures { OperationsKeepTypes is_of_objects }
{}

/// The law of the rows of returns: the caller goes on with what it is handed, and the frame below an initialisation stands as it stood (JVMS 2.6.4).
pub fn return_rows_keep_types()
    ensures { OperationsKeepTypes is_return }
{}

/// The law of the rows of calls: the selected method begins with the receiver and the arguments that its descriptor tells, and the caller waits for what it hands back (JVMS
/// 2.6, 4.10.1.9).
pub fn call_rows_keep_types()
    ensures { OperationsKeepTypes is_call }
{}

/// The law of beginnings: the frames of what initialises the classes of a chain begin as their methods' typings do, above frames that stand as they stood (JVMS 5.5).
pub fn beginnings_keep_types()
    ensures { BeginningsKeepTypes }
{}

/// The law of the start: the first objects and the static fields are of their types, and the frame of main and those of what initialises its class begin as their
/// methods' typings do (JVMS 5.2, 5.5).
pub fn start_is_typed()
    ensures { StartIsTyped }
{}

/// The law of rows: each operation is of one of the families above, so each instruction keeps to types (JVMS 6.5).
pub fn rows_keep_types()
    ensures { RowsKeepTypes }
{}

/// What is carried out keeps to types where native methods do: an initialisation begins, and any other outcome stands for itself (JVMS 5.5).
pub fn carrying_follows()
    ensures { CarryingFollows }
{}

/// The law of what follows an outcome: in a typed state the run goes on, or an exception is handled in a frame whose handler finds its local variables, and begins
/// with an object of the type that is caught, or ends the run (JVMS 2.10, 4.10.1.6).
pub fn next_keeps_types()
    ensures { NextKeepsTypes }
{}
