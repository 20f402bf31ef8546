//! What the rules leave open.

ghost use Rattle.vx_computed.specs.Edges.{ZeroBeforeLarge, HandlerWithoutRoom, PushWithoutRoom, ResultWithoutRoom, AbstractStatic, GoneClassOfInt, IntAgainstClass, GoneClassObject, NegativeCapacity, InterfaceOfArray, StaticClone, NullBeforeArgument, ArgumentOfWrongClass, DoubleArgument, OwnText, BlockedMain};

/// What the rules leave open, or say in two ways, by an example for each.
pub fn edge_runs()
    // A length above the bound, behind a length of 0.
    ensures zero_before_large { ZeroBeforeLarge }
    // A handler whose method has no room on its stack goes on with what pushes nothing.
    ensures handler_without_room { HandlerWithoutRoom }
    // And ends at the next push.
    ensures push_without_room { PushWithoutRoom }
    // A result that does not fit in the caller.
    ensures result_without_room { ResultWithoutRoom }
    // A static method that is abstract, after its class is initialised.
    ensures abstract_static { AbstractStatic }
    // The class is looked for before the operand is.
    ensures gone_class_of_int { GoneClassOfInt }
    // And where it is there, an int is illegal.
    ensures int_against_class { IntAgainstClass }
    // A class object of a class that is not there.
    ensures gone_class_object { GoneClassObject }
    // A builder of a negative capacity.
    ensures negative_capacity { NegativeCapacity }
    // An InterfaceMethodref that names an array class.
    ensures interface_of_array { InterfaceOfArray }
    // A static call of the clone of an array.
    ensures static_clone { StaticClone }
    // A null receiver of a native method, with an argument of a wrong class.
    ensures null_before_argument { NullBeforeArgument }
    // And a receiver that is there.
    ensures argument_of_wrong_class { ArgumentOfWrongClass }
    // No value is a double.
    ensures double_argument { DoubleArgument }
    // ToString of a String is itself, substring a new one.
    ensures own_text { OwnText }
    // A blocking interface of the main class: the run has ended at its start.
    ensures blocked_main { BlockedMain }
{}
