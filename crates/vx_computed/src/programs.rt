//! Small programs of one configuration.

ghost use Rattle.vx_computed.specs.Programs.{Grid, ArrayStore, ArrayClasses, CopyThatStops, TableSwitch, Longs, FullStack, NarrowFields, Builder, Integers, NullCast, GoneField, GoneMethod, LeftOutNative, Subroutine, RecursionOf200};

/// Small programs of one configuration.
pub fn single_runs()
    // An array of arrays.
    ensures grid { Grid }
    // An object that does not fit in an array.
    ensures array_store { ArrayStore }
    // Arrays against array classes, and a clone.
    ensures array_classes { ArrayClasses }
    // A copy that stops at an element that does not fit.
    ensures copy_that_stops { CopyThatStops }
    // A table switch in a loop.
    ensures table_switch { TableSwitch }
    // Longs; and a long whose second half was overwritten.
    ensures longs { Longs }
    // One value too many.
    ensures full_stack { FullStack }
    // Stores to narrow fields.
    ensures narrow_fields { NarrowFields }
    // A builder and a text.
    ensures builder { Builder }
    // Integers from texts, and Integer objects that are one.
    ensures integers { Integers }
    // Null is cast before the class is looked for.
    ensures null_cast { NullCast }
    // A field that is not there.
    ensures gone_field { GoneField }
    // A method that is not there.
    ensures gone_method { GoneMethod }
    // A native method that is left out.
    ensures left_out_native { LeftOutNative }
    // A subroutine.
    ensures subroutine { Subroutine }
    // A recursion of 200 frames.
    ensures recursion_of_200 { RecursionOf200 }
{}
