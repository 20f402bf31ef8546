//! Plain values, stack forms, texts and decodings.

ghost use Rattle.vx_computed.specs.Values.{PlainOperations, StackForms, TextValues, Operations};

/// Plain values, stack forms, texts and decodings.
pub fn plain_values()
    // Arithmetic of ints and longs, shifts and narrowing.
    ensures plain_operations { PlainOperations }
    // The stack forms by the widths of the values.
    ensures stack_forms { StackForms }
    // Texts.
    ensures text_values { TextValues }
    // What instructions do.
    ensures operations { Operations }
{}
