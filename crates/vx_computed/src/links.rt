//! The faults of linking.

ghost use Rattle.vx_computed.specs.Links.{NoFault, TwiceNamed, GoneSuperclass, InterfaceAsSuperclass, OwnAncestors, FinalSuperclass, OptionWithoutField, WithoutMain};

/// The faults of linking.
pub fn link_faults()
    // Classes that link.
    ensures no_fault { NoFault }
    // Two files of one class.
    ensures twice_named { TwiceNamed }
    // A superclass that is not there.
    ensures gone_superclass { GoneSuperclass }
    // A superclass that is an interface.
    ensures interface_as_superclass { InterfaceAsSuperclass }
    // Two classes that extend each other.
    ensures own_ancestors { OwnAncestors }
    // A final superclass.
    ensures final_superclass { FinalSuperclass }
    // An option without a field.
    ensures option_without_field { OptionWithoutField }
    // No main.
    ensures without_main { WithoutMain }
{}
