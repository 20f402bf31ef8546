//! What a verdict of yes says of native methods, and so of runs: each is carried out on what its form says, and hands back what its form says.
#![tactic(auto)]

ghost use Rattle.vx_sound.specs.Law.{NativesKeepTypes, VerifiedNeverIllegal};

/// The law of native methods: at its call in a typed state a native method breaks no rule, and what it leads to is typed (JVMS 2.11, the class library of Java SE 7).
pub fn native_methods_keep_types()
    ensures { NativesKeepTypes }
{}

/// The whole law: no run of a verified program ends as illegal, in any configuration and with any limit (JVMS 2.6, 4.10).
pub fn verified_never_illegal()
    ensures { VerifiedNeverIllegal }
{}
