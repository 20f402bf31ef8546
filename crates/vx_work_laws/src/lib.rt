//! The law of the workload: its class files are ones that a reading can give, and link.
#![tactic(auto)]

ghost use Rattle.vx_work_laws.specs.Law.{WorkIsLawful};

/// The law of the workload, for every seed and number of options: its class files meet every check of the reader and have spellings, they
/// link with the core classes, and its options have different names and fields.
pub fn work_is_lawful()
    ensures { WorkIsLawful }
{}
