//! The law of rules.

ghost use Rattle.vx_model.specs.Law.{ReadsTheGrammar};

/// The law of rules: from a list of tokens `read_model` reads just the rule that the grammar makes of them, which is one at
/// most, and it reads none where the grammar makes none.
pub fn rules_are_the_grammar()
    ensures { ReadsTheGrammar }
{}
