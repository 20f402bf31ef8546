//! The law of printed rules.

ghost use Rattle.vx_explain.specs.Read.{RulesAreReadBack};

use vx_model::rules_are_the_grammar;

/// The law of printed rules: behind the word `rule` in a model with the same options the text of a rule is read as that rule.
pub fn rules_are_read_back()
    ensures { RulesAreReadBack }
{
    rules_are_the_grammar();
}
