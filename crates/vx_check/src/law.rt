//! Laws of checks.

ghost use Rattle.vx_check.specs.Rules.{RulesAreRight};

/// The law of rules: a rule that is told of a set within a scope is true just where the set holds, in the scope.
pub fn given_rules_are_right()
    ensures { RulesAreRight }
{}
