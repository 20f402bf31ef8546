//! Reading a rule from its tokens, from left to right. The calls nest by the nesting of the rule alone.

ghost use Rattle.std.specs.Prelude.{◌≡◌, ◌<◌, ◌∷◌, [], length, IfOk, IfSome, IfNone};
ghost use Rattle.std.specs.Option.{option_map};
ghost use Rattle.vx_model.specs.Parser.{Gives, Answers, level, joined, part_at, behind, behind_arrow, deeper, atom, whole, parsed, closed};

use crate::expr::Expr;
use crate::token::Token;
use std::alloc::{AllocError, AllocFailed, Global};

/// How deep a rule may nest: so many `!`, `(` and right sides of `->` may be open at a place.
const DEEPEST: u32 = 256;

/// Why no rule is read.
#[derive(Clone, Copy)]
pub enum RuleFault {
    NoMemory,
    Malformed,
}

impl From<AllocError> for RuleFault {
    ghost use Rattle.std.specs.Prelude.{◌≡◌};
    ghost use Rattle.vx_model.specs.declared.rule.RuleFault.TheVariants.{NoMemory};

    ghost from_gives = { λ _ e. e ≡ NoMemory };

    fn from(_error: AllocError) -> RuleFault {
        RuleFault::NoMemory
    }
}

impl<T: Drop> From<AllocFailed<T>> for RuleFault {
    ghost use Rattle.std.specs.Prelude.{◌≡◌};
    ghost use Rattle.vx_model.specs.declared.rule.RuleFault.TheVariants.{NoMemory};

    ghost from_gives = { λ _ e. e ≡ NoMemory };

    fn from(_error: AllocFailed<T>) -> RuleFault {
        RuleFault::NoMemory
    }
}

/// What joins the parts of a rule. `And` binds tighter.
#[derive(Clone, Copy)]
pub enum Operator {
    And,
    Or,
}

impl Operator {
    ghost use Rattle.vx_model.specs.Parser.{whole};

    fn whole(self, parts: Vec<Expr>) -> Expr
        ensures { result ≡ whole self parts.items }
    {
        match self {
            Operator::And => Expr::all_of(parts),
            Operator::Or => Expr::any_of(parts),
        }
    }
}

// The tokens behind an operator.
fn behind(operator: Operator, tokens: &[Token]) -> Option<&[Token]>
    ensures value { option_map (λ rest. rest.now) result ≡ behind operator tokens.now }
    ensures shorter { IfSome result (λ rest. length rest.now < length tokens.now) }
{
    match (operator, tokens) {
        (Operator::And, [Token::And, rest @ ..]) => Some(rest),
        (Operator::Or, [Token::Or, rest @ ..]) => Some(rest),
        _ => None,
    }
}

// The tokens behind an arrow.
fn behind_arrow(tokens: &[Token]) -> Option<&[Token]>
    ensures value { option_map (λ rest. rest.now) result ≡ behind_arrow tokens.now }
    ensures shorter { IfSome result (λ rest. length rest.now < length tokens.now) }
{
    match tokens {
        [Token::Arrow, rest @ ..] => Some(rest),
        _ => None,
    }
}

// The first token, and those behind it.
fn split_first(tokens: &[Token]) -> Option<(Token, &[Token])>
    ensures none { IfNone result (tokens.now ≡ []) }
    ensures some { IfSome result (λ r. tokens.now ≡ r.0 ∷ r.1.now) }
{
    match tokens {
        [first, rest @ ..] => Some((*first, rest)),
        [] => None,
    }
}

// How many nestings are left where one more is opened.
fn deeper(depth: u32) -> Result<u32, RuleFault>
    ensures value { Answers result (deeper depth) }
    ensures less { IfOk result (λ below. below < depth) }
{
    if depth == 0 {
        return Err(RuleFault::Malformed);
    }
    Ok(depth - 1)
}

// A name, true or false.
fn atom(tokens: &[Token]) -> Result<(Expr, &[Token]), RuleFault>
    ensures value { Gives result (atom tokens.now) }
    ensures shorter { IfOk result (λ r. length r.1.now < length tokens.now) }
{
    match tokens {
        [Token::Name(option), rest @ ..] => Ok((Expr::named(*option), rest)),
        [Token::True, rest @ ..] => Ok((Expr::constant(true), rest)),
        [Token::False, rest @ ..] => Ok((Expr::constant(false), rest)),
        _ => Err(RuleFault::Malformed),
    }
}

// A rule, and the tokens behind the parenthesis that closes it.
fn closed(rule: Expr, tokens: &[Token]) -> Result<(Expr, &[Token]), RuleFault>
    ensures value { Gives result (closed rule tokens.now) }
    ensures shorter { IfOk result (λ r. length r.1.now < length tokens.now) }
{
    match tokens {
        [Token::Close, rest @ ..] => Ok((rule, rest)),
        _ => Err(RuleFault::Malformed),
    }
}

/// The rule that the tokens spell, all of them.
#[tactic(auto, unfolding(crate::specs::Parser::parsed))]
pub fn rule_of(alloc: Global, tokens: &[Token]) -> Result<Expr, RuleFault>
    ensures { Answers result (parsed tokens.now) }
{
    let (rule, rest) = implication(alloc, tokens, DEEPEST)?;
    if !rest.is_empty() {
        return Err(RuleFault::Malformed);
    }
    Ok(rule)
}

// The rule in front where so many nestings may be opened: what stands before an arrow, and what stands behind it.
#[cycle(rule)]
fn implication(alloc: Global, tokens: &[Token], depth: u32) -> Result<(Expr, &[Token]), RuleFault>
    ensures value { Gives result ((level depth).imp tokens.now) }
    ensures shorter { IfOk result (λ r. length r.1.now < length tokens.now) }
{
    let (premise, rest) = joined(alloc, Operator::Or, tokens, depth)?;
    let Some(after) = behind_arrow(rest) else {
        return Ok((premise, rest));
    };
    let below = deeper(depth)?;
    let (conclusion, rest) = implication(alloc, after, below)?;
    Ok((Expr::implied(alloc, premise, conclusion)?, rest))
}

// Parts with an operator between them.
#[cycle(rule)]
fn joined(
    alloc: Global,
    operator: Operator,
    tokens: &[Token],
    depth: u32,
) -> Result<(Expr, &[Token]), RuleFault>
    ensures value { Gives result (joined operator (part_at operator depth) tokens.now) }
    ensures shorter { IfOk result (λ r. length r.1.now < length tokens.now) }
{
    let mut parts = Vec::new(alloc);
    let (first, mut rest) = part(alloc, operator, tokens, depth)?;
    parts.push(first)?;
    while let Some(after) = behind(operator, rest) {
        let (next, more) = part(alloc, operator, after, depth)?;
        parts.push(next)?;
        rest = more;
    }
    Ok((operator.whole(parts), rest))
}

// What an operator joins.
#[cycle(rule)]
fn part(
    alloc: Global,
    operator: Operator,
    tokens: &[Token],
    depth: u32,
) -> Result<(Expr, &[Token]), RuleFault>
    ensures value { Gives result (part_at operator depth tokens.now) }
    ensures shorter { IfOk result (λ r. length r.1.now < length tokens.now) }
{
    match operator {
        Operator::And => operand(alloc, tokens, depth),
        Operator::Or => joined(alloc, Operator::And, tokens, depth),
    }
}

// A name, true, false, or what a mark or a parenthesis opens.
#[cycle(rule)]
fn operand(alloc: Global, tokens: &[Token], depth: u32) -> Result<(Expr, &[Token]), RuleFault>
    ensures value { Gives result ((level depth).not tokens.now) }
    ensures shorter { IfOk result (λ r. length r.1.now < length tokens.now) }
{
    let Some((first, rest)) = split_first(tokens) else {
        return Err(RuleFault::Malformed);
    };
    match first {
        Token::Not => {
            let below = deeper(depth)?;
            let (rule, after) = operand(alloc, rest, below)?;
            Ok((Expr::negated(alloc, rule)?, after))
        }
        Token::Open => {
            let below = deeper(depth)?;
            let (rule, after) = implication(alloc, rest, below)?;
            closed(rule, after)
        }
        _ => atom(tokens),
    }
}
