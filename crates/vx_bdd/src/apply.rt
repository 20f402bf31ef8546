//! Operations on two sets, by their parts (`apply` of Bryant 1986).

ghost use Rattle.std.specs.Prelude.{◌≡◌, IfOk, IfSome, true, if◌then◌else◌};
ghost use Rattle.vx_bdd.specs.declared.node.Op.TheVariants.{And, Minus, Or};
ghost use Rattle.vx_bdd.specs.Diagram.{is_stored};
ghost use Rattle.vx_bdd.specs.Table.{Grows};
ghost use Rattle.vx_bdd.specs.Apply.{op_value, IsAnswer, AreRight, IsPlainAnswer};

use crate::cache::Cache;
use crate::node::{Answer, Op};
use crate::table::Table;
use vx_space::SpaceFault;

/// The value of an operation.
fn value_of_op(op: Op, a: bool, b: bool) -> bool
    ensures { result ≡ op_value op a b }
{
    match op {
        Op::And => a && b,
        Op::Or => a || b,
        Op::Minus => a && !b,
    }
}

/// The id of the set that has all configurations, or none.
fn end_of(value: bool) -> usize
    ensures { result ≡ (if value then 1 else 0) }
{
    if value { 1 } else { 0 }
}

fn plain_and(a: usize, b: usize) -> Option<usize>
    ensures { IfSome result (IsPlainAnswer And a b) }
{
    if a == b || b == 1 {
        Some(a)
    } else if a == 1 {
        Some(b)
    } else if a == 0 || b == 0 {
        Some(0)
    } else {
        None
    }
}

fn plain_or(a: usize, b: usize) -> Option<usize>
    ensures { IfSome result (IsPlainAnswer Or a b) }
{
    if a == b || b == 0 {
        Some(a)
    } else if a == 0 {
        Some(b)
    } else if a == 1 || b == 1 {
        Some(1)
    } else {
        None
    }
}

fn plain_minus(a: usize, b: usize) -> Option<usize>
    ensures { IfSome result (IsPlainAnswer Minus a b) }
{
    if a == b || a == 0 || b == 1 {
        Some(0)
    } else if b == 0 {
        Some(a)
    } else {
        None
    }
}

/// The answer where the ids tell it by themselves: of equal sets, and where never or always is among them (Bryant 1986).
fn plain_answer(op: Op, a: usize, b: usize) -> Option<usize>
    ensures { IfSome result (IsPlainAnswer op a b) }
{
    match op {
        Op::And => plain_and(a, b),
        Op::Or => plain_or(a, b),
        Op::Minus => plain_minus(a, b),
    }
}

/// The id of an operation on two sets: what the ids tell, or what was answered before, or else what the answers of the parts make. The
/// cache is the operation's own.
pub fn apply(
    table: &mut Table,
    cache: &mut Cache,
    op: Op,
    a: usize,
    b: usize,
) -> Result<usize, SpaceFault>
    requires first { is_stored table.old.nodes.slots a ≡ true }
    requires second { is_stored table.old.nodes.slots b ≡ true }
    requires right { AreRight op table.old.options table.old.nodes.slots cache.old.answers.items }
    ensures options { table.new.options ≡ table.old.options }
    ensures grows { Grows table.old.nodes.slots table.new.nodes.slots }
    ensures right { AreRight op table.new.options table.new.nodes.slots cache.new.answers.items }
    ensures ok { IfOk result (IsAnswer op table.old.options table.new.nodes.slots a b) }
{
    if let Some(plain) = plain_answer(op, a, b) {
        return Ok(plain);
    }
    if let Some(known) = cache.get(a, b) {
        return Ok(known);
    }
    let (first, second) = (table.asked(a), table.asked(b));
    let option = first.option.min(second.option);
    if option == table.options {
        return Ok(end_of(value_of_op(op, a == 1, b == 1)));
    }
    let (a_low, a_high) = table.parts(first, a, option);
    let (b_low, b_high) = table.parts(second, b, option);
    let low = apply(table, cache, op, a_low, b_low)?;
    let high = apply(table, cache, op, a_high, b_high)?;
    let id = table.make(option, low, high)?;
    cache.put(Answer { a, b, id });
    Ok(id)
}
