//! Makes the rounds of programs over the space of diagrams, and tells how many they are: of 20 options whose loop makes 200 turns, and whether
//! the space knew few sets after each; and of methods that call themselves, and whether few frames of callers stood after each.
#![tactic(auto)]

mod callers;
mod long_run;
mod rounds;

use callers::{recursion, sixteen};
use long_run::long_run;
use rounds::Counts;
use std::test::Fail;
use vx_engine_trials::last_key::LastKey;
use vx_sched::LeastKey;

/// The most sets that the space may know after a round.
const MOST_SETS: u64 = 65_536;

/// Tells of the rounds of a method that calls itself, and of the callers.
fn tell_callers(rt: &HostRuntime, counts: Counts, most: usize) -> Result<(), Fail> {
    let rounds = counts.rounds;
    let few = counts.most_callers <= most;
    println!(rt; "{rounds} rounds; at most {most} callers after each: {few}")?;
    Ok(())
}

fn main(rt: HostRuntime) -> Result<(), Fail> {
    let counts = long_run(rt.alloc(), 200)?;
    let rounds = counts.rounds;
    let few = counts.most_sets <= MOST_SETS;
    println!(rt; "{rounds} rounds; at most {MOST_SETS} sets after each: {few}")?;
    tell_callers(&rt, recursion(rt.alloc(), 500, &mut LeastKey)?, 501)?;
    tell_callers(&rt, recursion(rt.alloc(), 100, &mut LeastKey)?, 101)?;
    tell_callers(&rt, recursion(rt.alloc(), 100, &mut LastKey)?, 101)?;
    let counts = sixteen(rt.alloc(), 8, &mut LastKey)?;
    let (rounds, callers) = (counts.rounds, counts.most_callers);
    println!(rt; "{rounds} rounds; {callers} callers after one of them, and no more after any")?;
    Ok(())
}
