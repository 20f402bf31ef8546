//! Targets in blocks, each with a set that has what its targets have: what isn't in that set is asked of no target.

ghost use Rattle.std.specs.Prelude.{◌≡◌, ◌++◌, ◌∷◌, [], IfOk, OnOk, if◌then◌else◌};
ghost use Rattle.vx_space.specs.Sets.{Extends, IsKnown};
ghost use Rattle.vx_cover.specs.Blocks.{AreBlocks, AreBlocksOf, IsBlock, IsWhole, IsWider, flat};
ghost use Rattle.vx_cover.specs.Targets.{AreOpen, covered, first_set, left_open};

use crate::target::Target;
use std::alloc::{AllocError, Global};
use vx_space::{Config, Space, SpaceFault};
use vx_work::{Work, or_within};

/// How many targets a block has.
const BLOCK: usize = 256;

/// How many sets the blocks of a list may make together; behind that a block's set is that of all configurations.
const MOST_SETS: u64 = 1 << 17;

/// How much work the sets of the blocks of a list may be together, and one union at most.
const MOST_WORK: u64 = 4_000_000;

const MOST_SHARE: u64 = 1 << 18;

/// Targets that stand one behind the other.
#[derive(Drop)]
pub struct Block<I> {
    /// Has each configuration that one of the targets has.
    pub whole: I,
    pub targets: Vec<Target<I>>,
}

/// A set that has what two others have: their union, or that of all configurations, where the union would be too much work.
fn wider<S: Space>(
    alloc: Global,
    space: &mut S,
    work: &mut Work,
    whole: S::Id,
    set: S::Id,
) -> Result<S::Id, SpaceFault>
    requires whole { IsKnown (S.sets space.old) whole }
    requires set { IsKnown (S.sets space.old) set }
    ensures extends { Extends (S.sets space.old) (S.sets space.new) }
    ensures wider { IfOk result (IsWider (S.sets space.old) (S.sets space.new) whole set) }
{
    let mut share = work.share(MOST_SHARE);
    let found = or_within(alloc, space, &mut share, whole, set)?;
    work.put_back(share);
    let Some(either) = found else {
        return Ok(space.always());
    };
    Ok(either)
}

/// A set that has what each of some targets has.
fn whole_of<S: Space>(
    alloc: Global,
    space: &mut S,
    work: &mut Work,
    targets: &[Target<S::Id>],
    limit: u64,
) -> Result<S::Id, SpaceFault>
    requires { AreOpen (S.sets space.old) targets.now }
    ensures extends { Extends (S.sets space.old) (S.sets space.new) }
    ensures whole { IfOk result (λ whole. IsWhole (S.sets space.new) whole targets.now) }
{
    let mut whole = space.never();
    for target in targets {
        if space.count() > limit {
            return Ok(space.always());
        }
        whole = wider(alloc, space, work, whole, target.set)?;
    }
    Ok(whole)
}

/// The block of some targets.
fn block_of<S: Space>(
    alloc: Global,
    space: &mut S,
    work: &mut Work,
    targets: &[Target<S::Id>],
    limit: u64,
) -> Result<Block<S::Id>, SpaceFault>
    requires { AreOpen (S.sets space.old) targets.now }
    ensures extends { Extends (S.sets space.old) (S.sets space.new) }
    ensures block { IfOk result (IsBlock (S.sets space.new)) }
    ensures targets { IfOk result (λ block. block.targets.items ≡ targets.now) }
{
    let whole = whole_of(alloc, space, work, targets, limit)?;
    let mut items = Vec::new(alloc);
    items.extend_from_slice(targets)?;
    Ok(Block {
        whole,
        targets: items,
    })
}

/// Targets in blocks, in their order.
pub fn blocks_of<S: Space>(
    alloc: Global,
    space: &mut S,
    targets: &[Target<S::Id>],
) -> Result<Vec<Block<S::Id>>, SpaceFault>
    requires { AreOpen (S.sets space.old) targets.now }
    ensures extends { Extends (S.sets space.old) (S.sets space.new) }
    ensures blocks { IfOk result (λ blocks. AreBlocksOf (S.sets space.new) targets.now blocks.items) }
{
    let limit = space.count().saturating_add(MOST_SETS);
    let mut work = Work::of(MOST_WORK);
    let mut blocks = Vec::new(alloc);
    let mut rest = targets;
    while !rest.is_empty() {
        let size = rest.len().min(BLOCK);
        let (part, after) = rest.split_at(size);
        let block = block_of(alloc, space, &mut work, part, limit)?;
        blocks.push(block)?;
        rest = after;
    }
    Ok(blocks)
}

/// The set of a block's first target.
fn first_in<I: Copy>(block: &Block<I>) -> Option<I>
    ensures { result ≡ first_set [] block.now.targets.items }
{
    match block.targets.first() {
        Some(target) => Some(target.set),
        None => None,
    }
}

/// The set of the first target.
pub fn first_of<I: Copy>(blocks: &[Block<I>]) -> Option<I>
    ensures { result ≡ first_set [] (flat blocks.now) }
{
    for block in blocks {
        let first = first_in(block);
        if first.is_some() {
            return first;
        }
    }
    None
}

/// Puts a target where it belongs: its number, if a configuration meets it, or else itself.
fn put_target<S: Space>(
    space: &S,
    numbers: &mut Vec<u64>,
    rest: &mut Vec<Target<S::Id>>,
    target: Target<S::Id>,
    c: &Config,
) -> Result<(), AllocError>
    requires { IsKnown (S.sets space.now) target.set }
    ensures numbers { OnOk result (numbers.new.items ≡ numbers.old.items ++ (if (S.sets space.now).test target.set c.now then target.index ∷ [] else [])) }
    ensures rest { OnOk result (rest.new.items ≡ rest.old.items ++ (if (S.sets space.now).test target.set c.now then [] else target ∷ [])) }
{
    if space.holds(target.set, c) {
        numbers.push(target.index)?;
    } else {
        rest.push(target)?;
    }
    Ok(())
}

/// Puts the numbers of the targets that a configuration meets, and gives the others.
fn meet_targets<S: Space>(
    alloc: Global,
    space: &S,
    numbers: &mut Vec<u64>,
    targets: &[Target<S::Id>],
    c: &Config,
) -> Result<Vec<Target<S::Id>>, SpaceFault>
    requires { AreOpen (S.sets space.now) targets.now }
    ensures numbers { OnOk result (numbers.new.items ≡ numbers.old.items ++ covered (S.sets space.now) c.now targets.now) }
    ensures rest { IfOk result (λ rest. rest.items ≡ left_open (S.sets space.now) c.now targets.now) }
{
    let mut rest = Vec::new(alloc);
    for target in targets {
        put_target(space, numbers, &mut rest, *target, c)?;
    }
    Ok(rest)
}

/// Takes the targets that a configuration meets out of a block, and puts their numbers.
fn meet_block<S: Space>(
    alloc: Global,
    space: &S,
    numbers: &mut Vec<u64>,
    block: &mut Block<S::Id>,
    c: &Config,
) -> Result<(), SpaceFault>
    requires { IsBlock (S.sets space.now) block.old }
    ensures numbers { OnOk result (numbers.new.items ≡ numbers.old.items ++ covered (S.sets space.now) c.now block.old.targets.items) }
    ensures rest { OnOk result (block.new.targets.items ≡ left_open (S.sets space.now) c.now block.old.targets.items) }
    ensures whole { block.new.whole ≡ block.old.whole }
{
    if block.targets.is_empty() {
        return Ok(());
    }
    if !space.holds(block.whole, c) {
        return Ok(());
    }
    let rest = meet_targets(alloc, space, numbers, block.targets.as_slice(), c)?;
    block.targets = rest;
    Ok(())
}

/// Takes the targets that a configuration meets out of their blocks; the answer is their numbers.
pub fn meet<S: Space>(
    alloc: Global,
    space: &S,
    blocks: &mut [Block<S::Id>],
    c: &Config,
) -> Result<Vec<u64>, SpaceFault>
    requires { AreBlocks (S.sets space.now) blocks.old }
    ensures blocks { OnOk result (AreBlocks (S.sets space.now) blocks.new) }
    ensures numbers { IfOk result (λ numbers. numbers.items ≡ covered (S.sets space.now) c.now (flat blocks.old)) }
    ensures rest { OnOk result (flat blocks.new ≡ left_open (S.sets space.now) c.now (flat blocks.old)) }
{
    let mut numbers = Vec::new(alloc);
    for place in 0..blocks.len() {
        let block = &mut blocks[place];
        meet_block(alloc, space, &mut numbers, block, c)?;
    }
    Ok(numbers)
}
