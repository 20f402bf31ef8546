//! The types of local variables and operands at many positions: each type by a number, local variables as the leaves of trees, and operands
//! as chains. What comes again has its number again, so that equal rows and stacks are mostly the same ones, and are compared at once.

ghost use Rattle.std.specs.Prelude.{◌≡◌, ◌<◌, ◌≤◌, ◌∷◌, All, IfOk, IfSome, OnErr, length};
ghost use Rattle.vx_java.specs.Ids.{HasClassNumbers};
ghost use Rattle.vx_types.specs.Ranked.{IsRanked};
ghost use Rattle.vx_types.specs.declared.types.VerType.TheVariants.{Ref};
ghost use Rattle.vx_verify.specs.Joining.{AreJoined, ArePartedStacks, IsApart, IsJoined, words_with};
ghost use Rattle.vx_verify.specs.States.{AreCommonStacks, HasStack, HasType, IsCommonNumber, IsCommonRow, IsRow, IsStack, IsStore, IsUntouched, operands_at, type_at};

use crate::type_keys::{TypeKey, is_same_type, key_of};
use indexmap::IndexMap;
use std::alloc::{AllocError, Global};
use vx_link::Program;
use vx_list::GivenUp;
use vx_numbered::{Chains, Trees, next_number};
use vx_types::{ElementType, VerType, common, element_copy, fits};

/// The numbers of the four types that name no class.
pub const TOP: u32 = 0;

pub const INT: u32 = 1;

pub const LONG: u32 = 2;

pub const NULL: u32 = 3;

/// The words of operands with another one on top. One that cannot be read takes more than there are.
fn words_with(top: &VerType, under: u32) -> u32
    ensures { result ≡ words_with top.now under }
{
    match top {
        VerType::Top => u32::MAX,
        VerType::Long => under.saturating_add(2),
        _ => under.saturating_add(1),
    }
}

/// A stack with its top and what is under it, and the top of another stack.
#[derive(Clone, Copy)]
struct Apart {
    stack: u32,
    top: u32,
    under: u32,
    another: u32,
}

/// Two stacks from the top down, and the stack that they share.
#[derive(Drop)]
struct Parted {
    apart: Vec<Apart>,
    shared: u32,
}

/// Types by number, and rows and stacks of their numbers.
#[derive(Drop)]
pub struct Store {
    pub types: Vec<VerType>,
    /// Under which number a type that names a class may be found. What is found there is looked at.
    numbers: IndexMap<TypeKey, u32>,
    pub trees: Trees,
    pub chains: Chains,
}

impl Store {
    /// The four types that name no class.
    pub fn new(alloc: Global) -> Result<Store, AllocError>
        ensures { IfOk result IsStore }
    {
        let mut types = Vec::new(alloc);
        types.push(VerType::Top)?;
        types.push(VerType::Int)?;
        types.push(VerType::Long)?;
        types.push(VerType::Null)?;
        Ok(Store {
            types,
            numbers: IndexMap::new(alloc),
            trees: Trees::new(alloc),
            chains: Chains::new(alloc),
        })
    }

    /// The type of a number.
    pub fn type_at(&self, number: u32) -> &VerType
        requires { number < length self.now.types.items }
        ensures { result.now ≡ type_at self.now number }
    {
        &self.types[number as usize]
    }

    /// The number of a type, if it is known.
    fn known_type(&self, key: TypeKey, item: &VerType) -> Option<u32>
        ensures { IfSome result (λ number. (number < length self.now.types.items) × (type_at self.now number ≡ item.now)) }
    {
        let number = *self.numbers.get(&key)?;
        let known = self.types.get(number as usize)?;
        if is_same_type(known, item) {
            return Some(number);
        }
        None
    }

    /// A new number for a type. Want of memory leaves the store as it was.
    fn put_anew(&mut self, key: TypeKey, item: VerType) -> Result<u32, AllocError>
        requires { IsStore self.old }
        ensures ok { IfOk result (λ number. HasType self.old self.new number item) }
        ensures err { OnErr result (IsUntouched self.old self.new) }
    {
        let number = next_number(self.types.len())?;
        self.numbers.insert(key, number)?;
        self.types.push(item)?;
        Ok(number)
    }

    /// The number of a type that names a class, which may be known. It is copied where it is not. Want of memory leaves the store as it was.
    fn put_ref(
        &mut self,
        alloc: Global,
        dimensions: u32,
        element: &ElementType,
        item: &VerType,
    ) -> Result<u32, AllocError>
        requires store { IsStore self.old }
        requires item { item.now ≡ Ref dimensions element.now }
        ensures ok { IfOk result (λ number. HasType self.old self.new number item.now) }
        ensures err { OnErr result (IsUntouched self.old self.new) }
    {
        let key = key_of(dimensions, element);
        match self.known_type(key, item) {
            Some(number) => Ok(number),
            None => {
                let element = element_copy(alloc, element)?;
                self.put_anew(key, VerType::Ref(dimensions, element))
            }
        }
    }

    /// The number of a type. Want of memory leaves the store as it was.
    pub fn put_type(&mut self, alloc: Global, item: &VerType) -> Result<u32, AllocError>
        requires { IsStore self.old }
        ensures ok { IfOk result (λ number. HasType self.old self.new number item.now) }
        ensures err { OnErr result (IsUntouched self.old self.new) }
    {
        match item {
            VerType::Top => Ok(TOP),
            VerType::Int => Ok(INT),
            VerType::Long => Ok(LONG),
            VerType::Null => Ok(NULL),
            VerType::Ref(dimensions, element) => self.put_ref(alloc, *dimensions, element, item),
        }
    }

    /// An operand on others, as a stack that may be known. Want of memory leaves the store as it was.
    pub fn pushed(&mut self, top: u32, under: u32) -> Result<u32, AllocError>
        requires store { IsStore self.old }
        requires top { top < length self.old.types.items }
        requires under { IsStack self.old under }
        ensures ok { IfOk result (λ stack. HasStack self.old self.new stack (type_at self.old top ∷ operands_at self.old under)) }
        ensures err { OnErr result (IsUntouched self.old self.new) }
    {
        match self.chains.known(top, under) {
            Some(stack) => Ok(stack),
            None => self.pushed_anew(top, under),
        }
    }

    /// The same, as a stack of its own.
    fn pushed_anew(&mut self, top: u32, under: u32) -> Result<u32, AllocError>
        requires store { IsStore self.old }
        requires top { top < length self.old.types.items }
        requires under { IsStack self.old under }
        ensures ok { IfOk result (λ stack. HasStack self.old self.new stack (type_at self.old top ∷ operands_at self.old under)) }
        ensures err { OnErr result (IsUntouched self.old self.new) }
    {
        let item = self.type_at(top);
        let below = self.chains.words(under);
        let words = words_with(item, below);
        self.chains.pushed(top, under, words)
    }

    /// An operand of a type on others.
    pub fn pushed_type(&mut self, alloc: Global, item: &VerType, under: u32) -> Result<u32, GivenUp>
        requires store { IsStore self.old }
        requires under { IsStack self.old under }
        ensures { IfOk result (λ stack. HasStack self.old self.new stack (item.now ∷ operands_at self.old under)) }
    {
        let top = self.put_type(alloc, item)?;
        let stack = self.pushed(top, under)?;
        Ok(stack)
    }

    /// What two types have in common, by its number: that of the first where the other fits it.
    fn common_type(
        &mut self,
        alloc: Global,
        program: &Program,
        one: u32,
        other: u32,
    ) -> Result<u32, GivenUp>
        requires classes { HasClassNumbers program.now }
        requires ranked { IsRanked program.now }
        requires store { IsStore self.old }
        requires one { one < length self.old.types.items }
        requires other { other < length self.old.types.items }
        ensures { IfOk result (λ number. IsCommonNumber program.now self.old self.new one other number) }
    {
        if one == other {
            return Ok(one);
        }
        let first = self.type_at(one);
        let second = self.type_at(other);
        if fits(program, second, first) {
            return Ok(one);
        }
        let found = common(alloc, program, first, second)?;
        let number = self.put_type(alloc, &found)?;
        Ok(number)
    }

    /// What two rows of local variables have in common, one by one: the first itself where the other fits it.
    pub fn common_locals(
        &mut self,
        alloc: Global,
        program: &Program,
        one: u32,
        other: u32,
        levels: u32,
    ) -> Result<u32, GivenUp>
        requires classes { HasClassNumbers program.now }
        requires ranked { IsRanked program.now }
        requires store { IsStore self.old }
        requires few { levels ≤ 16 }
        requires one { IsRow self.old levels one }
        requires other { IsRow self.old levels other }
        ensures { IfOk result (λ tree. IsCommonRow program.now self.old self.new levels one other tree) }
    {
        if one == other {
            return Ok(one);
        }
        if levels == 0 {
            return self.common_type(alloc, program, one, other);
        }
        let first = self.trees.pair(one);
        let second = self.trees.pair(other);
        let low = self.common_locals(alloc, program, first.low, second.low, levels - 1)?;
        let high = self.common_locals(alloc, program, first.high, second.high, levels - 1)?;
        if low == first.low {
            if high == first.high {
                return Ok(one);
            }
        }
        let tree = self.trees.paired(low, high)?;
        Ok(tree)
    }

    /// Where two stacks come apart, from the top down to what they share; `None` where there are more operands on one side.
    fn parted(&self, alloc: Global, one: u32, other: u32) -> Result<Option<Parted>, AllocError>
        requires store { IsStore self.now }
        requires one { IsStack self.now one }
        requires other { IsStack self.now other }
        ensures { IfOk result (λ parted. ArePartedStacks self.now one other parted) }
    {
        let mut apart = Vec::new(alloc);
        let mut left = one;
        let mut right = other;
        while left != right {
            let Some((top, under)) = self.chains.popped(left) else {
                return Ok(None);
            };
            let Some((another, rest)) = self.chains.popped(right) else {
                return Ok(None);
            };
            apart.push(Apart {
                stack: left,
                top,
                under,
                another,
            })?;
            left = under;
            right = rest;
        }
        Ok(Some(Parted {
            apart,
            shared: left,
        }))
    }

    /// What two operands have in common, on operands; the first stack itself where it is that.
    fn joined_one(
        &mut self,
        alloc: Global,
        program: &Program,
        both: Apart,
        merged: u32,
    ) -> Result<u32, GivenUp>
        requires classes { HasClassNumbers program.now }
        requires ranked { IsRanked program.now }
        requires store { IsStore self.old }
        requires both { IsApart self.old both }
        requires merged { IsStack self.old merged }
        ensures { IfOk result (IsJoined program.now self.old self.new both merged) }
    {
        let top = self.common_type(alloc, program, both.top, both.another)?;
        if top == both.top {
            if merged == both.under {
                return Ok(both.stack);
            }
        }
        let stack = self.pushed(top, merged)?;
        Ok(stack)
    }

    /// What operands have in common that come apart, on what is shared.
    fn joined(
        &mut self,
        alloc: Global,
        program: &Program,
        apart: &mut Vec<Apart>,
        shared: u32,
    ) -> Result<u32, GivenUp>
        requires classes { HasClassNumbers program.now }
        requires ranked { IsRanked program.now }
        requires store { IsStore self.old }
        requires apart { All (IsApart self.old) apart.old.items }
        requires shared { IsStack self.old shared }
        ensures { IfOk result (AreJoined program.now self.old self.new apart.old.items shared) }
    {
        let mut merged = shared;
        while let Some(both) = apart.pop() {
            merged = self.joined_one(alloc, program, both, merged)?;
        }
        Ok(merged)
    }

    /// What two stacks of operands have in common, one by one: the first itself where the other fits it. `None` where there are more on
    /// one side.
    pub fn common_operands(
        &mut self,
        alloc: Global,
        program: &Program,
        one: u32,
        other: u32,
    ) -> Result<Option<u32>, GivenUp>
        requires classes { HasClassNumbers program.now }
        requires ranked { IsRanked program.now }
        requires store { IsStore self.old }
        requires one { IsStack self.old one }
        requires other { IsStack self.old other }
        ensures { IfOk result (λ made. AreCommonStacks program.now self.old self.new one other made) }
    {
        let found = self.parted(alloc, one, other)?;
        match found {
            Some(mut parted) => {
                let shared = parted.shared;
                let merged = self.joined(alloc, program, &mut parted.apart, shared)?;
                Ok(Some(merged))
            }
            None => Ok(None),
        }
    }
}
