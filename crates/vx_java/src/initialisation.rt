//! What an initialisation begins with (JVMS 5.5).

ghost use Rattle.std.specs.Prelude.{◌≡◌, ◌<◌, ◌&&◌, IfOk, IfSome, is_some, map, not, option_map};
ghost use Rattle.std.specs.List.{list_any};
ghost use Rattle.vx_java.specs.Ids.{as_class, HasClassNumbers};
ghost use Rattle.vx_java.specs.Initialisation.{blocked, blocks, chain_blocked, init_chain, is_failed, is_not, quiet_chain};
ghost use Rattle.vx_java.specs.Machine.{init_at};
ghost use Rattle.vx_link.specs.Hierarchy.{is_among, superinterfaces};
ghost use Rattle.vx_link.specs.Parts.{class_at, class_count, is_abstract, is_instance, method_at};

use crate::hierarchy::is_superinterface;
use crate::parts::{flags_of_method, has_initialiser, is_interface, superclass_of};
use bitflags::Flags;
use std::alloc::{AllocError, Global};
use vx_link::{AccessFlags, Program};
use vx_value::{ClassId, InitState, MethodId};

fn state_of(states: &[InitState], class: ClassId) -> InitState
    ensures { result ≡ init_at states.now class.0 }
{
    states
        .get(class.0 as usize)
        .copied()
        .unwrap_or(InitState::Done)
}

fn is_not(states: &[InitState], class: ClassId) -> bool
    ensures { result ≡ is_not (init_at states.now class.0) }
{
    matches!(state_of(states, class), InitState::Not)
}

fn is_failed(states: &[InitState], class: ClassId) -> bool
    ensures { result ≡ is_failed (init_at states.now class.0) }
{
    matches!(state_of(states, class), InitState::Failed)
}

/// A class and its superclasses upward, as long as their initialisation has not begun.
pub fn init_chain(
    alloc: Global,
    program: &Program,
    class: ClassId,
    states: &[InitState],
) -> Result<Vec<ClassId>, AllocError>
    ensures { IfOk result (λ chain. chain.items ≡ map as_class (init_chain program.now states.now class.0)) }
{
    let mut chain = Vec::new(alloc);
    let mut left = program.classes.len();
    let mut next = Some(class);
    while left > 0 {
        let Some(class) = next else {
            return Ok(chain);
        };
        if !is_not(states, class) {
            return Ok(chain);
        }
        chain.push(class)?;
        next = superclass_of(program, class);
        left -= 1;
    }
    Ok(chain)
}

/// Whether a method is neither abstract nor static.
fn has_default_body(program: &Program, method: MethodId) -> bool
    ensures { result ≡ (is_instance (method_at program.now method.0) && not (is_abstract (method_at program.now method.0))) }
{
    let flags = flags_of_method(program, method);
    !flags.contains(AccessFlags::STATIC) && !flags.contains(AccessFlags::ABSTRACT)
}

fn some_default_body(program: &Program, methods: &[MethodId]) -> bool
    ensures { result ≡ list_any (λ m. is_instance (method_at program.now m.0) && not (is_abstract (method_at program.now m.0))) methods.now }
{
    methods
        .iter()
        .any(|method| has_default_body(program, *method))
}

fn blocks(program: &Program, place: usize) -> bool
    ensures { result ≡ blocks program.now place }
{
    match program.classes.get(place) {
        Some(interface) => {
            interface.own_initialiser && some_default_body(program, interface.methods.as_slice())
        }
        None => false,
    }
}

fn is_blocking(program: &Program, class: ClassId, place: usize) -> bool
    ensures { result ≡ (blocks program.now place && is_among place (superinterfaces program.now class.0)) }
{
    blocks(program, place) && is_superinterface(program, place, class)
}

fn blocking_place(program: &Program, class: ClassId) -> Option<usize>
    ensures value { result ≡ blocked program.now class.0 }
    ensures within { IfSome result (λ place. place < class_count program.now) }
{
    if is_interface(program, class) {
        return None;
    }
    for place in 0..program.classes.len() {
        if is_blocking(program, class, place) {
            return Some(place);
        }
    }
    None
}

/// The first superinterface of a class that has a `<clinit>` and a method that is neither abstract nor static: it would be initialised
/// before the class, and ends the run instead. An interface has none.
pub fn blocked(program: &Program, class: ClassId) -> Option<ClassId>
    requires { HasClassNumbers program.now }
    ensures { result ≡ option_map as_class (blocked program.now class.0) }
{
    match blocking_place(program, class) {
        Some(place) => Some(ClassId(place as u32)),
        None => None,
    }
}

fn is_quiet(program: &Program, class: ClassId) -> bool
    ensures { result ≡ (not (class_at program.now class.0).own_initialiser && not (is_some (blocked program.now class.0))) }
{
    !has_initialiser(program, class) && blocking_place(program, class).is_none()
}

/// The first interface that blocks a class of a chain.
pub fn chain_blocked(program: &Program, chain: &[ClassId]) -> Option<ClassId>
    requires { HasClassNumbers program.now }
    ensures { result ≡ option_map as_class (chain_blocked program.now (map (λ c. c.0) chain.now)) }
{
    for class in chain {
        if let Some(interface) = blocked(program, *class) {
            return Some(interface);
        }
    }
    None
}

/// Whether marking the chain of a class has no other effect: none of its classes has a `<clinit>` or is blocked, and the
/// initialisation of the class above it has not failed.
pub fn quiet_chain(program: &Program, class: ClassId, states: &[InitState]) -> bool
    ensures { result ≡ quiet_chain program.now states.now class.0 }
{
    let mut left = program.classes.len();
    let mut next = Some(class);
    while left > 0 {
        let Some(class) = next else {
            return true;
        };
        if !is_not(states, class) {
            return !is_failed(states, class);
        }
        if !is_quiet(program, class) {
            return false;
        }
        next = superclass_of(program, class);
        left -= 1;
    }
    true
}
