//! The values with which fields begin (JVMS 2.3, 2.4).

ghost use Rattle.std.specs.Prelude.{◌≡◌, ◌==◌, length, position, take_while, true};
ghost use Rattle.vx_desc.specs.Descriptors.{base_of, field_type};
ghost use Rattle.vx_initial_heap.specs.Defaults.{base_in, default_over, is_class_end};
ghost use Rattle.vx_initial_heap.specs.First.{empty_text, is_among, value_in};
ghost use Rattle.vx_java.specs.FirstObjects.{default_of_base, default_of_field};

use vx_desc::{Base, is_class_name};
use vx_value::Slot;

fn base_of(letter: u8) -> Option<Base>
    ensures { result ≡ base_of letter }
{
    match letter {
        b'Z' => Some(Base::Bool),
        b'B' => Some(Base::Byte),
        b'C' => Some(Base::Char),
        b'D' => Some(Base::Double),
        b'F' => Some(Base::Float),
        b'I' => Some(Base::Int),
        b'J' => Some(Base::Long),
        b'S' => Some(Base::Short),
        _ => None,
    }
}

/// How many `[` a text begins with.
fn brackets(text: &[u8]) -> usize
    ensures { result ≡ length (take_while (λ b. b == 91) text.now) }
{
    text.iter().take_while(|b| **b == b'[').count()
}

/// The place of the first `;`.
fn semicolon(text: &[u8]) -> Option<usize>
    ensures { result ≡ position (λ b. b == 59) text.now }
{
    text.iter().position(|b| *b == b';')
}

/// Whether a text is the name of a class and a `;` behind it.
fn is_class_end(text: &[u8]) -> bool
    ensures { result ≡ is_class_end text.now }
{
    match semicolon(text) {
        Some(len) => is_class_name(&text[..len]) && len + 1 == text.len(),
        None => false,
    }
}

/// The base of a type that is the whole text.
fn base_in(text: &[u8]) -> Option<Base>
    ensures { result ≡ base_in text.now }
{
    match text {
        [b'L', name @ ..] => {
            if is_class_end(name) {
                Some(Base::Class)
            } else {
                None
            }
        }
        [letter] => base_of(*letter),
        _ => None,
    }
}

fn default_of_base(base: Base) -> Slot
    ensures value { value_in empty_text result ≡ default_of_base base }
    ensures held { is_among 0 1 result ≡ true }
{
    match base {
        Base::Float | Base::Double => Slot::Top,
        Base::Long => Slot::Long(0),
        Base::Class => Slot::Null,
        _ => Slot::Int(0),
    }
}

fn default_over(dimensions: usize, base: Option<Base>) -> Slot
    ensures value { value_in empty_text result ≡ default_over dimensions base }
    ensures held { is_among 0 1 result ≡ true }
{
    match base {
        Some(_) if dimensions > 0 => Slot::Null,
        Some(base) => default_of_base(base),
        None => Slot::Text(0),
    }
}

/// The value with which a field of a descriptor begins, where text 0 is the empty one. It takes descriptors of any length.
pub fn default_of(descriptor: &[u8]) -> Slot
    ensures value { value_in empty_text result ≡ default_of_field (field_type descriptor.now) }
    ensures held { is_among 0 1 result ≡ true }
{
    let dimensions = brackets(descriptor);
    if dimensions > 255 {
        return Slot::Text(0);
    }
    default_over(dimensions, base_in(&descriptor[dimensions..]))
}
