//! What was answered before.

ghost use Rattle.std.specs.Prelude.{◌≡◌, All, [], IfSome, OnOk, Contains, IsTrue};
ghost use Rattle.vx_tally.specs.Answers.{IsNoted};

use crate::node::Edge;
use std::alloc::{AllocError, Global};
use std::collections::BTreeMap;
use std::marker::Model;
use vx_space::Space;

/// So many answers are remembered at most, so that what is remembered has a bound.
const MOST: usize = 1048576;

/// Two factors that spread numbers over all bits (Knuth's multiplicative hashing).
const FACTOR: u64 = 0x9e37_79b9_7f4a_7c15;

const OTHER_FACTOR: u64 = 0xff51_afd7_ed55_8ccd;

/// What is asked of two sets, with an edge beside each. What is asked of one set has it twice.
#[derive(Clone, Copy)]
pub(crate) struct Question<I> {
    pub a: I,
    pub b: I,
    pub first: Edge,
    pub second: Edge,
}

/// A question with its answer.
#[derive(Clone, Copy)]
pub(crate) struct Known<I, V> {
    pub question: Question<I>,
    pub answer: V,
}

/// Answers, under the sets of their questions and a number that their edges make. Two questions may have one such number, so what is found is
/// looked at. Contracts see the list of questions with their answers.
#[derive(Drop)]
pub(crate) struct Memo<S: Space, V: Copy> {
    known: BTreeMap<(S::Id, S::Id, u64), Known<S::Id, V>>,
}

impl<S: Space, V: Copy> Model for Memo<S, V> {
    ghost use Rattle.std.specs.Prelude.{List};
    ghost use Rattle.std.specs.Map.{values_of};
    ghost use Rattle.vx_tally.specs.declared.memo.Known.{Known};

    ghost Value = { List (Known S.Id V) };

    ghost view = { λ memo. values_of memo.known.entries };
}

/// A number that two edges make.
fn mixed(first: Edge, second: Edge) -> u64 {
    (first.place as u64)
        .wrapping_mul(FACTOR)
        .wrapping_add(first.more)
        .wrapping_mul(OTHER_FACTOR)
        .wrapping_add(second.place as u64)
        .wrapping_mul(FACTOR)
        .wrapping_add(second.more)
}

/// Whether two questions are one.
fn is_same<S: Space>(question: &Question<S::Id>, other: &Question<S::Id>) -> bool
    ensures { IsTrue result → question.now ≡ other.now }
{
    question.a == other.a
        && question.b == other.b
        && question.first == other.first
        && question.second == other.second
}

impl<S: Space, V: Copy> Memo<S, V> {
    /// No answers.
    pub(crate) fn new(alloc: Global) -> Memo<S, V>
        ensures { result ≡ [] }
    {
        Memo {
            known: BTreeMap::new(alloc),
        }
    }

    /// The answer to a question, if it is known.
    pub(crate) fn get(&self, question: Question<S::Id>) -> Option<V>
        ensures { IfSome result (λ answer. Contains self.now (record { question = question; answer = answer })) }
    {
        let key = (
            question.a,
            question.b,
            mixed(question.first, question.second),
        );
        let known = self.known.get(&key)?;
        if is_same::<S>(&known.question, &question) {
            return Some(known.answer);
        }
        None
    }

    /// Notes an answer. It may take the place of another one, and is not noted where there are very many.
    pub(crate) fn put(&mut self, question: Question<S::Id>, answer: V) -> Result<(), AllocError>
        ensures { OnOk result (All (IsNoted (record { question = question; answer = answer }) self.old) self.new) }
    {
        if self.known.len() >= MOST {
            return Ok(());
        }
        let key = (
            question.a,
            question.b,
            mixed(question.first, question.second),
        );
        self.known.insert(key, Known { question, answer })?;
        Ok(())
    }
}
