//! Reading the text of a feature model, line by line.

ghost use Rattle.std.specs.Prelude.{◌≡◌, ◌+◌, ◌<◌, IfOk, OnOk};
ghost use Rattle.vx_model.specs.Text.{with_statement, model_of};
ghost use Rattle.vx_model.specs.Models.{IsModel, HasOptionNames};
ghost use Rattle.vx_model.specs.Answers.{Answers, fault_at};

use crate::expr::Expr;
use crate::fault::ModelFault;
use crate::model::{Model, OptionField};
use crate::statement::{Refusal, Statement, statement_of};
use std::alloc::{AllocError, Global};
use vx_list::Items;
use vx_words::next_line;

// The options and rules that have been read.
#[derive(Drop)]
struct Draft {
    options: Vec<OptionField>,
    rules: Vec<Expr>,
}

impl Draft {
    ghost use Rattle.vx_model.specs.Text.{with_statement};
    ghost use Rattle.vx_model.specs.Drafts.{drafted};

    fn add(&mut self, statement: Statement) -> Result<(), AllocError>
        ensures { OnOk result (drafted self.new ≡ with_statement (drafted self.old) statement) }
    {
        match statement {
            Statement::Nothing => {}
            Statement::Declares(option) => self.options.push(option)?,
            Statement::Demands(rule) => self.rules.push(rule)?,
        }
        Ok(())
    }
}

/// The fault of a line of this number that is refused.
pub fn fault_at(refusal: Refusal, line: u64) -> ModelFault
    ensures { result ≡ fault_at refusal line }
{
    match refusal {
        Refusal::NoMemory => ModelFault::NoMemory,
        Refusal::Reason(reason) => ModelFault::Line { line, reason },
    }
}

/// The feature model that a text spells, or its first bad line, from 1 on, with the least reason: 1 no form of line, 2 no
/// name, 3 a name or field that is taken, 4 no rule or one that nests deeper than 256, 5 an unknown option, 6 more than 64
/// options.
pub fn read_model(alloc: Global, bytes: &[u8]) -> Result<Model, ModelFault>
    ensures exact { Answers result (model_of bytes.now) }
    // What is read is a model that each call takes.
    ensures lawful { IfOk result IsModel }
    // The names of its options are those that a report takes.
    ensures names { IfOk result HasOptionNames }
{
    let mut draft = Draft {
        options: Vec::new(alloc),
        rules: Vec::new(alloc),
    };
    let mut rest = bytes;
    let mut number: u64 = 1;
    while let Some((line, after)) = next_line(rest) {
        match statement_of(alloc, draft.options.as_slice(), line) {
            Ok(statement) => draft.add(statement)?,
            Err(refusal) => return Err(fault_at(refusal, number)),
        }
        rest = after;
        number += 1;
    }
    Ok(Model {
        options: Items::of(draft.options),
        rules: Items::of(draft.rules),
    })
}
