//! The labels of a method's body.

ghost use Rattle.std.specs.Prelude.{◌≡◌, ◌+◌, ◌≤◌, ◌<◌, ◌^◌, IfOk};
ghost use Rattle.vx_code_parts.specs.Bodies.{after, labels_of};

use crate::label_table::{Label, LabelTable};
use std::alloc::{AllocError, Global};
use std::hash::{DefaultHasher, Hasher};
use vx_list::Keyed;
use vx_source::{Said, SourceLine, Statement};
use vx_value::Name;

/// The labels of a body, and the number of its instructions.
#[derive(Drop)]
pub struct Labels {
    pub labels: LabelTable,
    pub instructions: usize,
}

/// The labels with one line more.
fn after(alloc: Global, labels: Labels, said: &Said) -> Result<Labels, AllocError>
    requires { labels.instructions < 2 ^ 63 }
    ensures value { IfOk result (λ l. l ≡ after labels said.now) }
    ensures few { IfOk result (λ l. l.instructions ≤ labels.instructions + 1) }
{
    let Labels {
        labels,
        instructions,
    } = labels;
    match said {
        Said::Refused(_) | Said::Statement(Statement::Instruction(_)) => Ok(Labels {
            labels,
            instructions: instructions + 1,
        }),
        Said::Statement(Statement::Label(name)) => {
            let name = Name::of(alloc, name.bytes())?;
            let label = Label {
                name,
                at: instructions,
            };
            Ok(Labels {
                labels: labels.with(alloc, label)?,
                instructions,
            })
        }
        _ => Ok(Labels {
            labels,
            instructions,
        }),
    }
}

/// A key that is made of the names of all labels.
fn key_of(lines: &[SourceLine]) -> Keyed {
    let mut read = DefaultHasher::new();
    for line in lines {
        if line.ends_body {
            return Keyed::after(&read);
        }
        if let Said::Statement(Statement::Label(name)) = &line.said {
            read.write(name.bytes());
        }
    }
    Keyed::after(&read)
}

/// The labels of the lines up to the end of a body.
pub fn labels_of(alloc: Global, lines: &[SourceLine]) -> Result<Labels, AllocError>
    ensures { IfOk result (λ l. l ≡ labels_of lines.now) }
{
    let mut labels = Labels {
        labels: LabelTable::new(alloc, key_of(lines)),
        instructions: 0,
    };
    for line in lines {
        let ends = line.ends_body;
        if ends {
            return Ok(labels);
        }
        let next = after(alloc, labels, &line.said)?;
        labels = next;
    }
    Ok(labels)
}
