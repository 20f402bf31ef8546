//! What is read for the calls of native methods, by what they do.

ghost use Rattle.std.specs.Prelude.{◌≡◌, None, Some, if◌then◌else◌, true};
ghost use Rattle.vx_natives.specs.Readings.{asked_cell, asks_two_cells, asks_two_texts, first_reading, init_reading, maker_reading, second_reading, spelling_reading};

use crate::behaviour::{
    Behaviour, BuilderChange, CellQuestion, Initialiser, Maker, Printing, Spelling, TextQuestion,
};

/// What is read of the first value of a call, or of its second, and put behind its values.
#[derive(Clone, Copy)]
pub enum Reading {
    /// A cell of the object, by whether it is that of the second value.
    Cell(bool, u32),
    /// The text of an array of chars.
    Chars(bool),
}

/// The cell that a question is asked of.
fn asked_cell(question: CellQuestion) -> u32
    ensures { result ≡ asked_cell question }
{
    match question {
        CellQuestion::SecondCell | CellQuestion::CompareOrdinals => 1,
        _ => 0,
    }
}

/// Whether a question is asked of the cells of two objects.
fn asks_two_cells(question: CellQuestion) -> bool
    ensures { result ≡ asks_two_cells question }
{
    match question {
        CellQuestion::SameNumber | CellQuestion::CompareNumbers | CellQuestion::CompareOrdinals =>
            true,
        _ => false,
    }
}

/// Whether a question is asked of two texts.
fn asks_two_texts(question: TextQuestion) -> bool
    ensures { result ≡ asks_two_texts question }
{
    match question {
        TextQuestion::Equals
        | TextQuestion::Compare
        | TextQuestion::PlaceOf
        | TextQuestion::StartsWith
        | TextQuestion::EndsWith => true,
        _ => false,
    }
}

/// Of a value that is spelled: the text of a string, or that of an array of chars.
fn spelling_reading(is_second: bool, spelling: Spelling) -> Option<Reading>
    ensures { result ≡ spelling_reading is_second spelling }
{
    match spelling {
        Spelling::Text => Some(Reading::Cell(is_second, 0)),
        Spelling::Chars => Some(Reading::Chars(is_second)),
        _ => None,
    }
}

fn init_reading(initialiser: Initialiser) -> Option<Reading>
    ensures { result ≡ init_reading initialiser }
{
    match initialiser {
        Initialiser::OfText => Some(Reading::Cell(true, 0)),
        Initialiser::OfChars => Some(Reading::Chars(true)),
        _ => None,
    }
}

fn maker_reading(maker: Maker) -> Option<Reading>
    ensures { result ≡ maker_reading maker }
{
    match maker {
        Maker::LineSeparator | Maker::IntegerOf | Maker::SpellInt | Maker::ClassName => None,
        Maker::TextOf(spelling) => spelling_reading(false, spelling),
        _ => Some(Reading::Cell(false, 0)),
    }
}

/// What is read first.
pub(crate) fn first_reading(behaviour: Behaviour) -> Option<Reading>
    ensures { result ≡ first_reading behaviour }
{
    match behaviour {
        Behaviour::AskCells(question) => Some(Reading::Cell(false, asked_cell(question))),
        Behaviour::AskTexts(_) | Behaviour::Change(_) | Behaviour::Print(_) => {
            Some(Reading::Cell(false, 0))
        }
        Behaviour::Initialise(initialiser) => init_reading(initialiser),
        Behaviour::Make(maker) => maker_reading(maker),
        _ => None,
    }
}

fn change_reading(change: BuilderChange) -> Option<Reading>
    ensures { result ≡ second_reading (Behaviour.Change change) }
{
    match change {
        BuilderChange::Append(spelling) => spelling_reading(true, spelling),
        _ => None,
    }
}

fn printing_reading(printing: Printing) -> Option<Reading>
    ensures { result ≡ second_reading (Behaviour.Print printing) }
{
    match printing {
        Printing::Value(spelling) => spelling_reading(true, spelling),
        Printing::Line(spelling) => spelling_reading(true, spelling),
        Printing::LineEnd => None,
    }
}

/// Where another text or a cell of another object is read.
fn second_cell(reads: bool, cell: u32) -> Option<Reading>
    ensures { result ≡ (if reads then Some (Reading.Cell true cell) else None) }
{
    if reads {
        Some(Reading::Cell(true, cell))
    } else {
        None
    }
}

/// What is read behind the first one.
pub(crate) fn second_reading(behaviour: Behaviour) -> Option<Reading>
    ensures { result ≡ second_reading behaviour }
{
    match behaviour {
        Behaviour::AskCells(question) => {
            second_cell(asks_two_cells(question), asked_cell(question))
        }
        Behaviour::AskTexts(question) => second_cell(asks_two_texts(question), 0),
        Behaviour::Change(change) => change_reading(change),
        Behaviour::Print(printing) => printing_reading(printing),
        Behaviour::Make(Maker::Concat) => Some(Reading::Cell(true, 0)),
        _ => None,
    }
}
