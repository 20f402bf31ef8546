//! The words of an assembler source: numbers, texts, mnemonics, and the words of a line.
#![tactic(auto)]

mod fault;
mod mnemonics;
mod numbers;
mod texts;
mod words;

pub use fault::{LineFault, refused};
pub use mnemonics::{
    ANEWARRAY, GOTO_W, INVOKEINTERFACE, INVOKESPECIAL, INVOKESTATIC, LDC, LDC_W, LDC2_W,
    LOOKUPSWITCH, NEW, PUTFIELD, SIPUSH, TABLESWITCH, WIDE, opcode_of,
};
pub use numbers::{Number, are_four_hex, byte_at, four_hex, is_within, number_of, spelled, value};
pub use texts::{Piece, behind, text_of};
pub use words::{begins_text, blank_place, front, is_word, tokens, unindented, word_at};
