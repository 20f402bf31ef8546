//! A sentence for each reason of each form of input.

ghost use Rattle.std.specs.Prelude.{◌≡◌, map};
ghost use Rattle.vx_reasons.specs.Reasons.{sentence_of, sentences_of, unsupported_sentences};

/// What has a number for its reason: a form of input that is refused, or an end of a run.
#[derive(Clone, Copy)]
pub enum Form {
    /// A class file (JVMS 4).
    ClassFile,
    /// A feature model, as text.
    Model,
    /// A feature model in DIMACS CNF.
    Dimacs,
    /// A source of the assembler.
    Source,
    /// A run that comes to what is left out, by the number of its word.
    Unsupported,
}

const CLASS_FILE: [&[u8]; 14] = [
    b"",
    b"the first four bytes are not those of a class file",
    b"the major version is not from 45 to 52, which is Java 8",
    b"the file ends too early",
    b"an entry of the pool has an unknown tag",
    b"an index is outside of the pool or not usable, or a local is outside of the frame",
    b"an index names an entry of another kind",
    b"a text is no modified UTF-8, or no name",
    b"a text is no descriptor",
    b"the length of code is not from 1 to 65,535",
    b"no whole instruction stands there",
    b"a jump or a switch leads to no instruction",
    b"a rule of attributes, repeated members, locals, switches, catch rows, dimensions or argument slots is broken",
    b"bytes stand behind the end",
];

const MODEL: [&[u8]; 7] = [
    b"",
    b"the line is no comment, no option and no rule",
    b"a name has 1 to 64 letters, digits or _, begins with no digit, and is neither true nor false",
    b"the name or the field is taken by an option above",
    b"the rule is no expression of ->, |, &, !, brackets and names, or nests deeper than 256",
    b"the rule names an option that no line above declares",
    b"there are more than 64 options",
];

const DIMACS: [&[u8]; 10] = [
    b"",
    b"",
    b"",
    b"a variable, a name or a field is named twice",
    b"",
    b"",
    b"there are more than 64 variables",
    b"a number stands before the header, or the header is a second one or malformed",
    b"a word is neither 0 nor a variable of the header, with or without a minus",
    b"there are more clauses than the header says, or too few at the end",
];

const SOURCE: [&[u8]; 9] = [
    b"",
    b"an unknown word, or a byte that stands only in texts and comments",
    b"wrong operands, a text where none is expected, interface in a source whose version isn't 52",
    b"a number out of range, also that of the version",
    b"a label that is unknown in its method, or stands there before",
    b"a line out of order, as a part before the end of a body, or a line of a body outside of bodies; no class, or no end",
    b"no text where one is expected, or one of more than 65,535 bytes",
    b"more than 65,535 bytes of code or catch rows, a jump of two bytes that is too long, an ldc whose entry stands behind the first 255; more than 65,535 places in the pool, or interfaces, fields or methods",
    b"a rule of class files: names, descriptors, flags, repeated members, values, locals, dimensions, keys, catch rows, a jump or a handler behind which no instruction stands, no instructions",
];

const UNSUPPORTED: [&[u8]; 9] = [
    b"",
    b"an instruction of floats or doubles, a constant or a field of such a type, a new array of them",
    b"jsr, jsr_w or ret",
    b"invokedynamic",
    b"ldc of a method handle or of a method type",
    b"a native method that is left out: any of a class of the folder, and Object's hashCode and toString",
    b"a class that is neither in the folder nor a core class; or an interface that Java 8 would initialise before a class below it, since it has an initialiser and a method that is neither abstract nor static",
    b"a field that the class doesn't have, nor those above it",
    b"a method that the class doesn't have, nor those above it",
];

/// What a run comes to that is left out, by the number of its word.
fn unsupported() -> &'static [&'static [u8]]
    ensures { map (λ sentence. sentence.now) result.now ≡ unsupported_sentences }
{
    &UNSUPPORTED
}

/// The sentences of a form, each at the place of its reason; those of numbers that are no reason are empty.
fn sentences_of(form: Form) -> &'static [&'static [u8]]
    ensures { map (λ sentence. sentence.now) result.now ≡ sentences_of form }
{
    match form {
        Form::ClassFile => &CLASS_FILE,
        Form::Model => &MODEL,
        Form::Dimacs => &DIMACS,
        Form::Source => &SOURCE,
        Form::Unsupported => unsupported(),
    }
}

/// What fails where an input of a form is refused with a reason, or what a run comes to. It is empty where the form has no such reason.
pub fn sentence(form: Form, reason: u8) -> &'static [u8]
    ensures { result.now ≡ sentence_of form reason }
{
    match sentences_of(form).get(usize::from(reason)) {
        Some(sentence) => sentence,
        None => b"",
    }
}
