//! What native methods do, by their numbers in the table of core classes (the class library of Java SE 7).

ghost use Rattle.std.specs.Prelude.{◌≡◌, ◌<◌, length, true};
ghost use Rattle.vx_java.specs.Natives.{native_of};
ghost use Rattle.vx_natives.specs.Behaviours.{is_known, meaning};
ghost use Rattle.vx_natives.specs.Forms.{is_numbered, reads_at};
ghost use Rattle.vx_natives.specs.Takes.{takes, wants_read};

/// What a native method does that answers by the values of its call alone.
#[derive(Clone, Copy)]
pub enum Computation {
    /// Nothing happens: `<init>` of Object and of Number, and `flush`.
    Pass,
    /// `equals` of Object and of Enum.
    SameObject,
    /// `toString` of String.
    Receiver,
    /// `desiredAssertionStatus`.
    False,
    /// `System.exit`.
    Exit,
    /// `Integer.compare`.
    CompareInts,
    /// `Boolean.valueOf`.
    BooleanOf,
    AbsoluteInt,
    AbsoluteLong,
    GreaterInt,
    GreaterLong,
    LesserInt,
    LesserLong,
    /// `addSuppressed` of Throwable, of which nothing is kept.
    AddSuppressed,
}

/// What a native method does that answers by cells of objects which hold numbers and references.
#[derive(Clone, Copy)]
pub enum CellQuestion {
    /// `intValue` and `hashCode` of Integer, and `booleanValue`.
    IntValue,
    LongValue,
    /// `equals` of Integer and of Boolean.
    SameNumber,
    /// `compareTo` of Integer and of Boolean.
    CompareNumbers,
    /// The name of an Enum, and the message of a Throwable.
    FirstCell,
    /// The ordinal of an Enum, and the cause of a Throwable.
    SecondCell,
    /// `compareTo` of Enum.
    CompareOrdinals,
}

/// What a native method does that answers by texts of strings and builders.
#[derive(Clone, Copy)]
pub enum TextQuestion {
    Length,
    IsEmpty,
    CharAt,
    Hash,
    Equals,
    Compare,
    /// `indexOf` of a code point.
    PlaceOfPoint,
    PlaceOf,
    StartsWith,
    EndsWith,
    /// `Integer.parseInt`.
    Parse,
}

/// How a value is spelled that is printed or becomes a text.
#[derive(Clone, Copy)]
pub enum Spelling {
    Int,
    Long,
    Bool,
    Char,
    /// A string, or `null`.
    Text,
    /// An array of chars.
    Chars,
}

/// What a native method does that writes cells of its receiver and answers nothing: an `<init>`.
#[derive(Clone, Copy)]
pub enum Initialiser {
    Empty,
    OfText,
    OfChars,
    /// Of StringBuilder, whose capacity isn't kept.
    OfCapacity,
    Enum,
    Throwable,
}

/// What a native method does that gives a builder another text.
#[derive(Clone, Copy)]
pub enum BuilderChange {
    Append(Spelling),
    SetLength,
    Delete,
    Reverse,
}

/// What a native method does that makes a new object.
#[derive(Clone, Copy)]
pub enum Maker {
    Concat,
    Substring,
    ToChars,
    /// `String.valueOf`.
    TextOf(Spelling),
    /// `toString` of StringBuilder.
    ToText,
    LineSeparator,
    /// `Integer.valueOf`, which makes none for small numbers.
    IntegerOf,
    /// `Integer.toString` of an int.
    SpellInt,
    /// `toString` of Integer.
    SpellInteger,
    /// `toString` of Boolean.
    SpellBoolean,
    /// The class of a Throwable.
    ClassName,
}

/// What a native method of PrintStream prints.
#[derive(Clone, Copy)]
pub enum Printing {
    Value(Spelling),
    /// A value and the end of the line.
    Line(Spelling),
    /// The end of the line.
    LineEnd,
}

/// What a native method does.
#[derive(Clone, Copy)]
pub enum Behaviour {
    /// There is no native method of the number.
    Missing,
    Compute(Computation),
    AskCells(CellQuestion),
    AskTexts(TextQuestion),
    Initialise(Initialiser),
    Change(BuilderChange),
    Make(Maker),
    Print(Printing),
    /// `System.arraycopy`.
    CopyArray,
}

/// Those of Object and of String up to `equals`.
fn from_object_on(number: u32) -> Behaviour
    requires least { 0 < number }
    requires most { number < 11 }
    ensures row { meaning result ≡ native_of number }
    ensures count { takes result (length (reads_at number)) ≡ true }
    ensures reads { wants_read result (reads_at number) ≡ true }
    ensures known { is_known result ≡ is_numbered number }
{
    match number {
        1 => Behaviour::Compute(Computation::Pass),
        2 => Behaviour::Compute(Computation::SameObject),
        3 => Behaviour::Initialise(Initialiser::Empty),
        4 => Behaviour::Initialise(Initialiser::OfText),
        5 => Behaviour::Initialise(Initialiser::OfChars),
        6 => Behaviour::AskTexts(TextQuestion::Length),
        7 => Behaviour::AskTexts(TextQuestion::IsEmpty),
        8 => Behaviour::AskTexts(TextQuestion::CharAt),
        9 => Behaviour::AskTexts(TextQuestion::Hash),
        10 => Behaviour::AskTexts(TextQuestion::Equals),
        _ => unreachable!(),
    }
}

/// The other ones of String that are no `valueOf`.
fn from_compare_on(number: u32) -> Behaviour
    requires least { 10 < number }
    requires most { number < 21 }
    ensures row { meaning result ≡ native_of number }
    ensures count { takes result (length (reads_at number)) ≡ true }
    ensures reads { wants_read result (reads_at number) ≡ true }
    ensures known { is_known result ≡ is_numbered number }
{
    match number {
        11 => Behaviour::AskTexts(TextQuestion::Compare),
        12 => Behaviour::Make(Maker::Concat),
        13 | 14 => Behaviour::Make(Maker::Substring),
        15 => Behaviour::AskTexts(TextQuestion::PlaceOfPoint),
        16 => Behaviour::AskTexts(TextQuestion::PlaceOf),
        17 => Behaviour::AskTexts(TextQuestion::StartsWith),
        18 => Behaviour::AskTexts(TextQuestion::EndsWith),
        19 => Behaviour::Make(Maker::ToChars),
        20 => Behaviour::Compute(Computation::Receiver),
        _ => unreachable!(),
    }
}

/// `String.valueOf`, and `<init>` of StringBuilder.
fn from_text_of_on(number: u32) -> Behaviour
    requires least { 20 < number }
    requires most { number < 29 }
    ensures row { meaning result ≡ native_of number }
    ensures count { takes result (length (reads_at number)) ≡ true }
    ensures reads { wants_read result (reads_at number) ≡ true }
    ensures known { is_known result ≡ is_numbered number }
{
    match number {
        21 => Behaviour::Make(Maker::TextOf(Spelling::Int)),
        22 => Behaviour::Make(Maker::TextOf(Spelling::Long)),
        23 => Behaviour::Make(Maker::TextOf(Spelling::Bool)),
        24 => Behaviour::Make(Maker::TextOf(Spelling::Char)),
        25 => Behaviour::Make(Maker::TextOf(Spelling::Chars)),
        26 => Behaviour::Initialise(Initialiser::Empty),
        27 => Behaviour::Initialise(Initialiser::OfCapacity),
        28 => Behaviour::Initialise(Initialiser::OfText),
        _ => unreachable!(),
    }
}

/// The other ones of StringBuilder, and that of Class.
fn from_append_on(number: u32) -> Behaviour
    requires least { 28 < number }
    requires most { number < 41 }
    ensures row { meaning result ≡ native_of number }
    ensures count { takes result (length (reads_at number)) ≡ true }
    ensures reads { wants_read result (reads_at number) ≡ true }
    ensures known { is_known result ≡ is_numbered number }
{
    match number {
        29 => Behaviour::Change(BuilderChange::Append(Spelling::Int)),
        30 => Behaviour::Change(BuilderChange::Append(Spelling::Long)),
        31 => Behaviour::Change(BuilderChange::Append(Spelling::Bool)),
        32 => Behaviour::Change(BuilderChange::Append(Spelling::Char)),
        33 => Behaviour::Change(BuilderChange::Append(Spelling::Text)),
        34 => Behaviour::AskTexts(TextQuestion::Length),
        35 => Behaviour::AskTexts(TextQuestion::CharAt),
        36 => Behaviour::Change(BuilderChange::SetLength),
        37 => Behaviour::Change(BuilderChange::Delete),
        38 => Behaviour::Change(BuilderChange::Reverse),
        39 => Behaviour::Make(Maker::ToText),
        40 => Behaviour::Compute(Computation::False),
        _ => unreachable!(),
    }
}

/// Those of PrintStream.
fn from_print_on(number: u32) -> Behaviour
    requires least { 40 < number }
    requires most { number < 55 }
    ensures row { meaning result ≡ native_of number }
    ensures count { takes result (length (reads_at number)) ≡ true }
    ensures reads { wants_read result (reads_at number) ≡ true }
    ensures known { is_known result ≡ is_numbered number }
{
    match number {
        41 => Behaviour::Print(Printing::Value(Spelling::Bool)),
        42 => Behaviour::Print(Printing::Value(Spelling::Char)),
        43 => Behaviour::Print(Printing::Value(Spelling::Int)),
        44 => Behaviour::Print(Printing::Value(Spelling::Long)),
        45 => Behaviour::Print(Printing::Value(Spelling::Text)),
        46 => Behaviour::Print(Printing::Value(Spelling::Chars)),
        47 => Behaviour::Print(Printing::Line(Spelling::Bool)),
        48 => Behaviour::Print(Printing::Line(Spelling::Char)),
        49 => Behaviour::Print(Printing::Line(Spelling::Int)),
        50 => Behaviour::Print(Printing::Line(Spelling::Long)),
        51 => Behaviour::Print(Printing::Line(Spelling::Text)),
        52 => Behaviour::Print(Printing::Line(Spelling::Chars)),
        53 => Behaviour::Print(Printing::LineEnd),
        54 => Behaviour::Compute(Computation::Pass),
        _ => unreachable!(),
    }
}

/// Those of System, and of Integer up to `longValue`.
fn from_copy_on(number: u32) -> Behaviour
    requires least { 54 < number }
    requires most { number < 65 }
    ensures row { meaning result ≡ native_of number }
    ensures count { takes result (length (reads_at number)) ≡ true }
    ensures reads { wants_read result (reads_at number) ≡ true }
    ensures known { is_known result ≡ is_numbered number }
{
    match number {
        55 => Behaviour::CopyArray,
        56 => Behaviour::Compute(Computation::Exit),
        57 => Behaviour::Make(Maker::LineSeparator),
        58 => Behaviour::Compute(Computation::Pass),
        59 => Behaviour::Make(Maker::IntegerOf),
        60 => Behaviour::AskTexts(TextQuestion::Parse),
        61 => Behaviour::Make(Maker::SpellInt),
        62 => Behaviour::Compute(Computation::CompareInts),
        63 => Behaviour::AskCells(CellQuestion::IntValue),
        64 => Behaviour::AskCells(CellQuestion::LongValue),
        _ => unreachable!(),
    }
}

/// The other ones of Integer, and those of Boolean.
fn from_spell_integer_on(number: u32) -> Behaviour
    requires least { 64 < number }
    requires most { number < 74 }
    ensures row { meaning result ≡ native_of number }
    ensures count { takes result (length (reads_at number)) ≡ true }
    ensures reads { wants_read result (reads_at number) ≡ true }
    ensures known { is_known result ≡ is_numbered number }
{
    match number {
        65 => Behaviour::Make(Maker::SpellInteger),
        66 | 72 => Behaviour::AskCells(CellQuestion::SameNumber),
        67 | 70 => Behaviour::AskCells(CellQuestion::IntValue),
        68 | 73 => Behaviour::AskCells(CellQuestion::CompareNumbers),
        69 => Behaviour::Compute(Computation::BooleanOf),
        71 => Behaviour::Make(Maker::SpellBoolean),
        _ => unreachable!(),
    }
}

/// Those of Math, and `<init>` and `name` of Enum.
fn from_math_on(number: u32) -> Behaviour
    requires least { 73 < number }
    requires most { number < 82 }
    ensures row { meaning result ≡ native_of number }
    ensures count { takes result (length (reads_at number)) ≡ true }
    ensures reads { wants_read result (reads_at number) ≡ true }
    ensures known { is_known result ≡ is_numbered number }
{
    match number {
        74 => Behaviour::Compute(Computation::AbsoluteInt),
        75 => Behaviour::Compute(Computation::AbsoluteLong),
        76 => Behaviour::Compute(Computation::GreaterInt),
        77 => Behaviour::Compute(Computation::GreaterLong),
        78 => Behaviour::Compute(Computation::LesserInt),
        79 => Behaviour::Compute(Computation::LesserLong),
        80 => Behaviour::Initialise(Initialiser::Enum),
        81 => Behaviour::AskCells(CellQuestion::FirstCell),
        _ => unreachable!(),
    }
}

/// The other ones of Enum, and those of Throwable.
fn from_ordinal_on(number: u32) -> Behaviour
    requires least { 81 < number }
    requires most { number < 93 }
    ensures row { meaning result ≡ native_of number }
    ensures count { takes result (length (reads_at number)) ≡ true }
    ensures reads { wants_read result (reads_at number) ≡ true }
    ensures known { is_known result ≡ is_numbered number }
{
    match number {
        82 | 90 => Behaviour::AskCells(CellQuestion::SecondCell),
        83 | 89 => Behaviour::AskCells(CellQuestion::FirstCell),
        84 => Behaviour::Compute(Computation::SameObject),
        85 => Behaviour::AskCells(CellQuestion::CompareOrdinals),
        86 => Behaviour::Initialise(Initialiser::Throwable),
        87 => Behaviour::Initialise(Initialiser::Throwable),
        88 => Behaviour::Initialise(Initialiser::Throwable),
        91 => Behaviour::Make(Maker::ClassName),
        92 => Behaviour::Compute(Computation::AddSuppressed),
        _ => unreachable!(),
    }
}

/// The numbers up to 40.
fn lower(number: u32) -> Behaviour
    requires least { 0 < number }
    requires most { number < 41 }
    ensures row { meaning result ≡ native_of number }
    ensures count { takes result (length (reads_at number)) ≡ true }
    ensures reads { wants_read result (reads_at number) ≡ true }
    ensures known { is_known result ≡ is_numbered number }
{
    if number < 11 {
        from_object_on(number)
    } else if number < 21 {
        from_compare_on(number)
    } else if number < 29 {
        from_text_of_on(number)
    } else {
        from_append_on(number)
    }
}

/// The numbers above 40.
fn upper(number: u32) -> Behaviour
    requires least { 40 < number }
    requires most { number < 93 }
    ensures row { meaning result ≡ native_of number }
    ensures count { takes result (length (reads_at number)) ≡ true }
    ensures reads { wants_read result (reads_at number) ≡ true }
    ensures known { is_known result ≡ is_numbered number }
{
    if number < 55 {
        from_print_on(number)
    } else if number < 65 {
        from_copy_on(number)
    } else if number < 74 {
        from_spell_integer_on(number)
    } else if number < 82 {
        from_math_on(number)
    } else {
        from_ordinal_on(number)
    }
}

/// What the native method of a number does.
pub fn behaviour_of(number: u32) -> Behaviour
    ensures row { meaning result ≡ native_of number }
    ensures count { takes result (length (reads_at number)) ≡ true }
    ensures reads { wants_read result (reads_at number) ≡ true }
    ensures known { is_known result ≡ is_numbered number }
{
    if number == 0 {
        return Behaviour::Missing;
    }
    if number > 92 {
        return Behaviour::Missing;
    }
    if number < 41 {
        lower(number)
    } else {
        upper(number)
    }
}
