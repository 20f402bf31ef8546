//! Short forms in which the table of the core classes is written: instructions by their mnemonics, members by their kinds, and classes.

use crate::row::Instruction;

pub const ACONST_NULL: Instruction = Instruction::Plain(0x01);

pub const ALOAD_0: Instruction = Instruction::Plain(0x2a);

pub const ALOAD_1: Instruction = Instruction::Plain(0x2b);

pub const ALOAD_2: Instruction = Instruction::Plain(0x2c);

pub const ASTORE_1: Instruction = Instruction::Plain(0x4c);

pub const ASTORE_2: Instruction = Instruction::Plain(0x4d);

pub const DUP: Instruction = Instruction::Plain(0x59);

pub const IRETURN: Instruction = Instruction::Plain(0xac);

pub const ARETURN: Instruction = Instruction::Plain(0xb0);

pub const RETURN: Instruction = Instruction::Plain(0xb1);

/// An instruction that jumps or names a reference, by its mnemonic (JVMS 7).
macro_rules! op {
    (ifeq $distance:expr) => {
        Instruction::Jump(0x99, $distance)
    };
    (goto $distance:expr) => {
        Instruction::Jump(0xa7, $distance)
    };
    (ifnonnull $distance:expr) => {
        Instruction::Jump(0xc7, $distance)
    };
    (invokevirtual $reference:expr) => {
        Instruction::Naming(0xb6, $reference)
    };
    (invokespecial $reference:expr) => {
        Instruction::Naming(0xb7, $reference)
    };
    (invokestatic $reference:expr) => {
        Instruction::Naming(0xb8, $reference)
    };
    (new $reference:expr) => {
        Instruction::Naming(0xbb, $reference)
    };
    (checkcast $reference:expr) => {
        Instruction::Naming(0xc0, $reference)
    };
    (instanceof $reference:expr) => {
        Instruction::Naming(0xc1, $reference)
    };
    (ldc $reference:expr) => {
        Instruction::Ldc($reference)
    };
}

/// A field, by its flags.
macro_rules! field {
    ($flags:expr, $name:expr, $descriptor:expr) => {
        FieldRow {
            name: $name,
            descriptor: $descriptor,
            flags: $flags,
        }
    };
}

/// A field of an object that no class file can name.
macro_rules! cell {
    ($name:expr, $descriptor:expr) => {
        field!(0x0002, $name, $descriptor)
    };
}

/// A field that is public, static and final.
macro_rules! constant {
    ($name:expr, $descriptor:expr) => {
        field!(0x0019, $name, $descriptor)
    };
}

/// A method, by its flags.
macro_rules! method {
    ($flags:expr, $name:expr, $descriptor:expr, $how:expr) => {
        MethodRow {
            name: $name,
            descriptor: $descriptor,
            flags: $flags,
            how: $how,
        }
    };
}

/// A native method of an object, by its number.
macro_rules! native {
    ($name:expr, $descriptor:expr, $number:expr) => {
        method!(0x0101, $name, $descriptor, How::Native($number))
    };
}

/// A static native method, by its number.
macro_rules! native_static {
    ($name:expr, $descriptor:expr, $number:expr) => {
        method!(0x0109, $name, $descriptor, How::Native($number))
    };
}

/// A method that is left out: it ends the run.
macro_rules! refused {
    ($name:expr, $descriptor:expr) => {
        method!(0x0101, $name, $descriptor, How::Nothing)
    };
}

/// An abstract method.
macro_rules! unbodied {
    ($name:expr, $descriptor:expr) => {
        method!(0x0401, $name, $descriptor, How::Nothing)
    };
}

/// A method of an object with code.
macro_rules! coded {
    ($name:expr, $descriptor:expr, $stack:expr, $locals:expr, $instructions:expr) => {
        method!(
            0x0001,
            $name,
            $descriptor,
            How::Body($stack, $locals, $instructions)
        )
    };
}

/// A class, by its flags: its name, its superclass, its interfaces, its fields, its methods and its references.
macro_rules! class {
    ($flags:expr, $name:expr, $superclass:expr, $interfaces:expr, $fields:expr, $methods:expr, $references:expr) => {
        ClassRow {
            name: $name,
            superclass: $superclass,
            interfaces: $interfaces,
            flags: $flags,
            fields: $fields,
            methods: $methods,
            references: $references,
        }
    };
}

/// An interface.
macro_rules! interface {
    ($name:expr, $methods:expr) => {
        class!(
            0x0601,
            $name,
            Some("java/lang/Object"),
            &[],
            &[],
            $methods,
            &[]
        )
    };
}

/// A throwable that has Throwable's four constructors.
macro_rules! general_throwable {
    ($name:expr, $superclass:expr) => {
        class!(
            0x0021,
            $name,
            Some($superclass),
            &[],
            &[],
            &[
                WITHOUT_MESSAGE,
                WITH_MESSAGE,
                WITH_MESSAGE_AND_CAUSE,
                WITH_CAUSE
            ],
            &[
                TEXT_OF_THROWABLE,
                Reference::Method(
                    $name,
                    "<init>",
                    "(Ljava/lang/String;Ljava/lang/Throwable;)V"
                )
            ]
        )
    };
}

/// A throwable that has the constructors without a message and with one.
macro_rules! plain_throwable {
    ($name:expr, $superclass:expr) => {
        class!(
            0x0021,
            $name,
            Some($superclass),
            &[],
            &[],
            &[WITHOUT_MESSAGE, WITH_MESSAGE],
            &[]
        )
    };
}

pub(crate) use cell;
pub(crate) use class;
pub(crate) use coded;
pub(crate) use constant;
pub(crate) use field;
pub(crate) use general_throwable;
pub(crate) use interface;
pub(crate) use method;
pub(crate) use native;
pub(crate) use native_static;
pub(crate) use op;
pub(crate) use plain_throwable;
pub(crate) use refused;
pub(crate) use unbodied;
