//! The table of the core classes, in their order: the part of the class library of Java SE 7 that a program may use (own).
//! Fields whose names begin with `/` can be named by no class file.

use crate::forms::{
    ACONST_NULL, ALOAD_0, ALOAD_1, ALOAD_2, ARETURN, ASTORE_1, ASTORE_2, DUP, IRETURN, RETURN,
    cell, class, coded, constant, field, general_throwable, interface, method, native,
    native_static, op, plain_throwable, refused, unbodied,
};
use crate::row::{ClassRow, FieldRow, How, Instruction, MethodRow, Reference};

/// compareTo of any object, by compareTo of the own class: the references are the class and that method.
const COMPARE_OBJECTS: MethodRow = coded!(
    "compareTo",
    "(Ljava/lang/Object;)I",
    2,
    2,
    &[
        ALOAD_0,
        ALOAD_1,
        op!(checkcast 0),
        op!(invokevirtual 1),
        IRETURN
    ]
);

/// A method of any object, by the method for its text: the references are valueOf of String and that method.
macro_rules! by_text {
    ($name:expr, $descriptor:expr, $method:expr, $end:expr) => {
        coded!(
            $name,
            $descriptor,
            2,
            2,
            &[ALOAD_0, ALOAD_1, op!(invokestatic 0), op!(invokevirtual $method), $end]
        )
    };
}

const TEXT_OF_OBJECT: Reference = Reference::Method(
    "java/lang/String",
    "valueOf",
    "(Ljava/lang/Object;)Ljava/lang/String;",
);

const TEXT_OF_THROWABLE: Reference = Reference::Method(
    "java/lang/Throwable",
    "toString",
    "()Ljava/lang/String;",
);

const WITHOUT_MESSAGE: MethodRow = native!("<init>", "()V", 86);

const WITH_MESSAGE: MethodRow = native!("<init>", "(Ljava/lang/String;)V", 87);

const WITH_MESSAGE_AND_CAUSE: MethodRow = native!(
    "<init>",
    "(Ljava/lang/String;Ljava/lang/Throwable;)V",
    88
);

/// The constructor with a cause alone, whose text is the message: the references are toString of Throwable and the constructor with both.
const WITH_CAUSE: MethodRow = coded!(
    "<init>",
    "(Ljava/lang/Throwable;)V",
    3,
    2,
    &[
        ALOAD_0,
        ALOAD_1,
        op!(ifnonnull 7),
        ACONST_NULL,
        op!(goto 7),
        ALOAD_1,
        op!(invokevirtual 0),
        ALOAD_1,
        op!(invokespecial 1),
        RETURN
    ]
);

const OBJECT: ClassRow = class!(
    0x0021,
    "java/lang/Object",
    None,
    &[],
    &[],
    &[
        native!("<init>", "()V", 1),
        native!("equals", "(Ljava/lang/Object;)Z", 2),
        refused!("hashCode", "()I"),
        refused!("toString", "()Ljava/lang/String;")
    ],
    &[]
);

const STRING: ClassRow = class!(
    0x0031,
    "java/lang/String",
    Some("java/lang/Object"),
    &[
        "java/lang/Comparable",
        "java/lang/CharSequence",
        "java/io/Serializable"
    ],
    &[cell!("/text", "T")],
    &[
        native!("<init>", "()V", 3),
        native!("<init>", "(Ljava/lang/String;)V", 4),
        native!("<init>", "([C)V", 5),
        native!("length", "()I", 6),
        native!("isEmpty", "()Z", 7),
        native!("charAt", "(I)C", 8),
        native!("hashCode", "()I", 9),
        native!("equals", "(Ljava/lang/Object;)Z", 10),
        native!("compareTo", "(Ljava/lang/String;)I", 11),
        COMPARE_OBJECTS,
        native!("concat", "(Ljava/lang/String;)Ljava/lang/String;", 12),
        native!("substring", "(I)Ljava/lang/String;", 13),
        native!("substring", "(II)Ljava/lang/String;", 14),
        native!("indexOf", "(I)I", 15),
        native!("indexOf", "(Ljava/lang/String;)I", 16),
        native!("startsWith", "(Ljava/lang/String;)Z", 17),
        native!("endsWith", "(Ljava/lang/String;)Z", 18),
        native!("toCharArray", "()[C", 19),
        native!("toString", "()Ljava/lang/String;", 20),
        native_static!("valueOf", "(I)Ljava/lang/String;", 21),
        native_static!("valueOf", "(J)Ljava/lang/String;", 22),
        native_static!("valueOf", "(Z)Ljava/lang/String;", 23),
        native_static!("valueOf", "(C)Ljava/lang/String;", 24),
        native_static!("valueOf", "([C)Ljava/lang/String;", 25),
        method!(
            0x0009,
            "valueOf",
            "(Ljava/lang/Object;)Ljava/lang/String;",
            How::Body(
                1,
                1,
                &[
                    ALOAD_0,
                    op!(ifnonnull 6),
                    op!(ldc 2),
                    ARETURN,
                    ALOAD_0,
                    op!(invokevirtual 3),
                    ARETURN
                ]
            )
        )
    ],
    &[
        Reference::Class("java/lang/String"),
        Reference::Method("java/lang/String", "compareTo", "(Ljava/lang/String;)I"),
        Reference::Text("null"),
        Reference::Method("java/lang/Object", "toString", "()Ljava/lang/String;")
    ]
);

const STRING_BUILDER: ClassRow = class!(
    0x0031,
    "java/lang/StringBuilder",
    Some("java/lang/Object"),
    &["java/lang/CharSequence", "java/io/Serializable"],
    &[cell!("/text", "T")],
    &[
        native!("<init>", "()V", 26),
        native!("<init>", "(I)V", 27),
        native!("<init>", "(Ljava/lang/String;)V", 28),
        native!("append", "(I)Ljava/lang/StringBuilder;", 29),
        native!("append", "(J)Ljava/lang/StringBuilder;", 30),
        native!("append", "(Z)Ljava/lang/StringBuilder;", 31),
        native!("append", "(C)Ljava/lang/StringBuilder;", 32),
        native!(
            "append",
            "(Ljava/lang/String;)Ljava/lang/StringBuilder;",
            33
        ),
        by_text!(
            "append",
            "(Ljava/lang/Object;)Ljava/lang/StringBuilder;",
            1,
            ARETURN
        ),
        native!("length", "()I", 34),
        native!("charAt", "(I)C", 35),
        native!("setLength", "(I)V", 36),
        native!("deleteCharAt", "(I)Ljava/lang/StringBuilder;", 37),
        native!("reverse", "()Ljava/lang/StringBuilder;", 38),
        native!("toString", "()Ljava/lang/String;", 39)
    ],
    &[
        TEXT_OF_OBJECT,
        Reference::Method(
            "java/lang/StringBuilder",
            "append",
            "(Ljava/lang/String;)Ljava/lang/StringBuilder;"
        )
    ]
);

const CLASS: ClassRow = class!(
    0x0031,
    "java/lang/Class",
    Some("java/lang/Object"),
    &["java/io/Serializable"],
    &[],
    &[native!("desiredAssertionStatus", "()Z", 40)],
    &[]
);

const PRINT_STREAM: ClassRow = class!(
    0x0021,
    "java/io/PrintStream",
    Some("java/lang/Object"),
    &[],
    &[cell!("/stream", "I")],
    &[
        native!("print", "(Z)V", 41),
        native!("print", "(C)V", 42),
        native!("print", "(I)V", 43),
        native!("print", "(J)V", 44),
        native!("print", "(Ljava/lang/String;)V", 45),
        native!("print", "([C)V", 46),
        by_text!("print", "(Ljava/lang/Object;)V", 1, RETURN),
        native!("println", "(Z)V", 47),
        native!("println", "(C)V", 48),
        native!("println", "(I)V", 49),
        native!("println", "(J)V", 50),
        native!("println", "(Ljava/lang/String;)V", 51),
        native!("println", "([C)V", 52),
        by_text!("println", "(Ljava/lang/Object;)V", 2, RETURN),
        native!("println", "()V", 53),
        native!("flush", "()V", 54)
    ],
    &[
        TEXT_OF_OBJECT,
        Reference::Method("java/io/PrintStream", "print", "(Ljava/lang/String;)V"),
        Reference::Method("java/io/PrintStream", "println", "(Ljava/lang/String;)V")
    ]
);

const SYSTEM: ClassRow = class!(
    0x0031,
    "java/lang/System",
    Some("java/lang/Object"),
    &[],
    &[
        constant!("out", "Ljava/io/PrintStream;"),
        constant!("err", "Ljava/io/PrintStream;")
    ],
    &[
        native_static!(
            "arraycopy",
            "(Ljava/lang/Object;ILjava/lang/Object;II)V",
            55
        ),
        native_static!("exit", "(I)V", 56),
        native_static!("lineSeparator", "()Ljava/lang/String;", 57)
    ],
    &[]
);

const NUMBER: ClassRow = class!(
    0x0421,
    "java/lang/Number",
    Some("java/lang/Object"),
    &["java/io/Serializable"],
    &[],
    &[
        native!("<init>", "()V", 58),
        unbodied!("intValue", "()I"),
        unbodied!("longValue", "()J")
    ],
    &[]
);

const INTEGER: ClassRow = class!(
    0x0031,
    "java/lang/Integer",
    Some("java/lang/Number"),
    &["java/lang/Comparable"],
    &[cell!("/value", "I")],
    &[
        native_static!("valueOf", "(I)Ljava/lang/Integer;", 59),
        native_static!("parseInt", "(Ljava/lang/String;)I", 60),
        native_static!("toString", "(I)Ljava/lang/String;", 61),
        native_static!("compare", "(II)I", 62),
        native!("intValue", "()I", 63),
        native!("longValue", "()J", 64),
        native!("toString", "()Ljava/lang/String;", 65),
        native!("equals", "(Ljava/lang/Object;)Z", 66),
        native!("hashCode", "()I", 67),
        native!("compareTo", "(Ljava/lang/Integer;)I", 68),
        COMPARE_OBJECTS
    ],
    &[
        Reference::Class("java/lang/Integer"),
        Reference::Method("java/lang/Integer", "compareTo", "(Ljava/lang/Integer;)I")
    ]
);

const BOOLEAN: ClassRow = class!(
    0x0031,
    "java/lang/Boolean",
    Some("java/lang/Object"),
    &["java/lang/Comparable", "java/io/Serializable"],
    &[
        cell!("/value", "Z"),
        constant!("TRUE", "Ljava/lang/Boolean;"),
        constant!("FALSE", "Ljava/lang/Boolean;")
    ],
    &[
        native_static!("valueOf", "(Z)Ljava/lang/Boolean;", 69),
        native!("booleanValue", "()Z", 70),
        native!("toString", "()Ljava/lang/String;", 71),
        native!("equals", "(Ljava/lang/Object;)Z", 72),
        native!("compareTo", "(Ljava/lang/Boolean;)I", 73),
        COMPARE_OBJECTS
    ],
    &[
        Reference::Class("java/lang/Boolean"),
        Reference::Method("java/lang/Boolean", "compareTo", "(Ljava/lang/Boolean;)I")
    ]
);

const MATH: ClassRow = class!(
    0x0031,
    "java/lang/Math",
    Some("java/lang/Object"),
    &[],
    &[],
    &[
        native_static!("abs", "(I)I", 74),
        native_static!("abs", "(J)J", 75),
        native_static!("max", "(II)I", 76),
        native_static!("max", "(JJ)J", 77),
        native_static!("min", "(II)I", 78),
        native_static!("min", "(JJ)J", 79)
    ],
    &[]
);

const ENUM: ClassRow = class!(
    0x0421,
    "java/lang/Enum",
    Some("java/lang/Object"),
    &["java/lang/Comparable", "java/io/Serializable"],
    &[cell!("/name", "Ljava/lang/String;"), cell!("/ordinal", "I")],
    &[
        native!("<init>", "(Ljava/lang/String;I)V", 80),
        native!("name", "()Ljava/lang/String;", 81),
        native!("ordinal", "()I", 82),
        native!("toString", "()Ljava/lang/String;", 83),
        native!("equals", "(Ljava/lang/Object;)Z", 84),
        native!("compareTo", "(Ljava/lang/Enum;)I", 85),
        COMPARE_OBJECTS
    ],
    &[
        Reference::Class("java/lang/Enum"),
        Reference::Method("java/lang/Enum", "compareTo", "(Ljava/lang/Enum;)I")
    ]
);

const THROWABLE: ClassRow = class!(
    0x0021,
    "java/lang/Throwable",
    Some("java/lang/Object"),
    &["java/io/Serializable"],
    &[
        cell!("/message", "Ljava/lang/String;"),
        cell!("/cause", "Ljava/lang/Throwable;")
    ],
    &[
        WITHOUT_MESSAGE,
        WITH_MESSAGE,
        WITH_MESSAGE_AND_CAUSE,
        WITH_CAUSE,
        native!("getMessage", "()Ljava/lang/String;", 89),
        native!("getCause", "()Ljava/lang/Throwable;", 90),
        native!("className0", "()Ljava/lang/String;", 91),
        native!("addSuppressed", "(Ljava/lang/Throwable;)V", 92),
        coded!(
            "getLocalizedMessage",
            "()Ljava/lang/String;",
            1,
            1,
            &[ALOAD_0, op!(invokevirtual 2), ARETURN]
        ),
        coded!(
            "toString",
            "()Ljava/lang/String;",
            2,
            3,
            &[
                ALOAD_0,
                op!(invokevirtual 3),
                ASTORE_1,
                ALOAD_0,
                op!(invokevirtual 4),
                ASTORE_2,
                ALOAD_2,
                op!(ifnonnull 5),
                ALOAD_1,
                ARETURN,
                op!(new 5),
                DUP,
                op!(invokespecial 6),
                ALOAD_1,
                op!(invokevirtual 7),
                op!(ldc 8),
                op!(invokevirtual 7),
                ALOAD_2,
                op!(invokevirtual 7),
                op!(invokevirtual 9),
                ARETURN
            ]
        )
    ],
    &[
        TEXT_OF_THROWABLE,
        Reference::Method(
            "java/lang/Throwable",
            "<init>",
            "(Ljava/lang/String;Ljava/lang/Throwable;)V"
        ),
        Reference::Method("java/lang/Throwable", "getMessage", "()Ljava/lang/String;"),
        Reference::Method("java/lang/Throwable", "className0", "()Ljava/lang/String;"),
        Reference::Method(
            "java/lang/Throwable",
            "getLocalizedMessage",
            "()Ljava/lang/String;"
        ),
        Reference::Class("java/lang/StringBuilder"),
        Reference::Method("java/lang/StringBuilder", "<init>", "()V"),
        Reference::Method(
            "java/lang/StringBuilder",
            "append",
            "(Ljava/lang/String;)Ljava/lang/StringBuilder;"
        ),
        Reference::Text(": "),
        Reference::Method(
            "java/lang/StringBuilder",
            "toString",
            "()Ljava/lang/String;"
        )
    ]
);

const ASSERTION_ERROR: ClassRow = class!(
    0x0021,
    "java/lang/AssertionError",
    Some("java/lang/Error"),
    &[],
    &[],
    &[
        WITHOUT_MESSAGE,
        WITH_MESSAGE,
        coded!(
            "<init>",
            "(Ljava/lang/Object;)V",
            3,
            2,
            &[
                ALOAD_0,
                ALOAD_1,
                op!(invokestatic 0),
                ALOAD_1,
                op!(instanceof 1),
                op!(ifeq 10),
                ALOAD_1,
                op!(checkcast 1),
                op!(goto 4),
                ACONST_NULL,
                op!(invokespecial 2),
                RETURN
            ]
        )
    ],
    &[
        TEXT_OF_OBJECT,
        Reference::Class("java/lang/Throwable"),
        Reference::Method(
            "java/lang/Error",
            "<init>",
            "(Ljava/lang/String;Ljava/lang/Throwable;)V"
        )
    ]
);

/// Object and the interfaces: the core classes from the first on.
pub const FIRST: [ClassRow; 8] = [
    OBJECT,
    interface!(
        "java/lang/Comparable",
        &[unbodied!("compareTo", "(Ljava/lang/Object;)I")]
    ),
    interface!(
        "java/lang/CharSequence",
        &[unbodied!("length", "()I"), unbodied!("charAt", "(I)C")]
    ),
    interface!("java/lang/Cloneable", &[]),
    interface!("java/lang/Runnable", &[unbodied!("run", "()V")]),
    interface!(
        "java/lang/Iterable",
        &[unbodied!("iterator", "()Ljava/util/Iterator;")]
    ),
    interface!("java/io/Serializable", &[]),
    interface!(
        "java/util/Iterator",
        &[
            unbodied!("hasNext", "()Z"),
            unbodied!("next", "()Ljava/lang/Object;"),
            unbodied!("remove", "()V")
        ]
    ),
];

/// The classes of texts, which follow.
pub const TEXTS: [ClassRow; 2] = [STRING, STRING_BUILDER];

/// Class, PrintStream and System, which follow.
pub const SYSTEM_CLASSES: [ClassRow; 3] = [CLASS, PRINT_STREAM, SYSTEM];

/// The classes of numbers and of enums, which follow.
pub const VALUES: [ClassRow; 5] = [NUMBER, INTEGER, BOOLEAN, MATH, ENUM];

/// Throwable and the throwables with its four constructors, which follow.
pub const GENERAL: [ClassRow; 7] = [
    THROWABLE,
    general_throwable!("java/lang/Exception", "java/lang/Throwable"),
    general_throwable!("java/lang/RuntimeException", "java/lang/Exception"),
    general_throwable!("java/lang/Error", "java/lang/Throwable"),
    general_throwable!(
        "java/lang/IllegalArgumentException",
        "java/lang/RuntimeException"
    ),
    general_throwable!(
        "java/lang/IllegalStateException",
        "java/lang/RuntimeException"
    ),
    general_throwable!(
        "java/lang/UnsupportedOperationException",
        "java/lang/RuntimeException"
    ),
];

/// The other exceptions, which follow.
pub const EXCEPTIONS: [ClassRow; 10] = [
    plain_throwable!(
        "java/lang/ArithmeticException",
        "java/lang/RuntimeException"
    ),
    plain_throwable!(
        "java/lang/ArrayStoreException",
        "java/lang/RuntimeException"
    ),
    plain_throwable!("java/lang/ClassCastException", "java/lang/RuntimeException"),
    plain_throwable!(
        "java/lang/NegativeArraySizeException",
        "java/lang/RuntimeException"
    ),
    plain_throwable!(
        "java/lang/NullPointerException",
        "java/lang/RuntimeException"
    ),
    plain_throwable!(
        "java/lang/IndexOutOfBoundsException",
        "java/lang/RuntimeException"
    ),
    plain_throwable!(
        "java/lang/ArrayIndexOutOfBoundsException",
        "java/lang/IndexOutOfBoundsException"
    ),
    plain_throwable!(
        "java/lang/StringIndexOutOfBoundsException",
        "java/lang/IndexOutOfBoundsException"
    ),
    plain_throwable!(
        "java/lang/NumberFormatException",
        "java/lang/IllegalArgumentException"
    ),
    plain_throwable!(
        "java/util/NoSuchElementException",
        "java/lang/RuntimeException"
    ),
];

/// The other errors, which are the last.
pub const ERRORS: [ClassRow; 11] = [
    plain_throwable!("java/lang/LinkageError", "java/lang/Error"),
    plain_throwable!(
        "java/lang/ExceptionInInitializerError",
        "java/lang/LinkageError"
    ),
    plain_throwable!("java/lang/NoClassDefFoundError", "java/lang/LinkageError"),
    plain_throwable!(
        "java/lang/IncompatibleClassChangeError",
        "java/lang/LinkageError"
    ),
    plain_throwable!(
        "java/lang/AbstractMethodError",
        "java/lang/IncompatibleClassChangeError"
    ),
    plain_throwable!(
        "java/lang/InstantiationError",
        "java/lang/IncompatibleClassChangeError"
    ),
    plain_throwable!(
        "java/lang/NoSuchFieldError",
        "java/lang/IncompatibleClassChangeError"
    ),
    plain_throwable!("java/lang/VirtualMachineError", "java/lang/Error"),
    plain_throwable!(
        "java/lang/StackOverflowError",
        "java/lang/VirtualMachineError"
    ),
    plain_throwable!(
        "java/lang/OutOfMemoryError",
        "java/lang/VirtualMachineError"
    ),
    ASSERTION_ERROR,
];
