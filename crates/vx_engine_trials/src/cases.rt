//! Worked examples: a source of a class `Main`, and the report of its runs with the first key picked.

/// A program with the model of its options, and what has to come of it.
#[derive(Clone, Copy)]
pub(crate) struct Case<'a> {
    pub source: &'a [u8],
    pub model: &'a [u8],
    pub limit: u64,
    pub version: u8,
    pub report: &'a [u8],
}

const ONE_OPTION: &[u8] = b"option A Main A\n";

/// Stores 1 where A is on and 2 in more steps where it is off, and prints it.
const STORES_ONE_OR_TWO: &[u8] =
    b"class 0021 Main java/lang/Object\nfield 0009 A Z\nmethod 0009 main ([Ljava/lang/String;)V 6 4\ngetstatic Main A Z\nifeq P11\niconst_1\nistore_1\ngoto P15\nP11:\niconst_2\nistore_1\nnop\nnop\nP15:\ngetstatic java/lang/System out Ljava/io/PrintStream;\niload_1\ninvokevirtual java/io/PrintStream println (I)V\nreturn\nend\n";

/// Two branches that join with different values.
pub(crate) const DIFFERENT_VALUES: Case = Case {
    source: STORES_ONE_OR_TWO,
    model: ONE_OPTION,
    limit: 100,
    version: 2,
    report: b"varexj report 2\noptions 1\noption A\nlimit 100\nrounds 13\nnode 2 0 0 1\nnode 3 0 1 0\nout 2 1\\0a\nout 3 2\\0a\nend 1 return\nattempts 2 9\nattempts 3 10\ndone\n",
};

/// All the others.
pub(crate) const CASES: [Case; 7] = [
    // Two branches that join with equal values.
    Case {
        source: b"class 0021 Main java/lang/Object\nfield 0009 A Z\nmethod 0009 main ([Ljava/lang/String;)V 6 4\ngetstatic Main A Z\nifeq P11\niconst_1\nistore_1\ngoto P15\nP11:\niconst_1\nistore_1\nnop\nnop\nP15:\ngetstatic java/lang/System out Ljava/io/PrintStream;\niload_1\ninvokevirtual java/io/PrintStream println (I)V\nreturn\nend\n",
        model: ONE_OPTION,
        limit: 100,
        version: 1,
        report: b"varexj report 1\noptions 1\noption A\nlimit 100\nrounds 13\nout 1 1\\0a\nend 1 return\ndone\n",
    },
    // The limit ends the longer branch.
    Case {
        source: STORES_ONE_OR_TWO,
        model: ONE_OPTION,
        limit: 9,
        version: 1,
        report: b"varexj report 1\noptions 1\noption A\nlimit 9\nrounds 13\nnode 2 0 0 1\nnode 3 0 1 0\nout 2 1\\0a\nout 3 2\\0a\nend 2 return\nend 3 unfinished\ndone\n",
    },
    // The limit ends both branches.
    Case {
        source: STORES_ONE_OR_TWO,
        model: ONE_OPTION,
        limit: 8,
        version: 1,
        report: b"varexj report 1\noptions 1\noption A\nlimit 8\nrounds 12\nnode 2 0 0 1\nout 2 1\\0a\nend 1 unfinished\ndone\n",
    },
    // A loop without end in one branch.
    Case {
        source: b"class 0021 Main java/lang/Object\nfield 0009 A Z\nmethod 0009 main ([Ljava/lang/String;)V 6 4\ngetstatic Main A Z\nifeq P16\ngetstatic java/lang/System out Ljava/io/PrintStream;\niconst_1\ninvokevirtual java/io/PrintStream println (I)V\nP13:\ngoto P13\nP16:\nreturn\nend\n",
        model: ONE_OPTION,
        limit: 50,
        version: 1,
        report: b"varexj report 1\noptions 1\noption A\nlimit 50\nrounds 51\nnode 2 0 0 1\nnode 3 0 1 0\nout 2 1\\0a\nend 3 return\nend 2 unfinished\ndone\n",
    },
    // What isn't in the accepted language, in one branch.
    Case {
        source: b"class 0021 Main java/lang/Object\nfield 0009 B Z\nmethod 0009 main ([Ljava/lang/String;)V 6 4\ngetstatic Main B Z\nifeq P8\nfconst_0\npop\nP8:\nreturn\nend\n",
        model: b"option B Main B\n",
        limit: 100,
        version: 1,
        report: b"varexj report 1\noptions 1\noption B\nlimit 100\nrounds 4\nnode 2 0 1 0\nnode 3 0 0 1\nend 2 return\nend 3 unsupported float - Main.main([Ljava/lang/String;)V@6\ndone\n",
    },
    // An exception, without options.
    Case {
        source: b"class 0021 Main java/lang/Object\nmethod 0009 main ([Ljava/lang/String;)V 6 4\niconst_1\niconst_0\nirem\npop\nreturn\nend\n",
        model: b"",
        limit: 100,
        version: 1,
        report: b"varexj report 1\noptions 0\nlimit 100\nrounds 3\nend 1 uncaught java/lang/ArithmeticException\ndone\n",
    },
    // Prints where two pairs of options are equal.
    Case {
        source: b"class 0021 Main java/lang/Object\nfield 0009 X0 Z\nfield 0009 X1 Z\nfield 0009 Y0 Z\nfield 0009 Y1 Z\nmethod 0009 main ([Ljava/lang/String;)V 6 4\ngetstatic Main X0 Z\ngetstatic Main Y0 Z\nif_icmpne END\ngetstatic Main X1 Z\ngetstatic Main Y1 Z\nif_icmpne END\ngetstatic java/lang/System out Ljava/io/PrintStream;\niconst_1\ninvokevirtual java/io/PrintStream println (I)V\nEND:\nreturn\nend\n",
        model: b"option X0 Main X0\noption X1 Main X1\noption Y0 Main Y0\noption Y1 Main Y1\n",
        limit: 100,
        version: 1,
        report: b"varexj report 1\noptions 4\noption X0\noption X1\noption Y0\noption Y1\nlimit 100\nrounds 10\nnode 2 3 1 0\nnode 3 2 2 0\nnode 4 3 0 1\nnode 5 2 4 0\nnode 6 1 3 5\nnode 7 2 0 2\nnode 8 2 0 4\nnode 9 1 7 8\nnode 10 0 6 9\nout 10 1\\0a\nend 1 return\ndone\n",
    },
];
