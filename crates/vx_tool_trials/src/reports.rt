//! Two reports and the text of their agreement.

/// What the reports say, which agree where the text says.
#[derive(Clone, Copy)]
pub struct Case {
    pub one: &'static str,
    pub other: &'static str,
    pub text: &'static str,
}

/// Reports over one or two options.
pub const CASES: [Case; 17] = [
    // Where ends overlap the first counts: both return everywhere.
    Case {
        one: "varexj report 1\noptions 1\noption A\nlimit 100\nrounds 4\nnode 2 0 0 1\nout 1 a\\0a\nend 1 return\nend 2 exit 3\ndone\n",
        other: "varexj report 1\noptions 1\noption A\nlimit 100\nrounds 4\nout 1 a\\0a\nend 1 return\ndone\n",
        text: "varexj agree 1\noptions 1\noption A\nagree 1\ndone\n",
    },
    // Where the first end of each holds, the second of the other one doesn't count.
    Case {
        one: "varexj report 1\noptions 1\noption A\nlimit 100\nrounds 4\nnode 2 0 0 1\nend 2 return\nend 1 exit 3\ndone\n",
        other: "varexj report 1\noptions 1\noption A\nlimit 100\nrounds 4\nnode 2 0 1 0\nend 2 return\nend 1 exit 3\ndone\n",
        text: "varexj agree 1\noptions 1\noption A\nagree 0\ndone\n",
    },
    // An end that the other has not is passed over, and a configuration with no end agrees with none.
    Case {
        one: "varexj report 1\noptions 1\noption A\nlimit 100\nrounds 4\nnode 2 0 0 1\nnode 3 0 1 0\nend 2 exit 1\nend 3 exit 3\ndone\n",
        other: "varexj report 1\noptions 1\noption A\nlimit 100\nrounds 4\nnode 2 0 1 0\nend 2 exit 3\ndone\n",
        text: "varexj agree 1\noptions 1\noption A\nnode 2 0 1 0\nagree 2\ndone\n",
    },
    // So is one of the other.
    Case {
        one: "varexj report 1\noptions 1\noption A\nlimit 100\nrounds 4\nnode 2 0 1 0\nend 2 exit 3\ndone\n",
        other: "varexj report 1\noptions 1\noption A\nlimit 100\nrounds 4\nnode 2 0 0 1\nnode 3 0 1 0\nend 2 exit 1\nend 3 exit 3\ndone\n",
        text: "varexj agree 1\noptions 1\noption A\nnode 2 0 1 0\nagree 2\ndone\n",
    },
    // An output is the same however its pieces are cut.
    Case {
        one: "varexj report 1\noptions 1\noption A\nlimit 100\nrounds 4\nnode 2 0 0 1\nout 1 ab\nout 2 c\nend 1 return\ndone\n",
        other: "varexj report 1\noptions 1\noption A\nlimit 100\nrounds 4\nnode 2 0 0 1\nout 1 a\nout 1 b\nout 2 c\nend 1 return\ndone\n",
        text: "varexj agree 1\noptions 1\noption A\nagree 1\ndone\n",
    },
    // So it is where they are cut between the sets.
    Case {
        one: "varexj report 1\noptions 1\noption A\nlimit 100\nrounds 4\nnode 2 0 0 1\nnode 3 0 1 0\nout 2 xy\nout 3 x\nend 1 return\ndone\n",
        other: "varexj report 1\noptions 1\noption A\nlimit 100\nrounds 4\nnode 2 0 0 1\nout 1 x\nout 2 y\nend 1 return\ndone\n",
        text: "varexj agree 1\noptions 1\noption A\nagree 1\ndone\n",
    },
    // So it is where a piece of one begins within a piece of the other.
    Case {
        one: "varexj report 1\noptions 1\noption A\nlimit 100\nrounds 4\nout 1 ab\nout 1 cd\nend 1 return\ndone\n",
        other: "varexj report 1\noptions 1\noption A\nlimit 100\nrounds 4\nout 1 abc\nout 1 d\nend 1 return\ndone\n",
        text: "varexj agree 1\noptions 1\noption A\nagree 1\ndone\n",
    },
    // A part that only some configurations write is wanting in the others.
    Case {
        one: "varexj report 1\noptions 1\noption A\nlimit 100\nrounds 4\nnode 2 0 0 1\nout 1 a\nout 2 b\nout 1 c\nend 1 return\ndone\n",
        other: "varexj report 1\noptions 1\noption A\nlimit 100\nrounds 4\nout 1 abc\nend 1 return\ndone\n",
        text: "varexj agree 1\noptions 1\noption A\nnode 2 0 0 1\nagree 2\ndone\n",
    },
    // Streams that are exchanged are other outputs.
    Case {
        one: "varexj report 1\noptions 1\noption A\nlimit 100\nrounds 4\nout 1 a\nerr 1 b\nend 1 return\ndone\n",
        other: "varexj report 1\noptions 1\noption A\nlimit 100\nrounds 4\nerr 1 a\nout 1 b\nend 1 return\ndone\n",
        text: "varexj agree 1\noptions 1\noption A\nagree 0\ndone\n",
    },
    // So they are where one configuration writes on them.
    Case {
        one: "varexj report 1\noptions 1\noption A\nlimit 100\nrounds 4\nnode 2 0 0 1\nout 1 a\nerr 2 b\nend 1 return\ndone\n",
        other: "varexj report 1\noptions 1\noption A\nlimit 100\nrounds 4\nnode 2 0 0 1\nout 1 a\nout 2 b\nend 1 return\ndone\n",
        text: "varexj agree 1\noptions 1\noption A\nnode 2 0 1 0\nagree 2\ndone\n",
    },
    // A prefix is another output.
    Case {
        one: "varexj report 1\noptions 1\noption A\nlimit 100\nrounds 4\nout 1 ab\nend 1 return\ndone\n",
        other: "varexj report 1\noptions 1\noption A\nlimit 100\nrounds 4\nnode 2 0 0 1\nout 1 ab\nout 2 c\nend 1 return\ndone\n",
        text: "varexj agree 1\noptions 1\noption A\nnode 2 0 1 0\nagree 2\ndone\n",
    },
    // So it is in the first report.
    Case {
        one: "varexj report 1\noptions 1\noption A\nlimit 100\nrounds 4\nnode 2 0 0 1\nout 1 ab\nout 2 c\nend 1 return\ndone\n",
        other: "varexj report 1\noptions 1\noption A\nlimit 100\nrounds 4\nout 1 ab\nend 1 return\ndone\n",
        text: "varexj agree 1\noptions 1\noption A\nnode 2 0 1 0\nagree 2\ndone\n",
    },
    // Nothing is a prefix of something.
    Case {
        one: "varexj report 1\noptions 1\noption A\nlimit 100\nrounds 4\nend 1 return\ndone\n",
        other: "varexj report 1\noptions 1\noption A\nlimit 100\nrounds 4\nnode 2 0 0 1\nout 2 a\nend 1 return\ndone\n",
        text: "varexj agree 1\noptions 1\noption A\nnode 2 0 1 0\nagree 2\ndone\n",
    },
    // Versions, limits, rounds and numbers of attempts are not compared.
    Case {
        one: "varexj report 2\noptions 1\noption A\nlimit 50\nrounds 5\nnode 2 0 1 0\nnode 3 0 0 1\nout 2 0\\0a\nout 3 1\\0a\nend 1 return\nattempts 1 4\ndone\n",
        other: "varexj report 1\noptions 1\noption A\nlimit 100\nrounds 4\nnode 2 0 1 0\nnode 3 0 0 1\nout 2 0\\0a\nout 3 1\\0a\nend 1 return\ndone\n",
        text: "varexj agree 1\noptions 1\noption A\nagree 1\ndone\n",
    },
    // Both may be of version 2.
    Case {
        one: "varexj report 2\noptions 1\noption A\nlimit 100\nrounds 4\nnode 2 0 0 1\nend 1 return\nattempts 2 3\nattempts 1 4\ndone\n",
        other: "varexj report 2\noptions 1\noption A\nlimit 100\nrounds 4\nend 1 return\nattempts 1 9\ndone\n",
        text: "varexj agree 1\noptions 1\noption A\nagree 1\ndone\n",
    },
    // A run that is unfinished agrees with one that is, and places count.
    Case {
        one: "varexj report 1\noptions 1\noption A\nlimit 100\nrounds 4\nnode 2 0 0 1\nnode 3 0 1 0\nend 2 illegal Main.main()V@0\nend 3 unfinished\ndone\n",
        other: "varexj report 1\noptions 1\noption A\nlimit 100\nrounds 4\nnode 2 0 0 1\nnode 3 0 1 0\nend 2 illegal Main.main()V@1\nend 3 unfinished\ndone\n",
        text: "varexj agree 1\noptions 1\noption A\nnode 2 0 1 0\nagree 2\ndone\n",
    },
    // Of two options, where neither output says more.
    Case {
        one: "varexj report 1\noptions 2\noption A\noption B\nlimit 100\nrounds 4\nnode 2 1 0 1\nnode 3 0 0 2\nout 1 a\nout 3 b\nend 1 return\ndone\n",
        other: "varexj report 1\noptions 2\noption A\noption B\nlimit 100\nrounds 4\nnode 2 0 0 1\nout 1 a\nout 2 b\nend 1 return\ndone\n",
        text: "varexj agree 1\noptions 2\noption A\noption B\nnode 2 1 0 1\nnode 3 0 1 2\nagree 3\ndone\n",
    },
];

/// Over 24 options, a line under each.
pub const LINES: &str =
    "varexj report 1\noptions 24\noption O0\noption O1\noption O2\noption O3\noption O4\noption O5\noption O6\noption O7\noption O8\noption O9\noption O10\noption O11\noption O12\noption O13\noption O14\noption O15\noption O16\noption O17\noption O18\noption O19\noption O20\noption O21\noption O22\noption O23\nlimit 100\nrounds 4\nnode 2 0 0 1\nnode 3 1 0 1\nnode 4 2 0 1\nnode 5 3 0 1\nnode 6 4 0 1\nnode 7 5 0 1\nnode 8 6 0 1\nnode 9 7 0 1\nnode 10 8 0 1\nnode 11 9 0 1\nnode 12 10 0 1\nnode 13 11 0 1\nnode 14 12 0 1\nnode 15 13 0 1\nnode 16 14 0 1\nnode 17 15 0 1\nnode 18 16 0 1\nnode 19 17 0 1\nnode 20 18 0 1\nnode 21 19 0 1\nnode 22 20 0 1\nnode 23 21 0 1\nnode 24 22 0 1\nnode 25 23 0 1\nout 2 a\\0a\nout 3 a\\0a\nout 4 a\\0a\nout 5 a\\0a\nout 6 a\\0a\nout 7 a\\0a\nout 8 a\\0a\nout 9 a\\0a\nout 10 a\\0a\nout 11 a\\0a\nout 12 a\\0a\nout 13 a\\0a\nout 14 a\\0a\nout 15 a\\0a\nout 16 a\\0a\nout 17 a\\0a\nout 18 a\\0a\nout 19 a\\0a\nout 20 a\\0a\nout 21 a\\0a\nout 22 a\\0a\nout 23 a\\0a\nout 24 a\\0a\nout 25 a\\0a\nend 1 return\ndone\n";

/// The same lines in one piece, under no option.
pub const ONE_PIECE: &str =
    "varexj report 1\noptions 24\noption O0\noption O1\noption O2\noption O3\noption O4\noption O5\noption O6\noption O7\noption O8\noption O9\noption O10\noption O11\noption O12\noption O13\noption O14\noption O15\noption O16\noption O17\noption O18\noption O19\noption O20\noption O21\noption O22\noption O23\nlimit 100\nrounds 4\nout 1 a\\0aa\\0aa\\0aa\\0aa\\0aa\\0aa\\0aa\\0aa\\0aa\\0aa\\0aa\\0aa\\0aa\\0aa\\0aa\\0aa\\0aa\\0aa\\0aa\\0aa\\0aa\\0aa\\0aa\\0a\nend 1 return\ndone\n";

/// They agree everywhere.
pub const EVERYWHERE: &str =
    "varexj agree 1\noptions 24\noption O0\noption O1\noption O2\noption O3\noption O4\noption O5\noption O6\noption O7\noption O8\noption O9\noption O10\noption O11\noption O12\noption O13\noption O14\noption O15\noption O16\noption O17\noption O18\noption O19\noption O20\noption O21\noption O22\noption O23\nagree 1\ndone\n";

/// They agree where all options are on.
pub const ALL_ON: &str =
    "varexj agree 1\noptions 24\noption O0\noption O1\noption O2\noption O3\noption O4\noption O5\noption O6\noption O7\noption O8\noption O9\noption O10\noption O11\noption O12\noption O13\noption O14\noption O15\noption O16\noption O17\noption O18\noption O19\noption O20\noption O21\noption O22\noption O23\nnode 2 23 0 1\nnode 3 22 0 2\nnode 4 21 0 3\nnode 5 20 0 4\nnode 6 19 0 5\nnode 7 18 0 6\nnode 8 17 0 7\nnode 9 16 0 8\nnode 10 15 0 9\nnode 11 14 0 10\nnode 12 13 0 11\nnode 13 12 0 12\nnode 14 11 0 13\nnode 15 10 0 14\nnode 16 9 0 15\nnode 17 8 0 16\nnode 18 7 0 17\nnode 19 6 0 18\nnode 20 5 0 19\nnode 21 4 0 20\nnode 22 3 0 21\nnode 23 2 0 22\nnode 24 1 0 23\nnode 25 0 0 24\nagree 25\ndone\n";

/// Reports over one option and over two.
pub const UNLIKE: [&str; 3] = [
    "varexj report 1\noptions 1\noption A\nlimit 100\nrounds 4\nend 1 return\ndone\n",
    "varexj report 1\noptions 1\noption B\nlimit 100\nrounds 4\nend 1 return\ndone\n",
    "varexj report 1\noptions 2\noption A\noption B\nlimit 100\nrounds 4\nend 1 return\ndone\n",
];
