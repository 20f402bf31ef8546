//! The names of the options.

ghost use Rattle.std.specs.Prelude.{◌≡◌, ◌≤◌, length, take};
ghost use Rattle.vx_gen.specs.Parts.{AreNames, AreShort};
ghost use Rattle.vx_gen.specs.Workload.{names_of, option_names};

/// The names of the options, of which a workload has the first ones.
const OPTION_NAMES: [&str; 64] = [
    "O0", "O1", "O2", "O3", "O4", "O5", "O6", "O7", "O8", "O9", "O10", "O11", "O12", "O13", "O14",
    "O15", "O16", "O17", "O18", "O19", "O20", "O21", "O22", "O23", "O24", "O25", "O26", "O27",
    "O28", "O29", "O30", "O31", "O32", "O33", "O34", "O35", "O36", "O37", "O38", "O39", "O40",
    "O41", "O42", "O43", "O44", "O45", "O46", "O47", "O48", "O49", "O50", "O51", "O52", "O53",
    "O54", "O55", "O56", "O57", "O58", "O59", "O60", "O61", "O62", "O63",
];

/// The names of all options.
fn all_names() -> &'static [&'static str]
    ensures names { AreNames result.now option_names }
    ensures short { AreShort result.now }
{
    &OPTION_NAMES
}

/// The first of some names.
fn front<'a>(names: &'a [&'a str], count: usize) -> &'a [&'a str]
    ensures { result.now ≡ take count names.now }
{
    if count < names.len() {
        &names[..count]
    } else {
        names
    }
}

/// The names of so many options, of which there are at most 64.
pub fn first_names(count: usize) -> &'static [&'static str]
    requires { count ≤ 64 }
    ensures names { AreNames result.now (names_of count) }
    ensures short { AreShort result.now }
    ensures few { length result.now ≤ 64 }
{
    front(all_names(), count)
}
