//! Whether two reports have the same options.

ghost use Rattle.std.specs.Prelude.{◌≡◌, ◌≢◌, MatchBool};
ghost use Rattle.std.specs.Str.{bytes_eq};
ghost use Rattle.vx_agree.specs.Options.{are_same_names};

use vx_report::Report;
use vx_value::Name;

/// Whether two names are one.
fn is_same_name(one: &Name, other: &Name) -> bool
    ensures { result ≡ bytes_eq one.now other.now }
{
    one.bytes() == other.bytes()
}

/// Whether two lists of names are equal.
fn are_same_names(one: &[Name], other: &[Name]) -> bool
    ensures { result ≡ are_same_names one.now other.now }
{
    let mut left = one;
    let mut right = other;
    while let [name, names @ ..] = left {
        let [first, others @ ..] = right else {
            return false;
        };
        if !is_same_name(name, first) {
            return false;
        }
        left = names;
        right = others;
    }
    right.is_empty()
}

/// Whether two reports have options of the same names, in the same order.
pub fn have_same_options(one: &Report, other: &Report) -> bool
    ensures names { result ≡ are_same_names one.now.options other.now.options }
    ensures told { MatchBool result (one.now.options ≡ other.now.options) (one.now.options ≢ other.now.options) }
{
    are_same_names(one.options.as_slice(), other.options.as_slice())
}
