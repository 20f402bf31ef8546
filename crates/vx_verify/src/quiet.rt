//! Positions at which no handler is news: with the same local variables all rows that cover them have been looked at.

ghost use Rattle.std.specs.Prelude.{◌≡◌, ◌≤◌, ◌&&◌, ◌||◌, ◌==◌, nat_le, nat_lt};
ghost use Rattle.vx_verify.specs.Spans.{AreAround, IsNarrowed};

use vx_class::Catch;

/// The positions from one on and before another: no row covers them, or the handlers of all that do are reached with these local
/// variables.
#[derive(Clone, Copy)]
pub struct Quiet {
    pub from: u32,
    pub to: u32,
    pub locals: u32,
    /// Whether no row covers them.
    pub is_free: bool,
}

/// No positions.
pub fn none_quiet() -> Quiet
    ensures { result.to ≡ 0 }
{
    Quiet {
        from: 0,
        to: 0,
        locals: 0,
        is_free: true,
    }
}

/// Whether a position, with these local variables, is among them.
pub fn is_quiet(quiet: Quiet, at: u32, locals: u32) -> bool
    ensures { result ≡ (nat_le quiet.from at && nat_lt at quiet.to && (quiet.is_free || locals == quiet.locals)) }
{
    quiet.from <= at && at < quiet.to && (quiet.is_free || locals == quiet.locals)
}

/// The positions among some that lie before one.
fn before(quiet: Quiet, end: u32) -> Quiet
    ensures from { result.from ≡ quiet.from }
    ensures end { result.to ≤ end }
    ensures to { result.to ≤ quiet.to }
    ensures locals { result.locals ≡ quiet.locals }
    ensures is_free { result.is_free ≡ quiet.is_free }
{
    if end < quiet.to {
        return Quiet { to: end, ..quiet };
    }
    quiet
}

/// The positions among some from one on.
fn behind(quiet: Quiet, start: u32) -> Quiet
    ensures from { quiet.from ≤ result.from }
    ensures start { start ≤ result.from }
    ensures to { result.to ≡ quiet.to }
    ensures locals { result.locals ≡ quiet.locals }
    ensures is_free { result.is_free ≡ quiet.is_free }
{
    if quiet.from < start {
        return Quiet {
            from: start,
            ..quiet
        };
    }
    quiet
}

/// The positions among some that a row covers only where it covers this one.
fn narrowed(quiet: Quiet, row: Catch, at: u32) -> Quiet
    ensures { IsNarrowed row at quiet result }
{
    let start = u32::from(row.start);
    let end = u32::from(row.end);
    if at < start {
        return before(quiet, start);
    }
    if end <= at {
        return behind(quiet, end);
    }
    Quiet {
        is_free: false,
        ..quiet
    }
}

/// The positions around one that no other rows cover than those that cover it.
pub fn around(rows: &[Catch], at: u32, locals: u32) -> Quiet
    ensures rows { AreAround rows.now at result }
    ensures locals { result.locals ≡ locals }
{
    let mut quiet = Quiet {
        from: 0,
        to: u32::MAX,
        locals,
        is_free: true,
    };
    for row in rows {
        quiet = narrowed(quiet, *row, at);
    }
    quiet
}
