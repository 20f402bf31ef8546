//! What the lines of a report say so far, and whether a line may follow them.

ghost use Rattle.std.specs.Prelude.{◌≡◌, IfOk, MatchOption, MatchBool, Contains, Some};
ghost use Rattle.vx_report.specs.declared.line.Line.{Line};
ghost use Rattle.vx_report_reader.specs.declared.stage.Stage.{Stage};
ghost use Rattle.vx_report_reader.specs.Rules.{IsWhole};
ghost use Rattle.vx_report_reader.specs.Rules as rules;
ghost use Rattle.vx_report_reader.specs.Stages.{draft_of, IsSoundStage, Follows, FollowsText};

use crate::body::{Body, with_attempts, with_done, with_end, with_next_node, with_piece};
use std::alloc::{AllocError, Global};
use vx_report::Report;
use vx_report::line::Line;
use vx_report_line::line_in;
use vx_report_line::table::empty_table;
use vx_value::Name;

/// What the lines so far say.
#[derive(Drop)]
pub enum Stage {
    /// No line is read.
    Nothing,
    /// The version.
    Begun {
        version: u8,
    },
    /// How many options there are, and their names so far.
    Naming {
        version: u8,
        count: u64,
        names: Vec<Name>,
    },
    /// All names, and the limit.
    Limited {
        version: u8,
        names: Vec<Name>,
        limit: u64,
    },
    /// A report that may go on.
    Body(Body),
    /// A report with its last line.
    Whole(Report),
}

/// Whether a name is not among others.
fn is_new(names: &[Name], name: &Name) -> bool
    ensures { MatchBool result (¬ Contains names.now name.now) (Contains names.now name.now) }
{
    !names.iter().any(|other| other.bytes() == name.bytes())
}

/// The names with one more, if it is new and one more is expected.
fn with_name(
    version: u8,
    count: u64,
    names: Vec<Name>,
    name: Name,
) -> Result<Option<Stage>, AllocError>
    ensures { IfOk result (Follows (Stage.Naming version count names) (Line.Named name)) }
{
    if names.len() as u64 >= count || !is_new(&names, &name) {
        return Ok(None);
    }
    let mut names = names;
    names.push(name)?;
    Ok(Some(Stage::Naming {
        version,
        count,
        names,
    }))
}

/// The limit behind the names, if as many stand there as are expected.
fn with_limit(version: u8, count: u64, names: Vec<Name>, limit: u64) -> Option<Stage>
    ensures { Follows (Stage.Naming version count names) (Line.Limit limit) result }
{
    if names.len() as u64 == count {
        Some(Stage::Limited {
            version,
            names,
            limit,
        })
    } else {
        None
    }
}

/// The body behind the rounds.
fn with_rounds(alloc: Global, version: u8, names: Vec<Name>, limit: u64, rounds: u128) -> Body
    ensures { Follows (Stage.Limited version names limit) (Line.Rounds rounds) (Some (Stage.Body result)) }
{
    Body {
        version,
        options: names,
        limit,
        rounds,
        table: empty_table(alloc),
        pieces: Vec::new(alloc),
        ends: Vec::new(alloc),
        attempts: Vec::new(alloc),
        given: 2,
    }
}

/// A body with one more line, if it may follow.
fn with_body_line(body: Body, line: Line) -> Result<Option<Stage>, AllocError>
    requires { IsSoundStage (Stage.Body body) }
    ensures { IfOk result (Follows (Stage.Body body) line) }
{
    match line {
        Line::Numbered { id, node } => Ok(with_next_node(body, id, node)?.map(Stage::Body)),
        Line::Printed(piece) => Ok(with_piece(body, piece)?.map(Stage::Body)),
        Line::Ended(end) => Ok(with_end(body, end)?.map(Stage::Body)),
        Line::Spent(attempts) => Ok(with_attempts(body, attempts)?.map(Stage::Body)),
        Line::Done => Ok(with_done(body).map(Stage::Whole)),
        _ => Ok(None),
    }
}

/// What the lines say with one more, if it may follow.
pub fn with_line(alloc: Global, stage: Stage, line: Line) -> Result<Option<Stage>, AllocError>
    requires { IsSoundStage stage }
    ensures { IfOk result (Follows stage line) }
{
    match (stage, line) {
        (Stage::Nothing, Line::Head { version }) => Ok(Some(Stage::Begun { version })),
        (Stage::Begun { version }, Line::Count { options }) => Ok(Some(Stage::Naming {
            version,
            count: options,
            names: Vec::new(alloc),
        })),
        (
            Stage::Naming {
                version,
                count,
                names,
            },
            Line::Named(name),
        ) => with_name(version, count, names, name),
        (
            Stage::Naming {
                version,
                count,
                names,
            },
            Line::Limit(limit),
        ) => Ok(with_limit(version, count, names, limit)),
        (
            Stage::Limited {
                version,
                names,
                limit,
            },
            Line::Rounds(rounds),
        ) => Ok(Some(Stage::Body(with_rounds(alloc, version, names, limit, rounds)))),
        (Stage::Body(body), line) => with_body_line(body, line),
        _ => Ok(None),
    }
}

/// What the lines say with one more that some bytes spell, if they spell one that may follow.
pub fn with_text(alloc: Global, stage: Stage, text: &[u8]) -> Result<Option<Stage>, AllocError>
    requires { IsSoundStage stage }
    ensures { IfOk result (FollowsText stage text.now) }
{
    let Some(line) = line_in(alloc, text)? else {
        return Ok(None);
    };
    with_line(alloc, stage, line)
}

/// The whole report, if the lines so far say one.
pub fn whole_report(stage: Stage) -> Option<Report>
    ensures { MatchOption result (IsWhole (draft_of stage) → ⊥) (λ r. draft_of stage ≡ rules.Whole r) }
{
    match stage {
        Stage::Whole(report) => Some(report),
        _ => None,
    }
}
