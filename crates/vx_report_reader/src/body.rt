//! The body of a report while it is read: its nodes, pieces, ends and numbers of attempts.

ghost use Rattle.std.specs.Prelude.{◌≡◌, ◌++◌, ◌∷◌, [], ◌+◌, IfOk, MatchOption, MatchBool, length, nat_eq};
ghost use Rattle.vx_bdd_tools.specs.Nodes.{level, IsNextNode};
ghost use Rattle.vx_bdd_tools.specs.Numbering.{NumbersAll};
ghost use Rattle.vx_report.specs.declared.line.Line.TheVariants.{Numbered, Printed, Ended, Spent, Done};
ghost use Rattle.vx_report_reader.specs.Rules.{is_nil, numbers, prints, ends, spends, is_done, comes_after, is_above, last_of, roots_of, IsWalked, MayFollow};
ghost use Rattle.vx_report_reader.specs.Rules as rules;
ghost use Rattle.vx_report_reader.specs.Bodies.{report_of, IsSound, GoesOn, next_test};

use std::alloc::AllocError;
use std::cmp::Ordering;
use vx_bdd_tools::Node;
use vx_list::Items;
use vx_report::meaning::node_with;
use vx_report::{AttemptLine, EndLine, Piece, Report};
use vx_report_line::number_from;
use vx_report_line::table::{NodeTable, has_node, with_node};
use vx_value::{End, Name};

/// What the lines so far say, and how many numbers are given.
#[derive(Drop)]
pub struct Body {
    pub version: u8,
    pub options: Vec<Name>,
    pub limit: u64,
    pub rounds: u128,
    pub table: NodeTable,
    pub pieces: Vec<Piece>,
    pub ends: Vec<EndLine>,
    pub attempts: Vec<AttemptLine>,
    /// The numbers below it are given.
    pub given: u64,
}

fn is_nil<T>(items: &[T]) -> bool
    ensures { result ≡ is_nil items.now }
{
    items.is_empty()
}

fn comes_after(ends: &[EndLine], end: &End) -> bool
    ensures { result ≡ comes_after (last_of ends.now) end.now }
{
    match ends.last() {
        None => true,
        Some(line) => matches!(line.end.compare(end), Ordering::Less),
    }
}

fn is_above(attempts: &[AttemptLine], n: u64) -> bool
    ensures { result ≡ is_above (last_of attempts.now) n }
{
    match attempts.last() {
        None => true,
        Some(line) => line.attempts < n,
    }
}

fn numbers(body: &Body, id: u64) -> bool
    ensures { result ≡ numbers (report_of body.now) id }
{
    is_nil(&body.pieces)
        && is_nil(&body.ends)
        && is_nil(&body.attempts)
        && id == body.table.nodes.len() as u64 + 2
}

fn prints(body: &Body) -> bool
    ensures { result ≡ prints (report_of body.now) }
{
    is_nil(&body.ends) && is_nil(&body.attempts)
}

fn ends(body: &Body, end: &End) -> bool
    ensures { result ≡ ends (report_of body.now) end.now }
{
    is_nil(&body.attempts) && comes_after(&body.ends, end)
}

fn spends(body: &Body, n: u64) -> bool
    ensures { result ≡ spends (report_of body.now) n }
{
    body.version == 2 && !is_nil(&body.ends) && is_above(&body.attempts, n) && n <= body.limit
}

/// Whether a report may be done where each node is used.
fn is_done(body: &Body) -> bool
    ensures { result ≡ is_done (report_of body.now) }
{
    !is_nil(&body.ends) && (body.version != 2 || !is_nil(&body.attempts))
}

/// The numbers that are given where one more node is named.
fn walked(body: &Body, node: u64) -> Option<u64>
    requires { IsSound body.now }
    ensures { MatchOption result (IsWalked (report_of body.now) node → ⊥) (λ m. NumbersAll body.now.table.nodes.items 2 (roots_of (report_of body.now) ++ node ∷ []) m) }
{
    number_from(body.table.nodes.as_slice(), body.given, node)
}

/// The body with one more piece, if it may follow.
pub fn with_piece(body: Body, piece: Piece) -> Result<Option<Body>, AllocError>
    requires { IsSound body }
    ensures { IfOk result (GoesOn body (Printed piece)) }
{
    if !prints(&body) {
        return Ok(None);
    }
    let Some(given) = walked(&body, piece.node) else {
        return Ok(None);
    };
    let mut body = body;
    body.pieces.push(piece)?;
    body.given = given;
    Ok(Some(body))
}

/// The body with one more end, if it may follow.
pub fn with_end(body: Body, line: EndLine) -> Result<Option<Body>, AllocError>
    requires { IsSound body }
    ensures { IfOk result (GoesOn body (Ended line)) }
{
    if !ends(&body, &line.end) {
        return Ok(None);
    }
    let Some(given) = walked(&body, line.node) else {
        return Ok(None);
    };
    let mut body = body;
    body.ends.push(line)?;
    body.given = given;
    Ok(Some(body))
}

/// The body with one more number of attempts, if it may follow.
pub fn with_attempts(body: Body, line: AttemptLine) -> Result<Option<Body>, AllocError>
    requires { IsSound body }
    ensures { IfOk result (GoesOn body (Spent line)) }
{
    if !spends(&body, line.attempts) {
        return Ok(None);
    }
    let Some(given) = walked(&body, line.node) else {
        return Ok(None);
    };
    let mut body = body;
    body.attempts.push(line)?;
    body.given = given;
    Ok(Some(body))
}

fn level(options: usize, nodes: &[Node], id: u64) -> usize
    ensures { result ≡ level options nodes.now id }
{
    match node_with(nodes, id) {
        None => options,
        Some(node) => node.option as usize,
    }
}

/// Whether a node may follow others, but for whether it is new.
fn next_test(options: usize, nodes: &[Node], node: &Node) -> bool
    ensures { result ≡ next_test options nodes.now node.now }
{
    (node.option as usize) < options
        && node.low < nodes.len() as u64 + 2
        && node.high < nodes.len() as u64 + 2
        && node.low != node.high
        && (node.option as usize) < level(options, nodes, node.low)
        && (node.option as usize) < level(options, nodes, node.high)
}

/// Whether a node may follow those of a body.
fn is_next(body: &Body, node: &Node) -> bool
    requires { IsSound body.now }
    ensures { MatchBool result (IsNextNode (length body.now.options.items) body.now.table.nodes.items node.now) (IsNextNode (length body.now.options.items) body.now.table.nodes.items node.now → ⊥) }
{
    if !next_test(body.options.len(), body.table.nodes.as_slice(), node) {
        return false;
    }
    !has_node(&body.table, node)
}

fn are_given(body: &Body) -> bool
    ensures { result ≡ nat_eq body.now.given (length body.now.table.nodes.items + 2) }
{
    body.given == body.table.nodes.len() as u64 + 2
}

/// Whether each node of a body is named, so that no node is unused.
fn are_named(body: &Body) -> bool
    requires { IsSound body.now }
    ensures { MatchBool result (NumbersAll body.now.table.nodes.items 2 (roots_of (report_of body.now)) (length body.now.table.nodes.items + 2)) (NumbersAll body.now.table.nodes.items 2 (roots_of (report_of body.now)) (length body.now.table.nodes.items + 2) → ⊥) }
{
    are_given(body)
}

/// The body with one more node, if it may follow.
pub fn with_next_node(body: Body, id: u64, node: Node) -> Result<Option<Body>, AllocError>
    requires { IsSound body }
    ensures { IfOk result (GoesOn body (Numbered id node)) }
{
    if !numbers(&body, id) {
        return Ok(None);
    }
    if !is_next(&body, &node) {
        return Ok(None);
    }
    let mut body = body;
    body.table = with_node(body.table, node)?;
    Ok(Some(body))
}

fn report_in(body: Body) -> Report
    ensures { result ≡ report_of body }
{
    let Body {
        version,
        options,
        limit,
        rounds,
        table,
        pieces,
        ends,
        attempts,
        given: _,
    } = body;
    let NodeTable { nodes, known: _ } = table;
    Report {
        version,
        options: Items::of(options),
        limit,
        rounds,
        nodes: Items::of(nodes),
        pieces: Items::of(pieces),
        ends: Items::of(ends),
        attempts: Items::of(attempts),
    }
}

/// The report that a body is, if the line `done` may follow.
pub fn with_done(body: Body) -> Option<Report>
    requires { IsSound body }
    ensures { MatchOption result (MayFollow (rules.Body (report_of body)) Done → ⊥) (λ r. MayFollow (rules.Body (report_of body)) Done × (r ≡ report_of body)) }
{
    if !is_done(&body) {
        return None;
    }
    if !are_named(&body) {
        return None;
    }
    Some(report_in(body))
}
