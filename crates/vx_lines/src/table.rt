//! The line tables of a class, and the line of a position in them.

ghost use Rattle.std.specs.Prelude.{◌≡◌, option_map};
ghost use Rattle.vx_lines.specs.Lines.{later, line_in, reaching, row_for};

use vx_list::Items;

/// A row of a line table (JVMS 4.7.12): the code from the position `start` on is of the line `line`.
#[derive(Clone, Copy, Debug, PartialEq, Eq)]
pub struct LineRow {
    pub start: u16,
    pub line: u16,
}

/// The rows of all line tables of a method, in the order of the file.
#[derive(Debug, Drop)]
pub struct MethodLines {
    pub rows: Items<LineRow>,
}

/// The lines of the methods of a class, in the order of the file.
#[derive(Debug, Drop)]
pub struct LineTable {
    pub methods: Items<MethodLines>,
}

impl LineTable {
    /// The line of a position in the code of a method, which is given by its place in the class: that of the row with the
    /// greatest start at the position or before it, and of equal ones of the last. `None` where there is no such row, or no
    /// such method. Takes no memory.
    pub fn line_of(&self, method: u16, position: u32) -> Option<u16>
        ensures { result ≡ line_in self.now method position }
    {
        match self.methods.get(method as usize) {
            Some(lines) => line(row_for(lines.rows.as_slice(), position)),
            None => None,
        }
    }
}

fn line(row: Option<LineRow>) -> Option<u16>
    ensures { result ≡ option_map (λ r. r.line) row }
{
    match row {
        Some(row) => Some(row.line),
        None => None,
    }
}

/// A row that starts at a position or before it.
fn reaching(position: u32, row: LineRow) -> Option<LineRow>
    ensures { result ≡ reaching position row }
{
    if u32::from(row.start) <= position {
        Some(row)
    } else {
        None
    }
}

/// Of two rows the one that starts later, and of two that start at one place the second.
fn later(first: Option<LineRow>, second: Option<LineRow>) -> Option<LineRow>
    ensures { result ≡ later first second }
{
    let Some(a) = first else {
        return second;
    };
    let Some(b) = second else {
        return first;
    };
    if a.start <= b.start { second } else { first }
}

/// The row that a position has.
fn row_for(rows: &[LineRow], position: u32) -> Option<LineRow>
    ensures { result ≡ row_for rows.now position }
{
    let mut found = None;
    for row in rows {
        let next = reaching(position, *row);
        found = later(found, next);
    }
    found
}
