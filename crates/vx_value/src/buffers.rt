//! Units of texts in buffers that texts share.

ghost use Rattle.std.specs.Prelude.{◌≡◌, ◌<◌, [], ◌++◌, IfOk, IsTrue, length};
ghost use Rattle.vx_value.specs.Buffers.{Holds, IsSpan, Keeps, text_of};
ghost use Rattle.vx_value.specs.Texts.{text_at};

use std::alloc::{AllocError, Global};
use std::marker::Model;

/// Where a text stands: the first units of a buffer.
#[derive(Clone, Copy)]
pub struct Span {
    pub(crate) buffer: usize,
    pub(crate) length: usize,
}

/// Buffers of units. A text is the beginning of one, so a text and what is put behind it share a buffer. Contracts see the units of
/// each.
#[derive(Drop)]
pub struct Buffers {
    buffers: Vec<Vec<u16>>,
}

impl Model for Buffers {
    ghost use Rattle.std.specs.Prelude.{ℕ, List, map};

    ghost Value = { List (List ℕ) };

    ghost view = { λ buffers. map (λ buffer. buffer.items) buffers.buffers.items };
}

impl Buffers {
    /// No buffers. Takes no memory.
    pub(crate) fn new(alloc: Global) -> Buffers
        ensures { result ≡ [] }
    {
        Buffers {
            buffers: Vec::new(alloc),
        }
    }

    /// The text of a span.
    pub(crate) fn text(&self, span: Span) -> &[u16]
        requires { IsSpan self.now span }
        ensures { result.now ≡ text_of self.now span }
    {
        &self.buffers[span.buffer].as_slice()[..span.length]
    }

    /// A text in a buffer of its own, of which a copy is made.
    pub(crate) fn put(&mut self, units: &[u16]) -> Result<Span, AllocError>
        ensures text { IfOk result (λ span. Holds self.new span units.now) }
        ensures keeps { Keeps self.old self.new }
    {
        let text = Vec::from_slice(*self.buffers.allocator(), units)?;
        self.push(text)
    }

    fn push(&mut self, text: Vec<u16>) -> Result<Span, AllocError>
        ensures text { IfOk result (λ span. Holds self.new span text.items) }
        ensures keeps { Keeps self.old self.new }
    {
        let span = Span {
            buffer: self.buffers.len(),
            length: text.len(),
        };
        self.buffers.push(text)?;
        Ok(span)
    }

    /// Whether a text is the whole of its buffer.
    fn is_whole(&self, span: Span) -> bool
        requires { IsSpan self.now span }
        ensures { IsTrue result → text_of self.now span ≡ text_at self.now span.buffer }
    {
        self.buffers[span.buffer].len() == span.length
    }

    /// Puts units behind those of a buffer. The span is the whole of it.
    fn extend(&mut self, buffer: usize, units: &[u16]) -> Result<Span, AllocError>
        requires { buffer < length self.old }
        ensures text { IfOk result (λ whole. Holds self.new whole (text_at self.old buffer ++ units.now)) }
        ensures keeps { Keeps self.old self.new }
    {
        self.buffers[buffer].extend_from_slice(units)?;
        Ok(Span {
            buffer,
            length: self.buffers[buffer].len(),
        })
    }

    /// A copy of the text of a span, with units behind it.
    fn joined(&self, span: Span, units: &[u16]) -> Result<Vec<u16>, AllocError>
        requires { IsSpan self.now span }
        ensures { IfOk result (λ text. text.items ≡ text_of self.now span ++ units.now) }
    {
        let mut text = Vec::from_slice(*self.buffers.allocator(), self.text(span))?;
        text.extend_from_slice(units)?;
        Ok(text)
    }

    /// The text of a span with units behind it: in its buffer if it is the whole of it, else in a new one.
    pub(crate) fn append(&mut self, span: Span, units: &[u16]) -> Result<Span, AllocError>
        requires { IsSpan self.old span }
        ensures text { IfOk result (λ appended. Holds self.new appended (text_of self.old span ++ units.now)) }
        ensures keeps { Keeps self.old self.new }
    {
        if self.is_whole(span) {
            return self.extend(span.buffer, units);
        }
        let text = self.joined(span, units)?;
        self.push(text)
    }
}
