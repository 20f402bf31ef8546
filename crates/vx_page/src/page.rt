//! The page of a report.

ghost use Rattle.std.specs.Prelude.{◌≡◌, IfOk};
ghost use Rattle.vx_page.specs.Page.{report_page};

use crate::back::put_back;
use crate::escapes::put_escaped;
use crate::front::put_front;
use std::alloc::{AllocError, Global};
use vx_report::{Report, write_report};

/// The page of a report: a file of HTML that holds the report's text, and a script that shows it in a browser.
#[tactic(auto, unfolding(crate::specs::Page::report_page))]
pub fn write_page(alloc: Global, report: &Report) -> Result<Vec<u8>, AllocError>
    ensures { IfOk result (λ text. text.items ≡ report_page report.now) }
{
    let text = write_report(alloc, report)?;
    let mut out = Vec::new(alloc);
    put_front(&mut out)?;
    put_escaped(&mut out, text.as_slice())?;
    put_back(&mut out)?;
    Ok(out)
}
