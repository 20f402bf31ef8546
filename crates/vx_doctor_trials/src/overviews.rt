//! Overviews of models whose configurations were counted by hand, and remarks on comments of DIMACS.

ghost use Rattle.vx_model.specs.Models.{IsModel};

use std::alloc::Global;
use std::test::Fail;
use vx_bdd::BddSpace;
use vx_model::{Model, allowed, read_model};
use vx_overview::{put_overview, put_remarks};

/// The overview of a model.
fn overview(alloc: Global, model: &Model) -> Result<Vec<u8>, Fail>
    requires { IsModel model.now }
{
    let mut space = BddSpace::new(alloc, model.options.len() as u32)?;
    let set = allowed(&mut space, model)?;
    let mut text = Vec::new(alloc);
    put_overview(alloc, &mut text, &mut space, model, set)?;
    Ok(text)
}

const MODEL: &[u8] = b"option A shop.Main A
option B
option C
option D
rule A
rule B -> C
rule !D
";

/// A is on, D off, and of B and C the pair of B without C is left out: three are left.
const OVERVIEW: &[u8] = b"options 4, rules 3, allowed 3
option A field shop/Main.A always
option B bound to nothing
option C bound to nothing
option D bound to nothing never
";

fn is_told(alloc: Global) -> Result<bool, Fail> {
    let model = read_model(alloc, MODEL)?;
    let text = overview(alloc, &model)?;
    Ok(text.as_slice() == OVERVIEW)
}

#[test]
fn options_are_told_with_their_fields_and_whether_they_are_fixed(
    rt: HostRuntime,
) -> Result<(), Fail> {
    assert!(rt; is_told(rt.alloc())?);
    Ok(())
}

const COMMENTS: &[u8] = b"c an export
c 1 STUDENT
c 2 STUDENT-PRICE Ticket STUDENT
c 3 COUPON Ticket
c 4 v5
c 5 WIDE
p cnf 4 1
1 2 0
";

const REMARKS: &[u8] = b"comment line 3: c 2 STUDENT-PRICE Ticket STUDENT
reason: the third word is no name
comment line 4: c 3 COUPON Ticket
reason: the line has neither three words nor five
comment line 5: c 4 v5
reason: the third word is v and other digits
comment line 6: c 5 WIDE
reason: the number is that of no variable
";

fn are_remarked(alloc: Global) -> Result<bool, Fail> {
    let mut text = Vec::new(alloc);
    put_remarks(&mut text, 4, COMMENTS)?;
    Ok(text.as_slice() == REMARKS)
}

#[test]
fn comments_that_begin_as_name_lines_are_told_with_what_is_wrong(
    rt: HostRuntime,
) -> Result<(), Fail> {
    assert!(rt; are_remarked(rt.alloc())?);
    Ok(())
}
