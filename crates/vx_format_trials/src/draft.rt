use std::alloc::{AllocError, Global};
use vx_class_parts::{
    Constant, ConstantTable, Kind, class_index, in_file_or_zero, is_lawful_class, is_lawful_code,
    is_lawful_field, is_lawful_initialiser, is_lawful_method, is_plain_class, may_have_value,
    pool_of, put_class, put_constant, put_text, text_index,
};
use vx_code_parts::{
    Draft, Labels, all_reach, check_instruction, code_bytes, constant_of, draft_of, is_known,
    is_of_version, labels_of, leads, next_place, number_of, place_of,
};
use vx_list::Keyed;
use vx_pool::Entry;
use vx_source::{Instruction, Operand, Said, SourceLine, Statement, Value, read_source};
use vx_value::Name;

/// The method `f` of the class `A`.
fn method(alloc: Global) -> Result<Constant, AllocError> {
    let class = Name::of(alloc, b"A")?;
    let name = Name::of(alloc, b"f")?;
    Ok(Constant::Member(Kind::Method, class, name, Name::of(alloc, b"()V")?))
}

/// Constants of each kind, some of which are there already.
fn fill(alloc: Global, pool: &mut ConstantTable) -> Result<(), AllocError> {
    put_class(alloc, pool, b"A")?;
    put_constant(alloc, pool, &method(alloc)?)?;
    put_constant(alloc, pool, &Constant::Long(5))?;
    put_constant(alloc, pool, &Constant::Integer(7))?;
    put_constant(alloc, pool, &Constant::Literal(Name::of(alloc, b"A")?))?;
    put_constant(alloc, pool, &Constant::Integer(7))?;
    put_text(alloc, pool, b"g")
}

/// Whether the constants stand at their places.
fn are_placed(alloc: Global, pool: &ConstantTable) -> Result<bool, AllocError> {
    let class = class_index(alloc, pool, b"A")?;
    let text = text_index(alloc, pool, b"g")?;
    let number = pool.index_of(&Constant::Integer(7));
    let long = in_file_or_zero(pool, Some(&Constant::Long(5)));
    Ok(pool.places() == 12 && number == 9 && long == 7 && class == 1 && text == 11)
}

/// Whether the method stands in the pool's file, with its class and its name and descriptor.
fn is_written(alloc: Global, pool: &ConstantTable) -> Result<bool, AllocError> {
    let file = pool_of(alloc, pool)?;
    Ok(matches!(file.entries.get(3), Some(Entry::Method(1, 4))))
}

#[test]
fn puts_each_constant_once_where_it_is_first_needed(rt: HostRuntime) {
    let mut pool = ConstantTable::new(rt.alloc(), Keyed::by(&[]));
    assert!(rt; fill(rt.alloc(), &mut pool).is_ok());
    assert!(rt; matches!(are_placed(rt.alloc(), &pool), Ok(true)));
    assert!(rt; matches!(is_written(rt.alloc(), &pool), Ok(true)));
}

/// A body in which a jump goes over one instruction, of which the second stands in the pool.
const BODY: &[u8] = b"L:\ngoto M\nldc_w int 7\nM:\nreturn\nend";

/// The index of the constant that an instruction needs, or 0.
fn index_needed(
    alloc: Global,
    pool: &mut ConstantTable,
    instruction: &Instruction,
) -> Result<u16, AllocError> {
    match constant_of(alloc, instruction.opcode, &instruction.operand)? {
        None => Ok(0),
        Some(constant) => {
            put_constant(alloc, pool, &constant)?;
            Ok(in_file_or_zero(pool, Some(&constant)))
        }
    }
}

/// Puts the draft of an instruction that meets its rules.
fn put_draft(
    alloc: Global,
    labels: &Labels,
    pool: &mut ConstantTable,
    drafts: &mut Vec<Draft>,
    instruction: &Instruction,
) -> Result<(), AllocError> {
    let index = index_needed(alloc, pool, instruction)?;
    if check_instruction(alloc, 51, 0, labels, instruction).is_ok() {
        drafts.push(draft_of(alloc, labels, index, instruction)?)?;
    }
    Ok(())
}

/// Puts the drafts of a body.
fn put_drafts(
    alloc: Global,
    lines: &[SourceLine],
    labels: &Labels,
    pool: &mut ConstantTable,
    drafts: &mut Vec<Draft>,
) -> Result<(), AllocError> {
    for line in lines {
        if let Said::Statement(Statement::Instruction(instruction)) = &line.said {
            put_draft(alloc, labels, pool, drafts, instruction)?;
        }
    }
    Ok(())
}

/// Whether the body's labels are known, with the instructions that they stand at.
fn are_labels(labels: &Labels) -> bool {
    labels.instructions == 3
        && labels.labels.find(b"M") == Some(2)
        && number_of(labels, b"M") == 2
        && is_known(labels, b"L")
        && leads(labels, b"M")
}

/// Whether the body's drafts give its code.
fn are_drafts(alloc: Global, drafts: &[Draft]) -> Result<bool, AllocError> {
    let places = [0, 3, 6];
    let bytes = code_bytes(alloc, &places, drafts)?;
    let is_code = bytes.as_slice() == [0xa7, 0, 6, 0x13, 0, 1, 0xb1].as_slice();
    Ok(is_code && all_reach(&places, drafts) && place_of(&places, 2) == 6)
}

#[test]
fn writes_the_code_of_a_body(rt: HostRuntime) {
    let alloc = rt.alloc();
    let source = read_source(alloc, BODY).expect(&rt, "memory");
    let labels = labels_of(alloc, source.lines.as_slice()).expect(&rt, "memory");
    let (mut pool, mut drafts) = (ConstantTable::new(alloc, Keyed::by(&[])), Vec::new(alloc));
    let put = put_drafts(
        alloc,
        source.lines.as_slice(),
        &labels,
        &mut pool,
        &mut drafts,
    );
    assert!(rt; put.is_ok() && are_labels(&labels));
    assert!(rt; matches!(are_drafts(alloc, &drafts), Ok(true)));
}

#[test]
fn a_wide_jump_has_five_bytes(rt: HostRuntime) {
    assert!(rt; next_place(3, &Draft::JumpWide(0xc8, 0)) == 8);
}

fn are_lawful_names() -> bool {
    is_lawful_class(b"[I")
        && !is_plain_class(b"[I")
        && is_lawful_field(b"a", b"I")
        && !is_lawful_field(b"a", b"V")
}

fn are_lawful_methods(alloc: Global) -> Result<bool, AllocError> {
    Ok(
        is_lawful_method(alloc, b"f", b"()V")?
            && is_lawful_initialiser(alloc, b"<clinit>", b"()V")?
            && is_lawful_code(alloc, 0x0009, b"f", b"(J)V", Some(2))?,
    )
}

#[test]
fn knows_lawful_names_and_flags(rt: HostRuntime) {
    assert!(rt; are_lawful_names());
    assert!(rt; matches!(are_lawful_methods(rt.alloc()), Ok(true)));
    assert!(rt; may_have_value(0x0021, 0x0009, b"I", &Value::Int(1)));
    assert!(rt; is_of_version(51, &Operand::Nothing));
}
