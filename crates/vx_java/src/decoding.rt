//! What an instruction does: the table of the opcodes (JVMS 6.5, 7).

ghost use Rattle.std.specs.Prelude.{◌≡◌, ◌≤◌};
ghost use Rattle.vx_java.specs.Operation.{operation_of};

use crate::operand::{dimensions_of, entry_of, local_of, number_of, switch_of};
use crate::operation::{Element, Mode, Operation, Shuffle, Sort, Test};
use vx_opcode::Instruction;
use vx_value::{IntOp, Narrow, ShiftOp};

/// The instructions of floats and doubles.
const FLOATING: Operation = Operation::Refuse(1);

/// `jsr`, `jsr_w` and `ret`.
const SUBROUTINE: Operation = Operation::Refuse(2);

/// `invokedynamic`.
const DYNAMIC: Operation = Operation::Refuse(3);

fn constant(instruction: &Instruction) -> Operation
    requires { instruction.now.opcode ≤ 0x14 }
    ensures { result ≡ operation_of instruction.now }
{
    let operand = &instruction.operand;
    match instruction.opcode {
        0x00 => Operation::Nop,
        0x01 => Operation::PushNull,
        0x02 => Operation::PushInt(-1),
        0x03 => Operation::PushInt(0),
        0x04 => Operation::PushInt(1),
        0x05 => Operation::PushInt(2),
        0x06 => Operation::PushInt(3),
        0x07 => Operation::PushInt(4),
        0x08 => Operation::PushInt(5),
        0x09 => Operation::PushLong(0),
        0x0a => Operation::PushLong(1),
        0x0b..=0x0f => FLOATING,
        0x10 => Operation::PushInt(number_of(operand)),
        0x11 => Operation::PushInt(number_of(operand)),
        0x12 => Operation::PushEntry(entry_of(operand)),
        0x13 => Operation::PushEntry(entry_of(operand)),
        0x14 => Operation::PushEntry(entry_of(operand)),
        _ => unreachable!(),
    }
}

fn load(instruction: &Instruction) -> Operation
    requires low { 0x15 ≤ instruction.now.opcode }
    requires high { instruction.now.opcode ≤ 0x35 }
    ensures { result ≡ operation_of instruction.now }
{
    let operand = &instruction.operand;
    let opcode = u16::from(instruction.opcode);
    match instruction.opcode {
        0x15 => Operation::Load(Sort::Int, local_of(operand)),
        0x16 => Operation::Load(Sort::Long, local_of(operand)),
        0x17..=0x18 => FLOATING,
        0x19 => Operation::Load(Sort::Reference, local_of(operand)),
        0x1a..=0x1d => Operation::Load(Sort::Int, opcode - 0x1a),
        0x1e..=0x21 => Operation::Load(Sort::Long, opcode - 0x1e),
        0x22..=0x29 => FLOATING,
        0x2a..=0x2d => Operation::Load(Sort::Reference, opcode - 0x2a),
        0x2e => Operation::LoadElement(Element::Ints),
        0x2f => Operation::LoadElement(Element::Longs),
        0x30..=0x31 => FLOATING,
        0x32 => Operation::LoadElement(Element::References),
        0x33 => Operation::LoadElement(Element::Bytes),
        0x34 => Operation::LoadElement(Element::Chars),
        0x35 => Operation::LoadElement(Element::Shorts),
        _ => unreachable!(),
    }
}

fn store(instruction: &Instruction) -> Operation
    requires low { 0x36 ≤ instruction.now.opcode }
    requires high { instruction.now.opcode ≤ 0x56 }
    ensures { result ≡ operation_of instruction.now }
{
    let operand = &instruction.operand;
    let opcode = u16::from(instruction.opcode);
    match instruction.opcode {
        0x36 => Operation::Store(Sort::Int, local_of(operand)),
        0x37 => Operation::Store(Sort::Long, local_of(operand)),
        0x38..=0x39 => FLOATING,
        0x3a => Operation::Store(Sort::Reference, local_of(operand)),
        0x3b..=0x3e => Operation::Store(Sort::Int, opcode - 0x3b),
        0x3f..=0x42 => Operation::Store(Sort::Long, opcode - 0x3f),
        0x43..=0x4a => FLOATING,
        0x4b..=0x4e => Operation::Store(Sort::Reference, opcode - 0x4b),
        0x4f => Operation::StoreElement(Element::Ints),
        0x50 => Operation::StoreElement(Element::Longs),
        0x51..=0x52 => FLOATING,
        0x53 => Operation::StoreElement(Element::References),
        0x54 => Operation::StoreElement(Element::Bytes),
        0x55 => Operation::StoreElement(Element::Chars),
        0x56 => Operation::StoreElement(Element::Shorts),
        _ => unreachable!(),
    }
}

fn stack(instruction: &Instruction) -> Operation
    requires low { 0x57 ≤ instruction.now.opcode }
    requires high { instruction.now.opcode ≤ 0x5f }
    ensures { result ≡ operation_of instruction.now }
{
    Operation::Stack(match instruction.opcode {
        0x57 => Shuffle::Pop,
        0x58 => Shuffle::Pop2,
        0x59 => Shuffle::Dup,
        0x5a => Shuffle::DupX1,
        0x5b => Shuffle::DupX2,
        0x5c => Shuffle::Dup2,
        0x5d => Shuffle::Dup2X1,
        0x5e => Shuffle::Dup2X2,
        0x5f => Shuffle::Swap,
        _ => unreachable!(),
    })
}

fn arithmetic(instruction: &Instruction) -> Operation
    requires low { 0x60 ≤ instruction.now.opcode }
    requires high { instruction.now.opcode ≤ 0x77 }
    ensures { result ≡ operation_of instruction.now }
{
    match instruction.opcode {
        0x60 => Operation::IntArithmetic(IntOp::Add),
        0x61 => Operation::LongArithmetic(IntOp::Add),
        0x62..=0x63 => FLOATING,
        0x64 => Operation::IntArithmetic(IntOp::Sub),
        0x65 => Operation::LongArithmetic(IntOp::Sub),
        0x66..=0x67 => FLOATING,
        0x68 => Operation::IntArithmetic(IntOp::Mul),
        0x69 => Operation::LongArithmetic(IntOp::Mul),
        0x6a..=0x6b => FLOATING,
        0x6c => Operation::IntArithmetic(IntOp::Div),
        0x6d => Operation::LongArithmetic(IntOp::Div),
        0x6e..=0x6f => FLOATING,
        0x70 => Operation::IntArithmetic(IntOp::Rem),
        0x71 => Operation::LongArithmetic(IntOp::Rem),
        0x72..=0x73 => FLOATING,
        0x74 => Operation::IntNegate,
        0x75 => Operation::LongNegate,
        0x76..=0x77 => FLOATING,
        _ => unreachable!(),
    }
}

fn bits(instruction: &Instruction) -> Operation
    requires low { 0x78 ≤ instruction.now.opcode }
    requires high { instruction.now.opcode ≤ 0x84 }
    ensures { result ≡ operation_of instruction.now }
{
    let operand = &instruction.operand;
    match instruction.opcode {
        0x78 => Operation::IntShift(ShiftOp::Left),
        0x79 => Operation::LongShift(ShiftOp::Left),
        0x7a => Operation::IntShift(ShiftOp::Right),
        0x7b => Operation::LongShift(ShiftOp::Right),
        0x7c => Operation::IntShift(ShiftOp::Unsigned),
        0x7d => Operation::LongShift(ShiftOp::Unsigned),
        0x7e => Operation::IntArithmetic(IntOp::And),
        0x7f => Operation::LongArithmetic(IntOp::And),
        0x80 => Operation::IntArithmetic(IntOp::Or),
        0x81 => Operation::LongArithmetic(IntOp::Or),
        0x82 => Operation::IntArithmetic(IntOp::Xor),
        0x83 => Operation::LongArithmetic(IntOp::Xor),
        0x84 => Operation::Increase(local_of(operand), number_of(operand)),
        _ => unreachable!(),
    }
}

fn conversion(instruction: &Instruction) -> Operation
    requires low { 0x85 ≤ instruction.now.opcode }
    requires high { instruction.now.opcode ≤ 0x98 }
    ensures { result ≡ operation_of instruction.now }
{
    match instruction.opcode {
        0x85 => Operation::IntToLong,
        0x86..=0x87 => FLOATING,
        0x88 => Operation::LongToInt,
        0x89..=0x90 => FLOATING,
        0x91 => Operation::IntNarrow(Narrow::Byte),
        0x92 => Operation::IntNarrow(Narrow::Char),
        0x93 => Operation::IntNarrow(Narrow::Short),
        0x94 => Operation::LongCompare,
        0x95..=0x98 => FLOATING,
        _ => unreachable!(),
    }
}

fn jump(instruction: &Instruction) -> Operation
    requires low { 0x99 ≤ instruction.now.opcode }
    requires high { instruction.now.opcode ≤ 0xab }
    ensures { result ≡ operation_of instruction.now }
{
    let operand = &instruction.operand;
    let jump = number_of(operand);
    match instruction.opcode {
        0x99 => Operation::IfInt(Test::Eq, jump),
        0x9a => Operation::IfInt(Test::Ne, jump),
        0x9b => Operation::IfInt(Test::Lt, jump),
        0x9c => Operation::IfInt(Test::Ge, jump),
        0x9d => Operation::IfInt(Test::Gt, jump),
        0x9e => Operation::IfInt(Test::Le, jump),
        0x9f => Operation::IfInts(Test::Eq, jump),
        0xa0 => Operation::IfInts(Test::Ne, jump),
        0xa1 => Operation::IfInts(Test::Lt, jump),
        0xa2 => Operation::IfInts(Test::Ge, jump),
        0xa3 => Operation::IfInts(Test::Gt, jump),
        0xa4 => Operation::IfInts(Test::Le, jump),
        0xa5 => Operation::IfSame(true, jump),
        0xa6 => Operation::IfSame(false, jump),
        0xa7 => Operation::Goto(jump),
        0xa8 => SUBROUTINE,
        0xa9 => SUBROUTINE,
        0xaa => switch_of(operand),
        0xab => switch_of(operand),
        _ => unreachable!(),
    }
}

fn member(instruction: &Instruction) -> Operation
    requires low { 0xac ≤ instruction.now.opcode }
    requires high { instruction.now.opcode ≤ 0xba }
    ensures { result ≡ operation_of instruction.now }
{
    let entry = entry_of(&instruction.operand);
    match instruction.opcode {
        0xac => Operation::Return(Some(Sort::Int)),
        0xad => Operation::Return(Some(Sort::Long)),
        0xae..=0xaf => FLOATING,
        0xb0 => Operation::Return(Some(Sort::Reference)),
        0xb1 => Operation::Return(None),
        0xb2 => Operation::GetStatic(entry),
        0xb3 => Operation::PutStatic(entry),
        0xb4 => Operation::GetField(entry),
        0xb5 => Operation::PutField(entry),
        0xb6 => Operation::Invoke(Mode::Virtual, entry),
        0xb7 => Operation::Invoke(Mode::Special, entry),
        0xb8 => Operation::Invoke(Mode::Static, entry),
        0xb9 => Operation::Invoke(Mode::Interface, entry),
        0xba => DYNAMIC,
        _ => unreachable!(),
    }
}

fn object(instruction: &Instruction) -> Operation
    requires low { 0xbb ≤ instruction.now.opcode }
    requires high { instruction.now.opcode ≤ 0xc9 }
    ensures { result ≡ operation_of instruction.now }
{
    let operand = &instruction.operand;
    match instruction.opcode {
        0xbb => Operation::New(entry_of(operand)),
        0xbc => Operation::NewPrimitives(number_of(operand).unsigned_abs()),
        0xbd => Operation::NewReferences(entry_of(operand)),
        0xbe => Operation::Length,
        0xbf => Operation::Throw,
        0xc0 => Operation::CheckCast(entry_of(operand)),
        0xc1 => Operation::InstanceOf(entry_of(operand)),
        0xc2 => Operation::Monitor,
        0xc3 => Operation::Monitor,
        0xc4 => Operation::Nop,
        0xc5 => Operation::NewGrid(entry_of(operand), dimensions_of(operand)),
        0xc6 => Operation::IfNull(true, number_of(operand)),
        0xc7 => Operation::IfNull(false, number_of(operand)),
        0xc8 => Operation::Goto(number_of(operand)),
        0xc9 => SUBROUTINE,
        _ => unreachable!(),
    }
}

/// What an instruction does. An operand that isn't of the instruction's form is read as 0, and an opcode of no instruction does
/// nothing: neither comes up in code that was read (JVMS 6.5, 7).
pub fn operation(instruction: &Instruction) -> Operation
    ensures { result ≡ operation_of instruction.now }
{
    match instruction.opcode {
        0x00..=0x14 => constant(instruction),
        0x15..=0x35 => load(instruction),
        0x36..=0x56 => store(instruction),
        0x57..=0x5f => stack(instruction),
        0x60..=0x77 => arithmetic(instruction),
        0x78..=0x84 => bits(instruction),
        0x85..=0x98 => conversion(instruction),
        0x99..=0xab => jump(instruction),
        0xac..=0xba => member(instruction),
        0xbb..=0xc9 => object(instruction),
        _ => Operation::Nop,
    }
}
