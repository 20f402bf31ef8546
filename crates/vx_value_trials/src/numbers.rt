use vx_numbers::{
    compare_long, int_op, long_op, long_to_int, narrow, negate_int, negate_long, shift_int,
    shift_long,
};
use vx_value::{IntOp, Narrow, ShiftOp};

fn operations() -> bool {
    int_op(IntOp::Div, i32::MIN, -1) == Some(i32::MIN)
        && int_op(IntOp::Rem, -7, 3) == Some(-1)
        && int_op(IntOp::Rem, 7, 0).is_none()
        && long_op(IntOp::Mul, i64::MIN, -1) == Some(i64::MIN)
        && negate_int(i32::MIN) == i32::MIN
        && negate_long(5) == -5
}

fn shifts_and_comparisons() -> bool {
    shift_int(ShiftOp::Left, 1, 33) == 2
        && shift_int(ShiftOp::Unsigned, -1, 28) == 15
        && shift_long(ShiftOp::Right, -8, 65) == -4
        && compare_long(1, 2) == -1
        && compare_long(2, 2) == 0
}

fn conversions() -> bool {
    narrow(Narrow::Byte, 200) == -56
        && narrow(Narrow::Char, -1) == 65_535
        && narrow(Narrow::Short, 40_000) == -25_536
        && narrow(Narrow::Bool, 7) == 1
        && long_to_int(4_294_967_297) == 1
}

#[test]
fn edges_of_the_instructions(rt: HostRuntime) {
    assert!(rt; operations());
    assert!(rt; shifts_and_comparisons());
    assert!(rt; conversions());
}
