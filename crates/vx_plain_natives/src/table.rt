//! The native methods by their numbers.

ghost use Rattle.std.specs.Prelude.{◌≤◌};
ghost use Rattle.vx_java.specs.Natives.{native_of};
ghost use Rattle.vx_plain_strings.specs.Answers.{Does};

use crate::boxes::{
    absolute_int, absolute_long, boolean_to_string, boolean_value_of, compare_numbers, greater_int,
    greater_long, integer_compare, integer_int_value, integer_long_value, integer_parse,
    integer_to_string, integer_to_string_of, integer_value_of, lesser_int, lesser_long,
    same_number,
};
use crate::copying::array_copy;
use crate::objects::{
    add_suppressed, enum_compare, enum_init, exit, first_cell, line_separator, second_cell,
    throwable_class_name, throwable_init,
};
use crate::printing::{print_line_end, print_of, value_as_text};
use vx_plain::State;
use vx_plain_here::Made;
use vx_plain_strings::{
    Call, Spelling, answer_false, answer_receiver, builder_append, builder_delete,
    builder_init_capacity, builder_reverse, builder_set_length, illegal, nothing, same_object,
    string_compare, string_concat, string_ends_with, string_equals, string_hash, string_index_of,
    string_index_of_point, string_init, string_init_chars, string_init_string, string_starts_with,
    string_substring, string_to_chars, text_char_at, text_is_empty, text_length, text_to_string,
};

/// Object and String.
fn of_strings(call: &Call<'_>, state: &mut State, number: u32) -> Made
    requires first { 1 ≤ number }
    requires last { number ≤ 25 }
    ensures { Does call.now (native_of number) state.old state.new result }
{
    match number {
        1 => nothing(call, state),
        2 => same_object(call, state),
        3 => string_init(call, state),
        4 => string_init_string(call, state),
        5 => string_init_chars(call, state),
        6 => text_length(call, state),
        7 => text_is_empty(call, state),
        8 => text_char_at(call, state),
        9 => string_hash(call, state),
        10 => string_equals(call, state),
        11 => string_compare(call, state),
        12 => string_concat(call, state),
        13 => string_substring(call, state),
        14 => string_substring(call, state),
        15 => string_index_of_point(call, state),
        16 => string_index_of(call, state),
        17 => string_starts_with(call, state),
        18 => string_ends_with(call, state),
        19 => string_to_chars(call, state),
        20 => answer_receiver(call, state),
        21 => value_as_text(call, state, Spelling::Int),
        22 => value_as_text(call, state, Spelling::Long),
        23 => value_as_text(call, state, Spelling::Bool),
        24 => value_as_text(call, state, Spelling::Char),
        25 => value_as_text(call, state, Spelling::Chars),
        _ => unreachable!(),
    }
}

/// StringBuilder and Class.
fn of_builders(call: &Call<'_>, state: &mut State, number: u32) -> Made
    requires first { 26 ≤ number }
    requires last { number ≤ 40 }
    ensures { Does call.now (native_of number) state.old state.new result }
{
    match number {
        26 => string_init(call, state),
        27 => builder_init_capacity(call, state),
        28 => string_init_string(call, state),
        29 => builder_append(call, state, Spelling::Int),
        30 => builder_append(call, state, Spelling::Long),
        31 => builder_append(call, state, Spelling::Bool),
        32 => builder_append(call, state, Spelling::Char),
        33 => builder_append(call, state, Spelling::Text),
        34 => text_length(call, state),
        35 => text_char_at(call, state),
        36 => builder_set_length(call, state),
        37 => builder_delete(call, state),
        38 => builder_reverse(call, state),
        39 => text_to_string(call, state),
        40 => answer_false(call, state),
        _ => unreachable!(),
    }
}

/// PrintStream and System.
fn of_streams(call: &Call<'_>, state: &mut State, number: u32) -> Made
    requires first { 41 ≤ number }
    requires last { number ≤ 57 }
    ensures { Does call.now (native_of number) state.old state.new result }
{
    match number {
        41 => print_of(call, state, Spelling::Bool, &[]),
        42 => print_of(call, state, Spelling::Char, &[]),
        43 => print_of(call, state, Spelling::Int, &[]),
        44 => print_of(call, state, Spelling::Long, &[]),
        45 => print_of(call, state, Spelling::Text, &[]),
        46 => print_of(call, state, Spelling::Chars, &[]),
        47 => print_of(call, state, Spelling::Bool, &[10]),
        48 => print_of(call, state, Spelling::Char, &[10]),
        49 => print_of(call, state, Spelling::Int, &[10]),
        50 => print_of(call, state, Spelling::Long, &[10]),
        51 => print_of(call, state, Spelling::Text, &[10]),
        52 => print_of(call, state, Spelling::Chars, &[10]),
        53 => print_line_end(call, state),
        54 => nothing(call, state),
        55 => array_copy(call, state),
        56 => exit(call, state),
        57 => line_separator(call, state),
        _ => unreachable!(),
    }
}

/// Number, Integer, Boolean and Math.
fn of_numbers(call: &Call<'_>, state: &mut State, number: u32) -> Made
    requires first { 58 ≤ number }
    requires last { number ≤ 79 }
    ensures { Does call.now (native_of number) state.old state.new result }
{
    match number {
        58 => nothing(call, state),
        59 => integer_value_of(call, state),
        60 => integer_parse(call, state),
        61 => integer_to_string_of(call, state),
        62 => integer_compare(call, state),
        63 => integer_int_value(call, state),
        64 => integer_long_value(call, state),
        65 => integer_to_string(call, state),
        66 => same_number(call, state),
        67 => integer_int_value(call, state),
        68 => compare_numbers(call, state),
        69 => boolean_value_of(call, state),
        70 => integer_int_value(call, state),
        71 => boolean_to_string(call, state),
        72 => same_number(call, state),
        73 => compare_numbers(call, state),
        74 => absolute_int(call, state),
        75 => absolute_long(call, state),
        76 => greater_int(call, state),
        77 => greater_long(call, state),
        78 => lesser_int(call, state),
        79 => lesser_long(call, state),
        _ => unreachable!(),
    }
}

/// Enum and Throwable.
fn of_objects(call: &Call<'_>, state: &mut State, number: u32) -> Made
    requires first { 80 ≤ number }
    requires last { number ≤ 92 }
    ensures { Does call.now (native_of number) state.old state.new result }
{
    match number {
        80 => enum_init(call, state),
        81 => first_cell(call, state),
        82 => second_cell(call, state),
        83 => first_cell(call, state),
        84 => same_object(call, state),
        85 => enum_compare(call, state),
        86 => throwable_init(call, state),
        87 => throwable_init(call, state),
        88 => throwable_init(call, state),
        89 => first_cell(call, state),
        90 => second_cell(call, state),
        91 => throwable_class_name(call, state),
        92 => add_suppressed(call, state),
        _ => unreachable!(),
    }
}

/// What a native method does. Another number breaks a rule of the call.
#[tactic(auto, using(crate::proofs::Numbered::no_method))]
pub(crate) fn by_number(call: &Call<'_>, state: &mut State, number: u32) -> Made
    ensures { Does call.now (native_of number) state.old state.new result }
{
    if number == 0 {
        return illegal(call, state);
    }
    if number > 92 {
        return illegal(call, state);
    }
    if number <= 25 {
        return of_strings(call, state, number);
    }
    if number <= 40 {
        return of_builders(call, state, number);
    }
    if number <= 57 {
        return of_streams(call, state, number);
    }
    if number <= 79 {
        return of_numbers(call, state, number);
    }
    of_objects(call, state, number)
}
