//! Texts and records by example, in calls that the program makes for no command or tells little of.

use bytes::Bytes;
use hr_base::{Class, print_name, read_decimal, read_name};
use record_format::decode;
use script_text::{Mode, print_line, read_script};
use std::alloc::Global;
use std::test::Fail;
use test_rows::expecting::{expect, expect_text};

/// A line of each form, and bytes at the edges of those that stand for themselves.
const LINES: &str = "\
0 put 5 k1 a%20b
7 put 18446744073709551615 % %
63 put 0 %00%1F!~%7F%FF %25%0A%A9z
63 remove 0 %FF%00
10 clear 10
1 get 1 %25
1 get 0 %
0 sync
";

/// Texts that are names, and then texts that are none.
const NAMES: [&str; 6] = [
    "p00-v-0000000000000001.chunk",
    "p07-t-00000000000000af.chunk",
    "p63-x-0000ffffffffffff.chunk",
    "p10-w-0000123456789abc.chunk",
    "p21-u-0000000000001000.chunk",
    "p09-y-0000000000000010.chunk",
];

const NO_NAMES: [&str; 9] = [
    "p00-v-00000000000000AF.chunk",
    "p64-v-0000000000000001.chunk",
    "p00-v-0000000000000000.chunk",
    "p00-v-0001000000000000.chunk",
    "p00-a-0000000000000001.chunk",
    "p00-v-000000000000001.chunk",
    "p00-v-00000000000000001.chunk",
    "p00-v-0000000000000001.chunl",
    "",
];

/// Texts that are numbers, and then texts that are none.
const NUMBERS: [&str; 5] = ["0", "7", "10", "4294967296", "18446744073709551615"];

const NO_NUMBERS: [&str; 8] = [
    "",
    "00",
    "07",
    "+7",
    "-7",
    "7 ",
    "0x7",
    "18446744073709551616",
];

/// Rows of a class, bytes, and what they are decoded to. In the bytes a point stands for a zero, and `%` and two digits
/// for a byte.
const STEPS: &str = "\
value .......%01.......%05...%02...%02k1v1 Whole(Value { seq: Seq(1), prefix: 5, key: [107, 49], value: [118, 49] }, 28)
value .......%01.......%05...%02...%02k1v1.more Whole(Value { seq: Seq(1), prefix: 5, key: [107, 49], value: [118, 49] }, 28)
value .......%01................ Whole(Value { seq: Seq(1), prefix: 0, key: [], value: [] }, 24)
tomb .......%04.......%01...%01b Whole(Tomb { seq: Seq(4), prefix: 1, key: [98] }, 21)
tomb .......%01.......%05...%02...%02k1v1 Whole(Tomb { seq: Seq(1), prefix: 5, key: [0, 0] }, 22)
clear .......%02.......%06. Whole(Clear { prefix: 2, seq: Seq(6) }, 16)
value ........................ Damaged(Number(0))
tomb %80................... Damaged(Number(9223372036854775808))
clear .......%01%80....... Damaged(Number(9223372036854775808))
tomb %7F%FF%FF%FF%FF%FF%FF%FF...........%01 Torn
value .......%01.........%01...... Damaged(KeyLength(65536))
tomb .......%01.........%01..k Damaged(KeyLength(65536))
value .......%01..........%FF%FF.... Torn
value .......%01.............%10.%01 Damaged(ValueLength(1048577))
value .......%01.............%10.. Torn
value ................%FF%FF%FF%FF%FF%FF%FF%FF Damaged(Number(0))
value .......%01.........%01..%FF%FF%FF%FF Damaged(KeyLength(65536))
value ................%FF%FF%FF%FF%FF%FF%FF Torn
";

/// The first eight lines of a script, each read and printed.
fn printed_lines(alloc: Global, text: &[u8], mode: Mode) -> Result<Vec<u8>, Fail> {
    let script = read_script(text.to_vec(alloc)?, mode, 64)?;
    let mut lines = script.lines(alloc)?;
    let mut printed = Vec::new(alloc);
    for _ in 0..8 {
        if lines.advance() {
            print_line(&lines.line(), &mut printed)?;
        }
    }
    expect(!lines.advance(), "eight lines")?;
    Ok(printed)
}

/// Each line is read, printed and read again, in each mode.
fn check_lines(alloc: Global, mode: Mode) -> Result<(), Fail> {
    let printed = printed_lines(alloc, LINES.as_bytes(), mode)?;
    expect_text(printed.as_slice(), LINES.as_bytes(), "lines")?;
    let again = printed_lines(alloc, printed.as_slice(), mode)?;
    expect_text(
        again.as_slice(),
        LINES.as_bytes(),
        "lines that were printed",
    )
}

#[test]
fn texts_are_read_and_printed(rt: HostRuntime) -> Result<(), Fail> {
    for mode in [Mode::Play, Mode::Drill, Mode::Run] {
        check_lines(rt.alloc(), mode)?;
    }
    for text in NAMES {
        let name = read_name(text.as_bytes()).ok_or(text)?;
        expect_text(&print_name(name), text.as_bytes(), text)?;
    }
    for text in NO_NAMES {
        expect(read_name(text.as_bytes()).is_none(), text)?;
    }
    for text in NUMBERS {
        let number = read_decimal(text.as_bytes()).ok_or(text)?;
        expect_text(
            format!(in rt.alloc(); "{number}")?.as_bytes(),
            text.as_bytes(),
            text,
        )?;
    }
    for text in NO_NUMBERS {
        expect(read_decimal(text.as_bytes()).is_none(), text)?;
    }
    Ok(())
}

/// The class that a word names.
fn class_of(word: &str) -> Class {
    match word {
        "value" => Class::Value,
        "tomb" => Class::Tomb,
        _ => Class::Clear,
    }
}

/// The bytes of a text of the table.
fn bytes_of(alloc: Global, text: &str) -> Result<Vec<u8>, Fail> {
    let mut bytes = Vec::new(alloc);
    let mut pieces = text.split('%');
    for byte in pieces.next().unwrap_or("").bytes() {
        bytes.push(if byte == b'.' { 0 } else { byte })?;
    }
    for piece in pieces {
        let (digits, rest) = piece.split_at_checked(2).ok_or("no digits")?;
        bytes.push(u8::from_str_radix(digits, 16)?)?;
        for byte in rest.bytes() {
            bytes.push(if byte == b'.' { 0 } else { byte })?;
        }
    }
    Ok(bytes)
}

/// What bytes are decoded to.
fn step_of(alloc: Global, bytes: &[u8], class: Class) -> Result<String, Fail> {
    Ok(format!(in alloc; "{:?}", decode(bytes, class))?)
}

/// Compares what bytes are decoded to. Each front of them is torn, or is decoded to the same.
fn check_step(alloc: Global, row: &str) -> Result<(), Fail> {
    let mut words = row.splitn(3, ' ');
    let class = class_of(words.next().unwrap_or(""));
    let bytes = bytes_of(alloc, words.next().unwrap_or(""))?;
    let wanted = words.next().unwrap_or("");
    let step = step_of(alloc, bytes.as_slice(), class)?;
    expect_text(step.as_bytes(), wanted.as_bytes(), row)?;
    for cut in 0..bytes.len() {
        let front = bytes.get(..cut).ok_or("no front")?;
        let step = step_of(alloc, front, class)?;
        expect(step.as_str() == "Torn" || step.as_str() == wanted, row)?;
    }
    Ok(())
}

#[test]
fn fronts_of_records_are_decoded_by_the_table(rt: HostRuntime) -> Result<(), Fail> {
    for row in STEPS.lines() {
        check_step(rt.alloc(), row)?;
    }
    Ok(())
}
