//! Cases side by side as truth tables, read lane by lane.

ghost use Rattle.std.specs.Prelude.{◌≡◌, ◌<◌, true, length, map, IsTrue};
ghost use Rattle.mpy_tree.specs.Fitting.{all_fit_as, type_of};
ghost use Rattle.bit_lanes.specs.LaneCases.{FillLanes};

use bit_lanes::{Lanes, lane_values, lanes_are_few, lanes_are_numbers};
use bit_words::NoMemory;
use bit_words::logic::Logic;
use bit_words::words::Words;
use input_space::{Case, Cases, read_case};
use mpy_tree::{Limits, Value, Values};
use std::alloc::Global;
use std::test::Fail;
use sym_values::SymValue;

const LIMITS: Limits = Limits {
    width: 8,
    turns: 1,
    depth: 1,
    cap: 3,
    prints: 0,
};

const CASES: [&str; 3] = [
    "-8, True, [], ''",
    "7, False, [-128, 127, 1], 'ab~'",
    "-1, True, [0], ' '",
];

/// What is shown of these: numbers, 1 for True, and lengths before the items.
const SHOWN: [&[i32]; 3] = [
    &[-8, 1, 0, 0],
    &[7, 0, 3, -128, 127, 1, 3, 97, 98, 126],
    &[-1, 1, 1, 0, 1, 32],
];

/// Whether two values are of one type.
fn are_alike(a: &Value, b: &Value) -> bool
    ensures { IsTrue result → type_of a.now ≡ type_of b.now }
{
    match (a, b) {
        (Value::Int(_), Value::Int(_)) => true,
        (Value::Bool(_), Value::Bool(_)) => true,
        (Value::List(_), Value::List(_)) => true,
        (Value::Text(_), Value::Text(_)) => true,
        _ => false,
    }
}

/// Whether values have the types of others and fit the limits.
fn fit_like(l: &Limits, first: &[Value], values: &[Value]) -> bool
    ensures { IsTrue result → all_fit_as l.now (map type_of first.now) values.now ≡ true }
{
    if first.len() != values.len() {
        return false;
    }
    for i in 0..first.len() {
        let value = &values[i];
        if !are_alike(&first[i], value) || !value.fits(l) {
            return false;
        }
    }
    true
}

/// Whether there are 1 to 64 cases, whose values have the types of the first and fit.
fn are_lanes(l: &Limits, cases: &Cases) -> bool
    ensures { IsTrue result → FillLanes l.now cases.now }
{
    let cases = cases.items();
    if cases.is_empty() || cases.len() > 64 {
        return false;
    }
    for case in cases {
        if !fit_like(l, cases[0].values.items(), case.values.items()) {
            return false;
        }
    }
    true
}

/// Whether a table says that it is true in a lane.
fn holds(table: u64, lane: u32) -> bool {
    lane < 64 && (table >> lane) & 1 == 1
}

/// The number of tables in a lane, without a sign.
fn number(tables: &[u64], lane: u32) -> i32 {
    let mut number = 0i32;
    for table in tables.iter().rev() {
        number = number.wrapping_add(number);
        if holds(*table, lane) {
            number = number.wrapping_add(1);
        }
    }
    number
}

/// The number in two's complement.
fn signed(tables: &[u64], lane: u32) -> i32 {
    let mut power = 1i32;
    for _ in tables {
        power = power.wrapping_add(power);
    }
    let whole = number(tables, lane);
    match tables.last() {
        Some(top) if holds(*top, lane) => whole.wrapping_sub(power),
        _ => whole,
    }
}

/// The number with or without a sign.
fn read(tables: &[u64], lane: u32, has_sign: bool) -> i32 {
    if has_sign {
        signed(tables, lane)
    } else {
        number(tables, lane)
    }
}

/// Adds what is shown of a list or a text in a lane.
fn show_items(
    shown: &mut Vec<i32>,
    len: &[u64],
    items: &Words<u64>,
    lane: u32,
    has_sign: bool,
) -> Result<(), NoMemory> {
    let mut left = number(len, lane);
    shown.push(left)?;
    for i in 0..items.len() {
        if left > 0 {
            shown.push(read(items.at(i).as_slice(), lane, has_sign))?;
            left = left.wrapping_sub(1);
        }
    }
    Ok(())
}

/// Adds what is shown of a value in a lane.
fn show(shown: &mut Vec<i32>, value: &SymValue<u64>, lane: u32) -> Result<(), NoMemory> {
    match value {
        SymValue::Int(word) => shown.push(signed(word.as_slice(), lane))?,
        SymValue::Bool(table) => shown.push(i32::from(holds(*table, lane)))?,
        SymValue::List { len, items } => show_items(shown, len.as_slice(), items, lane, true)?,
        SymValue::Text { len, items } => show_items(shown, len.as_slice(), items, lane, false)?,
    }
    Ok(())
}

/// What is shown of values in a lane.
fn shown_in(alloc: Global, values: &[SymValue<u64>], lane: u32) -> Result<Vec<i32>, NoMemory> {
    let mut shown = Vec::new(alloc);
    for value in values {
        show(&mut shown, value, lane)?;
    }
    Ok(shown)
}

/// In each lane its case is read, and past the last case the last.
#[test]
fn cases_are_read_by_lane(rt: HostRuntime) -> Result<(), Fail> {
    let alloc = rt.alloc();
    let mut cases = Cases::from_vec(Vec::new(alloc));
    for text in &CASES {
        let case = read_case(alloc, text.as_bytes())?;
        cases.push(case)?;
    }
    let are_lanes = are_lanes(&LIMITS, &cases);
    assert!(rt; are_lanes);
    let values = lane_values(alloc, &LIMITS, &cases)?;
    for lane in 0..64u32 {
        let shown = shown_in(alloc, &values, lane)?;
        let wanted = SHOWN[(lane as usize).min(2)];
        assert!(rt; shown.as_slice() == wanted, "lane {lane}");
    }
    Ok(())
}

/// Of 64 cases each has a lane.
#[test]
fn each_of_64_cases_has_a_lane(rt: HostRuntime) -> Result<(), Fail> {
    let alloc = rt.alloc();
    let mut cases = Cases::from_vec(Vec::new(alloc));
    let mut number = -32i32;
    for _ in 0..64 {
        let values = vec![in alloc; Value::Int(number)]?;
        cases.push(Case {
            values: Values::from_vec(values),
        })?;
        number = number.wrapping_add(1);
    }
    let are_lanes = are_lanes(&LIMITS, &cases);
    assert!(rt; are_lanes);
    let values = lane_values(alloc, &LIMITS, &cases)?;
    let mut wanted = -32i32;
    for lane in 0..64u32 {
        let shown = shown_in(alloc, &values, lane)?;
        assert!(rt; shown.as_slice() == [wanted].as_slice(), "lane {lane}");
        wanted = wanted.wrapping_add(1);
    }
    Ok(())
}

/// Operations go lane by lane.
#[test]
fn operations_go_by_lane(rt: HostRuntime) -> Result<(), Fail> {
    lanes_are_few();
    lanes_are_numbers();
    let mut g = Lanes::new();
    assert_eq!(rt; g.and(0b1100, 0b1010)?, 0b1000);
    assert_eq!(rt; g.xor(0b1100, 0b1010)?, 0b0110);
    assert_eq!(rt; g.choose(0b1100, 0b1010, 0b0110)?, 0b1010);
    assert_eq!(rt; g.not(0b1100), u64::MAX - 0b1100);
    assert_eq!(rt; g.known(g.constant(true)), Some(true));
    assert_eq!(rt; g.known(g.constant(false)), Some(false));
    assert_eq!(rt; g.known(0b1100), None);
    assert!(rt; g.same(0b1100, 0b1100) && !g.same(0b1100, 0b1010));
    Ok(())
}
