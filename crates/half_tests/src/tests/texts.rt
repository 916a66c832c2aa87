//! Maps of texts under random hashes, and what is printed: the forms of a text, and the text of an error.

use half_callers::basics::ages_by_names_of_others;
use half_uses::object::Object;
use halfbrown::{HashMap, Refusal, Refused, RefusedKey};
use json_value::{Error, Value};
use std::alloc::Global;
use std::fmt::Debug;
use std::hash::RandomState;
use std::io;
use std::test::Fail;
use test_support::asserts::assert_same;

// Plain, in lines, with signs, and with a width, which is that of each key and of each value.
fn assert_forms<T: Debug>(alloc: Global, shown: &T, expected: [&str; 4]) -> Result<(), Fail> {
    let text = format!(in alloc; "{shown:?}")?;
    assert_same(text.as_str(), expected[0], "plain")?;
    let text = format!(in alloc; "{shown:#?}")?;
    assert_same(text.as_str(), expected[1], "in lines")?;
    let text = format!(in alloc; "{shown:+?}")?;
    assert_same(text.as_str(), expected[2], "with signs")?;
    let text = format!(in alloc; "{shown:5?}")?;
    assert_same(text.as_str(), expected[3], "with a width")
}

#[test]
fn forms_are_those_of_each_pair(rt: HostRuntime) -> Result<(), Fail> {
    let alloc = rt.alloc();
    let mut map = HashMap::<u64, u64>::new(alloc);
    map.insert(7, 70)?;
    let forms = ["{7: 70}", "{\n    7: 70,\n}", "{+7: +70}", "{    7:    70}"];
    assert_forms(alloc, &map, forms)?;
    let mut members = Object::new(alloc);
    members.set(7u64, 70u64)?;
    assert_forms(alloc, &members, forms)?;
    let forms = [
        "[(7, 70)]",
        "[\n    (\n        7,\n        70,\n    ),\n]",
        "[(+7, +70)]",
        "[(    7,    70)]",
    ];
    assert_forms(alloc, &map.iter(), forms)
}

#[test]
fn forms_of_entries(rt: HostRuntime) -> Result<(), Fail> {
    let alloc = rt.alloc();
    let mut map = HashMap::<u64, u64>::new(alloc);
    let forms = [
        "Entry(VacantEntry(7))",
        "Entry(\n    VacantEntry(\n        7,\n    ),\n)",
        "Entry(VacantEntry(+7))",
        "Entry(VacantEntry(    7))",
    ];
    assert_forms(alloc, &map.entry(7)?, forms)?;
    map.insert(7, 70)?;
    let forms = [
        "Entry(OccupiedEntry { key: 7, value: 70 })",
        "Entry(\n    OccupiedEntry {\n        key: 7,\n        value: 70,\n    },\n)",
        "Entry(OccupiedEntry { key: +7, value: +70 })",
        "Entry(OccupiedEntry { key:     7, value:    70 })",
    ];
    assert_forms(alloc, &map.entry(7)?, forms)
}

#[test]
fn forms_of_a_json_value(rt: HostRuntime) -> Result<(), Fail> {
    let value = Value::parse(rt.alloc(), r#"{"a": [null]}"#)?;
    let plain = r#"Object({"a": List([Null])})"#;
    let lines =
        "Object(\n    {\n        \"a\": List(\n            [\n                Null,\n            ],\n        ),\n    },\n)";
    assert_forms(rt.alloc(), &value, [plain, lines, plain, plain])
}

// The program json_at prints the other errors.
#[test]
fn an_error_of_json_has_a_text(rt: HostRuntime) -> Result<(), Fail> {
    let text = format!(in rt.alloc(); "{}", Error::NoObject)?;
    assert_same(text.as_str(), "this is no object", "the text")
}

#[test]
fn an_io_error_has_the_text_of_its_reason(rt: HostRuntime) -> Result<(), Fail> {
    let (key, value) = (1u64, 10u64);
    for (why, expected) in [
        (Refusal::Memory, "memory could not be allocated"),
        (Refusal::Size, "more than 2^60 pairs"),
    ] {
        for error in [
            io::Error::from(why),
            io::Error::from(Refused { key, value, why }),
            io::Error::from(RefusedKey { key, why }),
        ] {
            let text = format!(in rt.alloc(); "{error}")?;
            assert_same(text.as_str(), expected, "the text")?;
        }
    }
    Ok(())
}

#[test]
fn names_of_others_are_hashed_at_random(rt: HostRuntime) -> Result<(), Fail> {
    let mut ages = ages_by_names_of_others(&rt, rt.alloc())?;
    add_forty(rt.alloc(), &mut ages)?;
    assert_same(ages.is_map(), true, "more than a vector holds")?;
    let held = ["0", "7", "39", "40"].map(|name| ages.get(name).copied());
    assert_same(held, [Some(0), Some(7), Some(39), None], "the ages")
}

fn add_forty(alloc: Global, ages: &mut HashMap<String, u32, RandomState>) -> Result<(), Fail> {
    for age in 0..40u32 {
        ages.insert(format!(in alloc; "{age}")?, age)?;
    }
    Ok(())
}
