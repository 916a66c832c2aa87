//! Maps that are read from JSON and written again.
use super::{Map, Object};
use halfbrown::{AtMost, DefaultHashBuilder, HashMap, SizedHashMap};
use serde::{Deserialize, Serialize};
use serde_json::{Category, Error, Value};
use std::process::Abort;
use std::test::Fail;

#[derive(Debug, Drop, PartialEq, Serialize, Deserialize)]
struct Order {
    #[serde(with = "crate::as_map")]
    counts: HashMap<String, u64>,
    #[serde(with = "crate::as_map")]
    marks: SizedHashMap<char, bool, DefaultHashBuilder, 1>,
    #[serde(default)]
    prices: Object<Object<u64>>,
}

#[test]
fn a_struct_keeps_its_maps(rt: HostRuntime) -> Result<(), Fail> {
    let alloc = rt.alloc();
    let text =
        r#"{"counts":{"pen":2,"ink":1},"marks":{"b":true,"a":false},"prices":{"pen":{"net":3,"gross":4},"ink":{}}}"#;
    let order: Order = serde_json::from_str(alloc, text)?;
    assert_eq!(rt; order.counts.get("ink"), Some(&1));
    assert!(rt; order.counts.is_vec() && order.marks.is_map());
    assert_eq!(rt;
        order.prices.0.get("pen").and_then(|pen| pen.0.get("gross")),
        Some(&4)
    );
    assert_eq!(rt; serde_json::to_string(alloc, &order)?.as_str(), text);
    let owned: Order = serde_json::from_value(alloc, Value::from_str(alloc, text)?)?;
    assert_eq!(rt; owned, order);
    Ok(())
}

#[test]
fn a_missing_map_is_empty_by_default(rt: HostRuntime) -> Result<(), Fail> {
    let alloc = rt.alloc();
    let order: Order = serde_json::from_str(alloc, r#"{"counts":{},"marks":{}}"#)?;
    assert!(rt; order.counts.is_empty() && order.prices.0.is_empty());
    assert!(rt; serde_json::from_str::<Order>(alloc, r#"{"counts":{}}"#).is_err());
    Ok(())
}

#[test]
fn an_error_in_the_middle_fails_the_read(rt: HostRuntime) -> Result<(), Fail> {
    let alloc = rt.alloc();
    for text in [
        r#"{"a":1,}"#,
        r#"{"a":1,"b" 2,"c":3}"#,
        r#"{"a":1,"b":true,"c":3}"#,
        r#"{"a":1,2:2,"c":3}"#,
    ] {
        assert!(rt; serde_json::from_str::<Object<u64>>(alloc, text).is_err());
    }
    Ok(())
}

#[test]
fn the_last_value_stands_at_the_first_place(rt: HostRuntime) -> Result<(), Fail> {
    let alloc = rt.alloc();
    let object: Object<u64> = serde_json::from_str(alloc, r#"{"b":1,"a":2,"b":3}"#)?;
    assert_eq!(rt;
        serde_json::to_string(alloc, &object)?.as_str(),
        r#"{"b":3,"a":2}"#
    );
    Ok(())
}

#[test]
fn a_large_map_is_read_into_a_table(rt: HostRuntime) -> Result<(), Fail> {
    let alloc = rt.alloc();
    let mut squares = Map::from(HashMap::<u64, u64>::new(alloc));
    for root in 0..300 {
        squares.0.insert(300 - root, root * root)?;
    }
    let text = serde_json::to_string(alloc, &squares)?;
    let read: Map<u64, u64> = serde_json::from_str(alloc, &text)?;
    assert_eq!(rt; read.0.len(), 300);
    assert!(rt; read.0.is_map());
    assert_eq!(rt; serde_json::to_string(alloc, &read)?, text);
    assert_eq!(rt; read, squares);
    Ok(())
}

type Small = Map<u64, u64, DefaultHashBuilder, AtMost<2>>;

// Prints that the five pairs were read, or that memory was refused, which may happen.
fn tell(rt: &(impl Print + Abort), read: Result<Small, Error>) -> Result<(), Fail> {
    match read {
        Ok(map) => {
            assert_eq!(rt; map.0.len(), 5);
            println!(rt; "whole")?;
        }
        Err(error) => {
            assert_eq!(rt; error.classify(), Category::Memory);
            println!(rt; "no memory after {} bytes", error.column())?;
        }
    }
    Ok(())
}

// `tests/refused_reads.py` refuses each of its requests for memory by itself.
#[test]
fn a_refused_read_is_an_error_of_memory(rt: HostRuntime) -> Result<(), Fail> {
    let alloc = rt.alloc();
    let text = r#"{"5":1,"4":2,"3":3,"2":4,"1":5}"#;
    tell(&rt, serde_json::from_str(alloc, text))?;
    let value = Value::from_str(alloc, text);
    tell(
        &rt,
        value.and_then(|value| serde_json::from_value(alloc, value)),
    )
}
