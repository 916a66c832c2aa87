//! Values, in use: callers that are proved, and what no clause says.
ghost use Rattle.std.specs.Prelude.{◌≡◌, ℕ, List, Some, OnOk, OnErr, OnSome, IsTrue, true, codes, ◌++◌, ◌≢◌};
ghost use Rattle.halfbrown.specs.Pairs.{set_value};
ghost use Rattle.json_value.specs.Members.{is_named, member, members_of};
ghost use Rattle.json_value.specs.Pointer.{is_plain, value_at, PathsPart};
ghost use Rattle.json_value.specs.declared.value.Value.{Bool};

use json_value::{Error, Value};
use std::alloc::Global;
use std::mem;
use std::test::Fail;
use test_support::asserts::{assert_same, assert_same_at};

// Gives a member that is there a new value, through the map.
fn replace_member(document: &mut Value, name: &str, value: Value) -> Option<Value>
    ensures before { result ≡ member document.old name.now }
    ensures after { OnSome result (members_of document.new
        ≡ set_value (is_named name.now) (members_of document.old) value) }
{
    let member = document.as_object_mut()?.get_mut(name)?;
    Some(mem::replace(member, value))
}

// Marks the first user. The limits stay.
#[tactic(auto, using(json_value::proofs::PathFacts::path_facts))]
fn mark_first_user(document: &mut Value) -> Result<(), Error>
    ensures marked { OnOk result (value_at document.new (codes "/users/0") ≡ Some (Bool true)) }
    ensures limits { OnOk result (value_at document.new (codes "/limits") ≡ value_at document.old (codes "/limits")) }
{
    document.set_at("/users/0", Value::Bool(true))?;
    Ok(())
}

// Marks a member. The members of other names stay.
#[tactic(auto, using(json_value::proofs::PathFacts::path_facts))]
fn mark_member(alloc: Global, document: &mut Value, name: &str) -> Result<(), Error>
    requires { IsTrue (is_plain name.now) }
    ensures marked { OnOk result (value_at document.new (codes "/" ++ name.now) ≡ Some (Bool true)) }
    ensures others { OnOk result ((other : List ℕ) → other ≢ name.now → IsTrue (is_plain other)
        → value_at document.new (codes "/" ++ other) ≡ value_at document.old (codes "/" ++ other)) }
{
    let mut path = String::from_str(alloc, "/")?;
    path.push_str(name)?;
    document.set_at(path.as_str(), Value::Bool(true))?;
    Ok(())
}

// The text of the value that a path leads to.
fn text_at(alloc: Global, text: &str, path: &str) -> Result<Option<String>, Error> {
    let document = Value::parse(alloc, text)?;
    match document.pointer(path) {
        Some(value) => Ok(Some(value.to_string(alloc)?)),
        None => Ok(None),
    }
}

// Each path leads to a value of this text, or to none.
fn assert_paths(alloc: Global, text: &str, cases: &[(&str, Option<&str>)]) -> Result<(), Fail> {
    for (path, wanted) in cases {
        let found = text_at(alloc, text, path)?;
        let found = found.as_ref().map(|text| text.as_str());
        assert_same_at(*path, found, *wanted, "the value there")?;
    }
    Ok(())
}

fn assert_written(alloc: Global, value: &Value, wanted: &str) -> Result<(), Fail> {
    let text = value.to_string(alloc)?;
    assert_same(text.as_str(), wanted, "its text")
}

// The text and the table of RFC 6901, section 5, and what the RFC says of other paths. A constant is proved sooner than a list.
const POINTED: &str =
    r#"{"foo":["bar","baz"],"":0,"a/b":1,"c%d":2,"e^f":3,"g|h":4,"i\\j":5,"k\"l":6," ":7,"m~n":8}"#;

const POINTERS: [(&str, Option<&str>); 27] = [
    ("", Some(POINTED)),
    ("/foo", Some(r#"["bar","baz"]"#)),
    ("/foo/0", Some(r#""bar""#)),
    ("/", Some("0")),
    ("/a~1b", Some("1")),
    ("/c%d", Some("2")),
    ("/e^f", Some("3")),
    ("/g|h", Some("4")),
    (r"/i\j", Some("5")),
    ("/k\"l", Some("6")),
    ("/ ", Some("7")),
    ("/m~0n", Some("8")),
    // A slash always begins a step, and a ~ stands for nothing by itself.
    ("foo", None),
    ("/a/b", None),
    ("/m~n", None),
    ("/m~", None),
    ("/m~2n", None),
    ("/m~0", None),
    // An index has digits alone, and no zero before them.
    ("/foo/1", Some(r#""baz""#)),
    ("/foo/2", None),
    ("/foo/01", None),
    ("/foo/00", None),
    ("/foo/+1", None),
    ("/foo/-", None),
    ("/foo/", None),
    ("/foo/18446744073709551616", None),
    ("/foo/0/", None),
];

#[test]
fn a_path_is_a_json_pointer(rt: HostRuntime) -> Result<(), Fail> {
    assert_paths(rt.alloc(), POINTED, &POINTERS)
}

#[test]
fn members_are_set_and_merged(rt: HostRuntime) -> Result<(), Fail> {
    let alloc = rt.alloc();
    let mut value = Value::parse(alloc, r#"{"a": 1}"#)?;
    change_members(alloc, &mut value)?;
    value.merge(Value::parse(alloc, r#"{"c": [], "a": null}"#)?)?;
    assert_written(alloc, &value, r#"{"a":null,"b":true,"c":[]}"#)
}

fn change_members(alloc: Global, value: &mut Value) -> Result<(), Fail> {
    let added = value.set(String::from_str(alloc, "b")?, Value::Null)?;
    assert_same(added, None, "it is new")?;
    let before = replace_member(value, "b", Value::Bool(true));
    assert_same(before, Some(Value::Null), "the value before")
}

#[test]
fn other_paths_lead_where_they_led(rt: HostRuntime) -> Result<(), Fail> {
    let alloc = rt.alloc();
    let mut value = Value::parse(alloc, r#"{"users":[1,2],"limits":3}"#)?;
    mark_first_user(&mut value)?;
    mark_member(alloc, &mut value, "limits")?;
    assert_written(alloc, &value, r#"{"users":[true,2],"limits":true}"#)
}
