//! A struct that keeps a fact of its map, cloned and read.
use half_callers::guests::Guests;
use std::test::Fail;
use test_support::asserts::assert_same;

#[test]
fn guests_are_read_if_they_have_seats(rt: HostRuntime) -> Result<(), Fail> {
    let alloc = rt.alloc();
    let two = r#"{"tables":{"1":2,"3":4},"seats":2}"#;
    let guests: Guests = serde_json::from_str(alloc, two)?;
    assert_same(guests.clone()?, guests, "all of them")?;
    let three = r#"{"tables":{"1":2,"3":4,"5":4},"seats":2}"#;
    let refused = serde_json::from_str::<Guests>(alloc, three).is_err();
    assert_same(refused, true, "one has no seat")
}
