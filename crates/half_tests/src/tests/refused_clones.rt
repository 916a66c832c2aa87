//! A clone of a map whose keys or values refuse to be cloned: it is refused, the clones made by then are dropped, and the map
//! stays as it was.

use super::items::{Item, Told, filled};
use std::alloc::{AllocError, Global};
use std::test::Fail;
use test_support::asserts::{assert_same, assert_same_at};

// Six clones are needed. Where fewer are granted the map stays as it was, and no clone is left.
fn clones_refused<const N: usize>(alloc: Global) -> Result<(), Fail> {
    let told = Told::new();
    let map = filled::<N>(alloc, &told)?;
    for granted in 0..6u64 {
        told.granted.set(granted);
        assert_same_at(granted, clone_by(&map).is_err(), true, "the refusal")?;
        assert_same_at(granted, told.living.get(), 6, "no clone is left")?;
        assert_same_at(granted, told.granted.get(), 0, "as many were made")?;
        let first = map.get(&Item::new(1, &told)).map(|value| value.id);
        assert_same_at(granted, (map.len(), first), (3, Some(4)), "as before")?;
    }
    told.granted.set(6);
    let copy = clone_by(&map)?;
    assert_same(told.living.get(), 12, "twelve")?;
    drop(map);
    assert_same(told.living.get(), 6, "those of the copy")?;
    drop(copy);
    assert_same(told.living.get(), 0, "none")
}

// `clone` by std's trait alone.
fn clone_by<C: Clone>(it: &C) -> Result<C, AllocError> {
    it.clone()
}

#[test]
fn a_refused_clone_drops_what_was_cloned(rt: HostRuntime) -> Result<(), Fail> {
    clones_refused::<5>(rt.alloc())?;
    clones_refused::<0>(rt.alloc())
}
