//! Look-ups by a text or a slice that has no owner, for each type of key: in a vector and in a table.

use half_conditions::by_index;
use halfbrown::{Equivalent, SizedHashMap};
use std::alloc::{AllocError, Global};
use std::borrow::{CowSlice, CowStr};
use std::boxed::{BoxedSlice, BoxedStr};
use std::fmt::Debug;
use std::hash::Hash;
use std::rc::RcStr;
use std::test::Fail;
use test_support::asserts::assert_same_at;

// Two keys, or that there was no memory for them.
type TwoKeys<K> = Result<(K, K), AllocError>;

// The query stands for the second of the two keys that `make` makes, in both forms of the map.
fn assert_found<K: Eq + Hash + Debug + Drop, Q: Equivalent<K>, F: Fn() -> TwoKeys<K>>(
    alloc: Global,
    make: F,
    query: Q,
) -> Result<(), Fail>
    requires { F.IsAlwaysCallable make }
{
    assert_found_at::<K, Q, 32>(alloc, make()?, query)?;
    assert_found_at::<K, Q, 0>(alloc, make()?, query)
}

fn assert_found_at<K: Eq + Hash + Debug + Drop, Q: Equivalent<K>, const N: usize>(
    alloc: Global,
    keys: (K, K),
    query: Q,
) -> Result<(), Fail> {
    let mut map = SizedHashMap::<K, u64, _, N>::new(alloc);
    map.insert(keys.0, 1)?;
    map.insert(keys.1, 2)?;
    let found = (map.get(query).copied(), by_index(&map, query));
    let removed = (map.remove(query), map.get_key_value(query).is_none());
    let expected = ((Some(2), Some(2)), (Some(2), true));
    assert_same_at(N, (found, removed), expected, "held, and then gone")
}

#[test]
fn texts_are_looked_up_without_an_owner(rt: HostRuntime) -> Result<(), Fail> {
    let alloc = rt.alloc();
    let string = |text: &str| String::from_str(alloc, text);
    let boxed = |text: &str| BoxedStr::from_str(alloc, text);
    let counted = |text: &str| RcStr::from_str(alloc, text);
    let strings = || -> TwoKeys<_> { Ok((string("ada")?, string("ben")?)) };
    let boxes = || -> TwoKeys<_> { Ok((boxed("ada")?, boxed("ben")?)) };
    let shared = || -> TwoKeys<_> { Ok((counted("ada")?, counted("ben")?)) };
    assert_found(alloc, strings, "ben")?;
    assert_found(alloc, boxes, "ben")?;
    assert_found(alloc, shared, "ben")?;
    let lent = || Ok((lent_text("ada"), lent_text("ben")));
    assert_found(alloc, lent, "ben")?;
    assert_found(alloc, || Ok(("ada", "ben")), "ben")
}

fn lent_text(text: &str) -> CowStr<'_, Global> {
    CowStr::Borrowed(text)
}

#[test]
fn slices_are_looked_up_without_an_owner(rt: HostRuntime) -> Result<(), Fail> {
    let alloc = rt.alloc();
    let (three, four) = ([1, 2, 3].as_slice(), [1, 2, 4].as_slice());
    let boxed = |items: &[u64]| BoxedSlice::from_slice(alloc, items);
    let boxes = || -> TwoKeys<_> { Ok((boxed(three)?, boxed(four)?)) };
    let vectors = || -> TwoKeys<_> { Ok((vec![in alloc; 1, 2, 3]?, vec![in alloc; 1, 2, 4]?)) };
    assert_found(alloc, vectors, four)?;
    assert_found(alloc, boxes, four)?;
    assert_found(alloc, || Ok((lent_slice(three), lent_slice(four))), four)?;
    assert_found(alloc, || Ok((three, four)), four)
}

fn lent_slice(items: &[u64]) -> CowSlice<'_, u64, Global> {
    CowSlice::Borrowed(items)
}
