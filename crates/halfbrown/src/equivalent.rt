//! The queries by which a key is looked up.
ghost use Rattle.std.specs.Prelude.{◌≡◌, Bool, IsTrue};
ghost use Rattle.std.proofs.Common.{ap};
ghost use Rattle.std.specs.Box.{boxed_slice_items, boxed_str_bytes};
ghost use Rattle.std.specs.Cmp.Lexicographic.{pointwise, bytes_decides, lists_equiv, nat_list_eq_equiv};
ghost use Rattle.std.specs.Cow.{cow_slice_items, cow_str_bytes};
ghost use Rattle.std.specs.Hash as writes;
ghost use Rattle.std.specs.Hash.{items_Alike};
ghost use Rattle.std.specs.Rc.{rc_str_bytes};
ghost use Rattle.std.specs.Str.{bytes_eq};
ghost use Rattle.std.specs.String.{string_bytes};

use std::alloc::Allocator;
use std::borrow::{CowSlice, CowStr};
use std::boxed::{BoxedSlice, BoxedStr};
use std::hash::Hash;
use std::rc::RcStr;

/// A query for a key: what `get`, `remove` and similar calls take.
///
/// A `&K` is one for any keys, a `&str` for text keys, and a `&[T]` for keys that are or own a slice. So in a map of
/// `String` keys a text is looked up without an allocation:
///
/// ```
/// let mut people = HashMap::<String, u32>::new(alloc);
/// people.insert(String::from_str(alloc, "Ada")?, 36)?;
/// assert_eq!(rt; people.get("Ada"), Some(&36));
/// ```
///
/// A type of your own can be one too. It must be hashed as the key that it stands for, and stand for that key's equals
/// and no others. Both are laws, which the implementation proves.
pub trait Equivalent<K: Eq + Hash>: Copy + Hash {
    // What `equivalent` returns.
    ghost equivalent: { Self → K → Bool };

    /// Returns whether this query stands for the key.
    ///
    /// ```
    /// let name = String::from_str(alloc, "Ada")?;
    /// assert!(rt; "Ada".equivalent(&name));
    /// ```
    fn equivalent(&self, key: &K) -> bool
        ensures { result ≡ equivalent self.now key.now };

    // It is hashed as a key that it stands for.
    ghost hashes_alike: { (query : Self) (k : K) → IsTrue (equivalent query k)
        → Self.hash_input query ≡ K.hash_input k };

    // It stands for the equals of such a key, and for no other.
    ghost stands_for_equals: { (query : Self) (k other : K) → IsTrue (equivalent query k)
        → equivalent query other ≡ K.eq k other };
}

impl<K: Eq + Hash> Equivalent<K> for &K {
    ghost equivalent = { λ query. K.eq query.now };

    ghost hashes_alike = { λ query. K.respects_eq query.now };

    ghost stands_for_equals = { λ query. K.Eq.laws.congr query.now };

    #[inline(always)]
    fn equivalent(&self, key: &K) -> bool {
        **self == *key
    }
}

// Compares two texts. It is not inlined, so that probe loops stay small.
#[inline(never)]
fn same_text<'t>(left: &'t str, right: &'t str) -> bool
    ensures { result ≡ bytes_eq left.now right.now }
{
    left == right
}

impl<'k> Equivalent<&'k str> for &str {
    ghost equivalent = { λ query k. bytes_eq query.now k.now };

    ghost hashes_alike = { λ query k same. ap writes.str ((bytes_decides query.now k.now).0 same) };

    ghost stands_for_equals = { λ query k other. nat_list_eq_equiv.congr query.now k.now other.now };

    fn equivalent(&self, key: &&'k str) -> bool {
        same_text(*self, *key)
    }
}

impl<A: Allocator> Equivalent<String<A>> for &str {
    ghost equivalent = { λ query k. bytes_eq query.now (string_bytes k) };

    ghost hashes_alike = { λ query k same.
        ap writes.str ((bytes_decides query.now (string_bytes k)).0 same) };

    ghost stands_for_equals = { λ query k other.
        nat_list_eq_equiv.congr query.now (string_bytes k) (string_bytes other) };

    fn equivalent(&self, key: &String<A>) -> bool {
        same_text(*self, key.as_str())
    }
}

impl<A: Allocator> Equivalent<BoxedStr<A>> for &str {
    ghost equivalent = { λ query k. bytes_eq query.now (boxed_str_bytes k) };

    ghost hashes_alike = { λ query k same.
        ap writes.str ((bytes_decides query.now (boxed_str_bytes k)).0 same) };

    ghost stands_for_equals = { λ query k other.
        nat_list_eq_equiv.congr query.now (boxed_str_bytes k) (boxed_str_bytes other) };

    fn equivalent(&self, key: &BoxedStr<A>) -> bool {
        same_text(*self, key.as_str())
    }
}

impl<A: Allocator> Equivalent<RcStr<A>> for &str {
    ghost equivalent = { λ query k. bytes_eq query.now (rc_str_bytes k) };

    ghost hashes_alike = { λ query k same.
        ap writes.str ((bytes_decides query.now (rc_str_bytes k)).0 same) };

    ghost stands_for_equals = { λ query k other.
        nat_list_eq_equiv.congr query.now (rc_str_bytes k) (rc_str_bytes other) };

    fn equivalent(&self, key: &RcStr<A>) -> bool {
        same_text(*self, key.as_str())
    }
}

impl<'k, A: Allocator> Equivalent<CowStr<'k, A>> for &str {
    ghost equivalent = { λ query k. bytes_eq query.now (cow_str_bytes k) };

    ghost hashes_alike = { λ query k same.
        ap writes.str ((bytes_decides query.now (cow_str_bytes k)).0 same) };

    ghost stands_for_equals = { λ query k other.
        nat_list_eq_equiv.congr query.now (cow_str_bytes k) (cow_str_bytes other) };

    fn equivalent(&self, key: &CowStr<'k, A>) -> bool {
        same_text(*self, key.as_str())
    }
}

impl<'k, T: Eq + Hash> Equivalent<&'k [T]> for &[T] {
    ghost equivalent = { λ query k. pointwise T.eq query.now k.now };

    ghost hashes_alike = { λ query k.
        (items_Alike (record { fed = T.respects_eq })).fed query.now k.now };

    ghost stands_for_equals = { λ query k other.
        (lists_equiv T.Eq.laws).congr query.now k.now other.now };

    fn equivalent(&self, key: &&'k [T]) -> bool {
        *self == *key
    }
}

impl<T: Eq + Hash, A: Allocator> Equivalent<Vec<T, A>> for &[T] {
    ghost equivalent = { λ query k. pointwise T.eq query.now k.items };

    ghost hashes_alike = { λ query k.
        (items_Alike (record { fed = T.respects_eq })).fed query.now k.items };

    ghost stands_for_equals = { λ query k other.
        (lists_equiv T.Eq.laws).congr query.now k.items other.items };

    fn equivalent(&self, key: &Vec<T, A>) -> bool {
        *self == key.as_slice()
    }
}

impl<T: Eq + Hash, A: Allocator> Equivalent<BoxedSlice<T, A>> for &[T] {
    ghost equivalent = { λ query k. pointwise T.eq query.now (boxed_slice_items k) };

    ghost hashes_alike = { λ query k.
        (items_Alike (record { fed = T.respects_eq })).fed query.now (boxed_slice_items k) };

    ghost stands_for_equals = { λ query k other.
        (lists_equiv T.Eq.laws).congr query.now (boxed_slice_items k) (boxed_slice_items other) };

    fn equivalent(&self, key: &BoxedSlice<T, A>) -> bool {
        *self == key.as_slice()
    }
}

impl<'k, T: Eq + Hash, A: Allocator> Equivalent<CowSlice<'k, T, A>> for &[T] {
    ghost equivalent = { λ query k. pointwise T.eq query.now (cow_slice_items k) };

    ghost hashes_alike = { λ query k.
        (items_Alike (record { fed = T.respects_eq })).fed query.now (cow_slice_items k) };

    ghost stands_for_equals = { λ query k other.
        (lists_equiv T.Eq.laws).congr query.now (cow_slice_items k) (cow_slice_items other) };

    fn equivalent(&self, key: &CowSlice<'k, T, A>) -> bool {
        *self == key.as_slice()
    }
}
