//! The set, over a map whose values are nothing.
#![tactic(auto, using(halfbrown::proofs::callers::Keys::map_facts, crate::proofs::Sets::set_facts))]

ghost use Rattle.std.specs.Prelude.{◌≡◌, ◌↔◌, ◌+◌, ◌^◌, ◌<◌, List, [], ◌∷◌, ◌++◌, true, not, filter, length, All};
ghost use Rattle.std.specs.Prelude.{IsTrue, IfOk, IfErr, OnOk, OnErr};
ghost use Rattle.std.specs.Cmp.{partial_equiv_from_equiv};
ghost use Rattle.std.specs.Fn.{CalledAt};
ghost use Rattle.std.specs.Iterator.{IsFiniteIterable};
ghost use Rattle.std.specs.Iterator.Runs.{WholeRun};
ghost use Rattle.std.specs.List.{IsDistinct, list_any};
ghost use Rattle.std.specs.List.Retain.{IsFiltered};
ghost use Rattle.std.specs.Map.{keys_of};
ghost use Rattle.std.specs.Map.Iter.{GivesInOrder, ShowsInOrder, deref};
ghost use Rattle.std.specs.Set.{is_member, remove_key, IsUnion};
ghost use Rattle.halfbrown.specs.ByKey.{add_key, add_keys, first_of_each};
ghost use Rattle.halfbrown.specs.Collect.{Gives};
ghost use Rattle.halfbrown.specs.Refusal.{refusal_of};
ghost use Rattle.half_set.specs.Sets.{same_values, same_values_equiv, take_out_value, RemovesValue};

use crate::{IntoIter, Selected, Union};
use halfbrown::{Equivalent, HashMap, Keys, Refusal};
use std::alloc::Global;
use std::hash::Hash;
use std::marker::Model;

/// A set. Up to 32 values stand in a vector, which is searched by `==`, and nothing is hashed. An insertion into a vector of
/// 32, even of a held value, moves them into a hash table. A search in the table hashes the value once. No removal moves the
/// values back. Contracts see a set as the list of its values, in order.
///
/// ```
/// let mut names = HashSet::<String>::new(alloc);
/// names.insert(String::from_str(alloc, "Ada")?)?;
/// assert!(rt; names.contains("Ada"));
/// ```
#[derive(Drop)]
pub struct HashSet<T: Eq + Hash> {
    map: HashMap<T, ()>,
}

impl<T: Eq + Hash> Model for HashSet<T> {
    ghost Value = { List T };

    ghost view = { λ s. keys_of s.map.pairs };
}

impl<T: Eq + Hash> HashSet<T> {
    /// Returns a set of no values. It takes no memory.
    ///
    /// ```
    /// let set = HashSet::<u64>::new(alloc);
    /// assert!(rt; set.is_empty());
    /// ```
    pub fn new(alloc: Global) -> HashSet<T>
        ensures { result ≡ [] }
    {
        HashSet {
            map: HashMap::new(alloc),
        }
    }

    /// Returns the number of values.
    ///
    /// ```
    /// assert_eq!(rt; seen.len(), 2);
    /// ```
    pub fn len(&self) -> usize
        ensures len { result ≡ length self.now }
        ensures distinct { IsDistinct T.eq self.now }
    {
        self.map.len()
    }

    /// Returns whether there is no value.
    ///
    /// ```
    /// assert!(rt; !seen.is_empty());
    /// ```
    pub fn is_empty(&self) -> bool
        ensures { IsTrue result ↔ (self.now ≡ []) }
    {
        self.map.is_empty()
    }

    /// Returns whether an equal value is in the set. It costs one search.
    ///
    /// ```
    /// assert!(rt; seen.contains(&1));
    /// assert!(rt; !seen.contains(&3));
    /// ```
    pub fn contains<Q: Equivalent<T>>(&self, value: Q) -> bool
        ensures { result ≡ list_any (Q.equivalent value) self.now }
    {
        self.map.contains_key(value)
    }

    /// Returns the values, in order. Iteration hashes nothing and compares no values.
    ///
    /// ```
    /// for value in seen.iter() {
    ///     assert!(rt; *value < 3);
    /// }
    /// ```
    pub fn iter(&self) -> Keys<'_, T, ()>
        ensures left { result ≡ self.now }
        ensures small { length self.now < 2 ^ 63 }
        ensures runs { ShowsInOrder (deref {X = T}) }
    {
        self.map.keys()
    }

    /// Returns the values of this set, and then those that the other has besides them, each in order. It costs one search in
    /// this set for each value of the other.
    ///
    /// ```
    /// let all = seen.union(&others).copied().collect::<Vec<u64>>(alloc)?;
    /// assert_eq!(rt; all.as_slice(), [1, 2, 3].as_slice());
    /// ```
    pub fn union<'a>(&'a self, other: &'a HashSet<T>) -> Union<'a, T>
        ensures left { result ≡ self.now ++ filter (λ value. not (is_member T.eq self.now value)) other.now }
        ensures runs { ShowsInOrder (deref {X = T}) }
    {
        Union {
            first: self.iter(),
            then: other.difference(self),
        }
    }

    /// Returns the values that the other set has too, in the order of this one. It costs one search in the other for each
    /// value.
    ///
    /// ```
    /// let mut both = seen.intersection(&others);
    /// assert_eq!(rt; both.next(), Some(&2));
    /// assert_eq!(rt; both.next(), None);
    /// ```
    pub fn intersection<'a>(&'a self, other: &'a HashSet<T>) -> Selected<'a, T>
        ensures left { result ≡ filter (is_member T.eq other.now) self.now }
        ensures small { length result < 2 ^ 63 }
        ensures runs { ShowsInOrder (deref {X = T}) }
    {
        Selected {
            values: self.iter(),
            other,
            members: true,
        }
    }

    /// Returns the values that the other set lacks, in order. It costs one search in the other for each value.
    ///
    /// ```
    /// assert_eq!(rt; seen.difference(&others).count(), 1); // the value 1
    /// ```
    pub fn difference<'a>(&'a self, other: &'a HashSet<T>) -> Selected<'a, T>
        ensures left { result ≡ filter (λ value. not (is_member T.eq other.now value)) self.now }
        ensures small { length result < 2 ^ 63 }
        ensures runs { ShowsInOrder (deref {X = T}) }
    {
        Selected {
            values: self.iter(),
            other,
            members: false,
        }
    }

    /// Returns whether each value of this set is in the other. It costs one search in the other for each value, up to the first
    /// that is not there.
    ///
    /// ```
    /// let one = HashSet::<u64>::from_iter(alloc, [2])?;
    /// assert!(rt; one.is_subset(&seen));
    /// assert!(rt; !seen.is_subset(&others));
    /// ```
    pub fn is_subset(&self, other: &HashSet<T>) -> bool
        ensures { IsTrue result ↔ All (λ value. IsTrue (is_member T.eq other.now value)) self.now }
    {
        self.iter().all(|value| other.contains(value))
    }
}

impl<T: Eq + Hash + Drop> HashSet<T> {
    /// Returns a set of these items: of equal ones the first, in order.
    ///
    /// The items must end. It fails as `insert` does, and then drops what was collected and the remaining items. It costs one
    /// search for each item, and the growth of the set.
    ///
    /// ```
    /// let set = HashSet::<u64>::from_iter(alloc, [3, 1, 3, 2])?;
    /// assert_eq!(rt; set.len(), 3);
    /// assert_eq!(rt; set.iter().next(), Some(&3));
    /// ```
    pub fn from_iter<I: IntoIterator<Item = T>>(
        alloc: Global,
        items: I,
    ) -> Result<HashSet<T>, Refusal>
        requires { IsFiniteIterable I.into_iter_gives I.IntoIter.can_next
            I.IntoIter.remaining items }
        ensures made { IfOk result (λ set. (it : I.IntoIter) × I.into_iter_gives items it
            × WholeRun I.IntoIter.next_gives it (λ run. set ≡ first_of_each T.eq run.items)) }
        ensures refused { IfErr result (λ why. (it : I.IntoIter) × (before : List T) × (refused : T)
            × I.into_iter_gives items it × Gives I.IntoIter.next_gives it (before ++ refused ∷ [])
            × (why ≡ refusal_of (length (first_of_each T.eq before) + 1))) }
    {
        let mut set = HashSet::new(alloc);
        set.extend(items)?;
        Ok(set)
    }

    /// Inserts a value, and returns whether it is new. A new value comes last. If an equal one is in the set, that one stays,
    /// and the given value is dropped.
    ///
    /// It may fail for a new value, and for a held one only if there are exactly 32. On error nothing changes, and the
    /// given value is dropped. It costs one search, and when a vector of 32 becomes a table, each value is hashed once.
    ///
    /// ```
    /// assert!(rt; seen.insert(3)?);
    /// assert!(rt; !seen.insert(3)?);
    /// assert_eq!(rt; seen.len(), 3);
    /// ```
    pub fn insert(&mut self, value: T) -> Result<bool, Refusal>
        ensures is_new { IfOk result (λ is_new. is_new ≡ not (is_member T.eq self.old value)) }
        ensures after { OnOk result (self.new ≡ add_key T.eq self.old value) }
        ensures err { OnErr result (self.new ≡ self.old) }
        ensures why { IfErr result (λ why. why ≡ refusal_of (length self.old + 1)) }
        ensures held { OnErr result (is_member T.eq self.old value ≡ true → length self.old ≡ 32) }
    {
        Ok(self.map.insert(value, ())?.is_none())
    }

    /// Inserts each item, in order.
    ///
    /// The items must end. It fails as `insert` does, and then the items before the refused one stay, and the remaining ones
    /// are dropped. It costs one search for each item, and the growth of the set.
    ///
    /// ```
    /// seen.extend([2, 3, 4])?;
    /// assert_eq!(rt; seen.len(), 4);
    /// ```
    pub fn extend<I: IntoIterator<Item = T>>(&mut self, items: I) -> Result<(), Refusal>
        requires { IsFiniteIterable I.into_iter_gives I.IntoIter.can_next
            I.IntoIter.remaining items }
        ensures extended { OnOk result ((it : I.IntoIter) × I.into_iter_gives items it
            × WholeRun I.IntoIter.next_gives it (λ run. (self.new ≡ add_keys T.eq self.old run.items)
            × IsUnion T.eq self.old run.items self.new)) }
        ensures refused { IfErr result (λ why. (it : I.IntoIter) × (before : List T) × (refused : T)
            × I.into_iter_gives items it × Gives I.IntoIter.next_gives it (before ++ refused ∷ [])
            × (self.new ≡ add_keys T.eq self.old before) × (why ≡ refusal_of (length self.new + 1))) }
        ensures kept { (value : T) → is_member T.eq self.old value ≡ true → is_member T.eq self.new value ≡ true }
    {
        for item in items {
            self.insert(item)?;
        }
        Ok(())
    }

    /// Removes the value that equals this one, and returns whether there was one. The last value takes its place. It costs one
    /// search.
    ///
    /// ```
    /// assert!(rt; seen.remove(&1));
    /// assert!(rt; !seen.remove(&1));
    /// ```
    pub fn remove<Q: Equivalent<T>>(&mut self, value: Q) -> bool
        ensures after { self.new ≡ take_out_value (Q.equivalent value) self.old }
        ensures removes { RemovesValue T.eq (Q.equivalent value) self.old result self.new }
    {
        self.map.remove(value).is_some()
    }

    /// Removes the value that equals this one, and returns whether there was one. The others keep their order. It costs one
    /// search, then a step for each value behind it, and in a table one for each bucket.
    ///
    /// ```
    /// assert!(rt; seen.shift_remove(&1));
    /// assert_eq!(rt; seen.iter().next(), Some(&2));
    /// ```
    pub fn shift_remove<Q: Equivalent<T>>(&mut self, value: Q) -> bool
        ensures after { self.new ≡ remove_key (Q.equivalent value) self.old }
        ensures removes { RemovesValue T.eq (Q.equivalent value) self.old result self.new }
    {
        self.map.shift_remove(value).is_some()
    }

    /// Removes all values.
    ///
    /// ```
    /// seen.clear();
    /// assert!(rt; seen.is_empty());
    /// ```
    pub fn clear(&mut self)
        ensures { self.new ≡ [] }
    {
        self.map.clear();
    }

    /// Keeps the values that `keep` accepts, in their order. `keep` is called once for each, from first to last. Nothing is
    /// hashed or compared, and no memory is taken.
    ///
    /// ```
    /// seen.retain(|value| *value > 1);
    /// assert_eq!(rt; seen.len(), 1);
    /// ```
    pub fn retain<F: FnMut(&T) -> bool>(&mut self, mut keep: F)
        requires { F.IsAlwaysCallable keep }
        ensures { IsFiltered (CalledAt F.FnMut) keep self.old self.new }
    {
        self.map.retain(move |value, _| keep(value));
    }
}

impl<T: Eq + Hash> PartialEq for HashSet<T> {
    ghost eq = { same_values T.eq };

    ghost laws = { partial_equiv_from_equiv (same_values_equiv T.eq T.Eq.laws) };

    /// Returns whether both sets have the same values, in any order. It costs nothing if the numbers of values differ, and
    /// otherwise at most one search in the other for each value.
    ///
    /// ```
    /// let same = HashSet::<u64>::from_iter(alloc, [2, 1])?;
    /// assert!(rt; seen == same);
    /// assert!(rt; seen != others);
    /// ```
    fn eq(&self, other: &Self) -> bool
        ensures same { result ≡ same_values T.eq self.now other.now }
        ensures members { IsTrue result ↔ ((value : T) → is_member T.eq self.now value ≡ is_member T.eq other.now value) }
    {
        self.map == other.map
    }
}

impl<T: Eq + Hash> Eq for HashSet<T> {
    ghost laws = { same_values_equiv T.eq T.Eq.laws };
}

impl<T: Eq + Hash + Drop> IntoIterator for HashSet<T> {
    type Item = T;

    type IntoIter = IntoIter<T>;

    ghost into_iter_gives = { λ set it. (it ≡ set) × (length set < 2 ^ 63) × GivesInOrder T };

    /// Returns the values, by value, in order.
    ///
    /// ```
    /// let mut sum = 0;
    /// for value in seen {
    ///     sum += value;
    /// }
    /// assert_eq!(rt; sum, 3);
    /// ```
    fn into_iter(self) -> IntoIter<T> {
        let HashSet { map } = self;
        IntoIter {
            pairs: map.into_iter(),
        }
    }
}
