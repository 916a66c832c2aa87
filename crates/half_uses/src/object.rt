//! Objects of a document: members by name, in the order of the document.
ghost use Rattle.std.specs.Map.{lookup};
ghost use Rattle.std.specs.Prelude.{◌≡◌, ◌+◌, true, not, [], filter, length, IfOk, OnOk, OnErr, IfErr};
ghost use Rattle.std.specs.Option.{option_copied};
ghost use Rattle.halfbrown.specs.Pairs.{value_of, holds, holds_by, put};
ghost use Rattle.halfbrown.specs.Refusal.{refusal_of};
ghost use Rattle.halfbrown.specs.Equality.{same_pairs};
ghost use Rattle.halfbrown.specs.Iter.{pairs_left};

use halfbrown::{Equivalent, HashMap, Iter, Refused};
use std::alloc::Global;
use std::fmt::{Debug, Formatter, Result as Printed, Write};
use std::hash::Hash;
use std::marker::Model;

/// The members of an object, in the order of the document. Of members of one name the last value wins, at the place of the
/// first.
#[derive(Drop)]
pub struct Object<N: Eq + Hash, V> {
    members: HashMap<N, V>,
}

impl<N: Eq + Hash, V> Model for Object<N, V> {
    ghost use Rattle.std.specs.Prelude.{List};

    ghost Value = { List (N × V) };

    ghost view = { λ o. o.members.pairs };
}

impl<N: Eq + Hash, V> Object<N, V> {
    /// No members. It takes no memory.
    pub fn new(alloc: Global) -> Object<N, V>
        ensures { result ≡ [] }
    {
        Object {
            members: HashMap::new(alloc),
        }
    }

    /// How many members there are.
    pub fn len(&self) -> usize
        ensures { result ≡ length self.now }
    {
        self.members.len()
    }

    /// Gives a member its value, and returns the value that it had. A new member comes last. Setting a held one
    /// fails only where there are exactly 32. On error nothing changes.
    pub fn set(&mut self, name: N, value: V) -> Result<Option<V>, Refused<N, V>>
    where
        N: Drop,
        ensures before { IfOk result (λ old. old ≡ value_of N.eq self.old name) }
        ensures after { OnOk result (self.new ≡ put N.eq self.old name value) }
        ensures held { OnErr result (holds N.eq self.old name ≡ true → length self.old ≡ 32) }
        ensures why { IfErr result (λ refused. refused.why ≡ refusal_of (length self.old + 1)) }
        ensures err { OnErr result (self.new ≡ self.old) }
        ensures handed_back { IfErr result (λ refused. (refused.key ≡ name) × (refused.value ≡ value)) }
    {
        self.members.insert(name, value)
    }

    /// The value of a member. A text finds the member of that name, whatever texts the names are.
    pub fn get<Q: Equivalent<N>>(&self, name: Q) -> Option<&V>
        ensures { option_copied result ≡ lookup (Q.equivalent name) self.now }
    {
        self.members.get(name)
    }

    /// Removes a member, and returns whether there was one. The others keep their order, which takes a step for each of them.
    pub fn remove<Q: Equivalent<N>>(&mut self, name: Q) -> bool
    where
        N: Drop,
        V: Drop,
        ensures was_there { result ≡ holds_by (Q.equivalent name) self.old }
        ensures after { self.new ≡ filter (λ member. not (Q.equivalent name member.0)) self.old }
    {
        let was_there = self.members.contains_key(name);
        self.members.retain(|held, _| !name.equivalent(held));
        was_there
    }

    /// The members, in the order of the document.
    pub fn members(&self) -> Iter<'_, N, V>
        ensures { pairs_left result ≡ self.now }
    {
        self.members.iter()
    }

    /// Whether both objects have the same members, in any order.
    pub fn has_same_members(&self, other: &Object<N, V>) -> bool
    where
        V: PartialEq,
        ensures { result ≡ same_pairs N.eq V.eq self.now other.now }
    {
        self.members.same_pairs(&other.members)
    }
}

/// An object prints as its members do, in order: `{"a": 1, "b": 2}`.
impl<N: Eq + Hash + Debug, V: Debug> Debug for Object<N, V> {
    fn fmt<W: Write>(&self, f: &mut Formatter<W>) -> Printed {
        self.members.fmt(f)
    }
}
