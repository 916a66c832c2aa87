//! Keys that are equal by their number alone, and count how often they are compared and dropped, and a query for one.
ghost use Rattle.std.specs.Prelude.{◌≡◌, ◌==◌};
ghost use Rattle.std.specs.Hash as fed;
ghost use Rattle.std.specs.Cmp.Rules.{comparing, hashing};
ghost use Rattle.std.proofs.Common.{rules, ap, sym};
ghost use Rattle.std.proofs.lemmas.Bool.{eqb-true};
ghost use Rattle.std.specs.Cmp.{nat_eq_equiv};

use crate::counts::{Counts, add_one};
use crate::items::Named;
use crate::words::Name;
use halfbrown::{EqualClone, Equivalent};
use std::alloc::{AllocError, Global};
use std::fmt;
use std::hash::{Hash, Hasher};

/// A key written `id#mark`. Keys of one id are equal, and the mark tells them apart. It is 48 bytes long.
pub(crate) struct Key<'a> {
    name: Name,
    counts: &'a Counts,
    padding: [u64; 3],
}

impl<'a> Key<'a> {
    /// A key that counts here each comparison that it is the left side of, and its drop.
    pub(crate) fn new(counts: &'a Counts) -> Key<'a> {
        Key {
            name: Name { id: 0, mark: 1 },
            counts,
            padding: [0; 3],
        }
    }
}

impl Named for Key<'_> {
    fn name(&self) -> Name {
        self.name
    }

    fn like(&self, _alloc: Global, name: Name) -> Result<Self, AllocError> {
        Ok(Key { name, ..*self })
    }
}

impl Drop for Key<'_> {
    fn drop(self) {
        add_one(&self.counts.dropped_keys);
        let Key {
            name: _,
            counts: _,
            padding: _,
        } = self;
    }
}

impl Clone for Key<'_> {
    ghost is_clone = { λ a b. b.name.id ≡ a.name.id };

    fn clone(&self) -> Result<Self, AllocError> {
        Ok(Key {
            name: self.name,
            counts: self.counts,
            padding: self.padding,
        })
    }
}

impl PartialEq for Key<'_> {
    ghost eq = { λ a b. a.name.id == b.name.id };

    ghost laws = { Prim.search (comparing, rules) };

    fn eq(&self, other: &Self) -> bool {
        add_one(&self.counts.comparisons);
        self.name.id == other.name.id
    }
}

impl Eq for Key<'_> {
    ghost laws = { Prim.search (comparing, rules) };
}

impl EqualClone for Key<'_> {
    ghost clones_equal = { λ key copy same. Prim.search (rules, same, sym) };
}

impl Hash for Key<'_> {
    ghost hash_input = { λ key. fed.u64 key.name.id };

    ghost respects_eq = { Prim.search (hashing, rules) };

    fn hash<H: Hasher>(&self, state: &mut H) {
        self.name.id.hash(state);
    }
}

impl fmt::Debug for Key<'_> {
    fn fmt<W: fmt::Write>(&self, f: &mut fmt::Formatter<W>) -> fmt::Result {
        write!(f, "{}", self.name)
    }
}

/// The number of a key, by which one is looked up. It is no key, but compared as one, and counted so.
#[derive(Clone, Copy, PartialEq, Eq, Hash)]
pub(crate) struct Id(pub u64);

impl<'a> Equivalent<Key<'a>> for Id {
    ghost equivalent = { λ query key. query.0 == key.name.id };

    ghost hashes_alike = { λ query key same. ap fed.u64 (eqb-true query.0 key.name.id same) };

    ghost stands_for_equals = { λ query key other. nat_eq_equiv.congr query.0 key.name.id other.name.id };

    fn equivalent(&self, key: &Key<'a>) -> bool {
        add_one(&key.counts.comparisons);
        self.0 == key.name.id
    }
}

/// The same key in a box, which is eight bytes long. Its clone needs memory.
#[derive(Clone, PartialEq, Eq, Hash, Drop)]
pub(crate) struct Small<'a>(Box<Key<'a>>);

impl<'a> Small<'a> {
    /// A key that counts here.
    pub(crate) fn new(alloc: Global, counts: &'a Counts) -> Result<Small<'a>, AllocError> {
        Ok(Small(Box::new(alloc, Key::new(counts))?))
    }
}

impl Named for Small<'_> {
    fn name(&self) -> Name {
        self.0.name()
    }

    fn like(&self, alloc: Global, name: Name) -> Result<Self, AllocError> {
        let key = self.0.as_ref().like(alloc, name)?;
        Ok(Small(Box::new(alloc, key)?))
    }
}

impl EqualClone for Small<'_> {
    ghost clones_equal = { λ key copy same. Prim.search (rules, same, sym) };
}

impl fmt::Debug for Small<'_> {
    fn fmt<W: fmt::Write>(&self, f: &mut fmt::Formatter<W>) -> fmt::Result {
        self.0.fmt(f)
    }
}

impl<'a> Equivalent<Small<'a>> for Id {
    ghost equivalent = { λ query key. query.0 == key.0.value.name.id };

    ghost hashes_alike = { λ query key same. ap fed.u64 (eqb-true query.0 key.0.value.name.id same) };

    ghost stands_for_equals = { λ query key other.
        nat_eq_equiv.congr query.0 key.0.value.name.id other.0.value.name.id };

    fn equivalent(&self, key: &Small<'a>) -> bool {
        self.equivalent(key.0.as_ref())
    }
}
