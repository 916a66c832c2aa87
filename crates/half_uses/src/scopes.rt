//! Names in scopes within one another, as a compiler keeps them.
ghost use Rattle.std.specs.Prelude.{◌≡◌, ◌+◌, [], ◌∷◌, drop, length, IfOk, OnOk, OnErr, IfErr, Some, true, false, IsTrue, IsFalse};
ghost use Rattle.std.specs.Option.{option_copied};
ghost use Rattle.halfbrown.specs.Pairs.{holds, value_of};
ghost use Rattle.halfbrown.specs.Refusal.{refusal_of};
ghost use Rattle.half_uses.specs.Scopes.{innermost_first, meaning, here, declared};

use halfbrown::{DefaultHashBuilder, Refused, SizedHashMap};
use std::alloc::{AllocError, Global};
use std::hash::Hash;
use std::marker::Model;
use std::mem::replace;

/// The names of one scope. Most scopes have few: these are searched by `==`, and nothing is hashed.
type Scope<N, M> = SizedHashMap<N, M, DefaultHashBuilder, 8>;

/// A chain of scopes: an innermost one, and those around it. A name means what the innermost scope that declares it says. A drop
/// begins with the innermost scope, and goes on from the outermost.
#[derive(Drop)]
pub struct Scopes<N: Eq + Hash, M> {
    innermost: Scope<N, M>,
    // the outermost first
    outer: Vec<Scope<N, M>>,
    alloc: Global,
}

impl<N: Eq + Hash, M> Model for Scopes<N, M> {
    ghost use Rattle.std.specs.Prelude.{List, ◌∷◌};
    ghost use Rattle.half_uses.specs.Scopes.{innermost_first};

    ghost Value = { List (List (N × M)) };

    ghost view = { λ s. s.innermost.pairs ∷ innermost_first s.outer.items };
}

impl<N: Eq + Hash, M> Scopes<N, M> {
    /// One scope, with no names.
    pub fn new(alloc: Global) -> Scopes<N, M>
        ensures { result ≡ [] ∷ [] }
    {
        Scopes {
            innermost: Scope::new(alloc),
            outer: Vec::new(alloc),
            alloc,
        }
    }

    /// Enters a new scope within the innermost. On error nothing changes.
    pub fn enter(&mut self) -> Result<(), AllocError>
        ensures entered { OnOk result (self.new ≡ [] ∷ self.old) }
        ensures err { OnErr result (self.new ≡ self.old) }
    {
        self.outer.reserve(1)?;
        let left = replace(&mut self.innermost, Scope::new(self.alloc));
        self.outer.push_reserved(left);
        Ok(())
    }

    /// Leaves the innermost scope, and forgets its names. The outermost is never left: it returns false there.
    pub fn leave(&mut self) -> bool
    where
        N: Drop,
        M: Drop,
        ensures left { IsTrue result → self.new ≡ drop 1 self.old }
        ensures outermost { IsFalse result → (self.new ≡ self.old) × (length self.old ≡ 1) }
    {
        match self.outer.pop() {
            Some(scope) => {
                self.innermost = scope;
                true
            }
            None => false,
        }
    }

    /// Gives a name its meaning in the innermost scope, and returns the meaning that it had there. A name that it
    /// has there is refused only where there are exactly 8. On error nothing changes.
    pub fn declare(&mut self, name: N, new_meaning: M) -> Result<Option<M>, Refused<N, M>>
    where
        N: Drop,
        ensures before { IfOk result (λ old. old ≡ value_of N.eq (here self.old) name) }
        ensures after { OnOk result (self.new ≡ declared N.eq self.old name new_meaning) }
        ensures means { OnOk result (meaning N.eq self.new name ≡ Some new_meaning) }
        ensures others { OnOk result ((other : N) → N.eq name other ≡ false
            → meaning N.eq self.new other ≡ meaning N.eq self.old other) }
        ensures held { OnErr result (holds N.eq (here self.old) name ≡ true → length (here self.old) ≡ 8) }
        ensures why { IfErr result (λ refused. refused.why ≡ refusal_of (length (here self.old) + 1)) }
        ensures err { OnErr result (self.new ≡ self.old) }
        ensures handed_back { IfErr result (λ refused. (refused.key ≡ name) × (refused.value ≡ new_meaning)) }
    {
        self.innermost.insert(name, new_meaning)
    }

    /// What a name means: what the innermost scope that declares it says.
    pub fn resolve(&self, name: &N) -> Option<&M>
        ensures { option_copied result ≡ meaning N.eq self.now name.now }
    {
        match self.innermost.get(name) {
            Some(found) => Some(found),
            None => resolve_in(self.outer.as_slice(), name),
        }
    }
}

// What a name means in these scopes, of which the last is the innermost.
fn resolve_in<'a, N: Eq + Hash, M>(scopes: &'a [Scope<N, M>], name: &N) -> Option<&'a M>
    ensures { option_copied result ≡ meaning N.eq (innermost_first scopes.now) name.now }
{
    let (innermost, outer) = scopes.split_last()?;
    match innermost.get(name) {
        Some(found) => Some(found),
        None => resolve_in(outer, name),
    }
}
