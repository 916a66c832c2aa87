//! Changing what a path leads to.
ghost use Rattle.std.specs.Prelude.{◌≡◌, ◌∷◌, ℕ, List, Some, None, IfOk, IfErr, OnOk, OnSome};
ghost use Rattle.std.specs.Option.{option_copied};
ghost use Rattle.json_value.specs.Pointer.{descendant, put_at, put_steps, steps_of, value_at, PathsPart};

use super::{Error, Value};
use std::mem;

impl Value {
    /// Sets the value of the member or the item that a path leads to, and returns the value that it had. Nothing besides
    /// changes. It fails with `NotThere` if the path leads to nothing, and then nothing changes: no member and no item is
    /// added. It follows the path twice.
    ///
    /// ```
    /// let before = order.set_at("/items/0/name", Value::Null)?;
    /// let failure = order.set_at("/items/1/name", Value::Null).err();
    /// assert_eq!(rt; failure, Some(Error::NotThere));
    /// ```
    pub fn set_at(&mut self, path: &str, value: Value) -> Result<Value, Error>
        ensures before { IfOk result (λ before. value_at self.old path.now ≡ Some before) }
        ensures after { OnOk result (self.new ≡ put_at self.old path.now value) }
        ensures there { OnOk result (value_at self.new path.now ≡ Some value) }
        ensures others { OnOk result ((other : List ℕ) → PathsPart self.old path.now other
            → value_at self.new other ≡ value_at self.old other) }
        ensures missing { IfErr result (λ error. (error ≡ Error.NotThere)
            × (value_at self.old path.now ≡ None) × (self.new ≡ self.old)) }
    {
        if self.pointer(path).is_none() {
            return Err(Error::NotThere);
        }
        self.set_steps(path.strip_prefix('/'), value)
            .ok_or(Error::NotThere)
    }

    // Sets the value that these steps lead to, and returns the one that was there.
    fn set_steps(&mut self, steps: Option<&str>, value: Value) -> Option<Value>
        ensures before { result ≡ descendant self.old (steps_of (option_copied steps.entry)) }
        ensures after { OnSome result (self.new
            ≡ put_steps self.old (steps_of (option_copied steps.entry)) value) }
    {
        let Some(steps) = steps else {
            return Some(mem::replace(self, value));
        };
        let (step, rest) = first_step(steps);
        let place = self.place(step)?;
        match self {
            Value::List(items) => items.get_mut(place)?.set_steps(rest, value),
            Value::Object(members) => members.get_index_mut(place)?.set_steps(rest, value),
            _ => None,
        }
    }
}

// The first of these steps, and the others behind the next slash.
fn first_step(steps: &str) -> (&str, Option<&str>)
    ensures { steps_of (Some steps.now)
        ≡ result.0.now ∷ steps_of (option_copied result.1) }
{
    match steps.split_once('/') {
        Some((step, rest)) => (step, Some(rest)),
        None => (steps, None),
    }
}
