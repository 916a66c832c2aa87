//! Following a path: JSON Pointer (RFC 6901).
ghost use Rattle.std.specs.Prelude.{◌≡◌, ◌↔◌, [], ◌∷◌, IsTrue, IfSome, IfNone, Some, option_map};
ghost use Rattle.std.specs.Option.{option_copied};
ghost use Rattle.json_value.specs.Pointer.{name_of, index_of, child as child_at, value_at};
ghost use Rattle.json_value.specs.Pointer.{member_place as place_in_members, place as place_of};

use super::Value;
use halfbrown::HashMap;

impl Value {
    /// Returns the value that a path leads to, or none if it leads to none. That is so if a step names no member or no item,
    /// or has a `~` that is no escape. It is also so if the path is not empty and begins with no slash. It costs one look-up
    /// for each step.
    ///
    /// ```
    /// let document = Value::parse(alloc, r#"{"a/b": [1], "m~n": 8}"#)?;
    /// let one = document.pointer("/a~1b/0");
    /// let eight = document.pointer("/m~0n");
    /// ```
    pub fn pointer(&self, path: &str) -> Option<&Value>
        ensures { option_copied result ≡ value_at self.now path.now }
    {
        if path.is_empty() {
            return Some(self);
        }
        let mut value = self;
        for step in path.strip_prefix('/')?.split('/') {
            value = value.child(step)?;
        }
        Some(value)
    }

    // What one step leads to.
    fn child(&self, step: &str) -> Option<&Value>
        ensures { option_copied result ≡ child_at self.now step.now }
    {
        let place = self.place(step)?;
        match self {
            Value::List(items) => items.get(place),
            Value::Object(members) => {
                let (_, value) = members.get_index(place)?;
                Some(value)
            }
            _ => None,
        }
    }

    // Where one step leads, among the items of a list or the members of an object.
    pub(super) fn place(&self, step: &str) -> Option<usize>
        ensures { result ≡ place_of self.now step.now }
    {
        match self {
            Value::List(_) => index(step),
            Value::Object(members) => member_place(members, step),
            _ => None,
        }
    }
}

// The index that a step writes.
fn index(step: &str) -> Option<usize>
    ensures { result ≡ index_of step.now }
{
    if step.starts_with('+') || (step.starts_with('0') && step.len() > 1) {
        return None;
    }
    step.parse().ok()
}

// The index of the member of the name that a step stands for.
fn member_place(members: &HashMap<String, Value>, step: &str) -> Option<usize>
    ensures { result ≡ place_in_members members.now.pairs step.now }
{
    if !step.contains('~') {
        return members.get_index_of(step);
    }
    let len = members.len();
    let mut index = 0;
    for (name, _) in members {
        if stands_for(step.as_bytes(), name.as_bytes()) {
            return Some(index);
        }
        index += 1;
    }
    None
}

// Whether a step stands for this name.
fn stands_for(step: &[u8], name: &[u8]) -> bool
    ensures { IsTrue result ↔ (name_of step.now ≡ Some name.now) }
{
    let mut rest = step;
    for byte in name {
        let Some((first, more)) = first_byte(rest) else {
            return false;
        };
        if first != *byte {
            return false;
        }
        rest = more;
    }
    rest.is_empty()
}

// The first byte of the name that a step stands for, and the rest of the step. None if the step ends, or begins with a `~` that
// is no escape.
fn first_byte(step: &[u8]) -> Option<(u8, &[u8])>
    ensures some { IfSome result (λ first. name_of step.now ≡ option_map (λ name. first.0 ∷ name) (name_of first.1.now)) }
    ensures none { IfNone result (IfSome (name_of step.now) (λ name. name ≡ [])) }
{
    match step {
        [b'~', b'0', rest @ ..] => Some((b'~', rest)),
        [b'~', b'1', rest @ ..] => Some((b'/', rest)),
        [b'~', ..] => None,
        [byte, rest @ ..] => Some((*byte, rest)),
        [] => None,
    }
}
