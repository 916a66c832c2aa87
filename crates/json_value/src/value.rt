//! JSON values whose objects are maps: looked into, changed, merged, and compared in any order of members.
ghost use Rattle.std.specs.Prelude.{◌≡◌, if◌then◌else◌, true, length, IfOk, IfErr, IfSome, IfNone, OnOk, OnErr};
ghost use Rattle.std.specs.Map.{remove_entry};
ghost use Rattle.std.specs.Borrow.{LendsIf, sem};
ghost use Rattle.std.specs.Option.{option_copied, option_copied_mut};
ghost use Rattle.std.specs.String.{string_eq};
ghost use Rattle.halfbrown.specs.Collect.{put_all};
ghost use Rattle.halfbrown.specs.Pairs.{put, value_of};
ghost use Rattle.json_value.specs.Members.{PutsFirst};

mod change;
mod error;
mod pointer;
mod read;
mod write;

pub use error::Error;
use halfbrown::HashMap;

/// A JSON value. Two are equal whatever the order of their members, and numbers only if they are written alike.
///
/// ```
/// let paid = Value::parse(alloc, r#"{"paid": true, "id": 7}"#)?;
/// let same = Value::parse(alloc, r#"{"id": 7, "paid": true}"#)?;
/// assert!(rt; paid == same);
/// ```
#[derive(Debug, Drop, PartialEq)]
pub enum Value {
    Null,
    Bool(bool),
    /// A number as it is written.
    Number(String),
    Text(String),
    List(Vec<Value>),
    /// Members by name, in the order of the text.
    Object(HashMap<String, Value>),
}

impl Value {
    ghost use Rattle.json_value.specs.Members.{as_list, as_object, is_named, is_object, member, members_of, IsRefusedMerge};
    ghost use Rattle.json_value.specs.Rows.{list_row, object_row};
    ghost use Rattle.json_value.specs.contracts.value.Value.{the_row};
    ghost use Rattle.json_value.specs.declared.value.Value.{List, Object};

    /// Returns the value of the member of this name, or none if there is none or this is no object. It costs one look-up.
    ///
    /// ```
    /// assert_eq!(rt; order.get("paid"), Some(&Value::Bool(true)));
    /// assert_eq!(rt; order.get("price"), None);
    /// ```
    pub fn get(&self, name: &str) -> Option<&Value>
        ensures { option_copied result ≡ member self.now name.now }
    {
        match self {
            Value::Object(members) => members.get(name),
            _ => None,
        }
    }

    /// Returns the members of an object, to be changed, or none if this is no object.
    ///
    /// ```
    /// if let Some(members) = order.as_object_mut()
    ///     && let Some(id) = members.get_mut("id")
    /// {
    ///     *id = Value::Null;
    /// }
    /// ```
    pub fn as_object_mut(&mut self) -> Option<&mut HashMap<String, Value>>
        ensures* writes_back { sem 𝓛 (LendsIf the_row object_row self.entry result Object self.old) }
        ensures value { option_copied_mut result ≡ as_object self.old }
    {
        match self {
            Value::Object(members) => Some(members),
            _ => None,
        }
    }

    /// Returns the items of a list, to be changed, or none if this is no list.
    ///
    /// ```
    /// let mut colours = Value::parse(alloc, r#"["red", "blue"]"#)?;
    /// if let Some(items) = colours.as_list_mut() {
    ///     items.reverse();
    /// }
    /// ```
    pub fn as_list_mut(&mut self) -> Option<&mut Vec<Value>>
        ensures* writes_back { sem 𝓛 (LendsIf the_row list_row self.entry result List self.old) }
        ensures value { option_copied_mut result ≡ as_list self.old }
    {
        match self {
            Value::List(items) => Some(items),
            _ => None,
        }
    }

    /// Sets the value of the member of this name, and returns the value that it had. A new member comes last. It fails
    /// with `NoObject` if this is no object, and otherwise as `insert` of the map does. A new member may need memory, and
    /// so may the switch of a vector of 32 members, even for a held one. On error nothing changes. It costs one look-up,
    /// and now and then the growth of the map.
    ///
    /// ```
    /// let before = order.set(String::from_str(alloc, "paid")?, Value::Bool(false))?;
    /// assert_eq!(rt; before, Some(Value::Bool(true)));
    /// ```
    pub fn set(&mut self, name: String, value: Value) -> Result<Option<Value>, Error>
        ensures before { IfOk result (λ before. before ≡ value_of string_eq (members_of self.old) name) }
        ensures after { OnOk result (members_of self.new ≡ put string_eq (members_of self.old) name value) }
        ensures object { OnOk result (is_object self.old ≡ true) }
        ensures err { OnErr result (self.new ≡ self.old) }
        ensures refused { IfErr result
            (λ error. error ≡ (if is_object self.old then Error.Memory else Error.NoObject)) }
        ensures held { OnErr result (IfSome (value_of string_eq (members_of self.old) name)
            (λ _. length (members_of self.old) ≡ 32)) }
    {
        match self {
            Value::Object(members) => Ok(members.insert(name, value)?),
            _ => Err(Error::NoObject),
        }
    }

    /// Removes the member of this name, and returns its value. The others keep their order. If there is none, nothing
    /// changes. It costs one look-up, and then time that grows with the most members that there were.
    ///
    /// ```
    /// assert_eq!(rt; order.remove("paid"), Some(Value::Bool(true)));
    /// assert_eq!(rt; order.remove("paid"), None);
    /// ```
    pub fn remove(&mut self, name: &str) -> Option<Value>
        ensures value { result ≡ member self.old name.now }
        ensures after { members_of self.new ≡ remove_entry (is_named name.now) (members_of self.old) }
        ensures kind { is_object self.new ≡ is_object self.old }
        ensures unchanged { IfNone result (self.new ≡ self.old) }
    {
        match self {
            Value::Object(members) => members.shift_remove(name),
            _ => None,
        }
    }

    /// Puts the members of another object into this one, in order. If both have a name, the other's value wins, at the place
    /// of this one's. It fails with `NoObject` if one of the two is no object, and then nothing changes. It fails with
    /// `Memory` at a member for which there is none, and those before it are put. It costs one look-up for each member of
    /// the other, and the growth of the map.
    ///
    /// ```
    /// order.merge(Value::parse(alloc, r#"{"paid": false, "note": "late"}"#)?)?;
    /// assert_eq!(rt; order.get("paid"), Some(&Value::Bool(false)));
    /// ```
    pub fn merge(&mut self, other: Value) -> Result<(), Error>
        ensures after { OnOk result (members_of self.new ≡ put_all string_eq (members_of self.old) (members_of other)) }
        ensures kind { is_object self.new ≡ is_object self.old }
        ensures err { IfErr result (λ error. IsRefusedMerge error self.old other self.new) }
        ensures objects { OnOk result ((is_object self.old ≡ true) × (is_object other ≡ true)) }
    {
        match self {
            Value::Object(members) => match other {
                Value::Object(others) => put_each(members, others),
                _ => Err(Error::NoObject),
            },
            _ => Err(Error::NoObject),
        }
    }
}

// Puts these members, in order. On error the members before the refused one are put.
fn put_each(
    members: &mut HashMap<String, Value>,
    others: HashMap<String, Value>,
) -> Result<(), Error>
    ensures after { OnOk result (members.new.pairs ≡ put_all string_eq members.old.pairs others.pairs) }
    ensures refused { IfErr result (λ error. (error ≡ Error.Memory)
        × PutsFirst members.old.pairs others.pairs members.new.pairs) }
{
    members.extend(others)?;
    Ok(())
}
