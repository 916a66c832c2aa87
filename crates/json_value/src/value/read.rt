//! Reading a value.
ghost use Rattle.std.specs.Prelude.{◌≡◌, ◌⊎◌, Some, None, IfOk, IfErr};
ghost use Rattle.json.specs.Json.{Json, document};
ghost use Rattle.json.specs.Value.{value_view};
ghost use Rattle.json_value.specs.Json.{json_of, merged};

use super::{Error, Value};
use halfbrown::HashMap;
use json::Scratch;
use std::alloc::Global;

impl Value {
    /// Reads a text. If members share a name, the last value wins, at the place of the first. It fails with `Invalid` if the
    /// text is no JSON or nests more than 128 deep, and with `Memory`. It costs time and memory that grow with the text.
    ///
    /// ```
    /// let document = Value::parse(alloc, r#"{"a": [1, 2], "b": null, "a": [3]}"#)?;
    /// let text = document.to_string(alloc)?; // {"a":[3],"b":null}
    /// ```
    pub fn parse(alloc: Global, text: &str) -> Result<Value, Error>
        ensures json { IfOk result (λ value. (j : Json) × (document text.now ≡ Some j) × (json_of value ≡ merged j)) }
        ensures err { IfErr result (λ error. (error ≡ Error.Memory)
            ⊎ ((error ≡ Error.Invalid) × (document text.now ≡ None))) }
    {
        let mut scratch = Scratch::new(alloc);
        let read = json::Value::parse(alloc, text, &mut scratch)?;
        owned(alloc, &read)
    }
}

// The value with texts of its own.
fn owned(alloc: Global, value: &json::Value<'_>) -> Result<Value, Error>
    ensures ok { IfOk result (λ owned. json_of owned ≡ merged (value_view value.now)) }
    ensures err { IfErr result (λ error. error ≡ Error.Memory) }
{
    match value {
        json::Value::Null => Ok(Value::Null),
        json::Value::Bool(bool) => Ok(Value::Bool(*bool)),
        json::Value::Number(number) => Ok(Value::Number(String::from_str(alloc, number)?)),
        json::Value::String(text) => Ok(Value::Text(String::from_str(alloc, text)?)),
        json::Value::Array(items) => {
            let mut list = Vec::with_capacity(alloc, items.len())?;
            for item in items {
                list.push(owned(alloc, item)?)?;
            }
            Ok(Value::List(list))
        }
        json::Value::Object(members) => {
            let mut object = HashMap::new(alloc);
            for (name, member) in members {
                object.insert(String::from_str(alloc, name)?, owned(alloc, member)?)?;
            }
            Ok(Value::Object(object))
        }
    }
}
