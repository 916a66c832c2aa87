//! Writing a value.
ghost use Rattle.std.specs.Prelude.{◌≡◌, ◌≤◌, ◌++◌, Some, IfOk, IfErr, OnOk};
ghost use Rattle.std.specs.String.{string_bytes};
ghost use Rattle.json.specs.Json.{document, max_depth};
ghost use Rattle.json.specs.Tree.{json_tokens, depth as nesting, HasNumbers};
ghost use Rattle.json_value.specs.Json.{json_of};

use super::{Error, Value};
use json::{MAX_DEPTH, Writer, is_number};
use std::alloc::Global;

impl Value {
    /// Returns its text, with no space and the members in order, which reads back as this value. It fails with `Invalid`
    /// if a number is not written as one, or if lists and objects nest more than 128 deep, and with `Memory`. It costs
    /// time and memory that grow with the text.
    ///
    /// ```
    /// let text = Value::parse(alloc, r#"{"a": 1}"#)?.to_string(alloc)?; // {"a":1}
    /// ```
    #[tactic(auto, using(crate::proofs::Writing::reads_back))]
    pub fn to_string(&self, alloc: Global) -> Result<String, Error>
        ensures ok { IfOk result (λ text. document (string_bytes text) ≡ Some (json_of self.now)) }
        ensures refused { HasNumbers (json_of self.now) → nesting (json_of self.now) ≤ max_depth
            → IfErr result (λ error. error ≡ Error.Memory) }
    {
        let mut writer = Writer::new(Vec::new(alloc));
        self.write(&mut writer, MAX_DEPTH)?;
        let text = String::from_utf8(writer.into_inner())
            .ok()
            .ok_or(Error::Invalid)?;
        Ok(text)
    }

    // Lists and objects may nest this deep.
    fn write(&self, writer: &mut Writer, depth: usize) -> Result<(), Error>
        ensures tokens { OnOk result (writer.new.tokens ≡ writer.old.tokens ++ json_tokens (json_of self.now)) }
        ensures before { OnOk result (writer.new.before ≡ writer.old.before) }
        ensures nests { OnOk result (nesting (json_of self.now) ≤ depth) }
        ensures refused { HasNumbers (json_of self.now) → nesting (json_of self.now) ≤ depth
            → IfErr result (λ error. error ≡ Error.Memory) }
    {
        match self {
            Value::Null => writer.null()?,
            Value::Bool(bool) => writer.boolean(*bool)?,
            Value::Number(number) if is_number(number) => writer.number(number)?,
            Value::Number(_) => return Err(Error::Invalid),
            Value::Text(text) => writer.string(text)?,
            Value::List(items) => {
                let inner = depth.checked_sub(1).ok_or(Error::Invalid)?;
                writer.begin_array()?;
                for item in items {
                    item.write(writer, inner)?;
                }
                writer.end_array()?;
            }
            Value::Object(members) => {
                let inner = depth.checked_sub(1).ok_or(Error::Invalid)?;
                writer.begin_object()?;
                for (name, member) in members {
                    writer.key(name)?;
                    member.write(writer, inner)?;
                }
                writer.end_object()?;
            }
        }
        Ok(())
    }
}
