//! Objects, field by field.

ghost use Rattle.std.specs.Prelude.{◌≡◌, Err, IfOk, IsOkAnd, MatchResult, string_bytes, codes};
ghost use Rattle.serde_json.specs.Data.{object, no_members, number, unsigned, put as with_member};
ghost use Rattle.serde_json.specs.View.{view, members_view};
ghost use Rattle.report_data.specs.Fields.{HasField, IsLineOf};

use serde_json::{Map, ToValue, Value, put};
use std::alloc::{AllocError, Global};

/// The edition of the form in which answers are written as objects.
const FORMAT: u8 = 1;

/// The fields of an object.
type Fields = Map<String, Value>;

/// An object of the fields so far, or the refusal of a growth for one of them: then fields that follow change nothing,
/// and [`into_value`](Object::into_value) answers it.
#[derive(Drop)]
pub struct Object {
    alloc: Global,
    fields: Result<Fields, AllocError>,
}

/// The fields with this value at a name, in the place of what was there.
fn extended(alloc: Global, fields: Fields, name: &str, value: Value) -> Result<Fields, AllocError>
    ensures { IfOk result
        (λ f. members_view f.entries ≡ with_member name.now (view value) (members_view fields.entries)) }
{
    let mut fields = fields;
    match put(&mut fields, alloc, name, value) {
        Ok(()) => Ok(fields),
        Err(error) => Err(error),
    }
}

/// The fields as a value.
fn as_value(fields: Fields) -> Value
    ensures { view result ≡ object (members_view fields.entries) }
{
    Value::Object(fields)
}

impl Object {
    /// An object without a field.
    pub fn new(alloc: Global) -> Object
        ensures { MatchResult result.fields (λ f. members_view f.entries ≡ no_members) (λ _. ⊥) }
    {
        Object {
            alloc,
            fields: Ok(Map::new(alloc)),
        }
    }

    /// An object that says by which edition of the objects' form it is written, and nothing else yet.
    pub fn answer(alloc: Global) -> Object
        ensures { IfOk result.fields
            (λ f. members_view f.entries ≡ with_member (codes "format") (number (unsigned 1)) no_members) }
    {
        Object::new(alloc).with("format", FORMAT)
    }

    /// The object with this value at a name, in the place of what was there.
    pub fn with<V: ToValue>(self, name: &str, value: V) -> Object
        ensures { IfOk result.fields (λ f. IsOkAnd self.fields
            (λ before. HasField V.gives name.now value (members_view before.entries) (members_view f.entries))) }
    {
        let made = value.to_value(self.alloc);
        self.with_made(name, made)
    }

    /// The object with a value at a name that was to be made, in the place of what was there.
    pub fn with_made(self, name: &str, made: Result<Value, AllocError>) -> Object
        ensures { IfOk result.fields (λ f. IsOkAnd self.fields (λ before. IsOkAnd made (λ value.
            members_view f.entries ≡ with_member name.now (view value) (members_view before.entries)))) }
    {
        let Object { alloc, fields } = self;
        let fields = match (fields, made) {
            (Ok(fields), Ok(value)) => extended(alloc, fields, name, value),
            (Err(error), _) | (_, Err(error)) => Err(error),
        };
        Object { alloc, fields }
    }

    /// The object as a value. `AllocError` where a growth for a field was refused.
    pub fn into_value(self) -> Result<Value, AllocError>
        ensures { MatchResult result (λ v. IsOkAnd self.fields (λ f. view v ≡ object (members_view f.entries)))
            (λ e. self.fields ≡ Err e) }
    {
        let Object { alloc: _, fields } = self;
        match fields {
            Ok(fields) => Ok(as_value(fields)),
            Err(error) => Err(error),
        }
    }

    /// The object as a text, which a reader makes the same object of, and a line feed. `AllocError` where a growth was
    /// refused.
    pub fn into_line(self) -> Result<String, AllocError>
        ensures { IfOk result (λ line. IsOkAnd self.fields
            (λ f. IsLineOf (object (members_view f.entries)) (string_bytes line))) }
    {
        let alloc = self.alloc;
        let value = self.into_value()?;
        let mut text = value.to_string(alloc)?;
        text.push('\n')?;
        Ok(text)
    }
}
