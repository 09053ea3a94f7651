//! How a value is written.

ghost use Rattle.std.specs.Prelude.{◌≡◌, ◌++◌, OnOk, OnErr};
ghost use Rattle.tuple_core.specs.Encoded.{value_seen};
ghost use Rattle.tuple_core.specs.Values.{value_text};

use crate::encoded::ValueRef;
use itoa::Buffer;
use std::alloc::AllocError;

/// Appends the text of a value; a text is its own bytes. Where memory runs out, nothing is appended.
pub fn text_of(value: ValueRef<'_>, into: &mut Vec<u8>) -> Result<(), AllocError>
    ensures ok { OnOk result (into.new.items ≡ into.old.items ++ value_text (value_seen value.entry)) }
    ensures err { OnErr result (into.new.items ≡ into.old.items) }
{
    match value {
        ValueRef::Int(number) => {
            let mut buffer = Buffer::new();
            into.extend_from_slice(buffer.format(number).as_bytes())
        }
        ValueRef::Text(bytes) => into.extend_from_slice(bytes),
        ValueRef::Bool(true) => into.extend_from_slice(b"true"),
        ValueRef::Bool(false) => into.extend_from_slice(b"false"),
    }
}
