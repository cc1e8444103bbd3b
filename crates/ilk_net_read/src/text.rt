ghost use Rattle.serde_json.specs.View.{view};
ghost use Rattle.ilk_net_read.specs.Fault.{ViewMatchesUnlessOutOfMemory};
ghost use Rattle.ilk_net_read.specs.Network.{value_of};

use crate::fault::rule_error_at_place;
use crate::{Form, FormError, Place};
use serde_json::{Category, Value};
use std::alloc::Global;

/// Returns the JSON value of `bytes`. Rule F2 is violated if they aren't the UTF-8 of a JSON text,
/// nest deeper than 127 levels, or have a number too large for a float.
pub fn read_value(alloc: Global, bytes: &[u8]) -> Result<Value, FormError>
    ensures { ViewMatchesUnlessOutOfMemory view result (value_of bytes.now) }
{
    match Value::from_slice(alloc, bytes) {
        Ok(value) => Ok(value),
        Err(error) => match error.classify() {
            Category::Memory => Err(FormError::OutOfMemory),
            _ => Err(rule_error_at_place(Form::F2, Place::Document)),
        },
    }
}
