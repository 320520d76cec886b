//! Lists of a message's parts.

ghost use Rattle.std.specs.Prelude.{◌≡◌, IfOk};
ghost use Rattle.serde_json.specs.Data.{Data};
ghost use Rattle.serde_json.specs.View.{view};
ghost use Rattle.lsp_says.specs.Objects.{list_of};

use mg_text::Memory;
use serde_json::Value;
use std::alloc::Global;

// What lists of a message hold.
pub(crate) trait Part {
    // What it is in JSON.
    ghost json: { Self → Data };

    // Makes it.
    fn made(&self, alloc: Global) -> Result<Value, Memory>
        ensures { IfOk result (λ v. view v ≡ json self.now) };
}

// A list of parts.
pub(crate) fn list<T: Part>(alloc: Global, parts: &[T]) -> Result<Value, Memory>
    ensures { IfOk result (λ v. view v ≡ list_of T.json parts.now) }
{
    let mut values = Vec::new(alloc);
    for part in parts {
        let value = part.made(alloc)?;
        values.push(value)?;
    }
    Ok(Value::Array(values))
}
