ghost use Rattle.std.specs.Prelude.{◌≡◌, IfOk};
ghost use Rattle.dv_value.specs.Failure.{plain_failure, fault};

use crate::boxed::Boxed;
use crate::class_id::ClassId;
use crate::failure::Failure;
use crate::text::Text;
use crate::value::Value;
use std::alloc::{AllocError, Global};

/// A failure of a class with a message, of which it keeps a copy. AllocError on allocation failure.
pub fn failure(alloc: Global, class: ClassId, message: &str) -> Result<Boxed<Failure>, AllocError>
    ensures { IfOk result (λ f. f ≡ plain_failure class message.now) }
{
    let message = Text::of(alloc, message)?;
    Boxed::new(alloc, Failure::new(class, message))
}

/// A failure of a class with a message, as a value. AllocError on allocation failure.
pub fn fault(alloc: Global, class: ClassId, message: &str) -> Result<Value, AllocError>
    ensures { IfOk result (λ v. v ≡ fault class message.now) }
{
    Ok(Value::Fault(failure(alloc, class, message)?))
}
