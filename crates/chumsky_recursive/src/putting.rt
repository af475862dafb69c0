//! Putting a value behind others, with little to do where there is room.
ghost use Rattle.std.specs.Prelude.{◌≡◌, ◌++◌, [], ◌∷◌, OnOk, OnErr};

use std::alloc::AllocError;

/// Puts a value behind the others. Memory is asked for only where there is no room left.
#[inline(always)]
pub(crate) fn push_to<T: Drop>(values: &mut Vec<T>, value: T) -> Result<(), AllocError>
    ensures ok { OnOk result (values.new.items ≡ values.old.items ++ value ∷ []) }
    ensures err { OnErr result (values.new.items ≡ values.old.items) }
{
    if values.len() == values.capacity() {
        values.reserve(1)?;
    }
    values.push_reserved(value);
    Ok(())
}
