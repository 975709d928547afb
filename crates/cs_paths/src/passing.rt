//! Lists of the numbers that pass a test.
ghost use Rattle.std.specs.Prelude.{◌≡◌, ◌<◌, ◌^◌, ◌++◌, ◌∷◌, [], cond, OnOk};

use std::alloc::AllocError;

/// Appends the item, an id or the place of a micro-operation, if `passes` is true; if not, nothing
/// changes. It must be below 2^20, as both are, so it fits in a u32. After an error, the callers
/// drop the list.
pub fn push_if(ids: &mut Vec<u32>, id: usize, passes: bool) -> Result<(), AllocError>
    requires { id < 2 ^ 20 }
    ensures { OnOk result (ids.new.items ≡ ids.old.items ++ cond passes (id ∷ []) []) }
{
    if passes {
        ids.push(id as u32)?;
    }
    Ok(())
}
