//! Copies of the texts and lists that a message holds. An empty one needs no allocation.

ghost use Rattle.std.specs.Prelude.{◌≡◌, IfOk, OnErr, true};
ghost use Rattle.std.specs.String.{string_bytes};
ghost use Rattle.cs_wire.specs.Fields.{has_some};
ghost use Rattle.cs_wire.specs.Messages.{names_of, texts_in};

use std::alloc::{AllocError, Global};

/// Copies a text. Nothing is allocated for an empty one. The only error is that memory runs out.
pub(crate) fn copy_text(alloc: Global, text: &str) -> Result<String, AllocError>
    ensures same { IfOk result (λ copy. string_bytes copy ≡ text.now) }
    ensures grows { OnErr result (has_some text.now ≡ true) }
{
    if text.is_empty() {
        return Ok(String::new(alloc));
    }
    String::from_str(alloc, text)
}

/// Copies the items, in their order. Nothing is allocated for an empty list. The only error is that
/// memory runs out. (`try_clone_bytes` of cs_tree does the same for bytes.)
pub(crate) fn copy_items<T: Copy>(alloc: Global, items: &[T]) -> Result<Vec<T>, AllocError>
    ensures same { IfOk result (λ copy. copy.items ≡ items.now) }
    ensures grows { OnErr result (has_some items.now ≡ true) }
{
    if items.is_empty() {
        return Ok(Vec::new(alloc));
    }
    Vec::from_slice(alloc, items)
}

/// Copies each of the names, in their order. Nothing is allocated for an empty list. The only error
/// is that memory runs out; then the copies are dropped.
pub(crate) fn copy_names(alloc: Global, names: &[&str]) -> Result<Vec<String>, AllocError>
    ensures same { IfOk result (λ copy. names_of copy.items ≡ texts_in names.now) }
    ensures grows { OnErr result (has_some names.now ≡ true) }
{
    let mut copy = Vec::new(alloc);
    for name in names {
        copy.push(copy_text(alloc, name)?)?;
    }
    Ok(copy)
}
