//! Paths of faults. A path grows from its end: what is wrong within a member or an item comes first.
ghost use Rattle.std.specs.Prelude.{◌≡◌, [], IfOk};
ghost use Rattle.metadata_form.specs.Path.{in_member, in_item, from_root, itself_unless};
ghost use Rattle.metadata_form.specs.Fault.{fault_at};

use crate::fault::{Fault, MetaCause};
use ice_store::Text;
use std::alloc::{AllocError, Global};

/// The path of the value itself. Takes no memory.
pub(crate) fn itself(alloc: Global) -> Text
    ensures { result ≡ [] }
{
    Text::new(Vec::new(alloc))
}

/// The path of the value itself where it isn't as it has to be. Takes no memory.
pub(crate) fn itself_unless(alloc: Global, holds: bool) -> Option<Text>
    ensures { result ≡ itself_unless holds }
{
    if holds { None } else { Some(itself(alloc)) }
}

/// The path in a member of an object, and on from there.
pub fn in_member(alloc: Global, key: &str, on: &Text) -> Result<Text, AllocError>
    ensures { IfOk result (λ t. t ≡ in_member key.now on.now) }
{
    let mut path = Vec::new(alloc);
    path.push(b'.')?;
    path.extend_from_slice(key.as_bytes())?;
    path.extend_from_slice(on.inner().as_slice())?;
    Ok(Text::new(path))
}

/// The path in an item of an array, and on from there.
pub fn in_item(alloc: Global, index: usize, on: &Text) -> Result<Text, AllocError>
    ensures { IfOk result (λ t. t ≡ in_item index on.now) }
{
    let mut path = format!(in alloc; "[{index}]")?.into_bytes();
    path.extend_from_slice(on.inner().as_slice())?;
    Ok(Text::new(path))
}

fn from_root(alloc: Global, on: Text) -> Result<Text, AllocError>
    ensures { IfOk result (λ t. t ≡ from_root on) }
{
    match on.inner().as_slice() {
        [b'.', rest @ ..] => Text::copy_of(alloc, rest),
        _ => Ok(on),
    }
}

/// The cause at a path that leads on from the root.
pub fn fault_at(alloc: Global, cause: MetaCause, on: Text) -> Result<Fault, AllocError>
    ensures { IfOk result (λ f. f ≡ fault_at cause on) }
{
    let path = from_root(alloc, on)?;
    Ok(Fault { path, cause })
}
