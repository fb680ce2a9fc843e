//! Where the refs of a table are.
ghost use Rattle.std.specs.Prelude.{◌≡◌, false, None, IsTrue, IsUtf8, OnSome, is_some};
ghost use Rattle.serde_json.specs.Find.{get_member};
ghost use Rattle.serde_json.specs.View.{view, members_view};
ghost use Rattle.metadata_view.specs.View.{refs_of, ref_with};
ghost use Rattle.run_refs.specs.Refs.{ref_at, branch_at};

use ice_store::Text;
use metadata_json::members;
use serde_json::{Map, Value};
use table_metadata::Meta;

/// The snapshot of the branch or tag with this name.
pub(crate) fn ref_at(meta: &Meta, name: &Text) -> Option<i64>
    ensures { result ≡ ref_at name.now (view meta.now) }
{
    match meta.reference(name) {
        Some(found) => Some(found.id),
        None => None,
    }
}

// A member's name is UTF-8, as all texts of a tree are.
fn has_member(members: &Map<String, Value>, name: &Text) -> bool
    ensures value { result ≡ is_some (get_member name.now (members_view members.now.entries)) }
    ensures utf8 { IsTrue result → IsUtf8 name.now }
{
    for (key, _value) in members.iter() {
        if name.inner().as_slice() == key.as_str().as_bytes() {
            return true;
        }
    }
    false
}

// whether the name is `main` or a ref has it
fn may_be_ref(meta: &Meta, name: &Text) -> bool
    ensures none { result ≡ false → ref_with (refs_of (view meta.now)) name.now ≡ None }
    ensures utf8 { IsTrue result → IsUtf8 name.now }
{
    if name.inner().as_slice() == "main".as_bytes() {
        return true;
    }
    match members(meta.tree(), "refs") {
        Some(members) => has_member(members, name),
        None => false,
    }
}

/// The snapshot of the branch with this name. Names of refs are UTF-8.
pub(crate) fn branch_at(meta: &Meta, name: &Text) -> Option<i64>
    ensures at { result ≡ branch_at name.now (view meta.now) }
    ensures utf8 { OnSome result (IsUtf8 name.now) }
{
    if !may_be_ref(meta, name) {
        return None;
    }
    match meta.reference(name) {
        Some(found) => if found.is_branch {
            Some(found.id)
        } else {
            None
        },
        None => None,
    }
}
