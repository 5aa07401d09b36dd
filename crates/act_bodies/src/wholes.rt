//! Lists of whole numbers.

ghost use Rattle.std.specs.Prelude.{◌≡◌, ◌==◌, Some, None, IfOk, option_map, option_and_then};
ghost use Rattle.serde_json.specs.Find.{get, as_array};
ghost use Rattle.serde_json.specs.View.{view, items_view};
ghost use Rattle.act_bodies.specs.Members.{wholes_of, wholes_in, are_different};

use crate::fault::BodyFault;
use item_list::ItemList;
use serde_json::Value;
use std::alloc::Global;

/// Numbers of tracklets or of observations, or orders of designations.
pub type Ids = ItemList<u64>;

/// The values of a member that is a list.
fn items_in<'v>(name: &str, value: &'v Value) -> Option<&'v [Value]>
    ensures { option_map (λ items. items_view items.now) result
        ≡ option_and_then as_array (get name.now (view value.now)) }
{
    match value.get(name).and_then(Value::as_array) {
        Some(items) => Some(items.as_slice()),
        None => None,
    }
}

/// The whole numbers of a list in which each value is one.
fn wholes_of(alloc: Global, items: &[Value]) -> Result<Ids, BodyFault>
    ensures read { IfOk result (λ wholes. wholes_of (items_view items.now) ≡ Some wholes) }
    ensures unread { result ≡ Err BodyFault.Unread → wholes_of (items_view items.now) ≡ None }
{
    let mut wholes = Ids::new(alloc);
    for item in items {
        let Some(whole) = item.as_u64() else {
            return Err(BodyFault::Unread);
        };
        if wholes.push(whole).is_err() {
            return Err(BodyFault::NoMemory);
        }
    }
    Ok(wholes)
}

/// The whole numbers of a member that is a list of such.
#[tactic(auto, unfolding(crate::specs::Members::wholes_in))]
pub(crate) fn wholes_in(alloc: Global, name: &str, value: &Value) -> Result<Ids, BodyFault>
    ensures read { IfOk result (λ wholes. wholes_in name.now (view value.now) ≡ Some wholes) }
    ensures unread { result ≡ Err BodyFault.Unread → wholes_in name.now (view value.now) ≡ None }
{
    match items_in(name, value) {
        Some(items) => wholes_of(alloc, items),
        None => Err(BodyFault::Unread),
    }
}

/// Whether no number stands twice.
pub(crate) fn are_different(numbers: &[u64]) -> bool
    ensures { result ≡ are_different numbers.now }
{
    match numbers.split_first() {
        Some((first, others)) => !others.contains(first) && are_different(others),
        None => true,
    }
}
