ghost use Rattle.std.specs.Prelude.{◌≡◌, map, option_map, option_and_then, is_some};
ghost use Rattle.std.specs.List.{list_all};
ghost use Rattle.serde_json.specs.Find.{get, as_object};
ghost use Rattle.serde_json.specs.View.{view};
ghost use Rattle.node_json.specs.Step.{Gives, GivesExactly, when, or_fault};
ghost use Rattle.node_json.specs.Json.{json_of, has_keys, is_counted, list_of, number_at, text_at, list_at, numbers_in, numbers_at};

use crate::fault::FormFault;
use diagram_terms::Items;
use serde_json::Value;
use std::alloc::Global;

/// The JSON value that the bytes are. The fault is `NotJson` where they are no UTF-8 or `serde_json`
/// does not read them; `NoMemory` may come in place of any answer.
pub fn value_of(alloc: Global, bytes: &[u8]) -> Result<Value, FormFault>
    ensures { Gives view result (or_fault FormFault.NotJson (json_of bytes.now)) }
{
    match Value::from_slice(alloc, bytes) {
        Ok(value) => Ok(value),
        Err(e) => {
            if e.is_memory() {
                Err(FormFault::NoMemory)
            } else {
                Err(FormFault::NotJson)
            }
        }
    }
}

fn has_members(value: &Value, count: usize) -> bool
    ensures { result ≡ is_counted count (as_object (view value.now)) }
{
    match value.as_object() {
        Some(members) => members.len() == count,
        None => false,
    }
}

fn has_all(value: &Value, names: &[&str]) -> bool
    ensures { result ≡ list_all (λ name. is_some (get name.now (view value.now))) names.now }
{
    names.iter().all(|name| value.get(*name).is_some())
}

/// Whether the value is an object with exactly these keys: as many members as names, and each name
/// among them. It takes no memory.
pub fn has_keys(value: &Value, names: &[&str]) -> bool
    ensures { result ≡ has_keys (map (λ name. name.now) names.now) (view value.now) }
{
    has_members(value, names.len()) && has_all(value, names)
}

/// Asks for an object with exactly these keys, as `has_keys` tells; else the fault is `wrong`. It takes
/// no memory.
pub fn keyed(wrong: FormFault, value: &Value, names: &[&str]) -> Result<(), FormFault>
    ensures { GivesExactly (λ _. tt) result
        (when (has_keys (map (λ name. name.now) names.now) (view value.now)) wrong) }
{
    if has_keys(value, names) {
        Ok(())
    } else {
        Err(wrong)
    }
}

/// The entries of a list, and None of any other value.
pub(crate) fn list_of(value: Option<&Value>) -> Option<&[Value]>
    ensures { option_map (λ list. map view list.now) result
        ≡ option_and_then list_of (option_map (λ v. view v.now) value.entry) }
{
    match value {
        Some(Value::Array(list)) => Some(list.as_slice()),
        _ => None,
    }
}

/// The entries of the list at a key. The fault is `wrong` where the value is no object, lacks the key,
/// or has no list there. It takes no memory.
pub fn list_at<'v>(wrong: FormFault, value: &'v Value, key: &str) -> Result<&'v [Value], FormFault>
    ensures { GivesExactly (λ list. map view list.now) result
        (list_at wrong key.now (view value.now)) }
{
    match list_of(value.get(key)) {
        Some(list) => Ok(list),
        None => Err(wrong),
    }
}

/// The whole number at a key, below 2^64 and written without sign, point or exponent; else the fault
/// is `wrong`. It takes no memory.
pub(crate) fn number_at(wrong: FormFault, value: &Value, key: &str) -> Result<usize, FormFault>
    ensures { GivesExactly (λ n. n) result (number_at wrong key.now (view value.now)) }
{
    match value.get(key).and_then(Value::as_u64) {
        Some(number) => Ok(number as usize),
        None => Err(wrong),
    }
}

/// The string at a key. The fault is `wrong` where the value is no object, lacks the key, or has no
/// string there. It takes no memory.
pub fn text_at<'v>(wrong: FormFault, value: &'v Value, key: &str) -> Result<&'v str, FormFault>
    ensures { GivesExactly (λ text. text.now) result (text_at wrong key.now (view value.now)) }
{
    match value.get(key).and_then(Value::as_str) {
        Some(text) => Ok(text),
        None => Err(wrong),
    }
}

fn numbers_in(alloc: Global, wrong: FormFault, list: &[Value]) -> Result<Items<usize>, FormFault>
    ensures { Gives (λ numbers. numbers) result (numbers_in wrong (map view list.now)) }
{
    let mut numbers = Items::new(alloc);
    for value in list {
        let Some(number) = value.as_u64() else {
            return Err(wrong);
        };
        numbers.push(number as usize)?;
    }
    Ok(numbers)
}

/// The list of numbers at a key.
pub(crate) fn numbers_at(
    alloc: Global,
    wrong: FormFault,
    value: &Value,
    key: &str,
) -> Result<Items<usize>, FormFault>
    ensures { Gives (λ numbers. numbers) result
        (numbers_at wrong key.now (view value.now)) }
{
    numbers_in(alloc, wrong, list_at(wrong, value, key)?)
}
