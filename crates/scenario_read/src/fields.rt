//! The fields of JSON objects, each of the right kind and in its range.

ghost use Rattle.std.specs.Prelude.{◌≡◌, ◌↔◌, All, IsTrue, IsSome, Ok, Some, None, IfOk, IfErr, string_bytes};
ghost use Rattle.serde_json.specs.View.{view, members_view};
ghost use Rattle.std.specs.BTreeMap.{keys};
ghost use Rattle.serde_json.specs.Find.{as_object, get};
ghost use Rattle.asm_defs.specs.Keys.{key_text};
ghost use Rattle.input_defs.specs.Views.Readings.{is_key};
ghost use Rattle.input_defs.specs.PlanReading.{flag_of, has_key};
ghost use Rattle.input_defs.specs.Reading.{all_known, bad, object_with, is_object, optional};
ghost use Rattle.input_defs.specs.Reading.{whole_number, number_at, text_of};
ghost use Rattle.input_defs.specs.Views.Readings.{number_or};
ghost use Rattle.scenario_read.specs.Gives.{Fails, Gives, IsMissing};

use crate::stop::{ScenarioFault, at, bad_here, missing};
use asm_defs::keys::{Key, key_text};
use input_defs::input::InputFault;
use serde_json::{Map, Value};
use std::alloc::Global;

/// Checks that the value is an object.
pub fn check_object(alloc: Global, value: &Value) -> Result<(), ScenarioFault>
    ensures ok { IfOk result (λ _. IsSome (as_object (view value.now))) }
    ensures err { IfErr result (λ stop. Fails stop (is_object (view value.now))) }
{
    if value.is_object() {
        Ok(())
    } else {
        bad_here(alloc, InputFault::WrongKind)
    }
}

/// Checks that the value is an object with no keys but these.
pub fn check_keys(alloc: Global, value: &Value, known: &[Key]) -> Result<(), ScenarioFault>
    ensures { Gives result (object_with known.now (view value.now)) }
{
    match value.as_object() {
        None => bad_here(alloc, InputFault::WrongKind),
        Some(members) if has_only(members, known) => Ok(()),
        Some(_) => bad_here(alloc, InputFault::UnknownKey),
    }
}

/// Whether an object has no members but these.
#[tactic(auto, using(crate::proofs::Members::all_known_is))]
fn has_only(members: &Map<String, Value>, known: &[Key]) -> bool
    ensures { result ≡ all_known known.now (members_view members.now.entries) }
{
    has_only_names(members, known)
}

/// Whether the name of each member is one of these keys.
fn has_only_names(members: &Map<String, Value>, known: &[Key]) -> bool
    ensures { IsTrue result ↔ All (λ name. IsTrue (is_key known.now (string_bytes name)))
        (keys members.now) }
{
    members.keys().all(|name| is_key(known, name.as_str()))
}

/// Whether a name is one of these keys.
fn is_key(known: &[Key], name: &str) -> bool
    ensures { result ≡ is_key known.now name.now }
{
    known.iter().any(|key| name == key_text(*key))
}

/// Whether an object has a key.
pub fn has_key(value: &Value, key: Key) -> bool
    ensures { result ≡ has_key key (view value.now) }
{
    value.get(key_text(key)).is_some()
}

/// The value under a required key.
pub fn field<'a>(alloc: Global, value: &'a Value, key: Key) -> Result<&'a Value, ScenarioFault>
    ensures ok { IfOk result
        (λ inside. get (key_text key) (view value.now) ≡ Some (view inside.now)) }
    ensures absent { IfErr result (λ _. get (key_text key) (view value.now) ≡ None) }
    ensures err { IfErr result (IsMissing key) }
{
    match value.get(key_text(key)) {
        None => Err(missing(alloc, key)),
        Some(inside) => Ok(inside),
    }
}

/// A text.
pub fn text_in<'a>(alloc: Global, value: &'a Value) -> Result<&'a str, ScenarioFault>
    ensures ok { IfOk result (λ text. text_of (view value.now) ≡ Ok text.now) }
    ensures err { IfErr result (λ stop. Fails stop (text_of (view value.now))) }
{
    match value.as_str() {
        None => bad_here(alloc, InputFault::WrongKind),
        Some(text) => Ok(text),
    }
}

/// A whole number from `low` to `high`.
pub fn number_in(alloc: Global, value: &Value, low: u64, high: u64) -> Result<u64, ScenarioFault>
    ensures { Gives result (whole_number low high (view value.now)) }
{
    match value.as_u64() {
        None => bad_here(alloc, InputFault::WrongKind),
        Some(number) if number < low || high < number => {
            bad_here(alloc, InputFault::NumberRange)
        }
        Some(number) => Ok(number),
    }
}

/// The whole number from `low` to `high` under a required key.
pub fn number_at(
    alloc: Global,
    value: &Value,
    key: Key,
    low: u64,
    high: u64,
) -> Result<u64, ScenarioFault>
    ensures { Gives result (number_at key low high (view value.now)) }
{
    let inside = field(alloc, value, key)?;
    at(key, number_in(alloc, inside, low, high))
}

/// The whole number from `low` to `high` under a key, or `default` if the key is absent.
pub fn number_or(
    alloc: Global,
    value: &Value,
    key: Key,
    low: u64,
    high: u64,
    default: u64,
) -> Result<u64, ScenarioFault>
    ensures { Gives result (number_or key low high default (view value.now)) }
{
    match value.get(key_text(key)) {
        None => Ok(default),
        Some(inside) => at(key, number_in(alloc, inside, low, high)),
    }
}

/// The word under a required key.
pub fn word_at(alloc: Global, value: &Value, key: Key) -> Result<u32, ScenarioFault>
    ensures { Gives result (number_at key 0 4294967295 (view value.now)) }
{
    let number = number_at(alloc, value, key, 0, 4_294_967_295)?;
    Ok(number as u32)
}

/// True or false.
fn flag_in(alloc: Global, value: &Value) -> Result<bool, ScenarioFault>
    ensures { Gives result (flag_of (view value.now)) }
{
    match value.as_bool() {
        None => bad_here(alloc, InputFault::WrongKind),
        Some(flag) => Ok(flag),
    }
}

/// Whether the value under a key is true, or `default` if the key is absent.
pub fn flag_or(alloc: Global, value: &Value, key: Key, default: bool) -> Result<bool, ScenarioFault>
    ensures { Gives result (optional key flag_of default (view value.now)) }
{
    match value.get(key_text(key)) {
        None => Ok(default),
        Some(inside) => at(key, flag_in(alloc, inside)),
    }
}
