//! What strikes the members of a campaign: one fault each, a list of faults each, or kinds of fault.

ghost use Rattle.std.specs.Prelude.{◌≡◌};
ghost use Rattle.serde_json.specs.View.{view};
ghost use Rattle.serde_json.specs.Find.{get};
ghost use Rattle.asm_defs.specs.Keys.{key_text};
ghost use Rattle.asm_defs.specs.declared.keys.Key.TheVariants as key;
ghost use Rattle.input_defs.specs.PlanReading.{kind_of, kinds_of, member_lists_of, member_of, strikes_of};
ghost use Rattle.plan_defs.specs.Plans.{longest_of, most_faults};
ghost use Rattle.scenario_read.specs.Gives.{Gives};

use crate::faults::{FaultReader, fault_kind, fault_name, kind_keys, member_faults_of};
use crate::fields::{check_keys, check_object, field};
use crate::lists::{ItemReader, read_list};
use crate::stop::{ScenarioFault, at};
use asm_defs::keys::{Key, key_text};
use nook_data::limits::MOST_CAMPAIGN_FAULTS;
use nook_data::lists::Items;
use nook_data::scenario::{FaultKind, Faults};
use plan_defs::plan::{MOST_EVERY_KINDS, MOST_MEMBER_FAULTS, Strikes};
use serde_json::Value;
use std::alloc::Global;

/// What strikes, under the key `every` or `members`, or else under `faults`, which is then required.
pub fn strikes_of(alloc: Global, value: &Value) -> Result<Strikes, ScenarioFault>
    ensures { let d = view value.now in
        Gives result (strikes_of (get (key_text key.Every) d) (get (key_text key.Members) d) d) }
{
    match (
        value.get(key_text(Key::Every)),
        value.get(key_text(Key::Members)),
    ) {
        (Some(inside), _) => {
            let kinds = at(Key::Every, kinds_of(alloc, inside))?;
            Ok(Strikes::Every(kinds))
        }
        (None, Some(inside)) => {
            let lists = at(Key::Members, member_lists_of(alloc, inside))?;
            Ok(Strikes::Members(lists))
        }
        (None, None) => {
            let inside = field(alloc, value, Key::Faults)?;
            let faults = at(Key::Faults, member_faults_of(alloc, inside))?;
            Ok(Strikes::Faults(faults))
        }
    }
}

/// 1 to 4,096 lists of faults, one for each member.
fn member_lists_of(alloc: Global, value: &Value) -> Result<Items<Faults>, ScenarioFault>
    ensures { Gives result (member_lists_of (view value.now)) }
{
    read_list(alloc, &MemberReader, value, 1, MOST_CAMPAIGN_FAULTS)
}

/// Reads the faults of members.
struct MemberReader;

impl ItemReader for MemberReader {
    type Item = Faults;

    ghost item_of = { λ _ earlier. member_of };

    fn read(
        &self,
        alloc: Global,
        _earlier: &Items<Faults>,
        value: &Value,
    ) -> Result<Faults, ScenarioFault> {
        read_list(alloc, &FaultReader, value, 1, MOST_MEMBER_FAULTS)
    }
}

/// 1 to 64 kinds of fault.
fn kinds_of(alloc: Global, value: &Value) -> Result<Items<FaultKind>, ScenarioFault>
    ensures { Gives result (kinds_of (view value.now)) }
{
    read_list(alloc, &KindReader, value, 1, MOST_EVERY_KINDS)
}

/// Reads kinds of fault.
struct KindReader;

impl ItemReader for KindReader {
    type Item = FaultKind;

    ghost item_of = { λ _ earlier. kind_of };

    fn read(
        &self,
        alloc: Global,
        _earlier: &Items<FaultKind>,
        value: &Value,
    ) -> Result<FaultKind, ScenarioFault> {
        kind_of(alloc, value)
    }
}

/// A kind of fault and the keys of that kind.
#[tactic(auto, unfolding(input_defs::specs::PlanReading::kind_of))]
fn kind_of(alloc: Global, value: &Value) -> Result<FaultKind, ScenarioFault>
    ensures { Gives result (kind_of (view value.now)) }
{
    check_object(alloc, value)?;
    let name = at(
        Key::Kind,
        fault_name(alloc, field(alloc, value, Key::Kind)?),
    )?;
    check_keys(alloc, value, kind_keys(name))?;
    fault_kind(alloc, value, name)
}

/// The most faults that a member has.
pub fn most_faults(strikes: &Strikes) -> usize
    ensures { result ≡ most_faults strikes.now }
{
    match strikes {
        Strikes::Members(lists) => longest_of(lists.as_slice()),
        Strikes::Faults(_) | Strikes::Every(_) => 1,
    }
}

/// The length of the longest of some lists of faults.
#[tactic(auto, using(crate::proofs::Rooms::one_list))]
fn longest_of(lists: &[Faults]) -> usize
    ensures { result ≡ longest_of lists.now }
{
    let mut longest = 0;
    for faults in lists {
        longest = faults.len().max(longest);
    }
    longest
}
