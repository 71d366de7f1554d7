//! The keys of objects that have kinds.

ghost use Rattle.std.specs.Prelude.{◌≡◌, ◌∷◌};
ghost use Rattle.input_defs.specs.PartReading.{part_keys};
ghost use Rattle.input_defs.specs.ScenarioReading.{op_keys, schedule_keys};
ghost use Rattle.asm_defs.specs.declared.keys.Key.TheVariants as key;

use asm_defs::keys::Key;
use input_defs::schedules::ScheduleName;
use nook_data::calls::OpName;
use nook_data::classes::Class;

/// The keys of a part, by its class and the scenario's version.
pub fn part_keys(version: u32, class: Class) -> &'static [Key]
    ensures { result.now ≡ part_keys version class }
{
    match class {
        Class::Block if version == 2 => &[
            Key::Name,
            Key::Class,
            Key::Limit,
            Key::Driver,
            Key::Faults,
            Key::Blocks,
            Key::Bad,
        ],
        Class::Block => &[
            Key::Name,
            Key::Class,
            Key::Limit,
            Key::Driver,
            Key::Faults,
            Key::Blocks,
        ],
        Class::Net => &[
            Key::Name,
            Key::Class,
            Key::Limit,
            Key::Driver,
            Key::Faults,
            Key::Arrivals,
        ],
        Class::Sound => &[Key::Name, Key::Class, Key::Limit, Key::Driver, Key::Faults],
    }
}

/// The keys of a schedule of a kind.
pub fn schedule_keys(name: ScheduleName) -> &'static [Key]
    ensures { result.now ≡ schedule_keys name }
{
    match name {
        ScheduleName::RoundRobin => &[Key::Kind],
        ScheduleName::Drawn => &[Key::Kind, Key::Start],
        ScheduleName::Listed => &[Key::Kind, Key::Picks],
    }
}

/// The keys of an operation.
pub fn op_keys(name: OpName) -> &'static [Key]
    ensures { result.now ≡ key.Part ∷ key.Op ∷ op_keys name }
{
    match name {
        OpName::Read => &[Key::Part, Key::Op, Key::First, Key::Count],
        OpName::Write => &[Key::Part, Key::Op, Key::First, Key::Data],
        OpName::Send => &[Key::Part, Key::Op, Key::Frame],
        OpName::Recv | OpName::Open | OpName::Close => &[Key::Part, Key::Op],
        OpName::Play => &[Key::Part, Key::Op, Key::Samples],
        OpName::Get => &[Key::Part, Key::Op, Key::Key],
        OpName::Set => &[Key::Part, Key::Op, Key::Key, Key::Value],
    }
}
