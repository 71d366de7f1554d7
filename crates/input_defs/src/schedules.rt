//! The names of the kinds of schedule, with their words.

ghost use Rattle.std.specs.Prelude.{◌≡◌};
ghost use Rattle.input_defs.specs.ScheduleNames.{schedule_name, schedule_named, schedule_word};

use nook_data::scenario::ScheduleSpec;

/// The names of the kinds of schedule.
#[derive(Clone, Copy)]
pub enum ScheduleName {
    RoundRobin,
    Drawn,
    Listed,
}

/// The kind of a schedule by its name.
pub fn schedule_name(schedule: &ScheduleSpec) -> ScheduleName
    ensures { result ≡ schedule_name schedule.now }
{
    match schedule {
        ScheduleSpec::RoundRobin => ScheduleName::RoundRobin,
        ScheduleSpec::Drawn { .. } => ScheduleName::Drawn,
        ScheduleSpec::Listed { .. } => ScheduleName::Listed,
    }
}

/// The word for a kind of schedule, in inputs.
pub fn schedule_word(name: ScheduleName) -> &'static str
    ensures { result.now ≡ schedule_word name }
{
    match name {
        ScheduleName::RoundRobin => "round_robin",
        ScheduleName::Drawn => "drawn",
        ScheduleName::Listed => "listed",
    }
}

/// The kind of schedule with a word.
#[tactic(auto, unfolding(crate::specs::ScheduleNames::schedule_named))]
pub fn schedule_named(word: &str) -> Option<ScheduleName>
    ensures { result ≡ schedule_named word.now }
{
    let names = [
        ScheduleName::RoundRobin,
        ScheduleName::Drawn,
        ScheduleName::Listed,
    ];
    for index in 0..names.len() {
        if word == schedule_word(names[index]) {
            return Some(names[index]);
        }
    }
    None
}
