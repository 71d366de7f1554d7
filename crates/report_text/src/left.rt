//! The final state of a run as text: two runs end alike if these texts are the same.

ghost use Rattle.std.specs.Prelude.{◌≡◌, ◌++◌, OnOk};
ghost use Rattle.report_text.specs.Answers.{answer_line};
ghost use Rattle.report_text.specs.Whole.{device_rows, event_text, left_rows};
ghost use Rattle.report_text.specs.Writing.{each_text};

use crate::line::Line;
use crate::whole_text::{Kind, push_acts, push_blocks, push_config, push_losses, push_objects};
use crate::write::Lined;
use nook_data::calls::Answer;
use nook_data::classes::Class;
use nook_data::lists::Words;
use nook_data::memory::NoMemory;
use nook_data::steps::Event;
use nook_data::verdicts::Losses;
use run_results::PartEnd;

/// Adds the lines of a part's final state: its kernel objects, its device's final contents or what the device produced,
/// its configuration and its losses.
pub fn push_left(
    line: &mut Line,
    class: Class,
    events: &[Event],
    losses: &Losses,
    end: &PartEnd,
) -> Result<(), NoMemory>
    ensures { OnOk result (line.new ≡ line.old ++ left_rows class events.now losses.now end.now) }
{
    push_objects(line, end.objects.as_slice())?;
    push_device(line, class, events, end.medium.as_slice())?;
    push_config(line, &end.config)?;
    push_losses(line, class, losses)
}

/// Adds the lines of a device's final contents, or of what it produced.
fn push_device(
    line: &mut Line,
    class: Class,
    events: &[Event],
    medium: &[Words],
) -> Result<(), NoMemory>
    ensures { OnOk result (line.new ≡ line.old ++ device_rows class events.now medium.now) }
{
    match class {
        Class::Block => push_blocks(line, medium),
        Class::Net => push_all_acts(line, Kind::Frames, events),
        Class::Sound => push_all_acts(line, Kind::Samples, events),
    }
}

/// Adds the lines of the acts of events.
fn push_all_acts(line: &mut Line, kind: Kind, events: &[Event]) -> Result<(), NoMemory>
    ensures { OnOk result (line.new ≡ line.old ++ each_text (event_text kind) 0 events.now) }
{
    for event in events {
        push_acts(line, kind, event)?;
    }
    Ok(())
}

/// Adds the lines of a thread's answers.
pub fn push_answers(line: &mut Line, answers: &[(u32, Answer)]) -> Result<(), NoMemory>
    ensures { OnOk result (line.new ≡ line.old ++ each_text answer_line 1 answers.now) }
{
    let mut number = 1_u64;
    for answer in answers {
        answer.push_line(number, line)?;
        number += 1;
    }
    Ok(())
}
