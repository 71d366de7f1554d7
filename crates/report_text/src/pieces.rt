//! The pieces of lines: each call appends one thing's text to a line. The caller drops the line after `NoMemory`.

ghost use Rattle.std.specs.Prelude.{◌≡◌, [], ◌∷◌, ◌++◌, Option, OnOk};
ghost use Rattle.nook_data.specs.ClassNames.{class_text};
ghost use Rattle.report_defs.specs.ReportLines.{act_text, acts_tail, answer_tail, answer_text, cause_tail, cause_text};
ghost use Rattle.report_defs.specs.ReportLines.{end_text, event_text, inner_words, op_text, released_text, result_text};
ghost use Rattle.report_defs.specs.ReportLines.{spaced, stage_text, trap_text, with_list, with_number};
ghost use Rattle.report_defs.specs.Views.Reporting.{answers_tail, comma_words, failed_text, kept_text, moved_text};
ghost use Rattle.report_defs.specs.Views.Reporting.{released_tail, right_text, words_text};
ghost use Rattle.report_text.specs.Mirrored.{mirror_answer_text};

use crate::line::Line;
use nook_data::calls::{Answer, Op, op_name, op_word};
use nook_data::classes::{Class, class_text};
use nook_data::entries::Entry;
use nook_data::lists::Words;
use nook_data::machine::{Act, Acts, TrapCause};
use nook_data::memory::NoMemory;
use nook_data::mirror::MirrorAnswer;
use nook_data::steps::{End, Event, FailCause, Stage};

/// A text and a number.
pub fn push_number(line: &mut Line, text: &str, number: u64) -> Result<(), NoMemory>
    ensures { OnOk result (line.new ≡ line.old ++ with_number text.now number) }
{
    line.push(text)?;
    line.number(number)
}

/// A text and words in brackets, with commas.
pub fn push_list(line: &mut Line, text: &str, words: &Words) -> Result<(), NoMemory>
    ensures { OnOk result (line.new ≡ line.old ++ with_list text.now words.now) }
{
    line.push(text)?;
    line.push("[")?;
    push_words(line, words.as_slice())?;
    line.push("]")
}

/// Words with commas between them.
fn push_words(line: &mut Line, words: &[u32]) -> Result<(), NoMemory>
    ensures { OnOk result (line.new ≡ line.old ++ inner_words words.now) }
{
    match words {
        [] => Ok(()),
        [first, rest @ ..] => {
            line.number(u64::from(*first))?;
            push_more_words(line, rest)
        }
    }
}

/// Words, each after a comma.
fn push_more_words(line: &mut Line, words: &[u32]) -> Result<(), NoMemory>
    ensures { OnOk result (line.new ≡ line.old ++ comma_words words.now) }
{
    for word in words {
        push_number(line, ",", u64::from(*word))?;
    }
    Ok(())
}

/// The name of a class.
pub fn push_class(line: &mut Line, class: Class) -> Result<(), NoMemory>
    ensures { OnOk result (line.new ≡ line.old ++ class_text class) }
{
    line.push(class_text(class))
}

/// An operation.
pub fn push_op(line: &mut Line, op: &Op) -> Result<(), NoMemory>
    ensures { OnOk result (line.new ≡ line.old ++ op_text op.now) }
{
    line.push(op_word(op_name(op)))?;
    match op {
        Op::Read { first, count } => push_pair(line, " ", *first, *count),
        Op::Write { first, words } => {
            push_number(line, " ", u64::from(*first))?;
            push_list(line, " ", words)
        }
        Op::Send { frame } => push_list(line, " ", frame),
        Op::Recv | Op::Open | Op::Close => Ok(()),
        Op::Play { samples } => push_list(line, " ", samples),
        Op::Get { key } => push_number(line, " ", u64::from(*key)),
        Op::Set { key, value } => push_pair(line, " ", *key, *value),
    }
}

/// A text, a number, a space and a number.
fn push_pair(line: &mut Line, text: &str, first: u32, second: u32) -> Result<(), NoMemory>
    ensures { OnOk result (line.new ≡ line.old ++ (with_number text.now first ++ spaced second)) }
{
    push_number(line, text, u64::from(first))?;
    push_number(line, " ", u64::from(second))
}

/// A stage.
pub fn push_stage(line: &mut Line, stage: Stage) -> Result<(), NoMemory>
    ensures { OnOk result (line.new ≡ line.old ++ stage_text stage) }
{
    match stage {
        Stage::Stop => line.push("stop"),
        Stage::Collect => line.push("collect"),
        Stage::Reset => line.push("reset"),
        Stage::Load => line.push("load"),
        Stage::Init => line.push("init"),
        Stage::ReplaySet { key, value } => push_pair(line, "replay_set ", key, value),
        Stage::ReplayOpen => line.push("replay_open"),
        Stage::Resume => line.push("resume"),
    }
}

/// An answer.
pub fn push_answer(line: &mut Line, answer: &Answer) -> Result<(), NoMemory>
    ensures { OnOk result (line.new ≡ line.old ++ answer_text answer.now) }
{
    match answer {
        Answer::Done => line.push("done"),
        Answer::Blocks(words) => push_list(line, "data ", words),
        Answer::Value(word) => push_number(line, "value ", u64::from(*word)),
        Answer::Frame(words) => push_list(line, "frame ", words),
        Answer::Empty => line.push("empty"),
        Answer::Busy { stage } => {
            line.push("busy ")?;
            push_stage(line, *stage)
        }
        Answer::InUse { holder } => push_number(line, "in_use ", u64::from(*holder)),
        Answer::NotOpen => line.push("not_open"),
        Answer::BadRange => line.push("bad_range"),
        Answer::BadLength => line.push("bad_length"),
        Answer::BadKey => line.push("bad_key"),
        Answer::BadValue => line.push("bad_value"),
        Answer::BadClass => line.push("bad_class"),
        Answer::IoError { block } => push_number(line, "io_error ", u64::from(*block)),
        Answer::Gone { failures } => push_number(line, "gone ", u64::from(*failures)),
    }
}

/// A mirror's answer.
pub fn push_mirror_answer(line: &mut Line, answer: &MirrorAnswer) -> Result<(), NoMemory>
    ensures { OnOk result (line.new ≡ line.old ++ mirror_answer_text answer.now) }
{
    match answer {
        MirrorAnswer::Done => line.push("done"),
        MirrorAnswer::Blocks(words) => push_list(line, "data ", words),
        MirrorAnswer::IoError { block } => push_number(line, "io_error ", u64::from(*block)),
        MirrorAnswer::BadRange => line.push("bad_range"),
        MirrorAnswer::BadLength => line.push("bad_length"),
        MirrorAnswer::BothLost => line.push("both_lost"),
    }
}

/// A trap.
pub fn push_trap(line: &mut Line, cause: TrapCause) -> Result<(), NoMemory>
    ensures { OnOk result (line.new ≡ line.old ++ trap_text cause) }
{
    match cause {
        TrapCause::BadOpcode => line.push("bad_opcode"),
        TrapCause::BadFetch => line.push("bad_fetch"),
        TrapCause::BadRead { address } => push_number(line, "bad_read ", u64::from(address)),
        TrapCause::ForeignWrite { address } => {
            push_number(line, "foreign_write ", u64::from(address))
        }
        TrapCause::BadPort { port } => push_number(line, "bad_port ", u64::from(port)),
        TrapCause::Hang => line.push("hang"),
        TrapCause::Explicit => line.push("explicit"),
        TrapCause::Injected => line.push("injected"),
    }
}

/// Why a driver failed.
pub fn push_cause(line: &mut Line, cause: FailCause) -> Result<(), NoMemory>
    ensures { OnOk result (line.new ≡ line.old ++ cause_text cause) }
{
    match cause {
        FailCause::Trap(trap) => {
            line.push("trap ")?;
            push_trap(line, trap)
        }
        FailCause::BadParam { service, argument } => {
            push_pair(line, "bad_param ", service, argument)
        }
        FailCause::TooManyCrossings => line.push("too_many_crossings"),
        FailCause::BadReply { status } => push_number(line, "bad_reply ", u64::from(status)),
        FailCause::BadInit { status } => push_number(line, "bad_init ", u64::from(status)),
    }
}

/// A device act.
pub fn push_act(line: &mut Line, act: &Act) -> Result<(), NoMemory>
    ensures { OnOk result (line.new ≡ line.old ++ act_text act.now) }
{
    match act {
        Act::Load { block } => push_number(line, "load ", u64::from(*block)),
        Act::Store { block, words } => {
            push_number(line, "store ", u64::from(*block))?;
            push_list(line, " ", words)
        }
        Act::Failed { block, store } => push_number(line, failed(*store), u64::from(*block)),
        Act::Sent { frame } => push_list(line, "sent ", frame),
        Act::Popped { frame } => push_list(line, "popped ", frame),
        Act::Played {
            sample,
            rate,
            volume,
        } => {
            push_number(line, "played ", u64::from(*sample))?;
            push_pair(line, " ", *rate, *volume)
        }
        Act::Register { key, value } => push_pair(line, "register ", *key, *value),
    }
}

/// Which command met a bad block.
fn failed(store: bool) -> &'static str
    ensures { result.now ≡ failed_text store }
{
    if store {
        "failed store "
    } else {
        "failed load "
    }
}

/// How a burst ended.
pub fn push_end(line: &mut Line, end: &End) -> Result<(), NoMemory>
    ensures { OnOk result (line.new ≡ line.old ++ end_text end.now) }
{
    match end {
        End::Service {
            service,
            first,
            second,
            answer,
            moved,
        } => {
            push_number(line, "service ", u64::from(*service))?;
            push_number(line, " ", u64::from(*first))?;
            push_number(line, " ", u64::from(*second))?;
            push_result(line, *answer, moved)
        }
        End::Reply { status } => push_number(line, "reply ", u64::from(*status)),
        End::Pause => line.push("pause"),
        End::Trap => line.push("trap"),
    }
}

/// The result of a kernel call, if it was served.
fn push_result(line: &mut Line, answer: Option<u32>, moved: &Words) -> Result<(), NoMemory>
    ensures { OnOk result (line.new ≡ line.old ++ result_text answer moved.now) }
{
    let Some(word) = answer else {
        return Ok(());
    };
    push_number(line, " = ", u64::from(word))?;
    push_moved(line, moved)
}

/// The words that a kernel call moved, if there are any.
fn push_moved(line: &mut Line, moved: &Words) -> Result<(), NoMemory>
    ensures { OnOk result (line.new ≡ line.old ++ moved_text moved.now) }
{
    if moved.is_empty() {
        return Ok(());
    }
    push_list(line, " ", moved)
}

/// A tracker entry that was released.
pub fn push_released(line: &mut Line, entry: &Entry) -> Result<(), NoMemory>
    ensures { OnOk result (line.new ≡ line.old ++ released_text entry.now) }
{
    match entry {
        Entry::Heap { start, len } => push_pair(line, " heap ", *start, *len),
        Entry::Borrow { object, start } => push_pair(line, " borrow ", *object, *start),
        Entry::Buffer { context, writable } => {
            push_number(line, " buffer ", u64::from(*context))?;
            line.push(right(*writable))
        }
        Entry::Registration { .. } => Ok(()),
    }
}

/// What a loan allows.
fn right(writable: bool) -> &'static str
    ensures { result.now ≡ right_text writable }
{
    if writable { " write" } else { " read" }
}

/// An answer after its arrow, if there is one.
fn push_answer_tail(line: &mut Line, answer: &Option<Answer>) -> Result<(), NoMemory>
    ensures { OnOk result (line.new ≡ line.old ++ answer_tail answer.now) }
{
    let Some(answer) = answer else {
        return Ok(());
    };
    line.push(" -> ")?;
    push_answer(line, answer)
}

/// A cause after its mark, if there is one.
fn push_cause_tail(line: &mut Line, cause: Option<FailCause>) -> Result<(), NoMemory>
    ensures { OnOk result (line.new ≡ line.old ++ cause_tail cause) }
{
    let Some(cause) = cause else {
        return Ok(());
    };
    line.push(" ! ")?;
    push_cause(line, cause)
}

/// Acts, each after a bar.
pub fn push_acts_tail(line: &mut Line, acts: &[Act]) -> Result<(), NoMemory>
    ensures { OnOk result (line.new ≡ line.old ++ acts_tail acts.now) }
{
    for act in acts {
        line.push(" | ")?;
        push_act(line, act)?;
    }
    Ok(())
}

/// Calls with their answers, each after an arrow.
fn push_answers_tail(line: &mut Line, answers: &[(u32, Answer)]) -> Result<(), NoMemory>
    ensures { OnOk result (line.new ≡ line.old ++ answers_tail answers.now) }
{
    for answer in answers {
        push_number(line, " -> c", u64::from(answer.0))?;
        line.push(" ")?;
        push_answer(line, &answer.1)?;
    }
    Ok(())
}

/// Released entries.
fn push_released_tail(line: &mut Line, released: &[Entry]) -> Result<(), NoMemory>
    ensures { OnOk result (line.new ≡ line.old ++ released_tail released.now) }
{
    for entry in released {
        push_released(line, entry)?;
    }
    Ok(())
}

/// An event, without its number.
pub fn push_event(line: &mut Line, event: &Event) -> Result<(), NoMemory>
    ensures { OnOk result (line.new ≡ line.old ++ event_text event.now) }
{
    match event {
        Event::Invoke {
            call,
            thread,
            op,
            answer,
        } => {
            push_number(line, "invoke c", u64::from(*call))?;
            push_number(line, " t", u64::from(*thread))?;
            line.push(" ")?;
            push_op(line, op)?;
            push_answer_tail(line, answer)
        }
        Event::Enter {
            call,
            thread,
            attempt,
            answer,
        } => {
            push_number(line, "enter c", u64::from(*call))?;
            push_number(line, " x", u64::from(*thread))?;
            push_number(line, " try ", u64::from(*attempt))?;
            push_answer_tail(line, answer)
        }
        Event::Burst {
            context,
            call,
            burst,
            count,
            end,
            acts,
            answer,
            failure,
        } => {
            push_number(line, "burst x", u64::from(*context))?;
            push_number(line, " c", u64::from(*call))?;
            push_number(line, " b", u64::from(*burst))?;
            push_number(line, " n", u64::from(*count))?;
            line.push(" ")?;
            push_outcome(line, end, acts, answer, *failure)
        }
        Event::Stage {
            stage,
            answers,
            released,
        } => {
            line.push("stage ")?;
            push_stage(line, *stage)?;
            push_answers_tail(line, answers.as_slice())?;
            push_released_tail(line, released.as_slice())
        }
        Event::Arrive { frame, kept } => {
            push_list(line, "arrive ", frame)?;
            line.push(fate(*kept))
        }
    }
}

/// The result of a burst: its end, its acts, its answer and its failure.
pub fn push_outcome(
    line: &mut Line,
    end: &End,
    acts: &Acts,
    answer: &Option<Answer>,
    failure: Option<FailCause>,
) -> Result<(), NoMemory>
    ensures { OnOk result (line.new ≡ line.old
        ++ (end_text end.now
        ++ (acts_tail acts.now ++ (answer_tail answer.now ++ cause_tail failure)))) }
{
    push_end(line, end)?;
    push_acts_tail(line, acts.as_slice())?;
    push_answer_tail(line, answer)?;
    push_cause_tail(line, failure)
}

/// Whether a frame was delivered.
fn fate(kept: bool) -> &'static str
    ensures { result.now ≡ kept_text kept }
{
    if kept { " kept" } else { " lost" }
}
