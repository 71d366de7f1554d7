//! The two passes.

ghost use Rattle.std.specs.Prelude.{◌≡◌, ◌+◌, ◌<◌, ◌^◌, ◌++◌, IfOk, OnOk, None, Result, map, length};
ghost use Rattle.asm_defs.specs.AsmLines.{definition_of, first_of, line_says};
ghost use Rattle.asm_defs.specs.Views.Assembling.{no_labels};
ghost use Rattle.asm_defs.specs.AsmTokens.{tokens_of};
ghost use Rattle.asm_defs.specs.Assembler.{all_given, label_of, cursor_after, assembled, at_line, draft_after};
ghost use Rattle.asm_defs.specs.Assembler.{draft_from, first_draft, first_cursor, image_with, labels_from};
ghost use Rattle.asm_defs.specs.Views.Assembling.{next_line};
ghost use Rattle.asm_defs.specs.declared.assembler.AsmKind.{AsmKind};
ghost use Rattle.driver_asm.specs.Answers.{Gives, Takes};

use crate::draft::Draft;
use crate::error::{AsmError, LineStop};
use crate::labels::LabelTable;
use crate::line::NextAddresses;
use crate::pieces::{lines_of, tokens_of};
use crate::statements::{definition_of, line_says};
use crate::tokens::Token;
use nook_data::memory::NoMemory;
use nook_data::scenario::Image;
use std::alloc::Global;

/// Assembles a text of bytes.
///
/// # Errors
///
/// `Bad` with the first line that has an error, counted from 1, and the smallest kind of error that it has. A missing
/// class or entry is reported at the line after the last. `NoMemory` if an allocation fails.
#[tactic(auto, unfolding(asm_defs::specs::Assembler::assembled))]
pub fn assemble(alloc: Global, text: &[u8]) -> Result<Image, AsmError>
    ensures { Gives result (assembled text.now) }
{
    let lines = lines_of(alloc, text)?;
    let labels = labels_of(alloc, &lines)?;
    let draft = draft_of(alloc, &labels, &lines)?;
    at_line(line_following(&lines), draft.into_image(alloc))
}

/// The number of the line after the last.
pub fn line_following(lines: &[&[u8]]) -> u64
    ensures { result ≡ length (map (λ line. line.now) lines.now) + 1 }
{
    lines.len() as u64 + 1
}

/// The first pass: the labels that the lines define.
pub fn labels_of(alloc: Global, lines: &[&[u8]]) -> Result<LabelTable, NoMemory>
    ensures { IfOk result
        (λ labels. labels ≡ labels_from first_cursor (map (λ line. line.now) lines.now)) }
{
    let mut labels = LabelTable::new(alloc);
    let mut at = NextAddresses::new();
    for line in lines {
        at = following_line(alloc, &mut labels, at, line)?;
    }
    Ok(labels)
}

/// Defines the label of a line and returns where the words after the line go. No address depends on a label's value or
/// on the class.
fn following_line(
    alloc: Global,
    labels: &mut LabelTable,
    at: NextAddresses,
    line: &[u8],
) -> Result<NextAddresses, NoMemory>
    requires line { at.line < 2 ^ 63 }
    requires text { at.text < 2 ^ 63 }
    requires initial { at.initial < 2 ^ 63 }
    ensures labels { OnOk result
        (labels.new ≡ labels.old ++ label_of (definition_of (tokens_of line.now)) at) }
    ensures addresses { IfOk result (λ next. next
        ≡ next_line (cursor_after
        (line_says no_labels None at.in_section (tokens_of line.now)) at)) }
{
    let tokens = tokens_of(alloc, line)?;
    define_label(alloc, labels, &at, &tokens)?;
    let says = line_says(&LabelTable::new(alloc), None, at.section(), &tokens);
    Ok(at.after(says))
}

/// Defines the label of a line's tokens, if there is one.
fn define_label(
    alloc: Global,
    labels: &mut LabelTable,
    at: &NextAddresses,
    tokens: &[Token],
) -> Result<(), NoMemory>
    requires { at.now.initial < 2 ^ 63 }
    ensures { OnOk result (labels.new ≡ labels.old ++ label_of (definition_of tokens.now) at.now) }
{
    match definition_of(tokens) {
        Some(name) => labels.define(alloc, name, at),
        None => Ok(()),
    }
}

/// The second pass: the draft after all lines.
#[tactic(auto, unfolding(asm_defs::specs::Assembler::draft_from))]
fn draft_of(alloc: Global, labels: &LabelTable, lines: &[&[u8]]) -> Result<Draft, AsmError>
    ensures { Gives result
        (draft_from (first_of labels.now) 1 (map (λ line. line.now) lines.now) first_draft) }
{
    let mut draft = Draft::new(alloc);
    let mut number = 1u64;
    for line in lines {
        draft = after_line(alloc, labels, number, line, draft)?;
        number += 1;
    }
    Ok(draft)
}

/// The draft after a line, or its error at that line.
pub fn after_line(
    alloc: Global,
    labels: &LabelTable,
    number: u64,
    line: &[u8],
    draft: Draft,
) -> Result<Draft, AsmError>
    ensures { Gives result
        (at_line number (draft_after (first_of labels.now) number (tokens_of line.now) draft)) }
{
    let tokens = tokens_of(alloc, line)?;
    at_line(number, draft.after(alloc, labels, number, &tokens))
}

/// An error at a line.
pub fn at_line<T: Drop>(line: u64, made: Result<T, LineStop>) -> Result<T, AsmError>
    ensures { (given : Result T AsmKind) → Takes made given → Gives result (at_line line given) }
{
    match made {
        Ok(value) => Ok(value),
        Err(LineStop::Bad(kind)) => Err(AsmError::Bad { kind, line }),
        Err(LineStop::NoMemory) => Err(AsmError::NoMemory),
    }
}
