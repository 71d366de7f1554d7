//! An assembled text with the origin of each of its words and labels.

ghost use Rattle.std.specs.Prelude.{◌≡◌, ◌++◌, ◌<◌, IfOk, map};
ghost use Rattle.asm_defs.specs.AsmLines.{first_of};
ghost use Rattle.asm_defs.specs.AsmTokens.{tokens_of};
ghost use Rattle.asm_defs.specs.Assembler.{draft_after, draft_from, first_draft};
ghost use Rattle.driver_asm.specs.Answers.{Gives};
ghost use Rattle.driver_asm.specs.Listed.{Grows, MakesAll, line_if, listed};

use crate::draft::Draft;
use crate::error::AsmError;
use crate::labels::LabelTable;
use crate::passes::{after_line, at_line, labels_of, line_following};
use crate::pieces::lines_of;
use asm_defs::assembler::Label;
use nook_data::lists::Items;
use nook_data::memory::NoMemory;
use nook_data::scenario::Image;
use std::alloc::Global;

/// An assembled text: its image, for each word the number of the line that made it, and the labels in the order of
/// their definitions. Lines are counted from 1.
#[derive(Drop)]
pub struct Listed {
    pub image: Image,
    /// The line of each text word.
    pub text_lines: Items<u64>,
    /// The line of each initial word.
    pub initial_lines: Items<u64>,
    pub labels: Items<Label>,
}

/// What the lines so far give, and which of them made the words.
#[derive(Drop)]
struct Made {
    draft: Draft,
    text_lines: Items<u64>,
    initial_lines: Items<u64>,
}

/// Assembles a text of bytes, and reports which line made each word.
///
/// # Errors
///
/// Those of `assemble`.
#[tactic(auto, unfolding(crate::specs::Listed::listed))]
pub fn assemble_listed(alloc: Global, text: &[u8]) -> Result<Listed, AsmError>
    ensures { Gives result (listed text.now) }
{
    let lines = lines_of(alloc, text)?;
    let labels = labels_of(alloc, &lines)?;
    let made = made_of(alloc, &labels, &lines)?;
    let image = at_line(line_following(&lines), made.draft.into_image(alloc))?;
    Ok(Listed {
        image,
        text_lines: made.text_lines,
        initial_lines: made.initial_lines,
        labels: labels.into_items(),
    })
}

/// The second pass: the draft after all lines, and which lines made its words.
fn made_of(alloc: Global, labels: &LabelTable, lines: &[&[u8]]) -> Result<Made, AsmError>
    ensures { MakesAll result (first_of labels.now) (map (λ line. line.now) lines.now)
        (draft_from (first_of labels.now) 1 (map (λ line. line.now) lines.now) first_draft) }
{
    let mut made = Made {
        draft: Draft::new(alloc),
        text_lines: Items::new(alloc),
        initial_lines: Items::new(alloc),
    };
    let mut number = 1u64;
    for line in lines {
        made = made.following_line(alloc, labels, number, line)?;
        number += 1;
    }
    Ok(made)
}

impl Made {
    /// The state after a line, or its error at that line.
    fn following_line(
        self,
        alloc: Global,
        labels: &LabelTable,
        number: u64,
        line: &[u8],
    ) -> Result<Made, AsmError>
        ensures { Grows result self number
            (draft_after (first_of labels.now) number (tokens_of line.now) self.draft) }
    {
        let text_len = self.draft.text_len();
        let initial_len = self.draft.initial_len();
        let draft = after_line(alloc, labels, number, line, self.draft)?;
        let text_lines = with_line(self.text_lines, text_len < draft.text_len(), number)?;
        let initial_lines = with_line(
            self.initial_lines,
            initial_len < draft.initial_len(),
            number,
        )?;
        Ok(Made {
            draft,
            text_lines,
            initial_lines,
        })
    }
}

/// The lines, followed by this one if it made a word.
fn with_line(lines: Items<u64>, made: bool, number: u64) -> Result<Items<u64>, NoMemory>
    ensures { IfOk result (λ longer. longer ≡ lines ++ line_if made number) }
{
    let mut longer = lines;
    if made {
        longer.push(number)?;
    }
    Ok(longer)
}
