//! Splits a text into lines, and a line into tokens.

ghost use Rattle.std.specs.Prelude.{◌≡◌, ℕ, List, [], ◌∷◌, ◌++◌, IfOk, OnOk, take_while, filter, map, take, length};
ghost use Rattle.std.specs.List.{slice_split};
ghost use Rattle.asm_defs.specs.AsmTokens.{is_separator, is_not_empty, lines_of, tokens_of, without_empty_last};
ghost use Rattle.asm_defs.specs.Views.Assembling.{is_before_comment, is_line_feed};

use crate::tokens::{Token, is_separator};
use nook_data::memory::NoMemory;
use std::alloc::{AllocError, Global};

/// The lines of a text. After the last line feed a line follows only if it has a byte.
#[tactic(auto, unfolding(asm_defs::specs::AsmTokens::lines_of))]
pub fn lines_of<'a>(alloc: Global, text: &'a [u8]) -> Result<Vec<&'a [u8]>, NoMemory>
    ensures { IfOk result (λ made. map (λ line. line.now) made.items ≡ lines_of text.now) }
{
    let mut pieces = cut_at_line_feeds(alloc, text)?;
    drop_empty_last(&mut pieces);
    Ok(pieces)
}

/// The pieces between line feeds.
fn cut_at_line_feeds(alloc: Global, text: &[u8]) -> Result<Vec<&[u8]>, AllocError>
    ensures { IfOk result
        (λ made. map (λ piece. piece.now) made.items ≡ slice_split is_line_feed text.now) }
{
    text.split(|byte| *byte == b'\n').collect(alloc)
}

/// Removes the last piece if it is empty.
fn drop_empty_last(pieces: &mut Vec<&[u8]>)
    ensures { map (λ piece. piece.now) pieces.new.items
        ≡ without_empty_last (map (λ piece. piece.now) pieces.old.items) }
{
    if let Some(last) = pieces.pop() {
        if !last.is_empty() {
            pieces.push(last).unwrap();
        }
    }
}

/// The tokens of a line, up to its comment.
#[tactic(auto, unfolding(asm_defs::specs::AsmTokens::tokens_of))]
pub fn tokens_of<'a>(alloc: Global, line: &'a [u8]) -> Result<Vec<Token<'a>>, NoMemory>
    ensures { IfOk result (λ made. made.items ≡ tokens_of line.now) }
{
    let pieces = cut_at_separators(alloc, before_comment(line))?;
    let mut tokens = Vec::new(alloc);
    for piece in &pieces {
        if !piece.is_empty() {
            tokens.push(Token::new(piece))?;
        }
    }
    Ok(tokens)
}

/// The pieces between separators.
fn cut_at_separators(alloc: Global, text: &[u8]) -> Result<Vec<&[u8]>, AllocError>
    ensures { IfOk result
        (λ made. map (λ piece. piece.now) made.items ≡ slice_split is_separator text.now) }
{
    text.split(|byte| is_separator(*byte)).collect(alloc)
}

/// The bytes before the comment of a line.
fn before_comment(line: &[u8]) -> &[u8]
    ensures { result.now ≡ take_while is_before_comment line.now }
{
    for i in 0..line.len() {
        if line[i] == b';' {
            let (before, _) = line.split_at(i);
            return before;
        }
    }
    line
}
