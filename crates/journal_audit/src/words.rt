//! The words of a line, and the context that a word names.

ghost use Rattle.std.specs.Prelude.{◌≡◌, ◌<◌, ◌++◌, ◌==◌, ◌∷◌, [], bytes_eq, decimal};
ghost use Rattle.std.specs.List.{position};
ghost use Rattle.run_laws.specs.Audit.{context_in, word_at};

use nook_data::limits::CONTEXTS;

/// The word of a line at an index; empty if there is none. Words are separated by blanks, and the line feed is part of
/// the last one.
pub fn word_at(index: u32, line: &[u8]) -> &[u8]
    ensures { result.now ≡ word_at index line.now }
{
    match blank_in(line) {
        Some(at) if index == 0 => &line[..at],
        Some(at) => word_at(index - 1, &line[at + 1..]),
        None if index == 0 => line,
        None => &line[line.len()..],
    }
}

/// The index of the first blank.
fn blank_in(line: &[u8]) -> Option<usize>
    ensures { result ≡ position (λ b. b == 32) line.now }
{
    line.iter().position(|byte| *byte == b' ')
}

/// The context, 0 to 16, that a word names by a letter and its number.
pub fn context_in(letter: u8, word: &[u8]) -> Option<u8>
    ensures { result ≡ context_in (letter ∷ []) word.now }
{
    for context in 0..CONTEXTS as u8 {
        if is_context(letter, word, context) {
            return Some(context);
        }
    }
    None
}

/// Whether a word is a letter and the number of a context.
fn is_context(letter: u8, word: &[u8], context: u8) -> bool
    requires { context < CONTEXTS }
    ensures { result ≡ bytes_eq word.now ((letter ∷ []) ++ decimal context) }
{
    if context < 10 {
        word == [letter, b'0' + context].as_slice()
    } else {
        word == [letter, b'1', b'0' + (context - 10)].as_slice()
    }
}
