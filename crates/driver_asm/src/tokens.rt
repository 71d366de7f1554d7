//! Lines and tokens.

ghost use Rattle.std.specs.Prelude.{◌≡◌, ◌≤◌, ◌==◌, ◌-◌, ◌&&◌, ◌<◌, ◌+◌, ◌*◌, min, true, ℕ, List, IfOk, IfSome, take};
ghost use Rattle.std.specs.Prelude.{drop, take_while, filter, map, length, slice_index, codes, bytes_eq, Some, None};
ghost use Rattle.std.specs.Prelude.{if◌then◌else◌};
ghost use Rattle.std.specs.Char.{is_digit, digit_value};
ghost use Rattle.std.specs.List.{list_all, slice_split};
ghost use Rattle.asm_defs.specs.AsmTokens.{is_separator, is_not_empty, is_letter, is_letter_or_digit, is_label_name};
ghost use Rattle.asm_defs.specs.AsmTokens.{is_numeral, numeral_value, but_last, kind_of, register_named, is_register};
ghost use Rattle.asm_defs.specs.AsmTokens.{lines_of, tokens_of, without_empty_last};
ghost use Rattle.asm_defs.specs.Views.Assembling.{is_before_comment, is_line_feed};
ghost use Rattle.asm_defs.specs.declared.assembler.TokenKind.TheVariants as kind;
ghost use Rattle.driver_asm.specs.Lexing.{numeral};
ghost use Rattle.asm_defs.specs.AsmLines.{is_definition};
ghost use Rattle.asm_defs.specs.Views.Assembling.{is_bad};

use asm_defs::assembler::TokenKind;
use nook_data::memory::NoMemory;
use std::alloc::Global;
use std::marker::Model;

/// 2^32, which represents all numbers from 2^32 on.
const TOO_LARGE: u64 = 0x1_0000_0000;

/// A run of bytes between separators, and what it is. Contracts see its bytes.
#[derive(Drop)]
pub struct Token<'a> {
    /// The run.
    bytes: &'a [u8],
    /// What it is.
    kind: TokenKind,
}

impl<'a> Model for Token<'a> {
    ghost use Rattle.std.specs.Prelude.{◌≡◌, ℕ, List};
    ghost use Rattle.asm_defs.specs.AsmTokens.{kind_of};

    ghost Value = { List ℕ };

    ghost view = { λ s. s.bytes.now };

    ghost invariant = { λ s. s.kind ≡ kind_of s.bytes.now };
}

impl<'a> Token<'a> {
    /// The token of some bytes.
    pub fn new(bytes: &'a [u8]) -> Token<'a>
        ensures { result ≡ bytes.now }
    {
        Token {
            bytes,
            kind: kind_of(bytes),
        }
    }

    /// The bytes.
    pub fn bytes(&self) -> &'a [u8]
        ensures { result.now ≡ self.now }
    {
        self.bytes
    }

    /// What the bytes are.
    pub fn kind(&self) -> TokenKind
        ensures { result ≡ kind_of self.now }
    {
        self.kind
    }

    /// Whether the token is a name and a colon.
    pub fn is_definition(&self) -> bool
        ensures { result ≡ is_definition (kind_of self.now) }
    {
        matches!(self.kind, TokenKind::Definition)
    }

    /// Whether the token is not in the language.
    pub fn is_bad(&self) -> bool
        ensures { result ≡ is_bad (kind_of self.now) }
    {
        matches!(self.kind, TokenKind::Bad)
    }
}

/// Whether a byte separates tokens.
pub fn is_separator(byte: u8) -> bool
    ensures { result ≡ is_separator byte }
{
    byte == b' ' || byte == b'\t' || byte == b'\r' || byte == b','
}

/// Whether a byte is a letter or `_`.
fn is_letter(byte: u8) -> bool
    ensures { result ≡ is_letter byte }
{
    b'A' <= byte && byte <= b'Z' || b'a' <= byte && byte <= b'z' || byte == b'_'
}

/// Whether a byte is a letter, `_` or a digit.
fn is_letter_or_digit(byte: u8) -> bool
    ensures { result ≡ is_letter_or_digit byte }
{
    is_letter(byte) || b'0' <= byte && byte <= b'9'
}

/// Whether all bytes are letters, `_` and digits.
fn are_letters_or_digits(bytes: &[u8]) -> bool
    ensures { result ≡ list_all is_letter_or_digit bytes.now }
{
    for byte in bytes {
        if !is_letter_or_digit(*byte) {
            return false;
        }
    }
    true
}

/// Whether bytes are 1 to 32 letters, digits and `_`, not beginning with a digit.
#[tactic(auto, unfolding(asm_defs::specs::AsmTokens::is_label_name))]
fn is_label_name(bytes: &[u8]) -> bool
    ensures { result ≡ is_label_name bytes.now }
{
    !bytes.is_empty() && bytes.len() <= 32 && is_letter(bytes[0]) && are_letters_or_digits(bytes)
}

/// Whether all bytes are digits of a base.
fn are_digits(bytes: &[u8], base: u32) -> bool
    requires least { 2 ≤ base }
    requires most { base ≤ 36 }
    ensures { result ≡ list_all (λ byte. is_digit byte base) bytes.now }
{
    for byte in bytes {
        if !char::from(*byte).is_digit(base) {
            return false;
        }
    }
    true
}

/// The number that digits write, or 2^32 if it is larger.
#[tactic(auto, using(crate::proofs::Numerals::digit_more))]
fn number(bytes: &[u8], base: u32) -> u64
    requires least { 2 ≤ base }
    requires most { base ≤ 36 }
    requires digits { list_all (λ byte. is_digit byte base) bytes.now ≡ true }
    ensures { result ≡ numeral_value base bytes.now }
{
    let mut number = 0u64;
    for byte in bytes {
        number = with_digit(number, base, *byte);
    }
    number
}

/// A number with one more digit, or 2^32 if it is larger.
fn with_digit(number: u64, base: u32, byte: u8) -> u64
    requires least { 2 ≤ base }
    requires most { base ≤ 36 }
    requires small { number ≤ 4294967296 }
    requires digit { is_digit byte base ≡ true }
    ensures { result ≡ min (number * base + digit_value byte) 4294967296 }
{
    let digit = match char::from(byte).to_digit(base) {
        Some(digit) => digit,
        None => 0,
    };
    (number * u64::from(base) + u64::from(digit)).min(TOO_LARGE)
}

/// The number that a numeral of a base writes.
#[tactic(auto, unfolding(asm_defs::specs::AsmTokens::is_numeral))]
fn numeral(bytes: &[u8], base: u32) -> Option<u64>
    requires least { 2 ≤ base }
    requires most { base ≤ 36 }
    ensures { result ≡ numeral base bytes.now }
{
    if !bytes.is_empty() && are_digits(bytes, base) {
        Some(number(bytes, base))
    } else {
        None
    }
}

/// The number of `0x` and hexadecimal digits.
fn hexadecimal(token: &[u8]) -> Option<u64>
    ensures { result ≡ (if bytes_eq (take 2 token.now) (codes "0x") then numeral 16
        (drop 2 token.now) else None) }
{
    if token.len() < 2 {
        return None;
    }
    let (prefix, digits) = token.split_at(2);
    if prefix == b"0x".as_slice() {
        numeral(digits, 16)
    } else {
        None
    }
}

/// Whether a token is a name and a colon.
fn is_definition(token: &[u8]) -> bool
    ensures { result ≡ (is_label_name (but_last token.now) && slice_index token.now
        (length token.now - 1) == 58) }
{
    match token.split_last() {
        Some((last, name)) => is_label_name(name) && *last == b':',
        None => false,
    }
}

/// Whether a token is a dot and a name.
fn is_directive(token: &[u8]) -> bool
    ensures { result ≡ (slice_index token.now 0 == 46 && is_label_name (drop 1 token.now)) }
{
    match token.split_first() {
        Some((first, name)) => *first == b'.' && is_label_name(name),
        None => false,
    }
}

/// What a token is.
#[tactic(auto, unfolding(asm_defs::specs::AsmTokens::kind_of))]
fn kind_of(token: &[u8]) -> TokenKind
    ensures { result ≡ kind_of token.now }
{
    if is_label_name(token) {
        return TokenKind::Name;
    }
    if is_definition(token) {
        return TokenKind::Definition;
    }
    if is_directive(token) {
        return TokenKind::Directive;
    }
    if let Some(value) = numeral(token, 10) {
        return TokenKind::Number { value };
    }
    match hexadecimal(token) {
        Some(value) => TokenKind::Number { value },
        None => TokenKind::Bad,
    }
}

/// The register, `r0` to `r15`, that a name denotes.
#[tactic(auto, unfolding(asm_defs::proofs::AsmOnLiterals::asm_on_literals))]
pub fn register_named(name: &[u8]) -> Option<u8>
    ensures register { result ≡ register_named name.now }
    ensures least { IfSome result (λ register. register ≤ 15) }
{
    match name {
        b"r0" => Some(0),
        b"r1" => Some(1),
        b"r2" => Some(2),
        b"r3" => Some(3),
        b"r4" => Some(4),
        b"r5" => Some(5),
        b"r6" => Some(6),
        b"r7" => Some(7),
        b"r8" => Some(8),
        b"r9" => Some(9),
        b"r10" => Some(10),
        b"r11" => Some(11),
        b"r12" => Some(12),
        b"r13" => Some(13),
        b"r14" => Some(14),
        b"r15" => Some(15),
        _ => None,
    }
}
