//! What a line says, or the smallest of its errors that depend only on the line.

ghost use Rattle.std.specs.Prelude.{◌≡◌, ◌≤◌, length, drop, IfOk, IfSome, Result, Some, None, true, false};
ghost use Rattle.std.specs.Prelude.{if◌then◌else◌, map, option_map};
ghost use Rattle.asm_defs.specs.AsmLines.{bare_statement, after_definition, after_name, class_statement};
ghost use Rattle.asm_defs.specs.AsmLines.{definition_of, directive_statement, entry_statement, entry_value};
ghost use Rattle.asm_defs.specs.AsmLines.{has_bad_token, instr_statement, is_definition, line_says, operands_of};
ghost use Rattle.asm_defs.specs.AsmLines.{right_or_wrong, statement_of, word_statement};
ghost use Rattle.asm_defs.specs.Views.Assembling.{at_most_wrong, class_by, entry_by, is_bad, named_statement};
ghost use Rattle.asm_defs.specs.Views.Assembling.{statement_by};
ghost use Rattle.asm_defs.specs.AsmTokens.{but_last, is_register, kind_of};
ghost use Rattle.asm_defs.specs.AsmLines.{first_of, position_among};
ghost use Rattle.nook_data.specs.ClassNames.{class_named};
ghost use Rattle.asm_defs.specs.Keys.{entry_keys};
ghost use Rattle.machine_defs.specs.Mnemonics.{form_of, mnemonic_named};
ghost use Rattle.asm_defs.specs.declared.assembler.Statement.TheVariants as statement;
ghost use Rattle.std.specs.Option.{option_map_or};
ghost use Rattle.driver_asm.specs.Lexing.{has_registers};

use crate::directives::{Directive, directive_named};
use crate::entries::entry_address;
use crate::labels::LabelTable;
use crate::mnemonics::{form_of, mnemonic_named};
use crate::operands::{only_value, operands_of};
use crate::tokens::{Token, register_named};
use asm_defs::assembler::{AsmKind, Section, Statement, TokenKind};
use nook_data::classes::{Class, class_named};
use nook_data::machine::Mnemonic;

/// An instruction, which may occur only in the text section.
fn instr_statement(
    labels: &LabelTable,
    section: Section,
    mnemonic: Mnemonic,
    rest: &[Token],
) -> Result<Statement, AsmKind>
    ensures says { result ≡ instr_statement (first_of labels.now) section mnemonic rest.now }
    ensures registers { IfOk result (λ says. has_registers says ≡ true) }
{
    match section {
        Section::Data => Err(AsmKind::WrongOperands),
        Section::Text => text_statement(labels, mnemonic, rest),
    }
}

/// An instruction in the text.
fn text_statement(
    labels: &LabelTable,
    mnemonic: Mnemonic,
    rest: &[Token],
) -> Result<Statement, AsmKind>
    ensures says { result ≡ right_or_wrong (statement.Instr mnemonic)
        (operands_of (first_of labels.now) (form_of mnemonic) rest.now) }
    ensures registers { IfOk result (λ says. has_registers says ≡ true) }
{
    match operands_of(labels, form_of(mnemonic), rest) {
        Some(operands) => Ok(Statement::Instr(mnemonic, operands)),
        None => Err(AsmKind::WrongOperands),
    }
}

/// A statement whose first token is a name; the name must be a mnemonic.
fn named_statement(
    labels: &LabelTable,
    section: Section,
    name: &Token,
    rest: &[Token],
) -> Result<Statement, AsmKind>
    ensures says { result
        ≡ named_statement (first_of labels.now) section (mnemonic_named name.now) rest.now }
    ensures registers { IfOk result (λ says. has_registers says ≡ true) }
{
    match mnemonic_named(name.bytes()) {
        Some(mnemonic) => instr_statement(labels, section, mnemonic, rest),
        None => Err(AsmKind::UnknownName),
    }
}

/// A statement without operands.
fn bare_statement(says: Statement, rest: &[Token]) -> Result<Statement, AsmKind>
    ensures { result ≡ bare_statement says rest.now }
{
    match rest {
        [] => Ok(says),
        _ => Err(AsmKind::WrongOperands),
    }
}

/// `.word` and one value.
#[tactic(auto, using(crate::proofs::OneValue::word_of_value))]
fn word_statement(labels: &LabelTable, rest: &[Token]) -> Result<Statement, AsmKind>
    ensures says { result ≡ word_statement (first_of labels.now) rest.now }
    ensures registers { IfOk result (λ says. has_registers says ≡ true) }
{
    match only_value(labels, rest) {
        Some(value) => Ok(Statement::Word(value)),
        None => Err(AsmKind::WrongOperands),
    }
}

/// `.class` and one class.
#[tactic(auto, unfolding(asm_defs::specs::AsmLines::class_statement))]
fn class_statement(rest: &[Token]) -> Result<Statement, AsmKind>
    ensures says { result ≡ class_statement rest.now }
    ensures registers { IfOk result (λ says. has_registers says ≡ true) }
{
    match rest.split_first() {
        Some((name, more)) => class_by(name, more),
        None => Err(AsmKind::WrongOperands),
    }
}

/// `.class` and a token; a name that is no class is reported before excess operands.
fn class_by(name: &Token, more: &[Token]) -> Result<Statement, AsmKind>
    ensures says { result ≡ class_by (kind_of name.now) (class_named name.now) more.now }
    ensures registers { IfOk result (λ says. has_registers says ≡ true) }
{
    match name.kind() {
        TokenKind::Name => match class_named(name.bytes()) {
            Some(class) => bare_statement(Statement::Class(class), more),
            None => Err(AsmKind::UnknownName),
        },
        _ => Err(AsmKind::WrongOperands),
    }
}

/// The one value of an entry.
#[tactic(auto, using(crate::proofs::OneValue::entry_of_value))]
fn entry_value(labels: &LabelTable, index: u32, rest: &[Token]) -> Result<Statement, AsmKind>
    ensures says { result ≡ entry_value (first_of labels.now) index rest.now }
    ensures registers { IfOk result (λ says. has_registers says ≡ true) }
{
    match only_value(labels, rest) {
        Some(value) => Ok(Statement::Entry { index, value }),
        None => Err(AsmKind::WrongOperands),
    }
}

/// `.entry` and a token; a name that the class lacks is reported before too few or too many operands.
fn entry_by(
    labels: &LabelTable,
    class: Class,
    name: &Token,
    more: &[Token],
) -> Result<Statement, AsmKind>
    ensures says { result ≡ entry_by (first_of labels.now) (kind_of name.now)
        (position_among 0 (entry_keys class) name.now) more.now }
    ensures registers { IfOk result (λ says. has_registers says ≡ true) }
{
    match name.kind() {
        TokenKind::Name => match entry_address(class, name.bytes()) {
            Some(index) => entry_value(labels, index, more),
            None => Err(AsmKind::UnknownName),
        },
        _ => Err(AsmKind::WrongOperands),
    }
}

/// `.entry`, a name of the class so far and a value.
#[tactic(auto, unfolding(asm_defs::specs::AsmLines::entry_statement))]
fn entry_statement(
    labels: &LabelTable,
    class: Option<Class>,
    rest: &[Token],
) -> Result<Statement, AsmKind>
    ensures says { result ≡ entry_statement (first_of labels.now) class rest.now }
    ensures registers { IfOk result (λ says. has_registers says ≡ true) }
{
    match (class, rest.split_first()) {
        (Some(class), Some((name, more))) => entry_by(labels, class, name, more),
        _ => Err(AsmKind::WrongOperands),
    }
}

/// One of the five directives and its operands.
#[tactic(auto, unfolding(asm_defs::specs::AsmLines::directive_statement, crate::specs::Directives::directive_named))]
fn directive_statement(
    labels: &LabelTable,
    class: Option<Class>,
    directive: &Token,
    rest: &[Token],
) -> Result<Statement, AsmKind>
    ensures says { result ≡ directive_statement (first_of labels.now) class directive.now rest.now }
    ensures registers { IfOk result (λ says. has_registers says ≡ true) }
{
    match directive_named(directive.bytes()) {
        Some(Directive::Class) => class_statement(rest),
        Some(Directive::Entry) => entry_statement(labels, class, rest),
        Some(Directive::Text) => bare_statement(Statement::Section(Section::Text), rest),
        Some(Directive::Data) => bare_statement(Statement::Section(Section::Data), rest),
        Some(Directive::Word) => word_statement(labels, rest),
        None => Err(AsmKind::WrongOperands),
    }
}

/// A statement, from its first token and the tokens after that.
fn statement_by(
    labels: &LabelTable,
    class: Option<Class>,
    section: Section,
    first: &Token,
    rest: &[Token],
) -> Result<Statement, AsmKind>
    ensures says { result
        ≡ statement_by (kind_of first.now) (first_of labels.now) class section first.now rest.now }
    ensures registers { IfOk result (λ says. has_registers says ≡ true) }
{
    match first.kind() {
        TokenKind::Name => named_statement(labels, section, first, rest),
        TokenKind::Directive => directive_statement(labels, class, first, rest),
        _ => Err(AsmKind::WrongOperands),
    }
}

/// What the tokens after the definition say.
#[tactic(auto, unfolding(asm_defs::specs::AsmLines::statement_of))]
fn statement_of(
    labels: &LabelTable,
    class: Option<Class>,
    section: Section,
    tokens: &[Token],
) -> Result<Statement, AsmKind>
    ensures says { result ≡ statement_of (first_of labels.now) class section tokens.now }
    ensures registers { IfOk result (λ says. has_registers says ≡ true) }
{
    match tokens.split_first() {
        Some((first, rest)) => statement_by(labels, class, section, first, rest),
        None => Ok(Statement::Nothing),
    }
}

/// The name that a line defines, even a register's.
pub fn definition_of<'a>(tokens: &[Token<'a>]) -> Option<&'a [u8]>
    ensures { option_map (λ name. name.now) result ≡ definition_of tokens.now }
{
    match tokens.split_first() {
        Some((first, _)) => defined_name(first),
        None => None,
    }
}

/// The name that a token defines.
fn defined_name<'a>(token: &Token<'a>) -> Option<&'a [u8]>
    ensures { option_map (λ name. name.now) result
        ≡ (if is_definition (kind_of token.now) then Some (but_last token.now) else None) }
{
    if token.is_definition() {
        Some(but_last(token.bytes()))
    } else {
        None
    }
}

/// Bytes without the last.
fn but_last(bytes: &[u8]) -> &[u8]
    ensures { result.now ≡ but_last bytes.now }
{
    match bytes.split_last() {
        Some((_, front)) => front,
        None => bytes,
    }
}

/// The tokens after the definition.
fn after_definition<'t, 'a>(tokens: &'t [Token<'a>]) -> &'t [Token<'a>]
    ensures { result.now ≡ after_definition tokens.now }
{
    let (_, rest) = tokens.split_at(definition_tokens(tokens));
    rest
}

/// The number of tokens in the definition.
fn definition_tokens(tokens: &[Token]) -> usize
    ensures rest_after { drop result tokens.now ≡ after_definition tokens.now }
    ensures most { result ≤ length tokens.now }
{
    match tokens.first() {
        Some(first) => usize::from(first.is_definition()),
        None => 0,
    }
}

/// Whether one of the tokens is not in the language.
fn has_bad_token(tokens: &[Token]) -> bool
    ensures { result ≡ has_bad_token tokens.now }
{
    for token in tokens {
        if token.is_bad() {
            return true;
        }
    }
    false
}

/// Whether a line defines a register's name.
fn defines_register(name: Option<&[u8]>) -> bool
    ensures { result ≡ option_map_or (λ name. is_register name.now) name.entry false }
{
    match name {
        Some(name) => register_named(name).is_some(),
        None => false,
    }
}

/// The error of a line that defines a register's name: the statement's, or else wrong operands.
fn at_most_wrong(said: Result<Statement, AsmKind>) -> Result<Statement, AsmKind>
    ensures says { result ≡ at_most_wrong said }
    ensures registers { IfOk result (λ says. has_registers says ≡ true) }
{
    match said {
        Ok(_) => Err(AsmKind::WrongOperands),
        Err(kind) => Err(kind),
    }
}

/// What a line says: its statement after the definition, or the smallest of its errors among the kinds bad token,
/// unknown name and wrong operands.
#[tactic(auto, unfolding(asm_defs::specs::AsmLines::line_says))]
pub fn line_says(
    labels: &LabelTable,
    class: Option<Class>,
    section: Section,
    tokens: &[Token],
) -> Result<Statement, AsmKind>
    ensures says { result ≡ line_says (first_of labels.now) class section tokens.now }
    ensures registers { IfOk result (λ says. has_registers says ≡ true) }
{
    if has_bad_token(tokens) {
        return Err(AsmKind::BadToken);
    }
    let said = statement_of(labels, class, section, after_definition(tokens));
    if defines_register(definition_of(tokens)) {
        return at_most_wrong(said);
    }
    said
}
