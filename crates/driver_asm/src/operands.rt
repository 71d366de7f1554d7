//! Operands: registers and values.

ghost use Rattle.std.specs.Prelude.{◌≡◌, ◌≤◌, ℕ, IfSome, true};
ghost use Rattle.asm_defs.specs.AsmLines.{first_of, operands_of, operands_with, value_of};
ghost use Rattle.asm_defs.specs.Views.Assembling.{no_register, no_value, value_by};
ghost use Rattle.nook_data.specs.declared.machine.Form.TheVariants as form;
ghost use Rattle.driver_asm.specs.Lexing.{names_registers, only_value};

use crate::labels::LabelTable;
use crate::tokens::{Token, register_named};
use asm_defs::assembler::{Operands, TokenKind, Value};
use nook_data::machine::Form;

/// The value of a token: a number, or the address of a label. A register's name cannot be a label.
#[tactic(auto, unfolding(asm_defs::specs::AsmLines::value_of))]
pub fn value_of(labels: &LabelTable, token: &Token) -> Option<Value>
    ensures { result ≡ value_of (first_of labels.now) token.now }
{
    match token.kind() {
        TokenKind::Number { value } => Some(Value::Known { number: value }),
        TokenKind::Name if register_named(token.bytes()).is_none() => {
            Some(labels.value(token.bytes()))
        }
        _ => None,
    }
}

/// Registers and a value, if all are right.
fn operands_with(a: Option<u8>, b: Option<u8>, imm: Option<Value>) -> Option<Operands>
    requires first { IfSome a (λ register. register ≤ 15) }
    requires second { IfSome b (λ register. register ≤ 15) }
    ensures operands { result ≡ operands_with a b imm }
    ensures registers { IfSome result (λ operands. names_registers operands ≡ true) }
{
    Some(Operands {
        a: a?,
        b: b?,
        imm: imm?,
    })
}

/// The immediate of a form without one.
fn no_value() -> Option<Value>
    ensures { result ≡ no_value }
{
    Some(Value::Known { number: 0 })
}

/// The operands of a form without any.
#[tactic(auto, unfolding(asm_defs::specs::AsmLines::operands_of))]
fn no_operands(labels: &LabelTable, tokens: &[Token]) -> Option<Operands>
    ensures operands { result ≡ operands_of (first_of labels.now) form.Bare tokens.now }
    ensures registers { IfSome result (λ operands. names_registers operands ≡ true) }
{
    match tokens {
        [] => operands_with(Some(0), Some(0), no_value()),
        _ => None,
    }
}

/// One register.
#[tactic(auto, unfolding(asm_defs::specs::AsmLines::operands_of))]
fn one_register(labels: &LabelTable, tokens: &[Token]) -> Option<Operands>
    ensures operands { result ≡ operands_of (first_of labels.now) form.A tokens.now }
    ensures registers { IfSome result (λ operands. names_registers operands ≡ true) }
{
    match tokens {
        [a] => operands_with(register_named(a.bytes()), Some(0), no_value()),
        _ => None,
    }
}

/// The value of the only token.
pub fn only_value(labels: &LabelTable, tokens: &[Token]) -> Option<Value>
    ensures { result ≡ only_value (first_of labels.now) tokens.now }
{
    match tokens {
        [token] => value_of(labels, token),
        _ => None,
    }
}

/// One value.
#[tactic(auto, using(crate::proofs::OneValue::only_operand))]
fn one_value(labels: &LabelTable, tokens: &[Token]) -> Option<Operands>
    ensures operands { result ≡ operands_of (first_of labels.now) form.Imm tokens.now }
    ensures registers { IfSome result (λ operands. names_registers operands ≡ true) }
{
    operands_with(Some(0), Some(0), only_value(labels, tokens))
}

/// Two registers.
#[tactic(auto, unfolding(asm_defs::specs::AsmLines::operands_of))]
fn two_registers(labels: &LabelTable, tokens: &[Token]) -> Option<Operands>
    ensures operands { result ≡ operands_of (first_of labels.now) form.AB tokens.now }
    ensures registers { IfSome result (λ operands. names_registers operands ≡ true) }
{
    match tokens {
        [a, b] => operands_with(
            register_named(a.bytes()),
            register_named(b.bytes()),
            no_value(),
        ),
        _ => None,
    }
}

/// A register and a value.
#[tactic(auto, unfolding(asm_defs::specs::AsmLines::operands_of))]
fn register_and_value(labels: &LabelTable, tokens: &[Token]) -> Option<Operands>
    ensures operands { result ≡ operands_of (first_of labels.now) form.AImm tokens.now }
    ensures registers { IfSome result (λ operands. names_registers operands ≡ true) }
{
    match tokens {
        [a, imm] => operands_with(register_named(a.bytes()), Some(0), value_of(labels, imm)),
        _ => None,
    }
}

/// Two registers and a value.
#[tactic(auto, unfolding(asm_defs::specs::AsmLines::operands_of))]
fn registers_and_value(labels: &LabelTable, tokens: &[Token]) -> Option<Operands>
    ensures operands { result ≡ operands_of (first_of labels.now) form.ABImm tokens.now }
    ensures registers { IfSome result (λ operands. names_registers operands ≡ true) }
{
    match tokens {
        [a, b, imm] => operands_with(
            register_named(a.bytes()),
            register_named(b.bytes()),
            value_of(labels, imm),
        ),
        _ => None,
    }
}

/// The operands of a form; `None` if there are more or fewer, or one is of the wrong kind.
pub fn operands_of(labels: &LabelTable, which: Form, tokens: &[Token]) -> Option<Operands>
    ensures operands { result ≡ operands_of (first_of labels.now) which tokens.now }
    ensures registers { IfSome result (λ operands. names_registers operands ≡ true) }
{
    match which {
        Form::Bare => no_operands(labels, tokens),
        Form::A => one_register(labels, tokens),
        Form::Imm => one_value(labels, tokens),
        Form::AB => two_registers(labels, tokens),
        Form::AImm => register_and_value(labels, tokens),
        Form::ABImm => registers_and_value(labels, tokens),
    }
}
