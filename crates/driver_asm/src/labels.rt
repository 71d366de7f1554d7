//! The labels of a text, each with its first definition.

ghost use Rattle.std.specs.Prelude.{◌≡◌, ◌<◌, ◌^◌, ◌++◌, IfOk, Some, [], OnOk};
ghost use Rattle.asm_defs.specs.AsmLines.{first_of};
ghost use Rattle.asm_defs.specs.Views.Assembling.{label_value, no_labels};
ghost use Rattle.asm_defs.specs.Assembler.{label_of};
ghost use Rattle.asm_defs.specs.Views.Assembling.{is_other_line};

use crate::line::NextAddresses;
use crate::tokens::register_named;
use asm_defs::assembler::{Label, Value};
use nook_data::lists::{Items, Words8};
use nook_data::memory::NoMemory;
use std::alloc::Global;
use std::marker::Model;

/// The labels, in the order of their definitions. The first definition of a name counts.
#[derive(Drop)]
pub struct LabelTable {
    labels: Items<Label>,
}

impl Model for LabelTable {
    ghost use Rattle.std.specs.Prelude.{List};
    ghost use Rattle.asm_defs.specs.declared.assembler.Label.{Label};

    ghost Value = { List Label };

    ghost view = { λ s. s.labels };
}

impl LabelTable {
    /// No labels. This allocates no memory.
    pub fn new(alloc: Global) -> LabelTable
        ensures { result ≡ [] }
    {
        LabelTable {
            labels: Items::new(alloc),
        }
    }

    /// Defines a name as the address of the next word. A name keeps its first definition, and a register's name is
    /// never defined.
    pub fn define(&mut self, alloc: Global, name: &[u8], at: &NextAddresses) -> Result<(), NoMemory>
        requires { at.now.initial < 2 ^ 63 }
        ensures { OnOk result (self.new ≡ self.old ++ label_of (Some name.now) at.now) }
    {
        if register_named(name).is_some() {
            return Ok(());
        }
        let label = Label {
            name: owned(alloc, name)?,
            address: at.address(),
            line: at.line(),
        };
        self.labels.push(label)
    }

    /// The labels, in the order of their definitions.
    pub fn into_items(self) -> Items<Label>
        ensures { result ≡ self }
    {
        self.labels
    }

    /// The address of a label, if it is defined.
    pub fn value(&self, name: &[u8]) -> Value
        ensures { result ≡ label_value (first_of self.now name.now) }
    {
        for label in self.labels.as_slice() {
            if name == label.name.as_slice() {
                return Value::Known {
                    number: label.address,
                };
            }
        }
        Value::Missing
    }

    /// Whether a name is first defined on another line.
    pub fn is_other_line(&self, name: &[u8], line: u64) -> bool
        ensures { result ≡ is_other_line (first_of self.now name.now) line }
    {
        for label in self.labels.as_slice() {
            if name == label.name.as_slice() {
                return label.line != line;
            }
        }
        false
    }
}

/// A copy of a name.
fn owned(alloc: Global, name: &[u8]) -> Result<Words8, NoMemory>
    ensures { IfOk result (λ made. made ≡ name.now) }
{
    Ok(Words8::from_vec(name.to_vec(alloc)?))
}
