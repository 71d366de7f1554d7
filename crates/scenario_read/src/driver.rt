//! Drivers: an image, or an assembler text.

ghost use Rattle.std.specs.Prelude.{◌≡◌};
ghost use Rattle.serde_json.specs.View.{view};
ghost use Rattle.nook_data.specs.Classes.{same_class};
ghost use Rattle.input_defs.specs.ImageReading.{driver_of, or_bad_asm};
ghost use Rattle.input_defs.specs.Views.Readings.{asm_of, driver_image};
ghost use Rattle.asm_defs.specs.Assembler.{assembled};
ghost use Rattle.asm_defs.specs.Keys.{key_text};
ghost use Rattle.asm_defs.specs.declared.keys.Key.TheVariants as key;
ghost use Rattle.serde_json.specs.Find.{get};
ghost use Rattle.scenario_read.specs.Gives.{Gives};

use crate::fields::{check_keys, field, text_in};
use crate::image::image_of;
use crate::stop::{ScenarioFault, at, bad_here};
use asm_defs::assembler::AsmFault;
use asm_defs::keys::{Key, key_text};
use driver_asm::{AsmError, assemble};
use input_defs::input::InputFault;
use nook_data::classes::Class;
use nook_data::scenario::Image;
use serde_json::Value;
use std::alloc::Global;

/// The image of a driver of a class, given under exactly one of the keys `image` and `asm`.
#[tactic(auto, unfolding(input_defs::specs::ImageReading::driver_of))]
pub fn driver_of(alloc: Global, value: &Value, class: Class) -> Result<Image, ScenarioFault>
    ensures { Gives result (driver_of class (view value.now)) }
{
    check_keys(alloc, value, &[Key::Image, Key::Asm])?;
    if value.get(key_text(Key::Image)).is_some() && value.get(key_text(Key::Asm)).is_some() {
        return bad_here(alloc, InputFault::UnknownKey);
    }
    let image = driver_image(alloc, value)?;
    if !is_same(image.class, class) {
        return bad_here(alloc, InputFault::BadImage);
    }
    Ok(image)
}

/// The image under `asm` if that key occurs, else the one under `image`.
fn driver_image(alloc: Global, value: &Value) -> Result<Image, ScenarioFault>
    ensures { Gives result
        (driver_image (get (key_text key.Asm) (view value.now)) (view value.now)) }
{
    match value.get(key_text(Key::Asm)) {
        Some(text) => at(Key::Asm, asm_of(alloc, text)),
        None => at(
            Key::Image,
            image_of(alloc, field(alloc, value, Key::Image)?),
        ),
    }
}

/// The image of an assembler text.
fn asm_of(alloc: Global, value: &Value) -> Result<Image, ScenarioFault>
    ensures { Gives result (asm_of (view value.now)) }
{
    let text = text_in(alloc, value)?;
    read_asm(alloc, text)
}

/// The image that a text assembles to.
fn read_asm(alloc: Global, text: &str) -> Result<Image, ScenarioFault>
    ensures { Gives result (or_bad_asm (assembled text.now)) }
{
    match assemble(alloc, text.as_bytes()) {
        Ok(image) => Ok(image),
        Err(AsmError::NoMemory) => Err(ScenarioFault::NoMemory),
        Err(AsmError::Bad { kind, line }) => {
            bad_here(alloc, InputFault::BadAsm(AsmFault { kind, line }))
        }
    }
}

/// Whether two classes are the same.
fn is_same(a: Class, b: Class) -> bool
    ensures { result ≡ same_class a b }
{
    a == b
}
