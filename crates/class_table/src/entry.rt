//! The entries of a driver: the index of each in the class's order.

ghost use Rattle.std.specs.Prelude.{◌≡◌};
ghost use Rattle.nook_data.specs.Classes.{entry_address, get_number, init_address, open_point, set_position};

use asm_defs::keys::{Key, entry_index};
use nook_data::calls::Op;
use nook_data::classes::Class;

/// The index of the entry for an operation of the class.
pub fn entry_address(class: Class, op: &Op) -> u32
    ensures { result ≡ entry_address class op.now }
{
    match op {
        Op::Read { .. } => entry_index(Class::Block, Key::Read),
        Op::Write { .. } => entry_index(Class::Block, Key::Write),
        Op::Send { .. } => entry_index(Class::Net, Key::Send),
        Op::Recv => entry_index(Class::Net, Key::Poll),
        Op::Open => open_point(),
        Op::Play { .. } => entry_index(Class::Sound, Key::Play),
        Op::Close => entry_index(Class::Sound, Key::Close),
        Op::Get { .. } => get_number(class),
        Op::Set { .. } => set_position(class),
    }
}

/// The index of init, which every class has.
pub fn init_address() -> u32
    ensures { result ≡ init_address }
{
    entry_index(Class::Block, Key::Init)
}

/// The index of open in class sound.
pub fn open_point() -> u32
    ensures { result ≡ open_point }
{
    entry_index(Class::Sound, Key::Open)
}

/// The index of get.
pub fn get_number(class: Class) -> u32
    ensures { result ≡ get_number class }
{
    entry_index(class, Key::Get)
}

/// The index of set.
pub fn set_position(class: Class) -> u32
    ensures { result ≡ set_position class }
{
    entry_index(class, Key::Set)
}
