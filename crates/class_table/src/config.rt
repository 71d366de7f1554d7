//! The four configuration words of a class: their initial and maximum values.

ghost use Rattle.std.specs.Prelude.{◌≡◌, ◌<◌};
ghost use Rattle.nook_data.specs.Classes.{default_of, defaults_of, maximum_of};

use nook_data::classes::Class;
use nook_data::lists::Word;

/// The initial value of a register and of the record, for key 0 to 3.
pub fn default_of(class: Class, key: u32) -> Word
    requires { key < 4 }
    ensures { result ≡ default_of class key }
{
    match (class, key) {
        (Class::Net, 0) => 100,
        (Class::Net, 1) => 1,
        (Class::Sound, 0) => 8000,
        (Class::Sound, 1) => 5,
        (Class::Sound, 2) => 1,
        _ => 0,
    }
}

/// The maximum value of key 0 to 3.
pub fn maximum_of(class: Class, key: u32) -> Word
    requires { key < 4 }
    ensures { result ≡ maximum_of class key }
{
    match (class, key) {
        (Class::Block, 0) => 1,
        (Class::Block, 1) => 8,
        (Class::Net, 0) => 1000,
        (Class::Net, 1) => 1,
        (Class::Net, 2) => 255,
        (Class::Sound, 0) => 48000,
        (Class::Sound, 1) => 10,
        (Class::Sound, 2) => 2,
        _ => Word::MAX,
    }
}

/// The initial values of all four keys, in order.
pub fn defaults_of(class: Class) -> [Word; 4]
    ensures { result ≡ defaults_of class }
{
    [
        default_of(class, 0),
        default_of(class, 1),
        default_of(class, 2),
        default_of(class, 3),
    ]
}
