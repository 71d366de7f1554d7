//! The keys of the formats' objects with their texts, and the entries of each class. All code that reads or writes the
//! formats uses this one table.

ghost use Rattle.std.specs.Prelude.{◌≡◌, ◌<◌, ◌^◌, length};
ghost use Rattle.nook_data.specs.Classes.{entry_count};
ghost use Rattle.asm_defs.specs.Keys.{entry_keys, index_among, key_text};

use nook_data::classes::Class;

/// A key of an object of the formats.
#[derive(Clone, Copy)]
pub enum Key {
    Address,
    After,
    Arrivals,
    Asm,
    Bad,
    Base,
    Block,
    Blocks,
    Burst,
    Class,
    Close,
    Count,
    Data,
    Detail,
    Driver,
    Entries,
    Every,
    Faults,
    First,
    Frame,
    Get,
    Guard,
    Image,
    Init,
    Key,
    Kind,
    Limit,
    Members,
    Name,
    Op,
    Open,
    Ops,
    Part,
    Parts,
    Picks,
    Play,
    Poll,
    Read,
    Register,
    Samples,
    Schedule,
    Send,
    Set,
    Start,
    Text,
    Threads,
    Value,
    Version,
    Write,
}

/// The text of a key.
pub fn key_text(key: Key) -> &'static str
    ensures { result.now ≡ key_text key }
{
    match key {
        Key::Address => "address",
        Key::After => "after",
        Key::Arrivals => "arrivals",
        Key::Asm => "asm",
        Key::Bad => "bad",
        Key::Base => "base",
        Key::Block => "block",
        Key::Blocks => "blocks",
        Key::Burst => "burst",
        Key::Class => "class",
        Key::Close => "close",
        Key::Count => "count",
        Key::Data => "data",
        Key::Detail => "detail",
        Key::Driver => "driver",
        Key::Entries => "entries",
        Key::Every => "every",
        Key::Faults => "faults",
        Key::First => "first",
        Key::Frame => "frame",
        Key::Get => "get",
        Key::Guard => "guard",
        Key::Image => "image",
        Key::Init => "init",
        Key::Key => "key",
        Key::Kind => "kind",
        Key::Limit => "limit",
        Key::Members => "members",
        Key::Name => "name",
        Key::Op => "op",
        Key::Open => "open",
        Key::Ops => "ops",
        Key::Part => "part",
        Key::Parts => "parts",
        Key::Picks => "picks",
        Key::Play => "play",
        Key::Poll => "poll",
        Key::Read => "read",
        Key::Register => "register",
        Key::Samples => "samples",
        Key::Schedule => "schedule",
        Key::Send => "send",
        Key::Set => "set",
        Key::Start => "start",
        Key::Text => "text",
        Key::Threads => "threads",
        Key::Value => "value",
        Key::Version => "version",
        Key::Write => "write",
    }
}

/// The entries of a class, in the class's order.
pub fn entry_keys(class: Class) -> &'static [Key]
    ensures entries { result.now ≡ entry_keys class }
    ensures count { length result.now ≡ entry_count class }
{
    match class {
        Class::Block => &[Key::Init, Key::Read, Key::Write, Key::Get, Key::Set],
        Class::Net => &[Key::Init, Key::Send, Key::Poll, Key::Get, Key::Set],
        Class::Sound => &[
            Key::Init,
            Key::Open,
            Key::Play,
            Key::Close,
            Key::Get,
            Key::Set,
        ],
    }
}

/// The index of an entry in the class's order, or the number of entries if the class lacks it.
pub fn entry_index(class: Class, entry: Key) -> u32
    ensures { result ≡ index_among 0 entry (entry_keys class) }
{
    index_in(entry_keys(class), entry)
}

/// The index of an entry among some entries, or their number.
fn index_in(entries: &[Key], entry: Key) -> u32
    requires { length entries.now < 2 ^ 32 }
    ensures { result ≡ index_among 0 entry entries.now }
{
    for index in 0..entries.len() {
        if entries[index] == entry {
            return index as u32;
        }
    }
    entries.len() as u32
}
