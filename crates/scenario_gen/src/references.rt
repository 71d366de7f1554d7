//! The reference drivers as images: a disk's, a net device's and a sound device's.

ghost use Rattle.std.specs.Prelude.{◌≡◌, [], ◌∷◌, IfOk};
ghost use Rattle.run_defs.specs.References.{block_image, block_words, net_image, net_words, sound_image, sound_words};
ghost use Rattle.nook_data.specs.Valid.{IsValidImage};

use nook_data::classes::Class;
use nook_data::lists::{Items, Words};
use nook_data::memory::NoMemory;
use nook_data::scenario::Image;
use std::alloc::Global;

// the text of the block driver
const BLOCK_TEXT: [u32; 62] = [
    0x01100000, 0x16000003, 0x01100000, 0x17100000, 0x01500010, 0x01600001, 0x15100001, 0x15600000,
    0x01700000, 0x14800002, 0x0d830000, 0x0b330001, 0x0b770001, 0x11750009, 0x0b110001, 0x05260000,
    0x10200006, 0x17000000, 0x01500010, 0x01600001, 0x01900002, 0x15100001, 0x01700000, 0x0c830000,
    0x15800002, 0x0b330001, 0x0b770001, 0x11750017, 0x15900000, 0x0b110001, 0x05260000, 0x10200015,
    0x17000000, 0x01500001, 0x0f150029, 0x01500002, 0x0f15002b, 0x01500003, 0x0f15002d, 0x14600008,
    0x0e00002e, 0x14600009, 0x0e00002e, 0x1460000a, 0x0e00002e, 0x1460000b, 0x0d630000, 0x17000000,
    0x01500001, 0x0f150038, 0x01500002, 0x0f15003a, 0x01500003, 0x0f15003c, 0x15200008, 0x17000000,
    0x15200009, 0x17000000, 0x1520000a, 0x17000000, 0x1520000b, 0x17000000,
];

// the text of the net driver
const NET_TEXT: [u32; 60] = [
    0x01100001, 0x16000003, 0x01100000, 0x17100000, 0x15200001, 0x01600001, 0x0c830000, 0x15800002,
    0x0b330001, 0x05260000, 0x10200006, 0x15600000, 0x17000000, 0x14200003, 0x0f20001e, 0x03720000,
    0x039e0000, 0x01500040, 0x05950000, 0x03a90000, 0x01600001, 0x14800004, 0x0d890000, 0x0b990001,
    0x05760000, 0x10700015, 0x01600002, 0x15600000, 0x031a0000, 0x16000006, 0x17000000, 0x01500001,
    0x0f150027, 0x01500002, 0x0f150029, 0x01500003, 0x0f15002b, 0x14600008, 0x0e00002c, 0x14600009,
    0x0e00002c, 0x1460000a, 0x0e00002c, 0x1460000b, 0x0d630000, 0x17000000, 0x01500001, 0x0f150036,
    0x01500002, 0x0f150038, 0x01500003, 0x0f15003a, 0x15200008, 0x17000000, 0x15200009, 0x17000000,
    0x1520000a, 0x17000000, 0x1520000b, 0x17000000,
];

// the text of the sound driver
const SOUND_TEXT: [u32; 42] = [
    0x01100002, 0x16000003, 0x01100000, 0x17100000, 0x17000000, 0x17000000, 0x01600001, 0x0c830000,
    0x15800000, 0x0b330001, 0x05260000, 0x10200007, 0x17000000, 0x01500001, 0x0f150015, 0x01500002,
    0x0f150017, 0x01500003, 0x0f150019, 0x14600008, 0x0e00001a, 0x14600009, 0x0e00001a, 0x1460000a,
    0x0e00001a, 0x1460000b, 0x0d630000, 0x17000000, 0x01500001, 0x0f150024, 0x01500002, 0x0f150026,
    0x01500003, 0x0f150028, 0x15200008, 0x17000000, 0x15200009, 0x17000000, 0x1520000a, 0x17000000,
    0x1520000b, 0x17000000,
];

/// A block driver: it reads and writes block by block, word by word.
#[tactic(auto, using(crate::proofs::Limits::block_is_valid))]
pub fn block_driver(alloc: Global) -> Result<Image, NoMemory>
    ensures made { IfOk result (λ made. made ≡ block_image) }
    ensures valid { IfOk result IsValidImage }
{
    Ok(Image {
        class: Class::Block,
        entries: words_of(alloc, &[0, 4, 18, 33, 48])?,
        text: block_text(alloc)?,
        initial: Items::new(alloc),
    })
}

/// The text words of the block driver.
fn block_text(alloc: Global) -> Result<Words, NoMemory>
    ensures { IfOk result (λ made. made ≡ block_words) }
{
    words_of(alloc, &BLOCK_TEXT)
}

/// A net driver: a received frame is handed up from the stack page.
#[tactic(auto, using(crate::proofs::Limits::net_is_valid))]
pub fn net_driver(alloc: Global) -> Result<Image, NoMemory>
    ensures made { IfOk result (λ made. made ≡ net_image) }
    ensures valid { IfOk result IsValidImage }
{
    Ok(Image {
        class: Class::Net,
        entries: words_of(alloc, &[0, 4, 13, 31, 46])?,
        text: net_text(alloc)?,
        initial: Items::new(alloc),
    })
}

/// The text words of the net driver.
fn net_text(alloc: Global) -> Result<Words, NoMemory>
    ensures { IfOk result (λ made. made ≡ net_words) }
{
    words_of(alloc, &NET_TEXT)
}

/// A sound driver: it plays each sample at once.
#[tactic(auto, using(crate::proofs::Limits::sound_is_valid))]
pub fn sound_driver(alloc: Global) -> Result<Image, NoMemory>
    ensures made { IfOk result (λ made. made ≡ sound_image) }
    ensures valid { IfOk result IsValidImage }
{
    Ok(Image {
        class: Class::Sound,
        entries: words_of(alloc, &[0, 4, 6, 5, 13, 28])?,
        text: sound_text(alloc)?,
        initial: Items::new(alloc),
    })
}

/// The text words of the sound driver.
fn sound_text(alloc: Global) -> Result<Words, NoMemory>
    ensures { IfOk result (λ made. made ≡ sound_words) }
{
    words_of(alloc, &SOUND_TEXT)
}

/// A list of these words.
fn words_of(alloc: Global, words: &[u32]) -> Result<Words, NoMemory>
    ensures { IfOk result (λ made. made ≡ words.now) }
{
    Ok(Items::from_vec(words.to_vec(alloc)?))
}
