//! The pages of a driver domain: 8,192 words in pages of 64, and which of them the driver may write.
//!
//! The loaded image is kept once. A page has no frame until its first write, and until then shows the image or
//! zeros. A word that is written into text is also kept with the image's text, and the text is decoded as it is written,
//! so that an instruction is fetched from one list. All frames are allocated when the map is made, so a write takes no memory.
#![tactic(auto)]

mod decoding;
mod frames;
mod map;
mod packed;

pub use map::PageMap;
pub use packed::PackedPages;
