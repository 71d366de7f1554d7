//! The page map.

ghost use Rattle.std.specs.Prelude.{◌≡◌, ◌+◌, ◌/◌, ◌<◌, ◌≤◌, true, false, length, slice_get, slice_set, slice_range, slice_index, slice_index_or, IfOk, OnOk, OnErr};
ghost use Rattle.driver_isa.specs.Entries.{IsDecodedText};
ghost use Rattle.machine_defs.specs.Pages.{read_word, padded_words, with_words};
ghost use Rattle.machine_defs.specs.Views.PageMap.{opening_pages, may_change, page_written, driver_written};
ghost use Rattle.machine_defs.specs.Views.PageMap.{pages_loaded};
ghost use Rattle.domain_pages.specs.Frames.{with_own};

use crate::decoding::{decode_range, put_decoded, put_text};
use crate::frames::{
    Span, are_framed, end_after, opening_frames, opening_table, put, put_all, renew_objects,
    word_at, words_of_frames,
};
use crate::packed::{PackedPages, packed_frames, unpack_frames};
use driver_isa::{Decoded, entry_of};
use nook_data::limits::CONTEXTS;
use nook_data::lists::{Items, TryCopy, Word, Words};
use nook_data::memory::{NoMemory, Room};
use nook_data::memory_map::{
    BUFFER_WORDS, BUFFERS_END, DATA_START, DATA_WORDS, MEMORY_WORDS, OWN_PAGES, PAGES, STACKS_END,
    TEXT_WORDS,
};
use nook_data::scenario::Image;
use std::alloc::Global;
use std::marker::Model;

/// The words of a driver domain, and where the driver may write. Contracts see the 8,192 words, the contexts whose
/// buffers are lent for writing, and the pages of the driver in which a word was written since the last load.
#[derive(Drop)]
pub struct PageMap {
    alloc: Global,
    /// The words of text as they are shown.
    text: Vec<Word>,
    /// The entry of each of them, and one that is no instruction: a burst looks at neither the table nor the words.
    decoded: Vec<Decoded>,
    /// From this address on the text is zeros.
    text_end: usize,
    initial: Words,
    table: [bool; PAGES],
    frames: Vec<Word>,
    lent: [bool; CONTEXTS],
}

impl Model for PageMap {
    ghost use Rattle.std.specs.Prelude.{take};
    ghost use Rattle.machine_defs.specs.Views.PageMap.{PageMap};
    ghost use Rattle.nook_data.specs.declared.memory_map.TheConstants.{OWN_PAGES};
    ghost use Rattle.domain_pages.specs.Frames.{shown, IsEndOfText, IsFramed, IsText};
    ghost use Rattle.domain_pages.specs.Decoding.{IsDecoded};

    ghost Value = { PageMap };

    ghost view = { λ s. record {
      words = shown s.table s.frames.items s.text.items s.initial;
      lent = s.lent;
      own = take OWN_PAGES s.table;
    } };

    ghost invariant = { λ s. IsFramed s.table s.frames.items
        × IsText s.table s.frames.items s.text.items s.initial
        × IsEndOfText s.text_end s.text.items × IsDecoded s.decoded.items s.text.items };
}

impl PageMap {
    /// The map of a new domain: all words 0 except the first of kernel objects 1 to 12, which is the object's
    /// number; nothing is lent. It allocates every frame.
    pub fn new(alloc: Global) -> Result<PageMap, NoMemory>
        ensures { IfOk result (λ made. made ≡ opening_pages) }
    {
        let text = vec![in alloc; 0; TEXT_WORDS as usize]?;
        let decoded = vec![in alloc; entry_of(0); TEXT_WORDS as usize + 1]?;
        let frames = opening_frames(alloc)?;
        Ok(PageMap {
            alloc,
            text,
            decoded,
            text_end: 0,
            initial: Words::new(alloc),
            table: opening_table(),
            frames,
            lent: [false; CONTEXTS],
        })
    }

    /// The map of a new domain, as `new` makes it, in the memory of one that is no longer needed.
    pub fn renewed(self) -> PageMap
        ensures { result ≡ opening_pages }
    {
        let PageMap {
            alloc,
            mut text,
            mut decoded,
            text_end,
            mut frames,
            ..
        } = self;
        // Without frames the pages of the driver show the text, which is made zeros, and no initial words.
        put_text(&mut text, &mut decoded, &[], text_end);
        renew_objects(&mut frames);
        PageMap {
            alloc,
            text,
            decoded,
            text_end: 0,
            initial: Words::new(alloc),
            table: opening_table(),
            frames,
            lent: [false; CONTEXTS],
        }
    }

    /// The word at an address; `None` exactly if the address exceeds 8,191.
    pub fn read(&self, address: u32) -> Option<Word>
        ensures { result ≡ read_word self.now.words address }
    {
        if address < MEMORY_WORDS {
            Some(self.word(address))
        } else {
            None
        }
    }

    /// The decoded words of the text, and after them an entry that is no instruction.
    pub fn decoded(&self) -> &[Decoded]
        ensures { IsDecodedText result.now self.now.words }
    {
        self.decoded.as_slice()
    }

    /// The word at an address up to 8,191.
    fn word(&self, address: u32) -> Word
        requires { address < MEMORY_WORDS }
        ensures word { result ≡ slice_index self.now.words address }
        ensures size { length self.now.words ≡ MEMORY_WORDS }
    {
        word_at(
            &self.table,
            &self.frames,
            self.text.as_slice(),
            self.initial.as_slice(),
            address as usize,
        )
    }

    /// A driver's write; false, with nothing changed, exactly if the driver may not write there.
    pub fn write(&mut self, address: u32, word: Word) -> bool
        ensures allowed { result ≡ may_change self.old.lent address }
        ensures written { self.new ≡ driver_written self.old address word }
    {
        let allowed = self.may_write(address);
        if allowed {
            self.kernel_write(address, word);
        }
        allowed
    }

    /// Whether the driver may write the address.
    fn may_write(&self, address: u32) -> bool
        ensures allowed { result ≡ may_change self.now.lent address }
    {
        match address {
            DATA_START..STACKS_END => true,
            STACKS_END..BUFFERS_END => {
                self.lent[((address - STACKS_END) / BUFFER_WORDS) as usize]
            }
            _ => false,
        }
    }

    /// Writes a word of text, for a fault.
    pub fn poke_text(&mut self, address: u32, word: Word)
        requires { address < TEXT_WORDS }
        ensures { self.new ≡ page_written self.old address word }
    {
        self.kernel_write(address, word);
    }

    /// The kernel's own write, at any address up to 8,191.
    // Inlined, since a driver's write, the usual caller, never reaches the text.
    #[inline(always)]
    pub fn kernel_write(&mut self, address: u32, word: Word)
        requires { address < MEMORY_WORDS }
        ensures written { self.new ≡ page_written self.old address word }
        ensures size { length self.old.words ≡ MEMORY_WORDS }
    {
        self.text_end = end_after(self.text_end, address);
        put(
            &mut self.table,
            &mut self.frames,
            &mut self.text,
            self.initial.as_slice(),
            address as usize,
            word,
        );
        put_decoded(&mut self.decoded, address as usize, word);
    }

    /// The kernel's own write of `count` words from an address on: these words, then zeros. Each page with one of
    /// the `count` words has its own copy from now on; every other page is unchanged.
    pub fn put_words(&mut self, start: u32, words: &[Word], count: u32)
        requires within { start + count ≤ MEMORY_WORDS }
        requires fits { length words.now ≤ count }
        ensures words { self.new.words
            ≡ with_words start (padded_words count words.now) self.old.words }
        ensures lent { self.new.lent ≡ self.old.lent }
        ensures own { self.new.own ≡ with_own start count self.old.own }
        ensures pages { length self.old.own ≡ OWN_PAGES }
    {
        self.text_end = end_after(self.text_end, start);
        put_all(
            &mut self.table,
            &mut self.frames,
            &mut self.text,
            self.initial.as_slice(),
            Span {
                start: start as usize,
                count: count as usize,
            },
            words,
        );
        let end = TEXT_WORDS.min(start + count) as usize;
        decode_range(&mut self.decoded, self.text.as_slice(), start as usize, end);
    }

    /// Reads `count` words from an address on, into the memory of `room`, which has room for them.
    pub fn words(&self, start: u32, count: u32, room: Room<Word>) -> Words
        requires within { start + count ≤ MEMORY_WORDS }
        requires room { count ≤ room }
        ensures words { result ≡ slice_range self.now.words start (start + count) }
        ensures len { length result ≡ count }
    {
        let (first, len) = (start as usize, count as usize);
        // Kernel objects, and buffers that a driver filled, have frames.
        if are_framed(&self.table, first, len) {
            words_of_frames(&self.frames, first, len, room)
        } else {
            self.shown_words(start, count, room)
        }
    }

    /// Reads `count` words from an address on, each from its frame or from the image.
    fn shown_words(&self, start: u32, count: u32, room: Room<Word>) -> Words
        requires within { start + count ≤ MEMORY_WORDS }
        requires room { count ≤ room }
        ensures words { result ≡ slice_range self.now.words start (start + count) }
        ensures len { length result ≡ count }
    {
        let mut words = room.into_vec();
        for i in 0..count {
            words.push(self.word(start + i)).unwrap();
        }
        Items::from_vec(words)
    }

    /// Lets the driver write the context's buffer. The context is at most 16.
    pub fn lend(&mut self, context: u8)
        requires { context < CONTEXTS }
        ensures { self.new ≡ record self.old { lent = slice_set self.old.lent context true } }
    {
        self.lent[context as usize] = true;
    }

    /// No longer lets the driver write the context's buffer. The context is at most 16.
    pub fn revoke(&mut self, context: u8)
        requires { context < CONTEXTS }
        ensures { self.new ≡ record self.old { lent = slice_set self.old.lent context false } }
    {
        self.lent[context as usize] = false;
    }

    /// Loads an image: its text, its initial words, and zeros in every other word of pages 0 to 114.
    pub fn load(&mut self, image: &Image) -> Result<(), NoMemory>
        requires text { length image.now.text ≤ TEXT_WORDS }
        requires initial { length image.now.initial ≤ DATA_WORDS }
        ensures ok { OnOk result (self.new ≡ pages_loaded image.now self.old) }
        ensures err { OnErr result (self.new ≡ self.old) }
    {
        let initial = image.initial.copy(self.alloc)?;
        let end = self.text_end.max(image.text.len());
        put_text(
            &mut self.text,
            &mut self.decoded,
            image.text.as_slice(),
            end,
        );
        self.text_end = image.text.len();
        self.initial = initial;
        self.table = opening_table();
        Ok(())
    }

    /// Whether a word of the page was written since the last load, or since `new` if nothing was loaded. The page
    /// is at most 114.
    pub fn own_copy(&self, page: u32) -> bool
        requires { page < OWN_PAGES }
        ensures { result ≡ slice_index_or self.now.own page false }
    {
        self.table[page as usize]
    }

    /// The words of the pages that have a frame and the map's other data, in memory of just their size.
    pub fn packed(&self, alloc: Global) -> Result<PackedPages, NoMemory>
        ensures { IfOk result (λ made. made ≡ self.now) }
    {
        let text = Vec::from_slice(alloc, &self.text[..self.text_end])?;
        let initial = self.initial.copy(alloc)?;
        let words = packed_frames(alloc, &self.table, &self.frames)?;
        Ok(PackedPages {
            text: Items::from_vec(text),
            initial,
            table: self.table,
            words: Items::from_vec(words),
            lent: self.lent,
        })
    }
}

impl TryCopy for PageMap {
    fn copy(&self, alloc: Global) -> Result<PageMap, NoMemory> {
        let text = Vec::from_slice(alloc, self.text.as_slice())?;
        let decoded = Vec::from_slice(alloc, self.decoded.as_slice())?;
        let initial = self.initial.copy(alloc)?;
        let frames = Vec::from_slice(alloc, self.frames.as_slice())?;
        Ok(PageMap {
            alloc,
            text,
            decoded,
            text_end: self.text_end,
            initial,
            table: self.table,
            frames,
            lent: self.lent,
        })
    }
}

impl PackedPages {
    /// Unpacks the map, into the memory of one that is no longer needed.
    pub fn unpacked(&self, alloc: Global, over: PageMap) -> Result<PageMap, NoMemory>
        ensures { IfOk result (λ made. made ≡ self.now) }
    {
        let initial = self.initial.copy(alloc)?;
        let PageMap {
            mut text,
            mut decoded,
            text_end,
            mut frames,
            ..
        } = over;
        unpack_frames(&self.table, self.words.as_slice(), &mut frames);
        let end = text_end.max(self.text.len());
        put_text(&mut text, &mut decoded, self.text.as_slice(), end);
        Ok(PageMap {
            alloc,
            text,
            decoded,
            text_end: self.text.len(),
            initial,
            table: self.table,
            frames,
            lent: self.lent,
        })
    }
}
