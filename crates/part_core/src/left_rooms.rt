//! Memory that parts leave for the parts of later runs.

ghost use Rattle.std.specs.Prelude.{◌≡◌, []};

use crate::rooms::Rooms;
use claim_index::ClaimIndex;
use domain_pages::PageMap;
use nook_data::journal::SpareRooms;
use nook_data::memory::NoMemory;
use std::alloc::Global;

/// The memory that parts left, for acts, for crossings, for pages and for claims, so that a sequence of runs allocates
/// it only once.
pub struct LeftRooms {
    spare: Vec<SpareRooms>,
    rooms: Vec<Rooms>,
    pages: Vec<PageMap>,
    claims: Vec<ClaimIndex>,
}

impl Drop for LeftRooms {
    /// Written by hand, so that it is proved once and not in each function that owns what parts left.
    fn drop(self) {
        let LeftRooms {
            spare: _,
            rooms: _,
            pages: _,
            claims: _,
        } = self;
    }
}

impl LeftRooms {
    /// An empty value, without any parts' memory. It takes no memory.
    pub fn none(alloc: Global) -> LeftRooms {
        LeftRooms {
            spare: Vec::new(alloc),
            rooms: Vec::new(alloc),
            pages: Vec::new(alloc),
            claims: Vec::new(alloc),
        }
    }

    /// The memory for acts that a part left, or an empty one if there is none.
    pub fn take(&mut self, alloc: Global) -> SpareRooms {
        match self.spare.pop() {
            Some(spare) => spare,
            None => SpareRooms::new(alloc),
        }
    }

    /// Keeps the memory for acts that a part left. It is dropped if there is no memory to keep it in.
    pub fn give(&mut self, spare: SpareRooms) {
        let _kept = self.spare.push(spare);
    }

    /// The room for crossings that a part left, or an empty one if there is none.
    pub fn take_rooms(&mut self) -> Rooms {
        match self.rooms.pop() {
            Some(rooms) => rooms,
            None => Rooms::none(),
        }
    }

    /// Keeps the room for crossings that a part left. It is dropped if there is no memory to keep it in.
    pub fn give_rooms(&mut self, rooms: Rooms) {
        let _kept = self.rooms.push(rooms);
    }

    /// Pages that a part left, if there are some. Their contents are arbitrary.
    pub fn pop_pages(&mut self) -> Option<PageMap> {
        self.pages.pop()
    }

    /// Pages that a part left, or new ones if there are none. Their contents are arbitrary.
    pub fn take_pages(&mut self, alloc: Global) -> Result<PageMap, NoMemory> {
        match self.pop_pages() {
            Some(pages) => Ok(pages),
            None => PageMap::new(alloc),
        }
    }

    /// Keeps the pages that a part left. They are dropped if there is no memory to keep them in.
    pub fn give_pages(&mut self, pages: PageMap) {
        let _kept = self.pages.push(pages);
    }

    /// An index without claims, in the memory of one that a part left, if there is one.
    pub fn take_claims(&mut self, alloc: Global) -> ClaimIndex
        ensures { result ≡ [] }
    {
        if let Some(claims) = self.claims.pop() {
            // A part that ended has no open call.
            if claims.is_empty() {
                return claims;
            }
        }
        ClaimIndex::new(alloc)
    }

    /// Keeps the index of claims that a part left. It is dropped if there is no memory to keep it in.
    pub fn give_claims(&mut self, claims: ClaimIndex) {
        let _kept = self.claims.push(claims);
    }
}
