//! What an operation claims while its call is open.

ghost use Rattle.std.specs.Prelude.{◌≡◌};
ghost use Rattle.claim_index.specs.Claims.{claimed_by};

use nook_data::calls::Op;
use nook_data::limits::BLOCK_WORDS;

/// What a call claims. Of two calls with claims that conflict, the later waits for the earlier.
#[derive(Clone, Copy)]
pub enum Claimed {
    /// All of the part, as a Set does.
    Everything,
    /// Blocks to read, from the first up to the end.
    Reads { first: u64, end: u64 },
    /// Blocks to write, from the first up to the end.
    Writes { first: u64, end: u64 },
    /// The link's frames, as a Recv does.
    Frames,
    /// The stream, as an Open, a Play and a Close do.
    Stream,
    /// Nothing: the call waits only for calls that claim everything.
    Nothing,
}

/// The claim of an open call, with the call's number.
#[derive(Clone, Copy)]
pub struct Claim {
    pub call: u32,
    pub on: Claimed,
}

impl Claim {
    /// The claim of a call that requests the operation.
    pub fn of(call: u32, op: &Op) -> Claim
        ensures call { result.call ≡ call }
        ensures on { result.on ≡ claimed_by op.now }
    {
        Claim {
            call,
            on: claimed_by(op),
        }
    }
}

fn claimed_by(op: &Op) -> Claimed
    ensures { result ≡ claimed_by op.now }
{
    match op {
        Op::Read { first, count } => {
            let first = u64::from(*first);
            Claimed::Reads {
                first,
                end: first + u64::from(*count),
            }
        }
        Op::Write { first, words } => {
            let first = u64::from(*first);
            Claimed::Writes {
                first,
                end: first + (words.len() / BLOCK_WORDS) as u64,
            }
        }
        Op::Recv => Claimed::Frames,
        Op::Open | Op::Play { .. } | Op::Close => Claimed::Stream,
        Op::Set { .. } => Claimed::Everything,
        Op::Send { .. } | Op::Get { .. } => Claimed::Nothing,
    }
}
