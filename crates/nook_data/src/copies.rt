//! Copies of the plain data, equal to the original. Each may run out of memory for the lists inside.

ghost use Rattle.std.specs.Prelude.{◌≡◌, ◌≤◌, length};
ghost use Rattle.nook_data.specs.Views.Room.{answer_words};

use crate::calls::{Answer, CallEntry, Op};
use crate::campaign::{Campaign, MemberRow};
use crate::devices::{DeviceKind, DeviceState, Disk, Link};
use crate::entries::Entry;
use crate::lists::TryCopy;
use crate::machine::Act;
use crate::memory::{NoMemory, Room};
use crate::name::Name;
use crate::scenario::{BadBlock, Fault, Image, PartSpec, Scenario, ScheduleSpec, ThreadSpec};
use crate::steps::{End, Event};
use std::alloc::Global;

impl TryCopy for Name {
    fn copy(&self, _alloc: Global) -> Result<Name, NoMemory> {
        Ok(self.copy_of())
    }
}

impl TryCopy for Entry {
    fn copy(&self, _alloc: Global) -> Result<Entry, NoMemory> {
        Ok(*self)
    }
}

impl TryCopy for Fault {
    fn copy(&self, _alloc: Global) -> Result<Fault, NoMemory> {
        Ok(*self)
    }
}

impl TryCopy for BadBlock {
    fn copy(&self, _alloc: Global) -> Result<BadBlock, NoMemory> {
        Ok(*self)
    }
}

impl TryCopy for Op {
    fn copy(&self, alloc: Global) -> Result<Op, NoMemory> {
        match self {
            Op::Read { first, count } => Ok(Op::Read {
                first: *first,
                count: *count,
            }),
            Op::Write { first, words } => Ok(Op::Write {
                first: *first,
                words: words.copied(alloc)?,
            }),
            Op::Send { frame } => Ok(Op::Send {
                frame: frame.copied(alloc)?,
            }),
            Op::Recv => Ok(Op::Recv),
            Op::Open => Ok(Op::Open),
            Op::Play { samples } => Ok(Op::Play {
                samples: samples.copied(alloc)?,
            }),
            Op::Close => Ok(Op::Close),
            Op::Get { key } => Ok(Op::Get { key: *key }),
            Op::Set { key, value } => Ok(Op::Set {
                key: *key,
                value: *value,
            }),
        }
    }
}

impl TryCopy for CallEntry {
    fn copy(&self, alloc: Global) -> Result<CallEntry, NoMemory> {
        let op = self.op.copy(alloc)?;
        Ok(CallEntry {
            call: self.call,
            thread: self.thread,
            op,
            inside: self.inside,
            attempts: self.attempts,
        })
    }
}

impl TryCopy for Answer {
    fn copy(&self, alloc: Global) -> Result<Answer, NoMemory> {
        match self {
            Answer::Done => Ok(Answer::Done),
            Answer::Blocks(words) => Ok(Answer::Blocks(words.copied(alloc)?)),
            Answer::Value(word) => Ok(Answer::Value(*word)),
            Answer::Frame(words) => Ok(Answer::Frame(words.copied(alloc)?)),
            Answer::Empty => Ok(Answer::Empty),
            Answer::Busy { stage } => Ok(Answer::Busy { stage: *stage }),
            Answer::InUse { holder } => Ok(Answer::InUse { holder: *holder }),
            Answer::NotOpen => Ok(Answer::NotOpen),
            Answer::BadRange => Ok(Answer::BadRange),
            Answer::BadLength => Ok(Answer::BadLength),
            Answer::BadKey => Ok(Answer::BadKey),
            Answer::BadValue => Ok(Answer::BadValue),
            Answer::BadClass => Ok(Answer::BadClass),
            Answer::IoError { block } => Ok(Answer::IoError { block: *block }),
            Answer::Gone { failures } => Ok(Answer::Gone {
                failures: *failures,
            }),
        }
    }
}

impl Answer {
    /// An equal answer whose words lie in the memory of `room`, which has room for them. It allocates no memory.
    pub fn copy_in_room(&self, room: Room<u32>) -> Answer
        requires { length (answer_words self.now) ≤ room }
        ensures { result ≡ self.now }
    {
        match self {
            Answer::Done => Answer::Done,
            Answer::Blocks(words) => Answer::Blocks(words.copy_in_room(room)),
            Answer::Value(word) => Answer::Value(*word),
            Answer::Frame(words) => Answer::Frame(words.copy_in_room(room)),
            Answer::Empty => Answer::Empty,
            Answer::Busy { stage } => Answer::Busy { stage: *stage },
            Answer::InUse { holder } => Answer::InUse { holder: *holder },
            Answer::NotOpen => Answer::NotOpen,
            Answer::BadRange => Answer::BadRange,
            Answer::BadLength => Answer::BadLength,
            Answer::BadKey => Answer::BadKey,
            Answer::BadValue => Answer::BadValue,
            Answer::BadClass => Answer::BadClass,
            Answer::IoError { block } => Answer::IoError { block: *block },
            Answer::Gone { failures } => Answer::Gone {
                failures: *failures,
            },
        }
    }
}

impl TryCopy for Act {
    fn copy(&self, alloc: Global) -> Result<Act, NoMemory> {
        match self {
            Act::Load { block } => Ok(Act::Load { block: *block }),
            Act::Store { block, words } => {
                Ok(Act::Store {
                    block: *block,
                    words: words.copied(alloc)?,
                })
            }
            Act::Failed { block, store } => Ok(Act::Failed {
                block: *block,
                store: *store,
            }),
            Act::Sent { frame } => Ok(Act::Sent {
                frame: frame.copied(alloc)?,
            }),
            Act::Popped { frame } => Ok(Act::Popped {
                frame: frame.copied(alloc)?,
            }),
            Act::Played {
                sample,
                rate,
                volume,
            } => {
                Ok(Act::Played {
                    sample: *sample,
                    rate: *rate,
                    volume: *volume,
                })
            }
            Act::Register { key, value } => Ok(Act::Register {
                key: *key,
                value: *value,
            }),
        }
    }
}

impl TryCopy for End {
    fn copy(&self, alloc: Global) -> Result<End, NoMemory> {
        match self {
            End::Service {
                service,
                first,
                second,
                answer,
                moved,
            } => Ok(End::Service {
                service: *service,
                first: *first,
                second: *second,
                answer: *answer,
                moved: moved.copied(alloc)?,
            }),
            End::Reply { status } => Ok(End::Reply { status: *status }),
            End::Pause => Ok(End::Pause),
            End::Trap => Ok(End::Trap),
        }
    }
}

impl TryCopy for Option<Answer> {
    fn copy(&self, alloc: Global) -> Result<Option<Answer>, NoMemory> {
        match self {
            Some(answer) => Ok(Some(answer.copy(alloc)?)),
            None => Ok(None),
        }
    }
}

impl TryCopy for Event {
    fn copy(&self, alloc: Global) -> Result<Event, NoMemory> {
        match self {
            Event::Invoke {
                call,
                thread,
                op,
                answer,
            } => Ok(Event::Invoke {
                call: *call,
                thread: *thread,
                op: op.copy(alloc)?,
                answer: answer.copy(alloc)?,
            }),
            Event::Enter {
                call,
                thread,
                attempt,
                answer,
            } => Ok(Event::Enter {
                call: *call,
                thread: *thread,
                attempt: *attempt,
                answer: answer.copy(alloc)?,
            }),
            Event::Burst {
                context,
                call,
                burst,
                count,
                end,
                acts,
                answer,
                failure,
            } => {
                Ok(Event::Burst {
                    context: *context,
                    call: *call,
                    burst: *burst,
                    count: *count,
                    end: end.copy(alloc)?,
                    acts: acts.copy(alloc)?,
                    answer: answer.copy(alloc)?,
                    failure: *failure,
                })
            }
            Event::Stage {
                stage,
                answers,
                released,
            } => Ok(Event::Stage {
                stage: *stage,
                answers: answers.copy(alloc)?,
                released: released.copy(alloc)?,
            }),
            Event::Arrive { frame, kept } => {
                Ok(Event::Arrive {
                    frame: frame.copied(alloc)?,
                    kept: *kept,
                })
            }
        }
    }
}

impl TryCopy for Image {
    fn copy(&self, alloc: Global) -> Result<Image, NoMemory> {
        let entries = self.entries.copied(alloc)?;
        let text = self.text.copied(alloc)?;
        let initial = self.initial.copied(alloc)?;
        Ok(Image {
            class: self.class,
            entries,
            text,
            initial,
        })
    }
}

impl TryCopy for PartSpec {
    fn copy(&self, alloc: Global) -> Result<PartSpec, NoMemory> {
        let bad = self.bad.copied(alloc)?;
        let image = self.image.copy(alloc)?;
        let faults = self.faults.copied(alloc)?;
        let arrivals = self.arrivals.copy(alloc)?;
        Ok(PartSpec {
            name: self.name.copy(alloc)?,
            class: self.class,
            blocks: self.blocks,
            bad,
            limit: self.limit,
            image,
            faults,
            arrivals,
        })
    }
}

impl TryCopy for ThreadSpec {
    fn copy(&self, alloc: Global) -> Result<ThreadSpec, NoMemory> {
        let name = self.name.copy(alloc)?;
        let ops = self.ops.copy(alloc)?;
        Ok(ThreadSpec { name, ops })
    }
}

impl TryCopy for ScheduleSpec {
    fn copy(&self, alloc: Global) -> Result<ScheduleSpec, NoMemory> {
        match self {
            ScheduleSpec::RoundRobin => Ok(ScheduleSpec::RoundRobin),
            ScheduleSpec::Drawn { start } => Ok(ScheduleSpec::Drawn { start: *start }),
            ScheduleSpec::Listed { picks } => Ok(ScheduleSpec::Listed {
                picks: picks.copied(alloc)?,
            }),
        }
    }
}

impl TryCopy for Scenario {
    fn copy(&self, alloc: Global) -> Result<Scenario, NoMemory> {
        let schedule = self.schedule.copy(alloc)?;
        let parts = self.parts.copy(alloc)?;
        let threads = self.threads.copy(alloc)?;
        Ok(Scenario {
            schedule,
            parts,
            threads,
        })
    }
}

impl TryCopy for Campaign {
    fn copy(&self, alloc: Global) -> Result<Campaign, NoMemory> {
        let base = self.base.copy(alloc)?;
        let faults = self.faults.copied(alloc)?;
        Ok(Campaign {
            base,
            part: self.part,
            faults,
        })
    }
}

impl TryCopy for MemberRow {
    fn copy(&self, _alloc: Global) -> Result<MemberRow, NoMemory> {
        Ok(*self)
    }
}

impl TryCopy for Disk {
    fn copy(&self, alloc: Global) -> Result<Disk, NoMemory> {
        let medium = self.medium.copy(alloc)?;
        let bad = self.bad.copy(alloc)?;
        let counts = self.counts.copy(alloc)?;
        Ok(Disk {
            medium,
            bad,
            counts,
            block: self.block,
            buffer: self.buffer,
            position: self.position,
            status: self.status,
        })
    }
}

impl TryCopy for Link {
    fn copy(&self, alloc: Global) -> Result<Link, NoMemory> {
        let ring = self.ring.copy(alloc)?;
        Ok(Link {
            length: self.length,
            buffer: self.buffer,
            position: self.position,
            ring,
            reading: self.reading,
        })
    }
}

impl TryCopy for DeviceKind {
    fn copy(&self, alloc: Global) -> Result<DeviceKind, NoMemory> {
        match self {
            DeviceKind::Disk(disk) => Ok(DeviceKind::Disk(disk.copy(alloc)?)),
            DeviceKind::Link(link) => Ok(DeviceKind::Link(link.copy(alloc)?)),
            DeviceKind::Speaker => Ok(DeviceKind::Speaker),
        }
    }
}

impl TryCopy for DeviceState {
    fn copy(&self, alloc: Global) -> Result<DeviceState, NoMemory> {
        let kind = self.kind.copy(alloc)?;
        Ok(DeviceState {
            registers: self.registers,
            kind,
        })
    }
}
