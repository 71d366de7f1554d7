//! The generated scenario, from its parts and threads to its operations.

ghost use Rattle.std.specs.Prelude.{◌≡◌, ◌+◌, ◌*◌, ◌%◌, ◌<◌, ◌≤◌, [], ◌∷◌, ◌++◌, true, codes, decimal, replicate, map};
ghost use Rattle.std.specs.Prelude.{IfOk};
ghost use Rattle.run_defs.specs.Generated.{frames_to, generated, generated_disk, generated_link, generated_op};
ghost use Rattle.run_defs.specs.Generated.{generated_thread, ops_to};
ghost use Rattle.scenario_gen.specs.Pieces.{generated_audio, trap_at};
ghost use Rattle.nook_data.specs.Names.{is_name};
ghost use Rattle.nook_data.specs.Valid.{IsValidScenario};

use crate::references::{block_driver, net_driver, sound_driver};
use nook_data::calls::{Op, PartOps};
use nook_data::classes::Class;
use nook_data::lists::{Frames, Items, Words};
use nook_data::memory::NoMemory;
use nook_data::name::Name;
use nook_data::scenario::{
    Fault, FaultKind, Faults, PartSpec, Parts, Scenario, ScheduleSpec, ThreadSpec, ThreadSpecs,
};
use std::alloc::Global;

/// The scenario of a number from 1 to 256: each thread has that many operations, the net part has that many arrivals,
/// and the drawn schedule starts with that number.
#[tactic(auto, using(crate::proofs::Limits::generated_is_valid), unfolding(run_defs::specs::Generated::generated))]
pub fn generate(n: u32, alloc: Global) -> Result<Scenario, NoMemory>
    requires { n ≤ 256 }
    ensures made { IfOk result (λ made. made ≡ generated n) }
    ensures valid { IfOk result IsValidScenario }
{
    Ok(Scenario {
        schedule: ScheduleSpec::Drawn {
            start: u64::from(n),
        },
        parts: parts(n, alloc)?,
        threads: threads(n, alloc)?,
    })
}

/// The three parts.
fn parts(n: u32, alloc: Global) -> Result<Parts, NoMemory>
    requires { n ≤ 256 }
    ensures { IfOk result
        (λ made. made ≡ generated_disk ∷ generated_link n ∷ generated_audio ∷ []) }
{
    let mut made = Items::new(alloc);
    made.push(disk(alloc)?)?;
    made.push(link(n, alloc)?)?;
    made.push(audio(alloc)?)?;
    Ok(made)
}

/// The four threads.
fn threads(n: u32, alloc: Global) -> Result<ThreadSpecs, NoMemory>
    requires { n ≤ 256 }
    ensures { IfOk result
        (λ made. made ≡ generated_thread n 0 ∷ generated_thread n 1 ∷ generated_thread n 2
        ∷ generated_thread n 3 ∷ []) }
{
    let mut made = Items::new(alloc);
    made.push(thread(n, 0, alloc)?)?;
    made.push(thread(n, 1, alloc)?)?;
    made.push(thread(n, 2, alloc)?)?;
    made.push(thread(n, 3, alloc)?)?;
    Ok(made)
}

/// The block part, of 64 blocks, with a trap in every fifth burst up to the 40th.
fn disk(alloc: Global) -> Result<PartSpec, NoMemory>
    ensures { IfOk result (λ made. made ≡ generated_disk) }
{
    Ok(PartSpec {
        name: known_name(b"disk"),
        class: Class::Block,
        blocks: 64,
        bad: Items::new(alloc),
        limit: 16,
        image: block_driver(alloc)?,
        faults: traps(alloc)?,
        arrivals: Items::new(alloc),
    })
}

/// The net part, with n arrivals.
fn link(n: u32, alloc: Global) -> Result<PartSpec, NoMemory>
    requires { n ≤ 256 }
    ensures { IfOk result (λ made. made ≡ generated_link n) }
{
    Ok(PartSpec {
        name: known_name(b"link"),
        class: Class::Net,
        blocks: 0,
        bad: Items::new(alloc),
        limit: 16,
        image: net_driver(alloc)?,
        faults: Items::new(alloc),
        arrivals: arrivals(n, alloc)?,
    })
}

/// The sound part.
fn audio(alloc: Global) -> Result<PartSpec, NoMemory>
    ensures { IfOk result (λ made. made ≡ generated_audio) }
{
    Ok(PartSpec {
        name: known_name(b"audio"),
        class: Class::Sound,
        blocks: 0,
        bad: Items::new(alloc),
        limit: 16,
        image: sound_driver(alloc)?,
        faults: Items::new(alloc),
        arrivals: Items::new(alloc),
    })
}

/// A trap in every fifth burst up to the 40th.
fn traps(alloc: Global) -> Result<Faults, NoMemory>
    ensures { IfOk result (λ made. made ≡ map trap_at (5 ∷ 10 ∷ 15 ∷ 20 ∷ 25 ∷ 30 ∷ 35 ∷ 40 ∷ [])) }
{
    Ok(Items::from_vec(vec![in alloc;
        trap(5),
        trap(10),
        trap(15),
        trap(20),
        trap(25),
        trap(30),
        trap(35),
        trap(40),
    ]?))
}

/// A trap in a burst, after 40 instructions.
fn trap(burst: u32) -> Fault
    ensures { result ≡ trap_at burst }
{
    Fault {
        burst,
        after: 40,
        kind: FaultKind::Trap,
    }
}

/// Frames of one word each, 1 to n.
fn arrivals(n: u32, alloc: Global) -> Result<Frames, NoMemory>
    requires { n ≤ 256 }
    ensures { IfOk result (λ made. made ≡ frames_to n) }
{
    let mut made = Items::new(alloc);
    for i in 0..n {
        made.push(words(vec![in alloc; i + 1]?))?;
    }
    Ok(made)
}

/// A thread, 0 to 3, with n operations.
fn thread(n: u32, number: u32, alloc: Global) -> Result<ThreadSpec, NoMemory>
    requires size { n ≤ 256 }
    requires number { number < 4 }
    ensures { IfOk result (λ made. made ≡ generated_thread n number) }
{
    Ok(ThreadSpec {
        name: thread_name(number),
        ops: script(n, number, alloc)?,
    })
}

/// The name of a thread, 0 to 3.
fn thread_name(number: u32) -> Name
    requires { number < 4 }
    ensures { result ≡ codes "t" ++ decimal number }
{
    match number {
        0 => known_name(b"t0"),
        1 => known_name(b"t1"),
        2 => known_name(b"t2"),
        _ => known_name(b"t3"),
    }
}

/// The first n operations of a thread, 0 to 3.
fn script(n: u32, thread: u32, alloc: Global) -> Result<PartOps, NoMemory>
    requires size { n ≤ 256 }
    requires number { thread < 4 }
    ensures { IfOk result (λ made. made ≡ ops_to thread n) }
{
    let mut made = Items::new(alloc);
    for index in 0..n {
        made.push(operation(thread, index, alloc)?)?;
    }
    Ok(made)
}

/// The operation of a thread, 0 to 3, at an index of its script: one of six kinds, with its part.
fn operation(thread: u32, index: u32, alloc: Global) -> Result<(u32, Op), NoMemory>
    requires number { thread < 4 }
    requires index { index < 256 }
    ensures { IfOk result (λ made. made ≡ generated_op thread index ((thread + index) % 6)) }
{
    match (thread + index) % 6 {
        0 => Ok((
            0,
            Op::Write {
                first: (16 * thread + index) % 64,
                words: words(vec![in alloc; 1000 * thread + index; 16]?),
            },
        )),
        1 => Ok((
            0,
            Op::Read {
                first: (16 * thread + index + 63) % 64,
                count: 1,
            },
        )),
        2 => Ok((
            1,
            Op::Send {
                frame: words(vec![in alloc; thread, index]?),
            },
        )),
        3 => Ok((1, Op::Recv)),
        4 => Ok((
            2,
            Op::Set {
                key: 1,
                value: index % 11,
            },
        )),
        _ => Ok((2, Op::Get { key: 1 })),
    }
}

/// A vector as a list of words.
fn words(items: Vec<u32>) -> Words
    ensures { result ≡ items.items }
{
    Items::from_vec(items)
}

/// The name that these bytes form.
fn known_name(bytes: &[u8]) -> Name
    requires { is_name bytes.now ≡ true }
    ensures { result ≡ bytes.now }
{
    Name::new(bytes).unwrap()
}
