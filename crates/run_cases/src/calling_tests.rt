//! A part that takes as many calls as it may, which is more than any scenario makes.

use nook_data::calls::Op;
use nook_data::lists::TryCopy;
use nook_data::steps::Step;
use part_core::{Part, StepRefused};
use scenario_gen::generate;
use std::test::Fail;

/// The invocation of a read past the end of the disk, which is answered at once.
fn invocation() -> Step {
    Step::Invoke {
        thread: 0,
        op: Op::Read {
            first: 99,
            count: 1,
        },
    }
}

#[test]
fn a_part_takes_its_calls_and_no_more(rt: HostRuntime) -> Result<(), Fail> {
    let scenario = generate(1, rt.alloc())?;
    let [disk, ..] = scenario.parts.as_slice() else {
        return Err(Fail::from("no disk"));
    };
    let mut part = Part::new(rt.alloc(), disk.copy(rt.alloc())?)?;
    for _ in 0..100_000 {
        assert!(rt; part.step(invocation()).is_ok());
    }
    assert_eq!(rt;
        (part.calls(), part.answered_at(100_000)),
        (100_000, Some(100_000))
    );
    assert!(rt; part.step(invocation()) == Err(StepRefused::NotEnabled));
    Ok(())
}
