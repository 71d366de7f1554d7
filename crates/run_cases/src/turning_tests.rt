//! A trace whose sink fails.

ghost use Rattle.nook_data.specs.Valid.{IsValidScenario};

use nook_data::lists::Words;
use nook_data::scenario::Scenario;
use nook_io::streams_in_memory::ListSink;
use report_text::WriteStop;
use scenario_read::read_scenario;
use sim_run::run_to_burst;
use std::alloc::Global;
use std::test::Fail;
use turn_trace::trace_burst;

/// A disk whose driver counts its instructions in a register.
const COUNTS: &str =
    r#"{"version":1,"parts":[{"name":"d0","class":"block","blocks":4,"driver":{"asm":
".class block\n.entry init 0\n.entry read 0\n.entry write 0\n.entry get 0\n.entry set 0\nADDI r1 r1 1\nADDI r1 r1 1\nADDI r1 r1 1\nADDI r1 r1 1\nADDI r1 r1 1\nRET r0\n"
}}],"threads":[]}"#;

/// The number of instructions that ran, by the driver's register and by its counter, and the number of lines written,
/// if write number `failing` fails.
fn turns_and_lines(
    alloc: Global,
    scenario: &Scenario,
    failing: u32,
) -> Result<(u32, u32, usize), Fail>
    requires { IsValidScenario scenario.now }
{
    let found = run_to_burst(alloc, scenario, 0, 1)?.ok_or("no burst")?;
    let mut cpu = found.domain.inside(16).ok_or("no context")?.cpu;
    let mut bus = found.domain.detach();
    let mut sink = ListSink::new(
        alloc,
        1000,
        Words::from_vec(vec![in alloc; failing]?),
        false,
    )?;
    match trace_burst(alloc, &mut cpu, &mut bus, &[], &mut sink) {
        Err(WriteStop::Fault) => {}
        _ => return Err(Fail::from("another end")),
    }
    let text = std::str::from_utf8(sink.bytes()).ok().ok_or("text")?;
    Ok((cpu.registers[1], cpu.counter, text.lines().count()))
}

/// The line of an instruction is written before the next one runs: if its write fails, no later instruction has run.
#[test]
fn a_line_is_written_before_the_next_turn(rt: HostRuntime) -> Result<(), Fail> {
    let Ok(scenario) = read_scenario(rt.alloc(), COUNTS.as_bytes()) else {
        return Err(Fail::from("no scenario"));
    };
    for number in 1..6_u32 {
        let found = turns_and_lines(rt.alloc(), &scenario, number)?;
        assert_eq!(rt; found, (number, number, number as usize - 1));
    }
    Ok(())
}
