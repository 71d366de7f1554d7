//! A scenario that is read is written unchanged.

use scenario_read::read_scenario;
use scenario_write::write_scenario;
use std::test::Fail;

/// Texts in written form: one with each class, each kind of fault, each operation and bad blocks, and one with hardly
/// anything.
const TEXTS: [&str; 2] = [
    r#"{"version":2,"schedule":{"kind":"listed","picks":[0,65535]},"parts":[{"name":"d_0","class":"block","blocks":64,"bad":[{"block":3,"after":0},{"block":63,"after":7}],"limit":16,"driver":{"image":{"class":"block","data":["000000ab"],"entries":{"get":4,"init":1,"read":2,"set":5,"write":3},"text":["17000000"]}},"faults":[{"burst":1,"after":0,"kind":"trap"},{"burst":2,"after":4095,"kind":"hang"},{"burst":3,"after":1,"kind":"poke","address":2048,"value":4294967295},{"burst":3,"after":2,"kind":"code","address":7,"value":0},{"burst":4294967295,"after":3,"kind":"reg","register":15,"value":10}]},{"name":"link","class":"net","limit":0,"driver":{"image":{"class":"net","data":[],"entries":{"get":0,"init":0,"poll":0,"send":0,"set":0},"text":[]}},"faults":[],"arrivals":[[1,2],[3]]},{"name":"audio","class":"sound","limit":0,"driver":{"image":{"class":"sound","data":[],"entries":{"close":0,"get":0,"init":0,"open":0,"play":0,"set":0},"text":[]}},"faults":[]}],"threads":[{"name":"t0","ops":[{"part":0,"op":"read","first":1,"count":2},{"part":0,"op":"write","first":3,"data":[4,5]},{"part":1,"op":"send","frame":[]},{"part":1,"op":"recv"},{"part":2,"op":"open"},{"part":2,"op":"play","samples":[6]},{"part":2,"op":"close"},{"part":2,"op":"get","key":3},{"part":2,"op":"set","key":1,"value":9}]}]}"#,
    r#"{"version":1,"schedule":{"kind":"drawn","start":18446744073709551615},"parts":[{"name":"audio","class":"sound","limit":0,"driver":{"image":{"class":"sound","data":[],"entries":{"close":0,"get":0,"init":0,"open":0,"play":0,"set":0},"text":[]}},"faults":[]}],"threads":[]}"#,
];

#[test]
fn a_scenario_is_written_as_it_was_read(rt: HostRuntime) -> Result<(), Fail> {
    for text in TEXTS {
        let Ok(scenario) = read_scenario(rt.alloc(), text.as_bytes()) else {
            return Err(Fail::from("no scenario"));
        };
        let written = write_scenario(rt.alloc(), &scenario)?;
        assert!(rt; written.as_slice() == text.as_bytes());
    }
    Ok(())
}
