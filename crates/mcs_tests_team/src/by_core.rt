//! Rows in a list for each core, which are given to a sink by moments.

use super::sinks::comparing;
use super::systems::{DEPLETES, EIGHT_CLOSE, IDLE, RING, SIGNALS, TWO_MAKERS, moment, system};
use mcs_team::{FlowFault, Open, Plan, RowRelay, schedule_by_core, simulate_alone};
use std::sync::Arc;
use std::test::Fail;

#[test]
fn outputs_get_the_schedule(rt: HostRuntime) -> Result<(), Fail> {
    let alloc = rt.alloc();
    for text in [DEPLETES, IDLE, SIGNALS, TWO_MAKERS, RING, EIGHT_CLOSE] {
        let shared = system(alloc, text)?;
        let horizon = moment(40)?;
        let whole = simulate_alone(alloc, Arc::try_clone(&shared)?, horizon)?;
        for most in [0usize, 2, 1000] {
            for workers in [0usize, 1, 2, 64] {
                let relay = RowRelay::new(alloc);
                let mut sink = comparing(whole.rows.as_slice(), most);
                let plan = Plan {
                    alloc,
                    system: Arc::try_clone(&shared)?,
                    horizon,
                };
                let ended = schedule_by_core(&rt, plan, workers, &Open, &relay, &mut sink);
                if matches!(ended, Err(FlowFault::NoMemory)) {
                    return Err(Fail::from("no memory"));
                }
                let many = whole.rows.len();
                assert_eq!(rt; ended.is_ok(), many <= most, "with {workers}");
                assert!(rt; sink.same, "with {workers}");
                assert_eq!(rt; sink.given, many.min(most), "with {workers}");
            }
        }
    }
    Ok(())
}
