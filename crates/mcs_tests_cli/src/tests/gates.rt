//! Calls of a gate during a run.
use super::worked::{WORKED, to_twenty};
use mcs_cli::{FromRead, Gate, IntoWrite, Show, run};
use mcs_ticks::{CoreId, Tick};
use std::sync::atomic::{AtomicU64, Ordering};
use std::test::Fail;

/// Counts the pieces of work that have begun, and those that have ended.
#[derive(Drop)]
struct Pieces {
    begun: AtomicU64,
    ended: AtomicU64,
}

impl Gate for Pieces {
    fn before(&self, _core: CoreId, _first: Tick) {
        self.begun.fetch_add(1, Ordering::SeqCst);
    }

    fn after(&self, _core: CoreId, _past: Tick) {
        self.ended.fetch_add(1, Ordering::SeqCst);
    }

    fn reached(&self, _moment: Tick) {}
}

/// Two workers lend each of the two cores at least once. One worker lends no piece.
#[test]
fn a_gate_is_told_of_the_pieces_of_a_run(rt: HostRuntime) -> Result<(), Fail> {
    let (file, want) = WORKED[1];
    for (team, least) in [(false, 0), (true, 2)] {
        let gate = Pieces {
            begun: AtomicU64::new(0),
            ended: AtomicU64::new(0),
        };
        let mut source = FromRead::new(file.as_bytes());
        let mut target = IntoWrite::new(Vec::with_capacity(rt.alloc(), 4096)?);
        let options = to_twenty(Show::Schedule, team);
        let ended = run(&rt, rt.alloc(), &mut source, &mut target, &options, &gate);
        assert_eq!(rt; ended, Ok(()), "team: {team}");
        let written = target.into_inner();
        assert_eq!(rt; written.as_slice(), want.as_bytes(), "team: {team}");
        let begun = gate.begun.load(Ordering::SeqCst);
        assert_eq!(rt; begun > 0, team);
        assert!(rt; begun >= least, "team: {team}");
        assert_eq!(rt; begun, gate.ended.load(Ordering::SeqCst));
    }
    Ok(())
}
