//! Shows the progress of a run on a terminal.
use mcs_cli::Gate;
use mcs_ticks::{CoreId, Tick};
use std::sync::{Mutex, Wait};
use std::time::{Clock, Duration, Instant};

/// Milliseconds of a run without progress shown before the line appears.
const FIRST: u64 = 1_000;

/// Milliseconds between two updates of the line.
const AGAIN: u64 = 200;

/// Shows the progress of a run, in a line that is erased when the run ends.
#[derive(Drop)]
pub(crate) struct Meter<'a, R: Clock + Eprint + Wait> {
    rt: &'a R,
    horizon: Tick,
    line: Mutex<Line>,
}

/// The line of a meter.
#[derive(Drop)]
struct Line {
    /// Time of the last write, or the start of the run. `None` if the line isn't shown, or there is
    /// no clock.
    since: Option<Instant>,
    is_shown: bool,
}

impl<'a, R: Clock + Eprint + Wait> Meter<'a, R> {
    /// Returns a meter for a run to this horizon. If `shows` is false it shows no line.
    pub(crate) fn new(rt: &'a R, horizon: Tick, shows: bool) -> Self {
        let since = if shows { Instant::now(rt).ok() } else { None };
        Meter {
            rt,
            horizon,
            line: Mutex::new(Line {
                since,
                is_shown: false,
            }),
        }
    }

    /// Erases the line, since other text is written next.
    pub(crate) fn wipe(&self) {
        let mut line = self.line.lock(self.rt);
        if line.is_shown {
            line.is_shown = false;
            let _ = self.rt.eprint("\r\x1b[K");
        }
    }
}

impl Line {
    /// Whether it is time to write the line.
    fn is_due<R: Clock>(&self, rt: &R) -> bool {
        let Some(since) = self.since else {
            return false;
        };
        let least = if self.is_shown { AGAIN } else { FIRST };
        matches!(since.elapsed(rt), Ok(passed) if passed >= Duration::from_millis(least))
    }
}

impl<R: Clock + Eprint + Wait> Gate for Meter<'_, R> {
    fn before(&self, _core: CoreId, _first: Tick) {}

    fn after(&self, _core: CoreId, _past: Tick) {}

    fn reached(&self, moment: Tick) {
        if moment > self.horizon {
            self.wipe();
            return;
        }
        let mut line = self.line.lock(self.rt);
        if line.is_due(self.rt) {
            line.since = Instant::now(self.rt).ok();
            line.is_shown = true;
            let (now, end) = (moment.get(), self.horizon.get());
            let _ = self
                .rt
                .eprint(format_args!("\rmcsim: {now} of {end}\x1b[K"));
        }
    }
}
