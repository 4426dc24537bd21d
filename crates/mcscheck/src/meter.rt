use mcs_check_run::Progress;
use mcs_ticks::Tick;
use std::io::IsTerminal;
use std::rt::HostRuntime;
use std::time::{Duration, Instant};

/// Milliseconds of a run before its progress is first shown.
const FIRST: u64 = 1_000;

/// Milliseconds between two updates of the progress.
const AGAIN: u64 = 200;

/// Shows the progress on a terminal, in a line that is cleared before output. If standard error is
/// no terminal, no progress is shown.
#[derive(Drop)]
pub(crate) struct Meter<'a> {
    rt: &'a HostRuntime,
    horizon: Tick,
    /// When the line was last written, or the run began; `None` without a terminal or a clock.
    since: Option<Instant>,
    is_shown: bool,
}

impl<'a> Meter<'a> {
    pub(crate) fn new(rt: &'a HostRuntime, horizon: Tick) -> Self {
        let since = if rt.stderr().is_terminal() {
            Instant::now(rt).ok()
        } else {
            None
        };
        Meter {
            rt,
            horizon,
            since,
            is_shown: false,
        }
    }
}

impl Progress for Meter<'_> {
    fn passed(&mut self, moment: Tick) {
        let Some(since) = self.since else {
            return;
        };
        let least = if self.is_shown { AGAIN } else { FIRST };
        match since.elapsed(self.rt) {
            Ok(passed) if passed >= Duration::from_millis(least) => {}
            _ => return,
        }
        self.since = Instant::now(self.rt).ok();
        self.is_shown = true;
        let (now, end) = (moment.get(), self.horizon.get());
        let _ = self
            .rt
            .eprint(format_args!("\rmcscheck: {now} of {end}\x1b[K"));
    }

    fn wipe(&mut self) {
        if self.is_shown {
            self.is_shown = false;
            let _ = self.rt.eprint("\r\x1b[K");
        }
    }
}
