//! The lines of findings on their way to a target.
ghost use Rattle.std.specs.Prelude.{◌≡◌, is_ok};
ghost use Rattle.mcs_check_lines.specs.Formats.{found_line};
ghost use Rattle.mcs_check.specs.stored.Pages.{founds_text, PutsLines};

use mcs_check_lines::{Shown, put_shown};
use mcs_check_run::{Lines, Progress};
use mcs_check_words::Format;
use mcs_cli::Target;
use mcs_system::System;
use mcs_ticks::Refused;
use mcs_verdict::Found;

/// Lines of findings for a target. The last lines wait.
#[derive(Drop)]
pub(crate) struct FoundLines<'t, 'k, 's, 'p, T: Target, P: Progress> {
    pub(crate) lines: Lines<'t, T>,
    /// The lines that are not written yet.
    pub(crate) text: &'k mut Vec<u8>,
    pub(crate) format: Format,
    pub(crate) system: &'s System,
    pub(crate) progress: &'p mut P,
}

impl<T: Target, P: Progress> FoundLines<'_, '_, '_, '_, T, P> {
    /// Adds the lines of these findings, one after another.
    pub(crate) fn put(&mut self, found: &[Found]) -> Result<(), Refused>
        ensures { PutsLines T.contents T.has_failed self.old (founds_text self.old.format self.old.system.now found.now) (is_ok result) self.new }
    {
        for one in found {
            self.put_one(one)?;
        }
        Ok(())
    }

    /// Adds the line of one finding.
    fn put_one(&mut self, found: &Found) -> Result<(), Refused>
        ensures { PutsLines T.contents T.has_failed self.old (found_line self.old.format self.old.system.now found.now) (is_ok result) self.new }
    {
        let alloc = self.lines.alloc;
        let shown = Shown::Found(*found);
        let appended = put_shown(alloc, self.text, self.format, self.system, &shown);
        self.lines.take_line(appended, self.text, self.progress)
    }
}
