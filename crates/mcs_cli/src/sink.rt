//! The sink that writes the rows of a schedule as lines.
ghost use Rattle.std.specs.Prelude.{◌≡◌, ◌≤◌, ◌++◌, [], true, length, is_ok, OnOk, OnErr};
ghost use Rattle.std.specs.Io.KnownBytes.{Appends};
ghost use Rattle.mcs_cli.specs.Devices.{AppendsPrefix};
ghost use Rattle.mcs_cli.specs.Flow.{AppendsBefore};
ghost use Rattle.mcs_cli.specs.Lines.{PutsLines};

use crate::Target;
use crate::streams::write_bytes;
use mcs_team::{Refused, Sink};
use mcs_text::{Names, Page};
use mcs_ticks::Row;

/// Writes the lines of rows: the first at once, later ones in growing pieces.
#[derive(Drop)]
pub(crate) struct Lines<'a, T: Target> {
    target: &'a mut T,
    names: &'a Names<'a>,
    /// The lines that are not written yet.
    page: &'a mut Page,
    /// Bytes of lines that are enough for a write, from 1 to a full page.
    limit: usize,
}

impl<'a, T: Target> Lines<'a, T> {
    /// Returns a sink for rows of the system with these names. It writes to `target`, after the
    /// lines that wait on the page.
    pub(crate) fn new(target: &'a mut T, names: &'a Names<'a>, page: &'a mut Page) -> Lines<'a, T>
        ensures target { result.target.ghost_name ≡ target.entry.ghost_name }
        ensures target_now { result.target.now ≡ target.old }
        ensures page { result.page.ghost_name ≡ page.entry.ghost_name }
        ensures page_now { result.page.now ≡ page.old }
        ensures names { result.names.now ≡ names.now }
    {
        Lines {
            target,
            names,
            page,
            limit: 1,
        }
    }

    /// The names of the system whose rows it writes.
    pub(crate) fn names(&self) -> &'a Names<'a>
        ensures { result.now ≡ self.now.names.now }
    {
        self.names
    }

    /// Appends lines of the system. They are refused only if the target has failed.
    #[inline(always)]
    pub(crate) fn append(&mut self, lines: &[u8]) -> Result<(), Refused>
        ensures { PutsLines T.contents T.has_failed self.old lines.now (is_ok result) self.new }
    {
        put(self.target, self.page, lines)?;
        self.write_enough()
    }

    /// Writes the waiting lines if there are enough.
    #[inline(always)]
    fn write_enough(&mut self) -> Result<(), Refused>
        ensures { PutsLines T.contents T.has_failed self.old [] (is_ok result) self.new }
    {
        if self.page.len() < self.limit {
            return Ok(());
        }
        self.write_waiting()
    }

    /// Writes the waiting lines, and doubles what is enough, up to a full page.
    #[inline(never)]
    fn write_waiting(&mut self) -> Result<(), Refused>
        ensures { PutsLines T.contents T.has_failed self.old [] (is_ok result) self.new }
    {
        write_lines(self.target, self.page)?;
        self.limit = self.limit.saturating_mul(2).min(Page::FULL);
        Ok(())
    }
}

impl<T: Target> Sink for Lines<'_, T> {
    ghost use Rattle.mcs_cli.specs.Lines.{PutsRow};

    ghost takes = { PutsRow T.contents T.has_failed };

    #[inline(always)]
    fn row(&mut self, row: &Row) -> Result<(), Refused> {
        make_room(self.target, self.page)?;
        self.page.put_row(self.names, row);
        self.write_enough()
    }
}

/// Writes the lines of a page without room for a further row.
#[inline(always)]
fn make_room<T: Target>(target: &mut T, page: &mut Page) -> Result<(), Refused>
    ensures room { OnOk result (length page.new ≤ 65536) }
    ensures written { OnOk result (AppendsBefore (T.contents target.old) (T.contents target.new) page.old page.new) }
    ensures working { OnOk result (T.has_failed target.new ≡ T.has_failed target.old) }
    ensures prefix { OnErr result (AppendsPrefix (T.contents target.old) (T.contents target.new) page.old) }
    ensures failed { OnErr result (T.has_failed target.new ≡ true) }
{
    if page.has_room() {
        return Ok(());
    }
    write_lines(target, page)
}

/// Appends lines to a page. If there is no room, the waiting ones are written first.
#[inline(always)]
fn put<T: Target>(target: &mut T, page: &mut Page, lines: &[u8]) -> Result<(), Refused>
    ensures written { OnOk result (AppendsBefore (T.contents target.old) (T.contents target.new) (page.old ++ lines.now) page.new) }
    ensures working { OnOk result (T.has_failed target.new ≡ T.has_failed target.old) }
    ensures prefix { OnErr result (AppendsPrefix (T.contents target.old) (T.contents target.new) (page.old ++ lines.now)) }
    ensures failed { OnErr result (T.has_failed target.new ≡ true) }
{
    if page.has_room_for(lines.len()) {
        page.append(lines);
        return Ok(());
    }
    put_on_next(target, page, lines)
}

/// Writes the lines of a page, and puts others on it. Lines larger than a page are written at once.
#[inline(never)]
fn put_on_next<T: Target>(target: &mut T, page: &mut Page, lines: &[u8]) -> Result<(), Refused>
    ensures written { OnOk result (AppendsBefore (T.contents target.old) (T.contents target.new) (page.old ++ lines.now) page.new) }
    ensures working { OnOk result (T.has_failed target.new ≡ T.has_failed target.old) }
    ensures prefix { OnErr result (AppendsPrefix (T.contents target.old) (T.contents target.new) (page.old ++ lines.now)) }
    ensures failed { OnErr result (T.has_failed target.new ≡ true) }
{
    write_lines(target, page)?;
    if lines.len() <= Page::FULL {
        page.append(lines);
        return Ok(());
    }
    write(target, lines)
}

/// Writes the lines of a page, which is then empty.
fn write_lines<T: Target>(target: &mut T, page: &mut Page) -> Result<(), Refused>
    ensures empty { OnOk result (page.new ≡ []) }
    ensures written { OnOk result (AppendsBefore (T.contents target.old) (T.contents target.new) page.old page.new) }
    ensures working { OnOk result (T.has_failed target.new ≡ T.has_failed target.old) }
    ensures prefix { OnErr result (AppendsPrefix (T.contents target.old) (T.contents target.new) page.old) }
    ensures failed { OnErr result (T.has_failed target.new ≡ true) }
{
    write(target, page.as_slice())?;
    page.clear();
    Ok(())
}

/// Writes lines to the target.
fn write<T: Target>(target: &mut T, lines: &[u8]) -> Result<(), Refused>
    ensures written { OnOk result (Appends (T.contents target.old) (T.contents target.new) lines.now) }
    ensures working { OnOk result (T.has_failed target.new ≡ T.has_failed target.old) }
    ensures prefix { OnErr result (AppendsPrefix (T.contents target.old) (T.contents target.new) lines.now) }
    ensures failed { OnErr result (T.has_failed target.new ≡ true) }
{
    match write_bytes(target, lines) {
        Ok(()) => Ok(()),
        Err(_) => Err(Refused),
    }
}
