ghost use Rattle.std.specs.Prelude.{◌≡◌, ℕ, ◌^◌, ◌≤◌, [], ◌∷◌, ◌++◌, List, length, take, drop, IfOk, OnOk, OnErr};
ghost use Rattle.std.specs.List.{AllByRecursion};
ghost use Rattle.mcs_ticks.specs.declared.row.Row.{Row as TheRow};
ghost use Rattle.mcs_ticks.specs.declared.row.What.{What as TheWhat};
ghost use Rattle.mcs_system.specs.System.{System as TheSystem};
ghost use Rattle.mcs_ever_again.specs.Schedule.{whats};
ghost use Rattle.mcs_verdict.specs.Findings.{UpTo, past_of};
ghost use Rattle.mcs_ever_search.specs.stored.Seen.{IsOfRows};

use mcs_ever::Marks;
use mcs_ever_again::UnderWay;
use mcs_ever_found::{Course, Doings};
use mcs_system::System;
use mcs_ticks::{NoMemory, Row, Tick};
use mcs_verdict::Watch;
use std::alloc::Global;

/// All that a search keeps of rows: the watch, the counts and the signals under way of all rows,
/// and the doings and marks of recent rows, those since the kept moment.
#[derive(Drop)]
pub(crate) struct Seen {
    pub(crate) watch: Watch,
    pub(crate) under_way: UnderWay,
    pub(crate) marks: Marks,
    pub(crate) doings: Doings,
    pub(crate) course: Course,
}

impl Seen {
    /// Returns the state before the first row.
    pub(crate) fn new(alloc: Global, system: &System) -> Result<Self, NoMemory>
        ensures { IfOk result (IsOfRows system.now [] [] 0) }
    {
        Ok(Seen {
            watch: Watch::new(alloc, system)?,
            under_way: UnderWay::new(alloc),
            marks: Marks::new(alloc, system)?,
            doings: Doings::new(alloc, system)?,
            course: Course::new(alloc, system)?,
        })
    }

    /// Adds one row.
    fn see(&mut self, system: &System, row: &Row) -> Result<(), NoMemory>
        ensures { (before : List TheRow) (since : List TheWhat) → IsOfRows system.now before since row.now.moment self.old →
            UpTo row.now.moment (past_of [] before) → row.now.moment ≤ 2 ^ 40 →
            OnOk result (IsOfRows system.now (before ++ row.now ∷ []) (since ++ row.now.what ∷ []) row.now.moment self.new) }
    {
        self.under_way.see(system, row)?;
        let job = self.watch.job(row);
        let found = self.watch.see(row);
        self.course.see(&found, &job, row);
        self.marks.see(system, &row.what);
        self.doings.see(&row.what);
        Ok(())
    }

    /// Adds all rows of a moment.
    pub(crate) fn see_all(&mut self, system: &System, rows: &[Row]) -> Result<(), NoMemory>
        ensures { (before : List TheRow) (since : List TheWhat) (t : ℕ) → IsOfRows system.now before since t self.old →
            UpTo t (past_of [] before) → t ≤ 2 ^ 40 → AllByRecursion (λ (row : TheRow). row.moment ≡ t) rows.now →
            OnOk result (IsOfRows system.now (before ++ rows.now) (since ++ whats rows.now) t self.new) }
    {
        for row in rows {
            self.see(system, row)?;
        }
        Ok(())
    }

    /// Adds the rows of a moment, from the place `start` on. If memory runs out, they are removed
    /// from the list.
    pub(crate) fn see_from(
        &mut self,
        system: &System,
        rows: &mut Vec<Row>,
        start: usize,
    ) -> Result<(), NoMemory>
        requires { start ≤ length rows.old.items }
        ensures seen { (before : List TheRow) (since : List TheWhat) (t : ℕ) → IsOfRows system.now before since t self.old →
            UpTo t (past_of [] before) → t ≤ 2 ^ 40 →
            AllByRecursion (λ (row : TheRow). row.moment ≡ t) (drop start rows.old.items) →
            OnOk result (IsOfRows system.now (before ++ drop start rows.old.items) (since ++ whats (drop start rows.old.items)) t self.new) }
        ensures rows { OnOk result (rows.new.items ≡ rows.old.items) }
        ensures refused { OnErr result (rows.new.items ≡ take start rows.old.items) }
    {
        match self.see_all(system, &rows.as_slice()[start..]) {
            Ok(()) => Ok(()),
            Err(refused) => {
                rows.truncate(start);
                Err(refused)
            }
        }
    }

    /// Moves on to a later moment, without a row meanwhile.
    pub(crate) fn go_to(&mut self, moment: Tick)
        ensures { (system : TheSystem) (before : List TheRow) (since : List TheWhat) (t : ℕ) → IsOfRows system before since t self.old →
            t ≤ moment → IsOfRows system before since moment self.new }
    {
        self.under_way.forget_before(moment);
    }

    /// Forgets the recent rows.
    pub(crate) fn clear(&mut self)
        ensures { (system : TheSystem) (before : List TheRow) (since : List TheWhat) (t : ℕ) → IsOfRows system before since t self.old →
            IsOfRows system before [] t self.new }
    {
        self.marks.clear();
        self.doings.clear();
    }
}
