//! Laws of tallies and of schedules that other crates rely on.
ghost use Rattle.mcs_report.specs.laws.Agreement.{Agree, AgreeButRan};
ghost use Rattle.mcs_report.specs.laws.Schedules.{SchedulesRunApart, SchedulesAreReported};
ghost use Rattle.mcs_report.specs.laws.Bandwidth.{BandwidthIsBounded, FilesBoundBandwidth};
ghost use Rattle.mcs_report.specs.laws.Demand.{RunsAreTicks, DemandIsBounded};
ghost use Rattle.mcs_report.specs.laws.ByCore.{CoresAreCounted};
ghost use Rattle.mcs_report.specs.laws.CoreTallies.{GivenAreAddedByCore, CoreTalliesGiveReports};
ghost use Rattle.mcs_report.specs.laws.Given.{GivenAreAdded};

/// Law of tallies, for rows in which each run of a thread is stopped before its next one, as in
/// every schedule: finishing after adding the rows gives the reports of the rows.
pub fn tallies_give_reports()
    ensures { Agree }
{}

/// Law of tallies, for every list of rows: the reports of the threads agree except for the ticks
/// that they ran.
pub fn tallies_give_reports_but_ran()
    ensures { AgreeButRan }
{}

/// Law of the clock: in the schedule of a well-formed system each run of a thread is stopped before
/// its next one.
pub fn schedules_run_apart()
    ensures { SchedulesRunApart }
{}

/// Law of the clock: finishing after adding the rows of a schedule gives the reports of the
/// schedule.
pub fn schedules_are_reported()
    ensures { SchedulesAreReported }
{}

/// Law of the clock: the runs of a thread in the schedule of a well-formed system last, together,
/// as many ticks as there are before the horizon in which it runs.
pub fn runs_are_ticks()
    ensures { RunsAreTicks }
{}

/// Law of the clock: a thread of a well-formed system whose context no order names runs at most its
/// budget for each period that begins before the horizon. The first period begins at time 0. Its
/// report gives at most that.
pub fn demand_is_bounded()
    ensures { DemandIsBounded }
{}

/// Law of the clock: a thread of a well-formed system in bandwidth mode runs at most the budget in
/// force in any interval of one period or less within which no order for its context comes. The
/// interval ends at the horizon or earlier, and runs are read from the rows of the schedule.
pub fn bandwidth_is_bounded()
    ensures { BandwidthIsBounded }
{}

/// Law of rows within the bound of bandwidth mode, for a thread whose context no order names. It
/// runs at most its budget in the file in any interval of one period or less, up to the horizon.
pub fn files_bound_bandwidth()
    ensures { FilesBoundBandwidth }
{}

/// Law of tallies: if the rows of each core are counted in their order, and the cores in any order,
/// finishing gives the reports of the schedule. Rows need not be merged to be counted.
pub fn cores_are_counted()
    ensures { CoresAreCounted }
{}

/// Law of tallies as sinks: a tally that was given rows has added them in their order.
pub fn given_rows_are_added()
    ensures { GivenAreAdded }
{}

/// Law of tallies of one core as sinks: a tally that was given rows has added them in their order.
pub fn given_rows_are_added_by_core()
    ensures { GivenAreAddedByCore }
{}

/// Law of tallies: if each core has counted its own rows in its own tally, the joined tally is as
/// if the rows of each core were counted separately (`cores_are_counted`). When all rows up to the
/// horizon were counted, finishing gives the reports of the schedule.
pub fn core_tallies_give_reports()
    ensures { CoreTalliesGiveReports }
{}
