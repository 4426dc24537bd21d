ghost use Rattle.std.specs.Prelude.{◌≡◌, ◌<◌, length, IfOk};

use mcs_merge::{Merger, RowPart};
use mcs_ticks::{CoreId, NoMemory, Row, ThreadId, Tick, What};
use std::alloc::Global;
use std::test::Fail;

/// Returns rows of one core, each given by its moment and a number that identifies it.
fn part_of(alloc: Global, core: usize, rows: &[(u64, usize)]) -> Result<RowPart<Vec<Row>>, Fail> {
    let mut all = Vec::new(alloc);
    for (moment, number) in rows {
        all.push(Row {
            moment: Tick::new(*moment).ok_or("a moment")?,
            core: CoreId(core),
            what: What::Run {
                thread: ThreadId(*number),
            },
        })?;
    }
    Ok(RowPart::new(all))
}

/// Returns a merger of six cores; the fourth has no row.
fn six_cores(alloc: Global) -> Result<Merger<RowPart<Vec<Row>>>, Fail>
    ensures { IfOk result (λ merger. length merger ≡ 6) }
{
    let parts = [
        part_of(alloc, 0, &[(0, 1), (3, 2), (3, 3), (9, 4)])?,
        part_of(alloc, 1, &[(0, 5), (0, 6), (2, 7), (3, 8)])?,
        part_of(alloc, 2, &[(2, 9), (3, 10), (10, 11)])?,
        part_of(alloc, 3, &[])?,
        part_of(alloc, 4, &[(0, 12), (9, 13)])?,
        part_of(alloc, 5, &[(3, 14)])?,
    ];
    Ok(Merger::new(alloc, Vec::from_array(alloc, parts)?)?)
}

fn add_part(
    merger: &mut Merger<RowPart<Vec<Row>>>,
    core: usize,
    part: RowPart<Vec<Row>>,
) -> Result<(), Fail>
    requires { core < length merger.old }
    ensures { length merger.new ≡ length merger.old }
{
    match merger.add(CoreId(core), part) {
        Ok(_) => Ok(()),
        Err((_, refusal)) => Err(Fail::from(refusal)),
    }
}

fn add(
    alloc: Global,
    merger: &mut Merger<RowPart<Vec<Row>>>,
    core: usize,
    rows: &[(u64, usize)],
) -> Result<(), Fail>
    requires { core < length merger.old }
    ensures { length merger.new ≡ length merger.old }
{
    let part = part_of(alloc, core, rows)?;
    add_part(merger, core, part)
}

/// Returns the moment, core and number of each row that is given before a moment.
fn poured(
    alloc: Global,
    merger: &mut Merger<RowPart<Vec<Row>>>,
    until: u64,
) -> Result<Vec<(u64, usize, usize)>, Fail>
    ensures { length merger.new ≡ length merger.old }
{
    let until = Tick::new(until).ok_or("a moment")?;
    let mut rows = Vec::new(alloc);
    merger
        .pour_before(until, &mut rows)
        .ok()
        .ok_or("no memory")?;
    Ok(told(alloc, rows.as_slice())?)
}

fn told(alloc: Global, rows: &[Row]) -> Result<Vec<(u64, usize, usize)>, NoMemory> {
    let mut all = Vec::new(alloc);
    for row in rows {
        if let What::Run { thread } = row.what {
            all.push((row.moment.get(), row.core.0, thread.0))?;
        }
    }
    Ok(all)
}

#[test]
fn rows_are_given_by_moment_then_core_then_place(rt: HostRuntime) -> Result<(), Fail> {
    let alloc = rt.alloc();
    let mut merger = six_cores(alloc)?;
    let first = poured(alloc, &mut merger, 3)?;
    let want = [
        (0, 0, 1),
        (0, 1, 5),
        (0, 1, 6),
        (0, 4, 12),
        (2, 1, 7),
        (2, 2, 9),
    ];
    assert_eq!(rt; first.as_slice(), want.as_slice());
    let second = poured(alloc, &mut merger, 10)?;
    let want = [
        (3, 0, 2),
        (3, 0, 3),
        (3, 1, 8),
        (3, 2, 10),
        (3, 5, 14),
        (9, 0, 4),
        (9, 4, 13),
    ];
    assert_eq!(rt; second.as_slice(), want.as_slice());
    Ok(())
}

#[test]
fn rows_that_are_added_stand_behind_those_of_their_core(rt: HostRuntime) -> Result<(), Fail> {
    let alloc = rt.alloc();
    let mut merger = six_cores(alloc)?;
    add(alloc, &mut merger, 5, &[(3, 15), (4, 16)])?;
    add(alloc, &mut merger, 3, &[(1, 17), (4, 18)])?;
    let rows = poured(alloc, &mut merger, 5)?;
    let want = [
        (0, 0, 1),
        (0, 1, 5),
        (0, 1, 6),
        (0, 4, 12),
        (1, 3, 17),
        (2, 1, 7),
        (2, 2, 9),
        (3, 0, 2),
        (3, 0, 3),
        (3, 1, 8),
        (3, 2, 10),
        (3, 5, 14),
        (3, 5, 15),
        (4, 3, 18),
        (4, 5, 16),
    ];
    assert_eq!(rt; rows.as_slice(), want.as_slice());
    Ok(())
}

#[test]
fn the_room_of_a_part_is_given_back(rt: HostRuntime) -> Result<(), Fail> {
    let alloc = rt.alloc();
    let mut merger = six_cores(alloc)?;
    poured(alloc, &mut merger, 4)?;
    let part = part_of(alloc, 1, &[(4, 19)])?;
    let Ok(Some(room)) = merger.add(CoreId(1), part) else {
        return Err(Fail::from("a part of which all was given"));
    };
    assert_eq!(rt; room.into_room().len(), 0);
    Ok(())
}

/// Whether a core has a row at this index of a list of moments.
fn has_row(core: usize, place: u64) -> bool {
    place % 3 == core as u64 % 3
}

/// Returns the rows of a core at the indices `from` to before `to`; consecutive indices are `gap`
/// ticks apart.
fn part_between(
    alloc: Global,
    core: usize,
    gap: u64,
    from: u64,
    to: u64,
) -> Result<RowPart<Vec<Row>>, Fail> {
    let mut rows = Vec::new(alloc);
    for place in from..to {
        if has_row(core, place) {
            rows.push((place.saturating_mul(gap), core))?;
        }
    }
    part_of(alloc, core, rows.as_slice())
}

/// Returns a merger of six cores with rows at indices below 200.
fn six_long_cores(alloc: Global, gap: u64) -> Result<Merger<RowPart<Vec<Row>>>, Fail>
    ensures { IfOk result (λ merger. length merger ≡ 6) }
{
    let parts = [
        part_between(alloc, 0, gap, 0, 200)?,
        part_between(alloc, 1, gap, 0, 200)?,
        part_between(alloc, 2, gap, 0, 200)?,
        part_between(alloc, 3, gap, 0, 200)?,
        part_between(alloc, 4, gap, 0, 200)?,
        part_between(alloc, 5, gap, 0, 200)?,
    ];
    Ok(Merger::new(alloc, Vec::from_array(alloc, parts)?)?)
}

/// Adds to each of six cores its rows at indices from 200 to before 400.
fn add_later(alloc: Global, merger: &mut Merger<RowPart<Vec<Row>>>, gap: u64) -> Result<(), Fail>
    requires { length merger.old ≡ 6 }
{
    add_part(merger, 0, part_between(alloc, 0, gap, 200, 400)?)?;
    add_part(merger, 1, part_between(alloc, 1, gap, 200, 400)?)?;
    add_part(merger, 2, part_between(alloc, 2, gap, 200, 400)?)?;
    add_part(merger, 3, part_between(alloc, 3, gap, 200, 400)?)?;
    add_part(merger, 4, part_between(alloc, 4, gap, 200, 400)?)?;
    add_part(merger, 5, part_between(alloc, 5, gap, 200, 400)?)
}

/// Returns the rows of six cores, given in two calls and in parts of 200 indices, `gap` ticks
/// apart.
fn poured_in_two(alloc: Global, gap: u64) -> Result<Vec<(u64, usize, usize)>, Fail> {
    let mut merger = six_long_cores(alloc, gap)?;
    let mut rows = poured(alloc, &mut merger, gap.saturating_mul(150))?;
    add_later(alloc, &mut merger, gap)?;
    for row in poured(alloc, &mut merger, gap.saturating_mul(400))? {
        rows.push(row)?;
    }
    Ok(rows)
}

/// Returns these rows moment by moment and core by core.
fn in_order(alloc: Global, gap: u64) -> Result<Vec<(u64, usize, usize)>, Fail> {
    let mut rows = Vec::new(alloc);
    for place in 0..400 {
        for core in 0..6 {
            if has_row(core, place) {
                rows.push((place.saturating_mul(gap), core, core))?;
            }
        }
    }
    Ok(rows)
}

#[test]
fn many_rows_are_given_in_order_close_together_and_far_apart(rt: HostRuntime) -> Result<(), Fail> {
    let alloc = rt.alloc();
    for gap in [1, 5, 100] {
        let rows = poured_in_two(alloc, gap)?;
        let want = in_order(alloc, gap)?;
        assert_eq!(rt; rows.as_slice(), want.as_slice());
    }
    Ok(())
}
