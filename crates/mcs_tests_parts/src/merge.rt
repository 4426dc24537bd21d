ghost use Rattle.std.specs.Prelude.{IfOk};
ghost use Rattle.mcs_merge.specs.Merge.{DoNotFall};

use mcs_merge::merge;
use mcs_ticks::{CoreId, NoMemory, Row, ThreadId, Tick, What};
use std::alloc::Global;
use std::test::Fail;

/// Returns rows of one core, each given by its moment and a number that identifies it. Fails if the
/// moments fall.
fn rows_of(alloc: Global, core: usize, rows: &[(u64, usize)]) -> Result<Vec<Row>, Fail>
    ensures { IfOk result (λ rows. DoNotFall rows.items) }
{
    let mut all = Vec::new(alloc);
    let mut last = Tick::ZERO;
    for (moment, number) in rows {
        let moment = Tick::new(*moment).ok_or("a moment")?;
        if moment < last {
            return Err(Fail::from("the moments fall"));
        }
        last = moment;
        all.push(Row {
            moment,
            core: CoreId(core),
            what: What::Run {
                thread: ThreadId(*number),
            },
        })?;
    }
    Ok(all)
}

/// Returns the moment, core and number of each row.
fn told(alloc: Global, rows: &[Row]) -> Result<Vec<(u64, usize, usize)>, NoMemory> {
    let mut all = Vec::new(alloc);
    for row in rows {
        if let What::Run { thread } = row.what {
            all.push((row.moment.get(), row.core.0, thread.0))?;
        }
    }
    Ok(all)
}

#[test]
fn rows_stand_by_moment_then_core_then_place(rt: HostRuntime) -> Result<(), Fail> {
    let alloc = rt.alloc();
    let first = rows_of(alloc, 0, &[(0, 1), (3, 2), (3, 3), (9, 4)])?;
    let second = rows_of(alloc, 1, &[(0, 5), (0, 6), (2, 7), (3, 8)])?;
    let third = rows_of(alloc, 2, &[(2, 9), (3, 10), (10, 11)])?;
    let merged = merge(alloc, vec![in alloc; first, second, third]?)?;
    let want = [
        (0, 0, 1),
        (0, 1, 5),
        (0, 1, 6),
        (2, 1, 7),
        (2, 2, 9),
        (3, 0, 2),
        (3, 0, 3),
        (3, 1, 8),
        (3, 2, 10),
        (9, 0, 4),
        (10, 2, 11),
    ];
    assert_eq!(rt; told(alloc, merged.as_slice())?.as_slice(), want.as_slice());
    Ok(())
}
