//! Delays of pairs of cores with links, and the number of links that a pair may have.

use crate::sample::link;
use mcs_system::{Link, System, SystemParts};
use mcs_ticks::{CoreId, Sequence};
use std::alloc::Global;
use std::process::Abort;
use std::test::Fail;

/// Returns a system without threads; its signals take 5 ticks, except over the links.
fn parts(alloc: Global, cores: usize, links: Vec<Link>) -> SystemParts {
    SystemParts {
        cores,
        delay: 5,
        call: 1,
        min_budget: 1,
        contexts: Sequence::new(Vec::new(alloc)),
        notes: Sequence::new(Vec::new(alloc)),
        threads: Sequence::new(Vec::new(alloc)),
        orders: Sequence::new(Vec::new(alloc)),
        links: Sequence::new(links),
        servers: 0,
        sources: Sequence::new(Vec::new(alloc)),
        beats: Sequence::new(Vec::new(alloc)),
        chains: Sequence::new(Vec::new(alloc)),
    }
}

fn system(alloc: Global, cores: usize, links: Vec<Link>) -> Result<System, Fail> {
    let parts = parts(alloc, cores, links);
    if !parts.is_well_formed() {
        return Err(Fail::from("a well-formed system"));
    }
    Ok(System::new(parts))
}

/// Returns a link from each core to each other one.
fn all_links(alloc: Global, cores: usize, delay: u64) -> Result<Vec<Link>, Fail> {
    let mut links = Vec::new(alloc);
    for maker in 0..cores {
        for home in 0..cores {
            if maker != home {
                links.push(link(maker, home, delay))?;
            }
        }
    }
    Ok(links)
}

/// Returns the first three entries of a row.
fn of_three(row: [u64; 64]) -> [u64; 3] {
    [row[0], row[1], row[2]]
}

#[test]
fn a_link_goes_one_way(rt: HostRuntime) -> Result<(), Fail> {
    let alloc = rt.alloc();
    let system = system(alloc, 3, vec![in alloc; link(1, 2, 9), link(0, 2, 2)]?)?;
    assert_eq!(&rt; of_three(system.delays_from(CoreId(0))), [5, 5, 2]);
    assert_eq!(&rt; of_three(system.delays_from(CoreId(1))), [5, 5, 9]);
    assert_eq!(&rt; of_three(system.delays_from(CoreId(2))), [5, 5, 5]);
    assert_eq!(&rt; of_three(system.delays_to(CoreId(1))), [5, 5, 5]);
    assert_eq!(&rt; of_three(system.delays_to(CoreId(2))), [2, 9, 5]);
    Ok(())
}

/// The delay of the system counts only for a pair without a link.
#[test]
fn the_least_delay(rt: HostRuntime) -> Result<(), Fail> {
    let alloc = rt.alloc();
    assert_eq!(&rt; system(alloc, 2, Vec::new(alloc))?.least_delay(), 5);
    assert_eq!(&rt;
        system(alloc, 2, vec![in alloc; link(0, 1, 9)]?)?.least_delay(),
        5
    );
    assert_eq!(&rt;
        system(alloc, 2, vec![in alloc; link(0, 1, 3)]?)?.least_delay(),
        3
    );
    assert_eq!(&rt;
        system(alloc, 64, all_links(alloc, 64, 9)?)?.least_delay(),
        9
    );
    assert_eq!(&rt; system(alloc, 1, Vec::new(alloc))?.least_delay(), 1 << 20);
    Ok(())
}

/// Each pair of 64 cores may have a link, but no pair may have a second one, at any place.
#[test]
fn each_pair_has_one_link(rt: HostRuntime) -> Result<(), Fail> {
    let alloc = rt.alloc();
    let all = all_links(alloc, 64, 1)?;
    assert_eq!(&rt; parts(alloc, 64, all).is_well_formed(), true);
    let mut double = all_links(alloc, 64, 1)?;
    double.push(link(0, 1, 2))?;
    assert_eq!(&rt; parts(alloc, 64, double).is_well_formed(), false);
    assert_eq!(&rt;
        parts(alloc, 1, vec![in alloc; link(0, 1, 1)]?).is_well_formed(),
        false
    );
    Ok(())
}

#[test]
fn links_are_compared(rt: HostRuntime) -> Result<(), Fail> {
    let alloc = rt.alloc();
    let one = parts(alloc, 2, vec![in alloc; link(0, 1, 9)]?);
    let same = parts(alloc, 2, vec![in alloc; link(0, 1, 9)]?);
    let back = parts(alloc, 2, vec![in alloc; link(1, 0, 9)]?);
    assert_eq!(&rt; one == same, true);
    assert_eq!(&rt; one == back, false);
    Ok(())
}
