//! Reads the array `link`.
#![tactic(auto, using(crate::proofs::Steps::steps, crate::proofs::Pairs::marked_none), unfolding(crate::specs::Walk::link_numbers, crate::specs::Walk::link, crate::specs::Walk::links))]

ghost use Rattle.std.specs.Prelude.{◌<◌, ◌≤◌, IfOk};
ghost use Rattle.toml.specs.View.{table_view};
ghost use Rattle.mcs_system.specs.declared.part.Link.{Link};
ghost use Rattle.mcs_load.specs.Checks.{Gives, Tells};
ghost use Rattle.mcs_load.specs.Walk.{link_numbers, link, links};
ghost use Rattle.mcs_load.specs.stored.Pairs.{AreMarked};

use crate::at::At;
use crate::fault::{FaultKind, LoadFault};
use crate::reader::{RowReader, read_array};
use crate::spot::{Key, Section};
use crate::values::{only_keys, whole_number};
use mcs_system::Link;
use mcs_ticks::{CoreId, Limits};
use std::alloc::Global;
use toml::Table;

/// Number of pairs of cores, including each core with itself.
const PAIRS: usize = Limits::CORES * Limits::CORES;

const LINK_KEYS: [Key; 3] = [Key::Maker, Key::Home, Key::Delay];

/// Reads the two cores of a row and its delay in ticks.
fn link_numbers(row: &Table, at: At, cores: u64) -> Result<Link, LoadFault>
    requires { (1 ≤ cores) × (cores ≤ 64) }
    ensures known { IfOk result (λ link. (link.maker < cores) × (link.home < cores)) }
    ensures gives { Tells (λ x. x) result (link_numbers cores at (table_view row.now)) }
{
    only_keys(row, at, &LINK_KEYS)?;
    let maker = whole_number(row, at, Key::Maker, 0, cores - 1)?;
    let home = whole_number(row, at, Key::Home, 0, cores - 1)?;
    let delay = whole_number(row, at, Key::Delay, 1, Limits::DELAY)?;
    Ok(Link {
        maker: CoreId(maker as usize),
        home: CoreId(home as usize),
        delay,
    })
}

/// Reads links and marks the pairs of cores that have one.
#[derive(Drop)]
struct LinkReader {
    cores: u64,
    has_link: [bool; PAIRS],
}

impl<'a> RowReader<'a> for LinkReader {
    type Part = Link;

    ghost reads = { λ reader. link reader.cores };

    ghost keeps = { λ reader earlier.
        (1 ≤ reader.cores) × (reader.cores ≤ 64) × AreMarked reader.has_link earlier };

    fn read(&mut self, row: &'a Table, at: At, _earlier: &[Link]) -> Result<Link, LoadFault> {
        let link = link_numbers(row, at, self.cores)?;
        if link.maker == link.home {
            return Err(at.fault(Key::Home, FaultKind::SelfLink));
        }
        let pair = link.maker.0 * Limits::CORES + link.home.0;
        if self.has_link[pair] {
            return Err(at.fault(Key::Home, FaultKind::DoubleLink));
        }
        self.has_link[pair] = true;
        Ok(link)
    }
}

/// Reads the links of a file in order.
pub(crate) fn links(alloc: Global, file: &Table, cores: u64) -> Result<Vec<Link>, LoadFault>
    requires { (1 ≤ cores) × (cores ≤ 64) }
    ensures { Gives (λ v. v.items) result (links cores (table_view file.now)) }
{
    let mut reader = LinkReader {
        cores,
        has_link: [false; PAIRS],
    };
    read_array(alloc, file, Section::Link, Key::Link, &mut reader)
}
