//! Reads the array `order`.
#![tactic(auto, using(crate::proofs::Steps::steps), unfolding(crate::specs::Walk::ordered_context, crate::specs::Walk::keeps_kind, crate::specs::Walk::order, crate::specs::Walk::orders))]

ghost use Rattle.std.specs.Prelude.{◌≡◌, ◌≤◌, ◌<◌, IfOk, List, suc, length, map, []};
ghost use Rattle.toml.specs.View.{table_view, view, items_view};
ghost use Rattle.mcs_control.specs.Control.{kind_of};
ghost use Rattle.mcs_control.specs.declared.config.Order.{Order};
ghost use Rattle.mcs_load.specs.declared.spot.Section.TheVariants as section;
ghost use Rattle.mcs_load.specs.Checks.{Gives, Tells};
ghost use Rattle.mcs_load.specs.Words.{row, each};
ghost use Rattle.mcs_load.specs.Walk.{part_at, ordered_context, keeps_kind, order, orders};

use crate::at::At;
use crate::config::accepted_config;
use crate::context::core_of_part;
use crate::fault::{FaultKind, LoadFault};
use crate::names::Names;
use crate::numbers::moment;
use crate::reader::{RowReader, read_array};
use crate::spot::{Key, Section};
use crate::values::{known_name, only_keys, whole_number};
use mcs_control::{Config, Order};
use mcs_system::ContextPart;
use mcs_ticks::{ContextId, CoreId, Limits};
use std::alloc::Global;
use toml::Table;

const ORDER_KEYS: [Key; 6] = [
    Key::At,
    Key::Core,
    Key::Context,
    Key::Budget,
    Key::Period,
    Key::ExtraRefills,
];

/// Reads the context that the row names. It must be on the core whose SchedControl capability is
/// used, `OtherCore` if it isn't.
fn ordered_context<'a>(
    row: &'a Table,
    at: At,
    cores: u64,
    contexts: &[ContextPart],
    names: &Names<'a>,
) -> Result<usize, LoadFault>
    requires range { (1 ≤ cores) × (cores ≤ 64) }
    requires names { names.now ≡ map (λ c. c.name) contexts.now }
    ensures gives { Tells (λ n. n) result (ordered_context cores contexts.now at (table_view row.now)) }
    ensures within { IfOk result (λ n. n < length contexts.now) }
{
    let core = whole_number(row, at, Key::Core, 0, cores - 1)?;
    let context = known_name(row, at, Key::Context, names)?;
    if core_of_part(contexts, context) != CoreId(core as usize) {
        return Err(at.fault(Key::Core, FaultKind::OtherCore));
    }
    Ok(context)
}

/// Tests that an order keeps its context round robin, or keeps it sporadic.
fn keep_kind(
    at: At,
    contexts: &[ContextPart],
    context: usize,
    config: Config,
) -> Result<(), LoadFault>
    requires { context < length contexts.now }
    ensures { Tells (λ x. x) result (keeps_kind at (kind_of (part_at contexts.now context).config) (kind_of config)) }
{
    if contexts[context].config.kind() == config.kind() {
        Ok(())
    } else {
        Err(at.fault(Key::Period, FaultKind::KindChange))
    }
}

/// Reads orders for the contexts of a file.
#[derive(Drop)]
struct OrderReader<'c, 'n, 'a> {
    cores: u64,
    min_budget: u64,
    contexts: &'c [ContextPart],
    names: &'n Names<'a>,
}

impl<'c, 'n, 'a> RowReader<'a> for OrderReader<'c, 'n, 'a> {
    type Part = Order;

    ghost reads = { λ reader. order reader.cores reader.min_budget reader.contexts.now };

    ghost keeps = { λ reader _.
        (1 ≤ reader.cores) × (reader.cores ≤ 64) × (reader.names.now ≡ map (λ c. c.name) reader.contexts.now) };

    fn read(&mut self, row: &'a Table, at: At, _earlier: &[Order]) -> Result<Order, LoadFault> {
        only_keys(row, at, &ORDER_KEYS)?;
        let ticks = whole_number(row, at, Key::At, 0, Limits::ORDER_MOMENT)?;
        let context = ordered_context(row, at, self.cores, self.contexts, self.names)?;
        let config = accepted_config(row, at, self.min_budget)?;
        keep_kind(at, self.contexts, context, config)?;
        Ok(Order {
            moment: moment(ticks),
            context: ContextId(context),
            config,
        })
    }
}

/// Reads the orders of a file in order. `names` are the names of its contexts.
pub(crate) fn orders<'a>(
    alloc: Global,
    file: &'a Table,
    cores: u64,
    min_budget: u64,
    contexts: &[ContextPart],
    names: &Names<'a>,
) -> Result<Vec<Order>, LoadFault>
    requires range { (1 ≤ cores) × (cores ≤ 64) }
    requires names { names.now ≡ map (λ c. c.name) contexts.now }
    ensures { Gives (λ v. v.items) result (orders cores min_budget contexts.now (table_view file.now)) }
{
    let mut reader = OrderReader {
        cores,
        min_budget,
        contexts,
        names,
    };
    read_array(alloc, file, Section::Order, Key::Order, &mut reader)
}
