//! Reads the configuration and the mode of a context.
#![tactic(auto, using(crate::proofs::Steps::steps), unfolding(crate::specs::Walk::config, crate::specs::Walk::accepts, crate::specs::Walk::accepted_config, crate::specs::Walk::takes_mode, crate::specs::Walk::settings))]

ghost use Rattle.std.specs.Prelude.{◌≡◌};
ghost use Rattle.toml.specs.View.{table_view};
ghost use Rattle.mcs_load.specs.Checks.{Tells};
ghost use Rattle.mcs_load.specs.Walk.{default_mode, config, accepts, accepted_config, key_of, named_mode, mode, takes_mode, settings};
ghost use Rattle.mcs_control.specs.Control.{checked, kind_of};

use crate::at::At;
use crate::fault::{FaultKind, LoadFault};
use crate::spot::Key;
use crate::values::{find, number_with_default, whole_number};
use mcs_control::{Config, ControlFault, Kind, Mode};
use toml::Table;

/// The maximum integer of a TOML file.
const GREATEST: u64 = (1 << 63) - 1;

/// The configuration and the mode of a context.
#[derive(Clone, Copy)]
pub(crate) struct Settings {
    pub config: Config,
    pub mode: Mode,
}

/// Reads budget, period and extra refills of a row. `Config::check` has still to accept them.
fn config(row: &Table, at: At) -> Result<Config, LoadFault>
    ensures { Tells (λ x. x) result (config at (table_view row.now)) }
{
    let budget = whole_number(row, at, Key::Budget, 0, GREATEST)?;
    let period = whole_number(row, at, Key::Period, 0, GREATEST)?;
    let extra = number_with_default(row, at, Key::ExtraRefills, 0, GREATEST, 0)?;
    Ok(Config {
        budget,
        period,
        extra,
    })
}

/// The key that a refusal of SchedControl names.
fn key_of(fault: ControlFault) -> Key
    ensures { result ≡ key_of fault }
{
    match fault {
        ControlFault::ZeroBudget | ControlFault::BudgetTooSmall | ControlFault::BudgetOverPeriod =>
            Key::Budget,
        ControlFault::PeriodTooLong => Key::Period,
        ControlFault::TooManyRefills => Key::ExtraRefills,
    }
}

/// Tests that SchedControl accepts the configuration.
fn accept(at: At, min_budget: u64, config: Config) -> Result<(), LoadFault>
    ensures { Tells (λ x. x) result (accepts at (checked min_budget config)) }
{
    match config.check(min_budget) {
        Ok(_) => Ok(()),
        Err(fault) => Err(at.fault(key_of(fault), FaultKind::Control(fault))),
    }
}

/// Reads the configuration of a row, and tests that SchedControl accepts it.
pub(crate) fn accepted_config(row: &Table, at: At, min_budget: u64) -> Result<Config, LoadFault>
    ensures { Tells (λ x. x) result (accepted_config min_budget at (table_view row.now)) }
{
    let config = config(row, at)?;
    accept(at, min_budget, config)?;
    Ok(config)
}

/// Returns the mode with this name.
fn named_mode(name: &str) -> Option<Mode>
    ensures { result ≡ named_mode name.now }
{
    match name {
        "sporadic" => Some(Mode::Sporadic),
        "bandwidth" => Some(Mode::Bandwidth),
        _ => None,
    }
}

/// The mode of a row without the key: bandwidth in version 3 unless the context is round robin.
fn default_mode(is_new: bool, kind: Kind) -> Mode
    ensures { result ≡ default_mode is_new kind }
{
    match kind {
        Kind::Sporadic if is_new => Mode::Bandwidth,
        _ => Mode::Sporadic,
    }
}

/// Reads the mode of a row, or returns the default if the key is absent.
#[tactic(auto, unfolding(crate::specs::Walk::mode))]
fn mode(row: &Table, at: At, default: Mode) -> Result<Mode, LoadFault>
    ensures { Tells (λ x. x) result (mode default at (table_view row.now)) }
{
    let Some(value) = find(row, Key::Mode) else {
        return Ok(default);
    };
    let name = value
        .as_str()
        .ok_or(at.fault(Key::Mode, FaultKind::WrongKind))?;
    named_mode(name).ok_or(at.fault(Key::Mode, FaultKind::OutOfRange))
}

/// Tests that the kind allows this mode. A round robin context has only `Sporadic`, since a slice
/// is never unblocked.
fn take_mode(at: At, kind: Kind, mode: Mode) -> Result<(), LoadFault>
    ensures { Tells (λ x. x) result (takes_mode at kind mode) }
{
    match (kind, mode) {
        (Kind::RoundRobin, Mode::Bandwidth) => Err(at.fault(Key::Mode, FaultKind::ModeOfSlice)),
        _ => Ok(()),
    }
}

/// Reads the configuration and the mode of a context's row, and tests them.
pub(crate) fn read_settings(
    row: &Table,
    at: At,
    min_budget: u64,
    is_new: bool,
) -> Result<Settings, LoadFault>
    ensures { Tells (λ x. x) result (settings is_new min_budget at (table_view row.now)) }
{
    let config = config(row, at)?;
    let kind = config.kind();
    let mode = mode(row, at, default_mode(is_new, kind))?;
    accept(at, min_budget, config)?;
    take_mode(at, kind, mode)?;
    Ok(Settings { config, mode })
}
