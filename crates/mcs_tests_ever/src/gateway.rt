//! A search on many cores.
use crate::systems::{repeats_of, repeats_up_to};
use std::test::Fail;

/// A gateway in a car: four cores of a system on chip, and four cores for its devices.
const GATEWAY: &str = r#"
version = 2
cores = 8
delay = 1

context = [
  { name = "timer",    core = 0, budget = 5,   period = 100 },
  { name = "watchdog", core = 0, budget = 5,   period = 1000 },
  { name = "control",  core = 0, budget = 150, period = 500 },
  { name = "fusion",   core = 0, budget = 200, period = 1000 },
  { name = "netdrv",   core = 1, budget = 40,  period = 200, extra_refills = 8 },
  { name = "netstack", core = 1, budget = 80,  period = 200, extra_refills = 8 },
  { name = "serial",   core = 1, budget = 10,  period = 100 },
  { name = "candrv",   core = 2, budget = 20,  period = 100 },
  { name = "gateway",  core = 2, budget = 100, period = 500 },
  { name = "logger",   core = 2, budget = 1000, period = 1000 },
  { name = "vmm",      core = 3, budget = 50,  period = 500 },
  { name = "linux",    core = 3, budget = 300, period = 1000 },
  { name = "hw_timer", core = 4, budget = 1, period = 100 },
  { name = "hw_net",   core = 5, budget = 1, period = 37 },
  { name = "hw_uart",  core = 6, budget = 1, period = 87 },
  { name = "hw_can",   core = 7, budget = 1, period = 50 },
]
note = [
  { name = "timer_irq", core = 0 },
  { name = "tick",      core = 0 },
  { name = "fuse",      core = 0 },
  { name = "pet",       core = 0 },
  { name = "net_irq",   core = 1 },
  { name = "rx",        core = 1 },
  { name = "uart_irq",  core = 1 },
  { name = "can_irq",   core = 2 },
  { name = "frames",    core = 2 },
  { name = "virq",      core = 3 },
]
thread = [
  { name = "Timer",    context = "timer",    priority = 250, deadline = 10,  script = ["wait timer_irq", "compute 1", "signal tick 1"] },
  { name = "Watchdog", context = "watchdog", priority = 254, deadline = 10, script = ["wait pet", "compute 1"] },
  { name = "Control",  context = "control",  priority = 200, deadline = 100, script = ["wait tick", "compute 40", "signal fuse 1", "signal pet 1"] },
  { name = "Fusion",   context = "fusion",   priority = 190, deadline = 500, script = ["wait fuse", "compute 20"] },
  { name = "NetDrv",   context = "netdrv",   priority = 180, deadline = 50, script = ["wait net_irq", "compute 6", "signal rx 1"] },
  { name = "NetStack", context = "netstack", priority = 150, deadline = 200, script = ["wait rx", "compute 14", "signal frames 2"] },
  { name = "Serial",   context = "serial",   priority = 170, deadline = 87, script = ["wait uart_irq", "compute 3"] },
  { name = "CanDrv",   context = "candrv",   priority = 180, deadline = 50, script = ["wait can_irq", "compute 4", "signal frames 1"] },
  { name = "Gateway",  context = "gateway",  priority = 160, deadline = 100, script = ["wait frames", "compute 12", "signal virq 1"] },
  { name = "Logger",   context = "logger",   priority = 50, script = ["compute 100"] },
  { name = "Vmm",      context = "vmm",      priority = 110, script = ["wait virq", "compute 5"] },
  { name = "Linux",    context = "linux",    priority = 100, script = ["compute 1000"] },
  { name = "HwTimer",  context = "hw_timer", priority = 1, script = ["signal timer_irq 1"] },
  { name = "HwNet",    context = "hw_net",   priority = 1, script = ["signal net_irq 1"] },
  { name = "HwUart",   context = "hw_uart",  priority = 1, script = ["signal uart_irq 1"] },
  { name = "HwCan",    context = "hw_can",   priority = 1, script = ["signal can_irq 1"] },
]
"#;

/// Each device signals once in its period, and no core signals it. The cores of the system on chip
/// wait for all devices, and do not recur by this horizon.
#[test]
fn devices_repeat_with_their_periods(rt: HostRuntime) -> Result<(), Fail> {
    let found = repeats_up_to(rt.alloc(), GATEWAY, 20000)?;
    assert_eq!(rt; found.len(), 8);
    for (core, period) in [(4, 100), (5, 37), (6, 87), (7, 50)] {
        let (_, by) = repeats_of(found.as_slice(), core);
        assert!(rt; by != 0 && by % period == 0);
    }
    for core in 0..4 {
        assert!(rt; repeats_of(found.as_slice(), core) == (0, 0));
    }
    Ok(())
}
