//! The text of a set of cores.
ghost use Rattle.std.specs.Prelude.{◌≡◌, ◌++◌, ◌∷◌, cond, decimal, IfOk};
ghost use Rattle.std.specs.String.{string_bytes};
ghost use Rattle.mcs_ever_told.specs.Texts.{cores_text};

use itoa::Buffer;
use mcs_ever::CoreSet;
use mcs_system::System;
use mcs_ticks::NoMemory;
use std::alloc::Global;

/// Returns the numbers of those cores of the set that the system has.
pub(crate) fn cores_text(
    alloc: Global,
    system: &System,
    cores: &CoreSet,
) -> Result<String, NoMemory>
    ensures { IfOk result (λ text. string_bytes text ≡ cores_text system.now cores.now) }
{
    let mut text = String::new(alloc);
    let mut later = false;
    for core in 0..system.parts().cores {
        if cores[core] {
            push_core(&mut text, later, core)?;
            later = true;
        }
    }
    Ok(text)
}

/// Appends the number of a core, after a space if it is not the first.
fn push_core(text: &mut String, later: bool, core: usize) -> Result<(), NoMemory>
    ensures { IfOk result (λ done. string_bytes text.new ≡ string_bytes text.old ++ cond later (32 ∷ decimal core) (decimal core)) }
{
    let mut buffer = Buffer::new();
    if later {
        text.push(' ')?;
    }
    text.push_str(buffer.format(core as u64))?;
    Ok(())
}
