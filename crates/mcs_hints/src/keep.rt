ghost use Rattle.std.specs.Prelude.{◌≡◌, ◌++◌, IfOk};
ghost use Rattle.std.specs.Option.{option_to_list};

use crate::Hint;
use mcs_ticks::NoMemory;

/// Appends the hint, if there is one.
pub(crate) fn keep(hints: &mut Vec<Hint>, hint: Option<Hint>) -> Result<(), NoMemory>
    ensures { IfOk result (λ _. hints.new.items ≡ hints.old.items ++ option_to_list hint) }
{
    if let Some(hint) = hint {
        hints.push(hint)?;
    }
    Ok(())
}
