//! Names of the keys.
ghost use Rattle.std.specs.Prelude.{◌≡◌};
ghost use Rattle.mcs_load.specs.Keys.{key_name};

use crate::spot::Key;

/// The name of a key in a file.
pub(crate) fn name_of(key: Key) -> &'static str
    ensures { result.now ≡ key_name key }
{
    match key {
        Key::Version => "version",
        Key::Cores => "cores",
        Key::Delay => "delay",
        Key::Call => "call",
        Key::MinBudget => "min_budget",
        Key::Context => "context",
        Key::Note => "note",
        Key::Thread => "thread",
        Key::Order => "order",
        Key::Name => "name",
        Key::Core => "core",
        Key::Budget => "budget",
        Key::Period => "period",
        Key::ExtraRefills => "extra_refills",
        Key::Priority => "priority",
        Key::Start => "start",
        Key::Rounds => "rounds",
        Key::Deadline => "deadline",
        Key::Script => "script",
        Key::At => "at",
        Key::Link => "link",
        Key::Maker => "maker",
        Key::Home => "home",
        Key::Mode => "mode",
        Key::Word => "word",
        Key::Source => "source",
        Key::Server => "server",
        Key::Chain => "chain",
        Key::Badges => "badges",
        Key::Badge => "badge",
        Key::Count => "count",
        Key::Other => "?",
        Key::Whole => "",
    }
}
