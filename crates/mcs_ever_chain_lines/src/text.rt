//! Lines in words.
ghost use Rattle.std.specs.Prelude.{◌≡◌, ◌++◌, ◌∷◌, [], OnOk, codes};
ghost use Rattle.std.specs.Io.{StartsWith};
ghost use Rattle.mcs_text.specs.Text.{line};
ghost use Rattle.mcs_ever_told.specs.Texts.{named, often_words};
ghost use Rattle.mcs_ever_chain_lines.specs.Lines.{chain_name, open_words, repeats_words, words_by};

use crate::findings::times_of;
use crate::word::{Word, append_line, known_listed, known_word};
use mcs_chain::ChainId;
use mcs_ever_chain::ChainTold;
use mcs_ever_told::{Often, Period};
use mcs_system::System;
use mcs_ticks::{NoMemory, Tick};

/// The name of a chain, or the empty text if there is no such chain.
pub(crate) fn chain_name(system: &System, chain: ChainId) -> &str
    ensures { result.now ≡ chain_name system.now chain }
{
    match system.parts().chains.as_slice().get(chain.0) {
        Some(part) => part.name.as_str(),
        None => "",
    }
}

/// Appends the line of a chain. If memory runs out, a first part of it may have been appended.
pub(crate) fn append_chain(
    text: &mut Vec<u8>,
    system: &System,
    horizon: Tick,
    told: &ChainTold,
) -> Result<(), NoMemory>
    ensures ok { OnOk result
        (text.new.items ≡ text.old.items ++ line (codes "chain") (words_by system.now horizon told.now told.now.period)) }
    ensures kept { StartsWith text.new.items text.old.items }
{
    match &told.period {
        Some(period) => append_repeats(text, system, told, period),
        None => append_open(text, system, horizon, told),
    }
}

/// Appends the line of a chain whose answers recur.
fn append_repeats(
    text: &mut Vec<u8>,
    system: &System,
    told: &ChainTold,
    period: &Period,
) -> Result<(), NoMemory>
    ensures ok { OnOk result
        (text.new.items ≡ text.old.items ++ line (codes "chain") (repeats_words system.now told.now period.now)) }
    ensures kept { StartsWith text.new.items text.old.items }
{
    let words = [
        Word::Named(chain_name(system, told.chain)),
        Word::Plain("repeats from"),
        Word::Number(period.from.get()),
        Word::Plain("with period"),
        Word::Listed(period.ticks),
        Word::Plain("greatest latency"),
        known_listed(told.greatest),
        Word::Plain("answers"),
        Word::Number(times_of(&told.answers)),
        Word::Plain("in each period"),
    ];
    append_line(text, "chain", &words)
}

/// Appends the line of a chain that was not found to recur.
fn append_open(
    text: &mut Vec<u8>,
    system: &System,
    horizon: Tick,
    told: &ChainTold,
) -> Result<(), NoMemory>
    ensures ok { OnOk result
        (text.new.items ≡ text.old.items ++ line (codes "chain") (open_words system.now horizon told.now)) }
    ensures kept { StartsWith text.new.items text.old.items }
{
    let words = [
        Word::Named(chain_name(system, told.chain)),
        Word::Plain("no repetition found up to"),
        Word::Listed(horizon.get()),
        Word::Plain("greatest latency"),
        known_word(told.greatest),
        Word::Plain("so far,"),
        Word::Plain("answers"),
        Word::Number(times_of(&told.answers)),
        Word::Plain("so far"),
    ];
    append_line(text, "chain", &words)
}

/// Appends the line of a finding of a chain: what is found, and how often. If memory runs out, a
/// first part of it may have been appended.
pub(crate) fn append_finding(
    text: &mut Vec<u8>,
    system: &System,
    kind: &str,
    chain: ChainId,
    often: &Often,
) -> Result<(), NoMemory>
    ensures ok { OnOk result (text.new.items
        ≡ text.old.items ++ line kind.now (named (chain_name system.now chain) ∷ often_words often.now)) }
    ensures kept { StartsWith text.new.items text.old.items }
{
    let named = Word::Named(chain_name(system, chain));
    match *often {
        Often::Forever {
            before,
            each_period,
        } => {
            let words = [
                named,
                Word::Number(each_period),
                Word::Plain("in each period,"),
                Word::Number(before),
                Word::Plain("before"),
            ];
            append_line(text, kind, &words)
        }
        Often::SoFar { times } => {
            let words = [named, Word::Number(times), Word::Plain("so far")];
            append_line(text, kind, &words)
        }
    }
}
