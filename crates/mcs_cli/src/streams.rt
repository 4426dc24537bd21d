//! The bytes that a run reads and writes.
ghost use Rattle.std.specs.Prelude.{Err, ◌≡◌, ◌≤◌, ◌^◌, true, false, length, IfErr, IfOk, OnErr, OnOk};
ghost use Rattle.std.specs.Io.KnownBytes.{Appends, Consumes, IsAtEnd};
ghost use Rattle.mcs_cli.specs.Devices.{AppendsPrefix, IsCounted};
ghost use Rattle.mcs_cli.specs.Run.{IsRead, IsReadFault, IsRun};

use crate::output::write_output;
use crate::{Gate, Options, RunFault, Source, Target};
use mcs_load::{LoadFault, load};
use mcs_system::System;
use mcs_ticks::Limits;
use std::alloc::Global;
use std::sync::Wait;
use std::thread::Threads;

/// Reads a file to its end, simulates its system with the number of workers in the options, and
/// writes what they ask for: the lines of rows as they come, then the reports.
///
/// Every number of workers writes the same bytes. Neither device may have failed before.
///
/// Errors:
/// - `Read` or `Load`: no output was written.
/// - `Sim` or `Write`: a first part of the output was written.
/// - A device is blamed only if it has failed during the call.
pub fn run<H: Threads + Wait + Sync, S: Source, T: Target, G: Gate + Sync>(
    rt: &H,
    alloc: Global,
    source: &mut S,
    target: &mut T,
    options: &Options,
    gate: &G,
) -> Result<(), RunFault>
    requires reads { S.has_failed source.old ≡ false }
    requires writes { T.has_failed target.old ≡ false }
    ensures run { IsRun (S.remaining source.old) (S.remaining source.new) (S.given source.old) (S.given source.new)
        (S.has_failed source.new) (T.contents target.old) (T.contents target.new) (T.has_failed target.new) options.now result }
    ensures source_blamed { S.has_failed source.new ≡ true → result ≡ Err RunFault.Read }
    ensures target_blamed { T.has_failed target.new ≡ true → result ≡ Err RunFault.Write }
{
    let system = read_system(alloc, source)?;
    write_output(rt, alloc, target, system, options, gate)
}

/// Reads a file to its end, and loads its system.
pub fn read_system<S: Source>(alloc: Global, source: &mut S) -> Result<System, RunFault>
    requires { S.has_failed source.old ≡ false }
    ensures ok { IfOk result
        (IsRead (S.remaining source.old) (S.remaining source.new) (S.given source.old) (S.given source.new)) }
    ensures working { OnOk result (S.has_failed source.new ≡ false) }
    ensures fault { IfErr result
        (IsReadFault (S.remaining source.old) (S.remaining source.new) (S.given source.old) (S.given source.new)
        (S.has_failed source.new)) }
{
    let bytes = read_text(alloc, source)?;
    load(alloc, bytes.as_slice()).map_err(RunFault::Load)
}

/// Reads to the end, at most 2^26 bytes.
fn read_text<S: Source>(alloc: Global, source: &mut S) -> Result<Vec<u8>, RunFault>
    requires { S.has_failed source.old ≡ false }
    ensures bytes { IfOk result (λ text. Consumes (S.remaining source.old) (S.remaining source.new) text.items) }
    ensures counted { IfOk result (λ text. IsCounted (S.given source.old) (S.given source.new) (length text.items)) }
    ensures end { OnOk result (IsAtEnd (S.remaining source.new)) }
    ensures short { IfOk result (λ text. length text.items ≤ 2 ^ 26) }
    ensures working { OnOk result (S.has_failed source.new ≡ false) }
    ensures fault { IfErr result
        (IsReadFault (S.remaining source.old) (S.remaining source.new) (S.given source.old) (S.given source.new)
        (S.has_failed source.new)) }
{
    let mut text = Vec::new(alloc);
    let mut buffer = [0u8; 4096];
    for _ in 0..Limits::FILE + 1 {
        match source.read(&mut buffer) {
            Ok(0) => return Ok(text),
            Ok(n) => {
                if let Err(refusal) = text.extend_from_slice(&buffer[..n]) {
                    return Err(RunFault::Load(LoadFault::from(refusal)));
                }
                if text.len() > Limits::FILE {
                    return Err(RunFault::Read);
                }
            }
            Err(_) => return Err(RunFault::Read),
        }
    }
    Err(RunFault::Read)
}

/// Writes the whole text, and flushes the target.
pub fn write_text<T: Target>(target: &mut T, text: &[u8]) -> Result<(), RunFault>
    requires { T.has_failed target.old ≡ false }
    ensures ok { OnOk result (Appends (T.contents target.old) (T.contents target.new) text.now) }
    ensures working { OnOk result (T.has_failed target.new ≡ false) }
    ensures prefix { OnErr result (AppendsPrefix (T.contents target.old) (T.contents target.new) text.now) }
    ensures fault { IfErr result (λ f. (f ≡ RunFault.Write) × (T.has_failed target.new ≡ true)) }
{
    write_bytes(target, text)?;
    if target.flush().is_err() {
        return Err(RunFault::Write);
    }
    Ok(())
}

/// Writes all bytes. If that fails, a first part of them was written.
pub fn write_bytes<T: Target>(target: &mut T, bytes: &[u8]) -> Result<(), RunFault>
    ensures ok { OnOk result (Appends (T.contents target.old) (T.contents target.new) bytes.now) }
    ensures working { OnOk result (T.has_failed target.new ≡ T.has_failed target.old) }
    ensures prefix { OnErr result (AppendsPrefix (T.contents target.old) (T.contents target.new) bytes.now) }
    ensures fault { IfErr result (λ f. (f ≡ RunFault.Write) × (T.has_failed target.new ≡ true)) }
{
    let mut at = 0;
    while at < bytes.len() {
        match target.write(&bytes[at..]) {
            Ok(0) | Err(_) => return Err(RunFault::Write),
            Ok(n) => at += n,
        }
    }
    Ok(())
}
