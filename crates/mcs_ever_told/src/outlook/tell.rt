//! The result of a set of cores.
ghost use Rattle.std.specs.Prelude.{◌≡◌, ◌+◌, ◌-◌, ◌<◌, ◌≤◌, ◌++◌, ◌∷◌, [], ℕ, List, length, get_or, None, replicate, OnOk, IfOk, IfSome};
ghost use Rattle.mcs_ever_told.specs.declared.line.Line.{Line as TheLine};
ghost use Rattle.mcs_ever_told.specs.Lines.{clean_lines};
ghost use Rattle.mcs_ever_told.specs.Outlook.{IsTold};
ghost use Rattle.mcs_ever_told.specs.stored.Looks.{IsLook, CanBeTold, IsClosedGroup, AreClosed, AreToldSoFar, AreToldBelow};
ghost use Rattle.mcs_ever_told.specs.stored.Left.{is_any_left};

use crate::line::Line;
use crate::outlook::lines::{Span, push, push_counts, push_ends, push_ever};
use crate::outlook::look::{Look, before, ended_flags, finds_again};
use crate::outlook::sets::Group;
use crate::outlook::threads::{push_so_far, push_threads};
use crate::outlook::told::{Period, Told};
use mcs_ever::{CoreSet, no_round_ends_again, turns_repeat};
use mcs_ever_again::rows_tell_turns;
use mcs_ever_found::{
    findings_repeat, greatest_is_forever, never_spent, no_deadline_is_missed, no_signal_is_lost,
    threads_go_on, words_go_on,
};
use mcs_ticks::NoMemory;
use mcs_verdict_laws::schedules_are_in_order;
use std::alloc::Global;

fn first_line(alloc: Global, line: Line) -> Result<Vec<Line>, NoMemory>
    ensures { IfOk result (λ lines. lines.items ≡ line ∷ []) }
{
    let mut lines = Vec::new(alloc);
    push(&mut lines, Some(line))?;
    Ok(lines)
}

/// Appends the line `nothing is ever found`, if there are no findings.
fn push_clean(lines: &mut Vec<Line>, set: &CoreSet, findings: usize) -> Result<(), NoMemory>
    ensures { (found : List TheLine) → findings ≡ length found →
        OnOk result (lines.new.items ≡ lines.old.items ++ clean_lines set.now found) }
{
    if findings != 0 {
        return Ok(());
    }
    push(lines, Some(Line::Clean { cores: *set }))
}

/// Returns the result of a set that recurs since the kept moment.
fn told_for_ever(alloc: Global, look: &Look<'_>, group: &Group, by: u64) -> Result<Told, NoMemory>
    requires { IsLook look.now.system.now look.now.search.now }
    ensures { (horizon : ℕ) → CanBeTold look.now.system.now look.now.search.now look.now.allowed.now group.now by →
        IfOk result (IsTold look.now.system.now look.now.allowed.now horizon group.now.set group.now.own) }
{
    let _parts = look.system.parts();
    schedules_are_in_order();
    rows_tell_turns();
    let search = look.search;
    let from = search.kept();
    let last = before(search.clock());
    let course = search.course();
    let watch = search.watch();
    let doings = search.doings();
    let span = Span {
        system: look.system,
        own: &group.own,
        forever: true,
        before: search.kept_course(),
        after: course,
    };
    let ended = ended_flags(alloc, look.system, doings)?;
    let mut lines = first_line(
        alloc,
        Line::Repeats {
            cores: group.set,
            from,
            period: by,
        },
    )?;
    push_counts(&mut lines, &span, look.allowed)?;
    push_ever(&mut lines, look.system, &group.own, watch, doings, last)?;
    let findings = lines.len().saturating_sub(1);
    push_threads(
        &mut lines,
        look.system,
        &group.own,
        course,
        from,
        ended.as_slice(),
    )?;
    push_clean(&mut lines, &group.set, findings)?;
    Ok(Told {
        set: group.set,
        period: Some(Period { from, ticks: by }),
        lines,
        findings,
    })
}

/// Returns the period of a closed set that recurs at this moment, in its findings, too.
fn period_now(alloc: Global, look: &Look<'_>, group: &Group) -> Result<Option<u64>, NoMemory>
    requires look { IsLook look.now.system.now look.now.search.now }
    requires closed { IsClosedGroup look.now.system.now group.now }
    ensures { IfOk result (λ by. IfSome by
        (CanBeTold look.now.system.now look.now.search.now look.now.allowed.now group.now)) }
{
    let _parts = look.system.parts();
    rows_tell_turns();
    turns_repeat();
    findings_repeat();
    greatest_is_forever();
    never_spent();
    no_round_ends_again();
    no_deadline_is_missed();
    no_signal_is_lost();
    threads_go_on();
    words_go_on();
    let Some(shifts) = look.search.recurs(alloc, &group.set)? else {
        return Ok(None);
    };
    let by = shifts.by;
    if !finds_again(look, group, by) {
        return Ok(None);
    }
    Ok(Some(by))
}

/// Sets the result of a set if it has none and recurs at this moment.
fn tell_one(
    alloc: Global,
    look: &Look<'_>,
    group: &Group,
    told: &mut Option<Told>,
) -> Result<(), NoMemory>
    requires look { IsLook look.now.system.now look.now.search.now }
    requires closed { IsClosedGroup look.now.system.now group.now }
    ensures { (horizon : ℕ) → IfSome told.old (IsTold look.now.system.now look.now.allowed.now horizon group.now.set group.now.own) →
        IfSome told.new (IsTold look.now.system.now look.now.allowed.now horizon group.now.set group.now.own) }
{
    if told.is_some() {
        return Ok(());
    }
    let Some(by) = period_now(alloc, look, group)? else {
        return Ok(());
    };
    *told = Some(told_for_ever(alloc, look, group, by)?);
    Ok(())
}

/// Sets the result of the set at this place, if it has none and recurs at this moment. Nothing
/// changes if there is no such set.
fn tell_at(
    alloc: Global,
    look: &Look<'_>,
    groups: &[Group],
    place: usize,
    told: &mut [Option<Told>],
) -> Result<(), NoMemory>
    requires look { IsLook look.now.system.now look.now.search.now }
    requires closed { AreClosed look.now.system.now groups.now }
    requires many { length told.old ≡ length groups.now }
    ensures { (horizon : ℕ) → AreToldSoFar look.now.system.now look.now.allowed.now horizon groups.now told.old →
        AreToldSoFar look.now.system.now look.now.allowed.now horizon groups.now told.new }
{
    if place >= groups.len() {
        return Ok(());
    }
    tell_one(alloc, look, &groups[place], &mut told[place])
}

/// Sets the result of each of the sets at the places `due` that has none and recurs at this moment.
/// Other results are kept. Fails only if memory runs out.
pub(crate) fn tell_now(
    alloc: Global,
    look: &Look<'_>,
    groups: &[Group],
    due: &[usize],
    told: &mut [Option<Told>],
) -> Result<(), NoMemory>
    requires look { IsLook look.now.system.now look.now.search.now }
    requires closed { AreClosed look.now.system.now groups.now }
    requires many { length told.old ≡ length groups.now }
    ensures { (horizon : ℕ) → AreToldSoFar look.now.system.now look.now.allowed.now horizon groups.now told.old →
        AreToldSoFar look.now.system.now look.now.allowed.now horizon groups.now told.new }
{
    for place in due {
        tell_at(alloc, look, groups, *place, told)?;
    }
    Ok(())
}

/// Returns the result of a set that was not found to recur.
fn told_open(alloc: Global, look: &Look<'_>, group: &Group) -> Result<Told, NoMemory>
    requires look { IsLook look.now.system.now look.now.search.now }
    requires some { 1 ≤ look.now.search.now.clock }
    ensures { IfOk result
        (IsTold look.now.system.now look.now.allowed.now (look.now.search.now.clock - 1) group.now.set group.now.own) }
{
    let _parts = look.system.parts();
    schedules_are_in_order();
    let search = look.search;
    let horizon = before(search.clock());
    let course = search.course();
    let watch = search.watch();
    let span = Span {
        system: look.system,
        own: &group.own,
        forever: false,
        before: course,
        after: course,
    };
    let mut lines = first_line(
        alloc,
        Line::Open {
            cores: group.set,
            horizon,
        },
    )?;
    push_counts(&mut lines, &span, look.allowed)?;
    push_ends(&mut lines, look.system, &group.own, watch, horizon)?;
    let findings = lines.len().saturating_sub(1);
    push_so_far(&mut lines, look.system, &group.own, course)?;
    Ok(Told {
        set: group.set,
        period: None,
        lines,
        findings,
    })
}

/// Takes the result of a set, or makes that of a set that was not found to recur.
fn told_or_open(
    alloc: Global,
    look: &Look<'_>,
    group: &Group,
    told: &mut Option<Told>,
) -> Result<Told, NoMemory>
    requires look { IsLook look.now.system.now look.now.search.now }
    requires some { told.old ≡ None → 1 ≤ look.now.search.now.clock }
    ensures left { told.new ≡ None }
    ensures told { (horizon : ℕ) → (told.old ≡ None → look.now.search.now.clock ≡ horizon + 1) →
        IfSome told.old (IsTold look.now.system.now look.now.allowed.now horizon group.now.set group.now.own) →
        IfOk result (IsTold look.now.system.now look.now.allowed.now horizon group.now.set group.now.own) }
{
    match told.take() {
        Some(told) => Ok(told),
        None => told_open(alloc, look, group),
    }
}

/// Returns the results of all sets, in order. Each set must have one already, or the search must be
/// one moment past the horizon. Fails only if memory runs out.
pub(crate) fn all_told(
    alloc: Global,
    look: &Look<'_>,
    groups: &[Group],
    told: &mut [Option<Told>],
) -> Result<Vec<Told>, NoMemory>
    requires look { IsLook look.now.system.now look.now.search.now }
    requires many { length told.old ≡ length groups.now }
    requires over { (i : ℕ) → i < length groups.now → get_or told.old i None ≡ None → 1 ≤ look.now.search.now.clock }
    ensures kept { (horizon : ℕ) → AreToldSoFar look.now.system.now look.now.allowed.now horizon groups.now told.old →
        AreToldSoFar look.now.system.now look.now.allowed.now horizon groups.now told.new }
    ensures told { (horizon : ℕ) →
        ((i : ℕ) → i < length groups.now → get_or told.old i None ≡ None → look.now.search.now.clock ≡ horizon + 1) →
        AreToldSoFar look.now.system.now look.now.allowed.now horizon groups.now told.old →
        IfOk result (λ all. AreToldBelow look.now.system.now look.now.allowed.now horizon groups.now (length groups.now) all.items) }
{
    let mut all = Vec::with_capacity(alloc, groups.len())?;
    for i in 0..groups.len() {
        all.push(told_or_open(alloc, look, &groups[i], &mut told[i])?)?;
    }
    Ok(all)
}

/// Whether some set has no result yet.
pub(crate) fn is_any_left(told: &[Option<Told>]) -> bool
    ensures { result ≡ is_any_left told.now }
{
    told.iter().any(|one| one.is_none())
}

/// Returns a list of `sets` missing results. Fails only if memory runs out.
pub(crate) fn nothing_told(alloc: Global, sets: usize) -> Result<Vec<Option<Told>>, NoMemory>
    ensures { IfOk result (λ told. told.items ≡ replicate sets None) }
{
    let mut told = Vec::with_capacity(alloc, sets)?;
    for _ in 0..sets {
        told.push(None)?;
    }
    Ok(told)
}
