ghost use Rattle.std.specs.Prelude.{◌≡◌, ◌*◌, ◌^◌, ◌<◌, ◌≤◌, ◌+◌, ◌-◌, ◌/◌, ◌%◌, true, length, slice_set, IfOk};
ghost use Rattle.mcs_core.specs.Alarms.{alarm_of, alarms_of, rung, rings, later_by, first_date, first_ringing, with_first_rung, AreShort};
ghost use Rattle.mcs_core.specs.stored.Places.{alarm_at, first_leaf, joined, AreLeaves, AreNodes, AreOtherNodes, AreSameLeaves, IsTree, IsChild, IsSize, IsFirstPlace};
ghost use Rattle.mcs_system.specs.WellFormed.{IsWellFormed};

use crate::Alarm;
use mcs_script::Item;
use mcs_system::{Beat, SystemParts};
use mcs_ticks::{CoreId, NoMemory, Soonest, Tick};
use std::alloc::Global;
use std::marker::Model;

/// The alarms of a core, in file order. Their dates are the leaves of a tree, and each node above
/// has the sooner date of its two children. The way down finds the first alarm that rings. The way
/// up renews the soonest date. 4,096 alarms have 6 levels more than 64.
#[derive(Drop)]
pub(crate) struct Alarms {
    alarms: Vec<Alarm>,
    /// The root is node 1, and the children of node `n` are nodes `2 * n` and `2 * n + 1`. The
    /// leaves are the second half: the date of each alarm, then never. Place 0 is unused.
    tree: Vec<Soonest>,
    /// The number of levels below the root.
    levels: usize,
    /// The soonest date: the tree is looked at only when an alarm rings.
    soonest: Soonest,
}

impl Model for Alarms {
    ghost use Rattle.std.specs.Prelude.{List, ◌≡◌};
    ghost use Rattle.mcs_core.specs.declared.alarm.Alarm.{Alarm};
    ghost use Rattle.mcs_core.specs.Alarms.{first_date, AreShort};
    ghost use Rattle.mcs_core.specs.stored.Places.{IsTree};

    ghost Value = { List Alarm };

    ghost view = { λ a. a.alarms.items };

    ghost invariant = { λ a. (a.soonest ≡ first_date a.alarms.items)
        × IsTree a.levels a.tree.items a.alarms.items
        × AreShort a.alarms.items };
}

impl Alarm {
    /// Returns the initial alarm of a beat.
    fn of(system: &SystemParts, beat: Beat) -> Alarm
        requires { beat.source < length system.now.sources }
        ensures { result ≡ alarm_of system.now beat }
    {
        let source = system.source(beat.source);
        Alarm {
            source: beat.source,
            note: source.note,
            badge: source.badge,
            date: Soonest::at(beat.first),
            period: beat.period,
            left: if beat.count == 0 {
                Item::NEVER
            } else {
                beat.count - 1
            },
        }
    }

    /// The date one period later.
    fn later(&self, moment: Tick) -> Soonest
        requires rings { rings moment self.now ≡ true }
        requires soon { moment ≤ 2 ^ 40 }
        requires short { self.now.period ≤ 2 ^ 40 }
        ensures { result ≡ later_by self.now.period self.now.date }
    {
        match self.date.moment() {
            Some(date) => Soonest::at(Tick::at(date.get() + self.period)),
            None => Soonest::never(),
        }
    }

    /// The alarm after it has rung, with its next date.
    fn rung(&self, moment: Tick) -> Alarm
        requires rings { rings moment self.now ≡ true }
        requires soon { moment ≤ 2 ^ 40 }
        requires short { self.now.period ≤ 2 ^ 40 }
        ensures { result ≡ rung self.now }
    {
        let later = self.later(moment);
        Alarm {
            date: if self.left == 0 {
                Soonest::never()
            } else {
                later
            },
            left: if self.left == Item::NEVER {
                Item::NEVER
            } else {
                self.left.saturating_sub(1)
            },
            source: self.source,
            note: self.note,
            badge: self.badge,
            period: self.period,
        }
    }
}

pub(crate) fn alarms_of(
    alloc: Global,
    system: &SystemParts,
    core: CoreId,
) -> Result<Vec<Alarm>, NoMemory>
    requires { IsWellFormed system.now }
    ensures { IfOk result (λ alarms. alarms.items ≡ alarms_of system.now core) }
{
    let mut alarms = Vec::new(alloc);
    for beat in system.beats.as_slice() {
        if system.core_of_note(system.source(beat.source).note) == core {
            alarms.push(Alarm::of(system, *beat))?;
        }
    }
    Ok(alarms)
}

impl Alarms {
    /// Returns these alarms, before any has rung.
    pub(crate) fn new(alloc: Global, beats: &[Alarm]) -> Result<Alarms, NoMemory>
        requires { AreShort beats.now }
        ensures { IfOk result (λ alarms. alarms ≡ beats.now) }
    {
        let mut alarms = Vec::new(alloc);
        alarms.extend_from_slice(beats)?;
        let (levels, leaves) = size_for(&alarms);
        let mut tree = leaves_of(alloc, &alarms, leaves)?;
        join_all(&mut tree, leaves);
        let soonest = soonest_of(&tree, &alarms, levels);
        Ok(Alarms {
            alarms,
            tree,
            levels,
            soonest,
        })
    }

    /// Takes the first alarm that rings at a moment, and moves it to its next date.
    #[inline(always)]
    pub(crate) fn take_ringing(&mut self, moment: Tick) -> Option<Alarm>
        requires { moment ≤ 2 ^ 40 }
        ensures taken { result ≡ first_ringing moment self.old }
        ensures left { self.new ≡ with_first_rung moment self.old }
    {
        if !self.soonest.has_come(moment) {
            return None;
        }
        self.ring(moment)
    }

    #[inline(never)]
    fn ring(&mut self, moment: Tick) -> Option<Alarm>
        requires { moment ≤ 2 ^ 40 }
        ensures taken { result ≡ first_ringing moment self.old }
        ensures left { self.new ≡ with_first_rung moment self.old }
    {
        let k = find_ringing(&self.tree, &self.alarms, self.levels, moment)?;
        let alarm = self.alarms[k];
        let rung = alarm.rung(moment);
        replace(&mut self.alarms, &mut self.tree, self.levels, k, rung);
        self.soonest = soonest_of(&self.tree, &self.alarms, self.levels);
        Some(alarm)
    }

    /// The soonest date, or never if there is none.
    #[inline(always)]
    pub(crate) fn next(&self) -> Soonest
        ensures { result ≡ first_date self.now }
    {
        self.soonest
    }
}

/// Returns the number of levels below the root of a tree for these alarms, and of its leaves.
fn size_for(alarms: &[Alarm]) -> (usize, usize)
    ensures { IsSize alarms.now result }
{
    let (mut levels, mut leaves) = (0, 1);
    while leaves < alarms.len() {
        leaves *= 2;
        levels += 1;
    }
    (levels, leaves)
}

/// Returns the initial date at a place of a tree: never if it is not the leaf of an alarm.
fn leaf_at(alarms: &[Alarm], leaves: usize, place: usize) -> Soonest
    ensures { leaves ≤ place → result ≡ (alarm_at alarms.now (place - leaves)).date }
{
    if place < leaves || alarms.len() <= place - leaves {
        Soonest::never()
    } else {
        alarms[place - leaves].date
    }
}

/// Returns a tree with the dates of these alarms in its leaves, and never in the nodes above.
fn leaves_of(alloc: Global, alarms: &[Alarm], leaves: usize) -> Result<Vec<Soonest>, NoMemory>
    requires { leaves ≤ 2 * length alarms.now + 1 }
    ensures { IfOk result (λ tree. AreLeaves leaves tree.items alarms.now) }
{
    let mut tree = Vec::new(alloc);
    for place in 0..2 * leaves {
        tree.push(leaf_at(alarms, leaves, place))?;
    }
    Ok(tree)
}

/// Sets a node to the sooner date of its children. `first` is the place of its first child.
#[inline(always)]
fn join(tree: &mut [Soonest], first: usize)
    requires even { first % 2 ≡ 0 }
    requires there { first + 1 < length tree.old }
    ensures { tree.new ≡ slice_set tree.old (first / 2) (joined tree.old (first / 2)) }
{
    tree[first / 2] = tree[first].or(tree[first + 1]);
}

/// Sets each node above the leaves to the soonest date below it.
fn join_all(tree: &mut [Soonest], leaves: usize)
    requires { length tree.old ≡ 2 * leaves }
    ensures nodes { AreNodes leaves tree.new }
    ensures leaves { AreSameLeaves leaves tree.old tree.new }
{
    for node in (0..leaves).rev() {
        join(tree, 2 * node);
    }
}

/// Sets the nodes above a leaf to the soonest date below them.
fn join_above(tree: &mut [Soonest], levels: usize, leaf: usize)
    requires many { length tree.old ≡ 2 * first_leaf levels 1 }
    requires leaf { leaf < length tree.old }
    requires others { AreOtherNodes leaf (first_leaf levels 1) tree.old }
    ensures nodes { AreNodes (first_leaf levels 1) tree.new }
    ensures leaves { AreSameLeaves (first_leaf levels 1) tree.old tree.new }
{
    let mut first = leaf / 2 * 2;
    for _level in (0..levels).rev() {
        join(tree, first);
        first = first / 4 * 2;
    }
}

/// Replaces the alarm at place `k`.
fn replace(alarms: &mut [Alarm], tree: &mut [Soonest], levels: usize, k: usize, alarm: Alarm)
    requires tree { IsTree levels tree.old alarms.old }
    requires there { k < length alarms.old }
    ensures alarms { alarms.new ≡ slice_set alarms.old k alarm }
    ensures tree { IsTree levels tree.new alarms.new }
{
    let leaf = tree.len() / 2 + k;
    let date = alarm.date;
    alarms[k] = alarm;
    tree[leaf] = date;
    join_above(tree, levels, leaf);
}

/// Returns the soonest date, which the root has.
fn soonest_of(tree: &[Soonest], alarms: &[Alarm], levels: usize) -> Soonest
    requires { IsTree levels tree.now alarms.now }
    ensures { result ≡ first_date alarms.now }
{
    let _many = alarms.len();
    tree[1]
}

/// Returns the first child of a node if its date has come, otherwise the second.
#[inline(always)]
fn child(tree: &[Soonest], node: usize, moment: Tick) -> usize
    requires { 2 * node + 1 < length tree.now }
    ensures { IsChild moment tree.now node result }
{
    if tree[2 * node].has_come(moment) {
        2 * node
    } else {
        2 * node + 1
    }
}

/// Returns the place of the first alarm that rings at a moment.
fn find_ringing(tree: &[Soonest], alarms: &[Alarm], levels: usize, moment: Tick) -> Option<usize>
    requires { IsTree levels tree.now alarms.now }
    ensures { IsFirstPlace moment alarms.now result }
{
    if !tree[1].has_come(moment) {
        return None;
    }
    let mut node = 1;
    for _level in (0..levels).rev() {
        node = child(tree, node, moment);
    }
    Some(node - tree.len() / 2)
}
