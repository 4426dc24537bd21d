ghost use Rattle.std.specs.Prelude.{◌≡◌, ◌+◌, ◌*◌, ◌^◌, ◌<◌, ◌≤◌, ℕ, nat_lt, drop, length, slice_set, replicate, Contains, IfOk};
ghost use Rattle.mcs_merge.specs.stored.Heads.{core_of, far, head_at, head_of_next, least_below, lesser, IsTree};

use mcs_ticks::{Limits, NoMemory, Soonest, Tick};
use std::alloc::Global;
use std::marker::Model;

const CORES: u64 = Limits::CORES as u64;

/// The next moment of a core.
#[derive(Clone, Copy, Debug)]
pub(crate) struct Head {
    /// the key by which heads are ordered: by moment, then by core
    rank: u64,
}

/// The heads of all cores. Contracts see them by core, followed by a few that belong to no core.
#[derive(Debug, Drop)]
pub(crate) struct Heads {
    /// a tree: the children of node i are the four nodes from 4 * i + 1 on; the heads are the
    /// leaves, after the `inner` inner nodes
    nodes: Vec<Head>,
    inner: usize,
}

impl Model for Heads {
    ghost use Rattle.std.specs.Prelude.{List, drop};
    ghost use Rattle.mcs_merge.specs.declared.heads.Head.{Head};

    ghost Value = { List Head };

    ghost use Rattle.mcs_merge.specs.stored.Heads.{IsTree};

    ghost view = { λ a. drop a.inner a.nodes.items };

    ghost invariant = { λ a. IsTree a.inner a.nodes.items };
}

impl Head {
    /// A head after that of every core.
    const FAR: Head = Head { rank: u64::MAX };

    /// Returns the head of a core whose next moment is this one, or `FAR` for never.
    pub(crate) fn of_next(core: usize, next: Soonest) -> Self
        requires { core < 64 }
        ensures { result ≡ head_of_next core next }
    {
        match next.moment() {
            Some(moment) => Head {
                rank: CORES * moment.get() + core as u64,
            },
            None => Head::FAR,
        }
    }

    /// Whether the core has a row before this moment.
    pub(crate) fn is_before(&self, until: Tick) -> bool
        ensures before { result ≡ nat_lt self.now.rank (64 * until) }
        ensures in_range { until ≤ 2 ^ 42 }
    {
        self.rank < CORES * until.get()
    }

    /// Returns the core of this head.
    pub(crate) fn core(&self) -> usize
        ensures { result ≡ core_of self.now }
    {
        (self.rank % CORES) as usize
    }
}

impl Heads {
    /// Returns the heads of `cores` cores that have no row, and a few more.
    pub(crate) fn new(alloc: Global, cores: usize) -> Result<Self, NoMemory>
        requires { cores ≤ 64 }
        ensures far { IfOk result (λ heads. heads ≡ replicate (length heads) far) }
        ensures enough { IfOk result (λ heads. cores ≤ length heads) }
    {
        let inner = (cores + 1) / 3;
        let nodes = vec![in alloc; Head::FAR; 4 * inner + 1]?;
        Ok(Heads { nodes, inner })
    }

    /// Returns the head that comes first.
    pub(crate) fn first(&self) -> Head
        ensures among { Contains self.now result }
        ensures least { (core : ℕ) → core < length self.now → result.rank ≤ (head_at core self.now).rank }
    {
        self.nodes[0]
    }

    /// Replaces the head of a core.
    pub(crate) fn set(&mut self, core: usize, head: Head)
        requires core { core < length self.old }
        ensures { self.new ≡ slice_set self.old core head }
    {
        play(self.nodes.as_mut_slice(), self.inner, core, head);
    }
}

/// Replaces a leaf and updates the nodes above it.
fn play(nodes: &mut [Head], inner: usize, core: usize, head: Head)
    requires tree { IsTree inner nodes.old }
    requires core { inner + core < length nodes.old }
    ensures tree { IsTree inner nodes.new }
    ensures leaves { drop inner nodes.new ≡ slice_set (drop inner nodes.old) core head }
{
    let mut place = inner + core;
    nodes[place] = head;
    'up: while place > 0 {
        place = (place - 1) / 4;
        nodes[place] = least_below(nodes, place);
    }
}

/// Returns the first of the four heads below a node.
fn least_below(nodes: &[Head], place: usize) -> Head
    requires { 4 * place + 4 < length nodes.now }
    ensures { result ≡ least_below place nodes.now }
{
    let last = 4 * place + 4;
    let least = lesser(nodes[last - 3], nodes[last - 2]);
    let least = lesser(least, nodes[last - 1]);
    lesser(least, nodes[last])
}

/// Returns the head that comes first.
fn lesser(a: Head, b: Head) -> Head
    ensures { result ≡ lesser a b }
{
    if b.rank < a.rank { b } else { a }
}
