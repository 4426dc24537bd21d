ghost use Rattle.std.specs.Prelude.{◌≡◌, ◌^◌, ◌<◌, ◌≤◌, IfOk, length, slice_get};
ghost use Rattle.mcs_refills.specs.Server.{new_server, refills_of, is_ready, first_date, head_amount, server_charged, server_unblocked, server_reconfigured};
ghost use Rattle.mcs_refills.specs.laws.Servers.{IsServer};

use crate::Refill;
use crate::line::Line;
use crate::steps::{charge_list, reconfigure_list, unblock_list};
use mcs_ticks::{NoMemory, Tick};
use std::alloc::Global;
use std::marker::Model;

/// The refills of a sporadic scheduling context, after the sporadic server of Sprunt, Sha and
/// Lehoczky (1989) and the seL4 Reference Manual (MCS).
///
/// Contracts see a server: its budget dates (one for each tick of the budget, ascending), its
/// period, its maximum number of refills, and its capacity. The refills are the longest runs of
/// consecutive dates. The first lies in this struct, the others in a ring. Only [`Refills::new`]
/// allocates memory.
#[derive(Debug, Drop)]
pub struct Refills {
    line: Line,
    period: u64,
    max_refills: usize,
}

impl Model for Refills {
    ghost use Rattle.mcs_refills.specs.Server.{Server, dates_of};
    ghost use Rattle.mcs_refills.specs.stored.Refills.{IsStored};

    ghost Value = { Server };

    ghost view = { λ a.
        record { dates = dates_of a.line.items; period = a.period; max_refills = a.max_refills; room = a.line.capacity } };

    ghost invariant = { λ a. IsStored a.line.items a.period a.max_refills a.line.capacity };
}

impl Refills {
    /// Returns one refill with the whole budget, which may be used from `at` on. The budget and the
    /// period are in ticks. There is room for `room` refills, at most 66, and at most `max_refills`
    /// of them are used, at least 2. Fails with `NoMemory` if the allocation fails.
    pub fn new(
        alloc: Global,
        at: Tick,
        budget: u64,
        period: u64,
        max_refills: usize,
        room: usize,
    ) -> Result<Self, NoMemory>
        requires early { at ≤ 2 ^ 40 }
        requires some { 1 ≤ budget }
        requires within { budget < period }
        requires short { period ≤ 2 ^ 40 }
        requires two { 2 ≤ max_refills }
        requires fits { max_refills ≤ room }
        requires few { room ≤ 66 }
        ensures { IfOk result (λ refills. refills ≡ new_server at budget period max_refills room) }
    {
        let all = Refill {
            begins: at.get(),
            amount: budget,
        };
        let line = Line::new(alloc, all, room)?;
        Ok(Refills {
            line,
            period,
            max_refills,
        })
    }

    /// Returns the first refill. Its moment fits a [`Tick`].
    pub fn head(&self) -> Refill
        ensures moment { result.begins ≡ first_date self.now.dates }
        ensures amount { result.amount ≡ head_amount self.now.dates }
        ensures some { 1 ≤ result.amount }
        ensures in_range { result.begins ≤ 2 ^ 42 }
    {
        self.line.first()
    }

    /// Returns the number of refills.
    pub fn len(&self) -> usize
        ensures number { result ≡ length (refills_of self.now.dates) }
        ensures few { result ≤ self.now.max_refills }
    {
        self.line.len()
    }

    /// Returns the refill at index `i`, from 0, or `None` past the last.
    pub fn get(&self, i: usize) -> Option<Refill>
        ensures { result ≡ slice_get (refills_of self.now.dates) i }
    {
        self.line.get(i)
    }

    /// Whether the head may be used at `t`.
    pub fn ready(&self, t: Tick) -> bool
        ensures { result ≡ is_ready t self.now.dates }
    {
        self.head().begins <= t.get()
    }

    /// Charges the first `ticks` of the head; they return a period later. If they do not touch the
    /// last refill and the list is full, the last refill first moves later until it touches them.
    /// Then, while the head has fewer than `min_budget` ticks, it moves later and joins the next
    /// refill.
    #[inline(always)]
    pub fn charge(&mut self, ticks: u64, min_budget: u64)
        requires some { 1 ≤ ticks }
        requires in_head { ticks ≤ head_amount self.old.dates }
        requires early { first_date self.old.dates ≤ 2 ^ 40 }
        ensures { self.new ≡ server_charged ticks min_budget self.old }
    {
        charge_list(
            &mut self.line,
            self.period,
            self.max_refills,
            ticks,
            min_budget,
        );
    }

    /// Unblocks at `t`: a head whose moment has come moves to `t`, and the refills that it reaches
    /// join it.
    pub fn unblock(&mut self, t: Tick)
        requires { t ≤ 2 ^ 40 }
        ensures { self.new ≡ server_unblocked t self.old }
    {
        unblock_list(&mut self.line, t.get());
    }

    /// Applies a SchedControl order at `t`, which sets the budget, the period and the maximum
    /// number of refills. The head stays, but begins at `t` at the earliest and has at most the
    /// budget. The missing ticks become one refill that ends a period after the head begins.
    pub fn reorder(&mut self, t: Tick, budget: u64, period: u64, max_refills: usize)
        requires early { t ≤ 2 ^ 40 }
        requires some { 1 ≤ budget }
        requires within { budget < period }
        requires short { period ≤ 2 ^ 40 }
        requires two { 2 ≤ max_refills }
        requires fits { max_refills ≤ self.old.room }
        ensures { self.new ≡ server_reconfigured t budget period max_refills self.old }
    {
        reconfigure_list(&mut self.line, t.get(), budget, period);
        self.period = period;
        self.max_refills = max_refills;
    }

    /// Law of the type: the dates of each list ascend, span less than the period, and form at most
    /// `max_refills` refills.
    pub fn in_good_order(&self)
        ensures { IsServer (length self.now.dates) self.now }
    {
        let _line = &self.line;
    }
}
