ghost use Rattle.std.specs.Prelude.{◌≡◌, ◌+◌, ◌^◌, ◌<◌, ◌≤◌, length};
ghost use Rattle.circular_buffer.specs.Buffer.{buffer};
ghost use Rattle.mcs_refills.specs.laws.Apart.{last_end, AreApart};
ghost use Rattle.mcs_refills.specs.stored.Refills.{taken, given_back, IsKept, after_charge, after_unblock, after_reconfigure};
ghost use Rattle.mcs_refills.specs.Server.{first_amount, first_moment, enough};

use crate::Refill;
use crate::line::Line;

/// Takes ticks from the head. A head that is exhausted leaves the list; the caller ensures that a
/// refill remains.
pub fn take(refills: &mut Line, ticks: u64)
    requires left { 1 ≤ length (taken ticks refills.old.items) }
    requires in_head { ticks ≤ first_amount refills.old.items }
    requires early { first_moment refills.old.items + first_amount refills.old.items < 2 ^ 63 }
    ensures { refills.new ≡ buffer (taken ticks refills.old.items) refills.old.capacity }
{
    let head = refills.first();
    if ticks == head.amount {
        refills.drop_first();
    } else {
        refills.set_first(Refill {
            begins: head.begins + ticks,
            amount: head.amount - ticks,
        });
    }
}

/// Appends a returned refill. If it touches the last refill, the two join. If the list is full, the
/// last refill first moves later to touch it.
pub(crate) fn give_back(refills: &mut Line, back: Refill, max_refills: usize)
    requires fits { max_refills ≤ refills.old.capacity }
    requires later { last_end refills.old.items ≤ back.begins }
    requires in_range { back.begins + back.amount < 2 ^ 63 }
    ensures { refills.new ≡ buffer (given_back max_refills back refills.old.items) refills.old.capacity }
{
    let count = refills.len();
    let last = refills.last();
    let amount = last.amount + back.amount;
    if last.begins + last.amount == back.begins {
        refills.set_last(Refill {
            begins: last.begins,
            amount,
        });
    } else if count < max_refills {
        refills.push_last(back);
    } else {
        refills.set_last(Refill {
            begins: back.begins - last.amount,
            amount,
        });
    }
}

/// Moves the head later to join the next refill, while the head has fewer than `min_budget` ticks.
pub(crate) fn gather(refills: &mut Line, min_budget: u64)
    requires apart { AreApart refills.old.items }
    requires early { last_end refills.old.items < 2 ^ 63 }
    ensures { refills.new ≡ buffer (enough min_budget refills.old.items) refills.old.capacity }
{
    let mut head = refills.first();
    if head.amount >= min_budget {
        return;
    }
    'joins: while let Some(next) = refills.get(1) {
        if head.amount >= min_budget {
            break 'joins;
        }
        head = Refill {
            begins: next.begins - head.amount,
            amount: head.amount + next.amount,
        };
        refills.drop_first();
    }
    refills.set_first(head);
}

/// Charges the first ticks of the head, as `Refills::charge` does. An only refill that is exhausted
/// is overwritten.
#[inline(always)]
pub(crate) fn charge_list(
    refills: &mut Line,
    period: u64,
    max_refills: usize,
    ticks: u64,
    min_budget: u64,
)
    requires kept { IsKept refills.old.items period max_refills }
    requires fits { max_refills ≤ refills.old.capacity }
    requires some { 1 ≤ ticks }
    requires in_head { ticks ≤ first_amount refills.old.items }
    requires early { first_moment refills.old.items ≤ 2 ^ 40 }
    ensures { refills.new
        ≡ buffer (after_charge ticks min_budget period max_refills refills.old.items) refills.old.capacity }
{
    let head = refills.first();
    if ticks == head.amount && refills.len() == 1 {
        refills.set_first(Refill {
            begins: head.begins + period,
            amount: ticks,
        });
    } else {
        charge_part(refills, period, max_refills, ticks, min_budget);
    }
}

/// Charges ticks and leaves at least one refill besides those that return.
#[inline(never)]
fn charge_part(refills: &mut Line, period: u64, max_refills: usize, ticks: u64, min_budget: u64)
    requires kept { IsKept refills.old.items period max_refills }
    requires fits { max_refills ≤ refills.old.capacity }
    requires some { 1 ≤ ticks }
    requires in_head { ticks ≤ first_amount refills.old.items }
    requires left { 1 ≤ length (taken ticks refills.old.items) }
    requires early { first_moment refills.old.items ≤ 2 ^ 40 }
    ensures { refills.new
        ≡ buffer (after_charge ticks min_budget period max_refills refills.old.items) refills.old.capacity }
{
    let back = Refill {
        begins: refills.first().begins + period,
        amount: ticks,
    };
    take(refills, ticks);
    give_back(refills, back, max_refills);
    gather(refills, min_budget);
}

/// Unblocks at `t`, as `Refills::unblock` does.
pub(crate) fn unblock_list(refills: &mut Line, t: u64)
    requires apart { AreApart refills.old.items }
    requires early { last_end refills.old.items < 2 ^ 63 }
    requires now { t ≤ 2 ^ 40 }
    ensures { refills.new ≡ buffer (after_unblock t refills.old.items) refills.old.capacity }
{
    let head = refills.first();
    if t < head.begins {
        return;
    }
    let mut amount = head.amount;
    'joins: while let Some(next) = refills.get(1) {
        if t + amount < next.begins {
            break 'joins;
        }
        amount += next.amount;
        refills.drop_first();
    }
    refills.set_first(Refill { begins: t, amount });
}

/// Applies an order at `t`, as `Refills::reorder` does.
pub(crate) fn reconfigure_list(refills: &mut Line, t: u64, budget: u64, period: u64)
    requires room { 2 ≤ refills.old.capacity }
    requires within { budget < period }
    requires early { first_moment refills.old.items + t + period < 2 ^ 63 }
    ensures { refills.new ≡ buffer (after_reconfigure t budget period refills.old.items) refills.old.capacity }
{
    let head = refills.first();
    let begins = head.begins.max(t);
    let amount = head.amount.min(budget);
    refills.set_only(Refill { begins, amount });
    if amount < budget {
        let missing = budget - amount;
        refills.push_last(Refill {
            begins: begins + period - missing,
            amount: missing,
        });
    }
}
