ghost use Rattle.std.specs.Prelude.{◌≡◌, drop};
ghost use Rattle.mcs_core.specs.Busy.{first_moment};
ghost use Rattle.mcs_core.specs.Orders.{first_due, without_first};

use mcs_control::Order;
use mcs_ticks::{Soonest, Tick};
use std::marker::Model;

/// The orders that a core has yet to obey, by moment.
#[derive(Drop)]
pub(crate) struct Agenda {
    orders: Vec<Order>,
    next: usize,
    /// The moment of the next order: the order is looked at only when it has come.
    soonest: Soonest,
}

impl Model for Agenda {
    ghost use Rattle.std.specs.Prelude.{List, ◌≡◌, ◌≤◌, drop, length};
    ghost use Rattle.mcs_control.specs.declared.config.Order.{Order};
    ghost use Rattle.mcs_core.specs.Busy.{first_moment};

    ghost Value = { List Order };

    ghost view = { λ a. drop a.next a.orders.items };

    ghost invariant = { λ a. (a.next ≤ length a.orders.items) × (a.soonest ≡ first_moment (drop a.next a.orders.items)) };
}

impl Agenda {
    /// Takes the first order if its moment has come.
    #[inline(always)]
    pub(crate) fn take_due(&mut self, moment: Tick) -> Option<Order>
        ensures taken { result ≡ first_due moment self.old }
        ensures left { self.new ≡ without_first moment self.old }
    {
        if !self.soonest.has_come(moment) {
            return None;
        }
        let order = self.orders[self.next];
        self.next += 1;
        self.soonest = moment_of(&self.orders, self.next);
        Some(order)
    }

    /// The moment of the first order, or never if there is none.
    #[inline(always)]
    pub(crate) fn next(&self) -> Soonest
        ensures { result ≡ first_moment self.now }
    {
        self.soonest
    }

    /// Returns an agenda of these orders, before any is obeyed.
    pub(crate) fn from_orders(orders: Vec<Order>) -> Self
        ensures { result ≡ orders.items }
    {
        let soonest = moment_of(&orders, 0);
        Agenda {
            orders,
            next: 0,
            soonest,
        }
    }
}

/// The moment of the order at a place, or never if there is none.
fn moment_of(orders: &[Order], place: usize) -> Soonest
    ensures { result ≡ first_moment (drop place orders.now) }
{
    match orders.get(place) {
        Some(order) => Soonest::at(order.moment),
        None => Soonest::never(),
    }
}
