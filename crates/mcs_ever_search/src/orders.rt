ghost use Rattle.std.specs.Prelude.{◌≡◌, ℕ, ◌≤◌, max};
ghost use Rattle.mcs_ever_search.specs.Compared.{OrdersComeBefore};

use mcs_system::SystemParts;

fn greater(a: u64, b: u64) -> u64
    ensures { result ≡ max a b }
{
    if a < b { b } else { a }
}

/// The first moment that is later than all orders of the system.
pub(crate) fn orders_end(parts: &SystemParts) -> u64
    ensures all { OrdersComeBefore parts.now result }
    ensures first { (moment : ℕ) → OrdersComeBefore parts.now moment → result ≤ moment }
{
    let mut end = 0;
    for order in parts.orders.as_slice() {
        end = greater(end, order.moment.get() + 1);
    }
    end
}
