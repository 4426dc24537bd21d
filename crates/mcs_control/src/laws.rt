ghost use Rattle.mcs_control.specs.Control.{PassedAreConfigs};
ghost use Rattle.mcs_control.specs.laws.Contexts.{ContextsAreKept, ConsumedAreSpaced};
ghost use Rattle.mcs_control.specs.laws.Shown.{ContextsShowTheirBudgets};

/// Law of SchedControl: a configuration that passes the check, for any `min_budget`, is in range
/// and has the returned kind.
pub fn passed_configs_are_in_range()
    ensures { PassedAreConfigs }
{}

/// Law of contexts: a new context is in good order, charges, wakes and choices keep it so, and an
/// order makes it so under the new configuration.
///
/// A sporadic context in good order has one date for each tick of the budget in force. Its refills
/// neither touch nor overlap, are at most as many as it may have, and span at most its period. A
/// round-robin context has 1 to its budget left.
pub fn contexts_are_kept()
    ensures { ContextsAreKept }
{}

/// Law of contexts, for any charges and unblocking with no order between: a date that a charge
/// takes and the one taken a whole budget later are at least a period apart.
pub fn consumed_dates_are_spaced()
    ensures { ConsumedAreSpaced }
{}

/// Law of views: a context in good order shows its whole budget, including the ticks in use. A
/// sporadic context shows refills that neither touch nor overlap and sum to the budget. They are at
/// most as many as it may have, and span at most its period. A round-robin context shows 1 to its
/// budget left.
pub fn contexts_show_their_budgets()
    ensures { ContextsShowTheirBudgets }
{}
