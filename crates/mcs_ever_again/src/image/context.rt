ghost use Rattle.std.specs.Prelude.{◌≡◌, option_map, IfOk};
ghost use Rattle.mcs_ever.specs.Later.{later_context};
ghost use Rattle.mcs_ever_again.specs.Lag.{TellsLag, TellsContextLags};

use crate::image::budget::BudgetImage;
use mcs_control::{Config, Context, ContextView, Mode};
use mcs_ticks::{ContextId, NoMemory};
use std::alloc::Global;
use std::marker::Model;

/// A scheduling context at a moment: its configuration in force, its mode and its budget. Contracts
/// see the context.
#[derive(Debug, Drop)]
pub(crate) struct ContextImage {
    config: Config,
    mode: Mode,
    budget: BudgetImage,
}

impl Model for ContextImage {
    ghost use Rattle.mcs_control.specs.Context.{Context};

    ghost Value = { Context };

    ghost use Rattle.mcs_ever_again.specs.stored.Budget.{budget_of};

    ghost view = { λ a. record { config = a.config; mode = a.mode; budget = budget_of a.budget } };
}

impl ContextImage {
    /// Returns the image of a context. Fails only if memory runs out.
    pub(crate) fn new(alloc: Global, context: &Context) -> Result<Self, NoMemory>
        ensures { IfOk result (λ image. image ≡ context.now.context) }
    {
        let ContextView {
            refills,
            left,
            context: _,
            using: _,
        } = context.view(alloc, ContextId(0), 0)?;
        Ok(ContextImage {
            config: context.config(),
            mode: context.mode(),
            budget: BudgetImage::new(refills.into_vec(), left),
        })
    }

    /// Returns by how many ticks, at most `by`, the budget is later than before, if all else is
    /// equal; `by` if it has no date. `None` if it is not the same context, later by one such
    /// number.
    fn lag(&self, before: &ContextImage, by: u64) -> Option<u64>
        ensures { TellsLag result by (λ lag. self.now ≡ later_context lag before.now) }
    {
        if self.config != before.config || self.mode != before.mode {
            return None;
        }
        self.budget.lag(&before.budget, by)
    }
}

/// Returns the lag of a context that the core may hold; `by` if it does not.
fn context_lag(before: &Option<ContextImage>, after: &Option<ContextImage>, by: u64) -> Option<u64>
    ensures { TellsLag result by (λ lag. after.now ≡ option_map (later_context lag) before.now) }
{
    match (before, after) {
        (Some(before), Some(after)) => after.lag(before, by),
        (None, None) => Some(by),
        _ => None,
    }
}

/// Returns the lag of each context, at most `by`. `None` if one of them is not the same context,
/// later. Fails only if memory runs out.
pub(crate) fn context_lags(
    alloc: Global,
    before: &[Option<ContextImage>],
    after: &[Option<ContextImage>],
    by: u64,
) -> Result<Option<Vec<u64>>, NoMemory>
    ensures { IfOk result (λ found. TellsContextLags (option_map (λ lags. lags.items) found) by before.now after.now) }
{
    if before.len() != after.len() {
        return Ok(None);
    }
    let mut lags = Vec::with_capacity(alloc, before.len())?;
    for i in 0..before.len() {
        let Some(lag) = context_lag(&before[i], &after[i], by) else {
            return Ok(None);
        };
        lags.push(lag)?;
    }
    Ok(Some(lags))
}
