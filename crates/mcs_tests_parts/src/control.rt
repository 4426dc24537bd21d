ghost use Rattle.std.specs.Prelude.{◌^◌, ◌≤◌};

use mcs_control::{Config, Context, ContextView, ControlFault, Kind, Mode};
use mcs_refills::Refill;
use mcs_ticks::{ContextId, Tick};
use std::process::Abort;
use std::test::Fail;

const LATEST: u64 = 1 << 40;

fn moment(rt: &impl Abort, t: u64) -> Tick
    ensures { result ≤ 2 ^ 40 }
{
    assert!(rt; t <= LATEST);
    Tick::new(t).expect(rt, "a moment of at most 2^40")
}

/// Charges ticks of the head, after asserting that the head has them.
fn charge(rt: &impl Abort, context: &mut Context, ticks: u64, min_budget: u64) {
    let amount = context.head_amount();
    let moment = context.head_moment();
    assert!(rt; 1 <= ticks && ticks <= amount && moment.get() <= LATEST);
    context.charge(ticks, min_budget);
}

fn assert_refills(rt: &impl Abort, view: &ContextView, refills: &[Refill]) {
    assert_eq!(rt; view.refills.as_slice(), refills);
    assert_eq!(rt; view.left, None);
}

/// The expected results follow the rule: five tests in order, and the first that fails decides.
#[test]
fn the_first_fault_wins(rt: HostRuntime) {
    let answers = [
        (0, 0, 65, 4, Err(ControlFault::ZeroBudget)),
        (0, 10, 0, 1, Err(ControlFault::ZeroBudget)),
        (3, 2, 65, 4, Err(ControlFault::BudgetTooSmall)),
        (3, 10, 0, 4, Err(ControlFault::BudgetTooSmall)),
        (4, 10, 0, 4, Ok(Kind::Sporadic)),
        (
            LATEST + 2,
            LATEST + 1,
            65,
            4,
            Err(ControlFault::BudgetOverPeriod),
        ),
        (11, 10, 0, 1, Err(ControlFault::BudgetOverPeriod)),
        (10, 10, 0, 1, Ok(Kind::RoundRobin)),
        (9, 10, 0, 1, Ok(Kind::Sporadic)),
        (4, LATEST + 1, 65, 4, Err(ControlFault::PeriodTooLong)),
        (LATEST, LATEST, 64, 1, Ok(Kind::RoundRobin)),
        (4, 10, 65, 4, Err(ControlFault::TooManyRefills)),
        (4, 10, 64, 4, Ok(Kind::Sporadic)),
    ];
    for (budget, period, extra, min_budget, want) in answers {
        let config = Config {
            budget,
            period,
            extra,
        };
        assert_eq!(rt; config.check(min_budget), want, "{config:?}");
    }
}

#[test]
fn faults_say_what_is_wrong(rt: HostRuntime) -> Result<(), Fail> {
    let texts = [
        (ControlFault::ZeroBudget, "zero budget"),
        (ControlFault::BudgetTooSmall, "budget too small"),
        (ControlFault::BudgetOverPeriod, "budget over period"),
        (ControlFault::PeriodTooLong, "period too long"),
        (ControlFault::TooManyRefills, "too many refills"),
    ];
    for (fault, want) in texts {
        let text = fault.to_string(rt.alloc())?;
        assert_eq!(rt; text.as_str(), want);
    }
    Ok(())
}

/// A context of 10 ticks in 100; 7 are charged, and a head has at least 4.
#[test]
fn small_head_joins(rt: HostRuntime) -> Result<(), Fail> {
    let config = Config {
        budget: 10,
        period: 100,
        extra: 0,
    };
    let mut context = Context::new(rt.alloc(), config, Mode::Sporadic, Tick::ZERO, 2)?;
    charge(&rt, &mut context, 7, 4);
    let view = context.view(rt.alloc(), ContextId(0), 0)?;
    let refill = Refill {
        begins: 97,
        amount: 10,
    };
    assert_refills(&rt, &view, &[refill]);
    assert_eq!(rt; context.head_moment().get(), 97);
    assert_eq!(rt; context.head_amount(), 10);
    assert!(rt; !context.ready(moment(&rt, 96)));
    assert!(rt; context.ready(moment(&rt, 97)));
    Ok(())
}

/// A context of 4 ticks in 10 in bandwidth mode: a wake leaves it unchanged, and its choice at 3
/// moves its head there.
#[test]
fn bandwidth_unblocks_when_chosen(rt: HostRuntime) -> Result<(), Fail> {
    let config = Config {
        budget: 4,
        period: 10,
        extra: 0,
    };
    let mut context = Context::new(rt.alloc(), config, Mode::Bandwidth, Tick::ZERO, 2)?;
    context.wake(moment(&rt, 2));
    assert_eq!(rt; context.head_moment().get(), 0);
    context.chosen(moment(&rt, 3));
    assert_eq!(rt; context.head_moment().get(), 3);
    charge(&rt, &mut context, 4, 1);
    let view = context.view(rt.alloc(), ContextId(0), 0)?;
    let refill = Refill {
        begins: 13,
        amount: 4,
    };
    assert_refills(&rt, &view, &[refill]);
    Ok(())
}
