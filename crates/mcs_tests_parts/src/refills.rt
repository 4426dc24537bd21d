ghost use Rattle.std.specs.Prelude.{◌≡◌, ◌^◌, ◌≤◌};

use mcs_refills::{Refill, Refills};
use mcs_ticks::Tick;
use std::process::Abort;
use std::test::Fail;

/// A call on a list of refills, with its arguments in order.
#[derive(Clone, Copy)]
enum Call {
    Charge(u64, u64),
    Unblock(u64),
    Reorder(u64, u64, u64, usize),
}

use Call::{Charge, Reorder, Unblock};

const ROOM: usize = 4;

const LATEST: u64 = 1 << 40;

/// The expected refills are those of the theorem `reconfigure_to_fewer_refills` in
/// proofs/Sequences.antt of mcs_refills, which evaluates the definitions.
const CALLS: [Call; 7] = [
    Charge(2, 1),
    Unblock(20),
    Charge(2, 1),
    Unblock(40),
    Charge(2, 1),
    Reorder(50, 10, 100, 2),
    Charge(1, 1),
];

const LEFT: [(u64, u64); 2] = [(51, 3), (144, 7)];

/// Returns the moment, after asserting that it is at most 2^40.
fn moment(rt: &impl Abort, t: u64) -> Tick
    ensures value { result ≡ t }
    ensures early { result ≤ 2 ^ 40 }
{
    assert!(rt; t <= LATEST);
    Tick::new(t).expect(rt, "a moment of at most 2^40")
}

/// Makes the call, after asserting its conditions.
fn make(rt: &impl Abort, refills: &mut Refills, call: Call)
    requires { refills.old.room ≡ ROOM }
    ensures { refills.new.room ≡ ROOM }
{
    match call {
        Charge(ticks, min_budget) => {
            let head = refills.head();
            assert!(rt; 1 <= ticks && ticks <= head.amount && head.begins <= LATEST);
            refills.charge(ticks, min_budget);
        }
        Unblock(t) => refills.unblock(moment(rt, t)),
        Reorder(t, budget, period, max_refills) => {
            assert!(rt; 1 <= budget && budget < period && period <= LATEST);
            assert!(rt; 2 <= max_refills && max_refills <= ROOM);
            refills.reorder(moment(rt, t), budget, period, max_refills);
        }
    }
}

fn make_all(rt: &impl Abort, refills: &mut Refills, calls: &[Call])
    requires { refills.old.room ≡ ROOM }
{
    for call in calls {
        make(rt, refills, *call);
    }
}

fn assert_left(rt: &impl Abort, refills: &Refills, left: &[(u64, u64)]) {
    assert_eq!(rt; refills.len(), left.len());
    for (i, (begins, amount)) in left.iter().enumerate() {
        let refill = Refill {
            begins: *begins,
            amount: *amount,
        };
        assert_eq!(rt; refills.get(i), Some(refill), "refill {i}");
    }
    assert_eq!(rt; refills.get(left.len()), None);
}

#[test]
fn reconfigure_to_fewer_refills(rt: HostRuntime) -> Result<(), Fail> {
    let mut refills = Refills::new(rt.alloc(), Tick::ZERO, 10, 100, 4, ROOM)?;
    make_all(&rt, &mut refills, CALLS.as_slice());
    assert_left(&rt, &refills, LEFT.as_slice());
    Ok(())
}
