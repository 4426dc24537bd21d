//! Faults of a context's mode.

use crate::load::files::are_answered;
use std::test::Fail;

/// The numbers at the top of a file, and the beginning of a context.
const TOP: &str = "version = 2\ncores = 2\ndelay = 1\ncontext = [{name='a',core=0,";

static OF_MODES: [(&str, &str); 14] = [
    ("budget=2,period=5,mode='sporadic'}]\n", "accepted"),
    ("budget=2,period=5,mode='bandwidth'}]\n", "accepted"),
    ("budget=5,period=5,mode='sporadic'}]\n", "accepted"),
    ("mode='bandwidth',period=5,budget=2}]\n", "accepted"),
    (
        "budget=2,period=5,mode=1}]\n",
        "wrong kind at context 1 mode",
    ),
    (
        "budget=2,period=5,mode='fast'}]\n",
        "out of range at context 1 mode",
    ),
    (
        "budget=2,period=5,mode=''}]\n",
        "out of range at context 1 mode",
    ),
    (
        "budget=2,period=5,mode='Bandwidth'}]\n",
        "out of range at context 1 mode",
    ),
    (
        "budget=3,period=3,mode='bandwidth'}]\n",
        "mode of slice at context 1 mode",
    ),
    (
        "budget=2,period=5,extra_refills=-1,mode=1}]\n",
        "out of range at context 1 extra_refills",
    ),
    (
        "budget=6,period=5,mode='fast'}]\n",
        "out of range at context 1 mode",
    ),
    (
        "budget=6,period=5,mode='bandwidth'}]\n",
        "control: budget over period at context 1 budget",
    ),
    (
        "budget=2,period=5,modes='fast'}]\n",
        "unknown key at context 1 ?",
    ),
    (
        "budget=2,period=5}]\norder = [{at=1,core=0,context='a',budget=2,period=5,mode='bandwidth'}]\n",
        "unknown key at order 1 ?",
    ),
];

static OF_VERSION_1: [(&str, &str); 2] = [
    ("mode='bandwidth'}]\n", "unknown key at context 1 ?"),
    ("mode=1}]\n", "unknown key at context 1 ?"),
];

/// The mode comes after the keys of the configuration, and before SchedControl tests it.
#[test]
fn faults_of_modes(rt: HostRuntime) -> Result<(), Fail> {
    let alloc = rt.alloc();
    let first = "version = 1\ncores = 2\ndelay = 1\ncontext = [{name='a',core=0,budget=2,period=5,";
    are_answered(&rt, alloc, (TOP, ""), OF_MODES.as_slice())?;
    are_answered(&rt, alloc, (first, ""), OF_VERSION_1.as_slice())
}
