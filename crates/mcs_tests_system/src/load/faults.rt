//! Faults of the top, of contexts and of notifications.

use crate::load::files::{TOP, are_answered};
use std::test::Fail;

static SMALL: [(&str, &str); 7] = [
    ("", "missing key at top version"),
    ("version = ", "not TOML at file"),
    ("version = 1\n", "missing key at top cores"),
    ("version = 1\ncores = 1\ndelay = 1\n", "accepted"),
    (
        "version = 1\ncores = 1\ndelay = 1\n\n[[context]]\n",
        "missing key at context 1 name",
    ),
    (
        "version = 1\ncores = 1\ndelay = 1\n\n[[context]]\nname = \"a\"\ncore = 0\nbudget = 2\nperiod = 5\n",
        "accepted",
    ),
    (
        "version = 1\ncores = 1\ndelay = 1\n\n[[context]]\nname = \"a\"\ncore = 0\nbudget = 2\nperiod = 5\n\n[[thread]]\n",
        "missing key at thread 1 name",
    ),
];

static AT_THE_TOP: [(&str, &str); 13] = [
    ("version = 2\ncores =", "not TOML at file"),
    ("speed = 1\n", "unknown key at top ?"),
    (
        "version = 1\ncores = 0\ndelay = 1\nspeed = 1\n",
        "unknown key at top ?",
    ),
    ("cores = 0\ndelay = 0\n", "missing key at top version"),
    (
        "version = 1.0\ncores = 0\ndelay = 1\n",
        "wrong kind at top version",
    ),
    (
        "version = 4\ncores = 0\ndelay = 1\n",
        "out of range at top version",
    ),
    ("version = 1\ndelay = 0\n", "missing key at top cores"),
    (
        "version = 1\ncores = true\ndelay = 0\n",
        "wrong kind at top cores",
    ),
    ("version = 1\ncores = 65\n", "out of range at top cores"),
    (
        "version = 1\ncores = 1\ncall = 0\n",
        "missing key at top delay",
    ),
    (
        "version = 1\ncores = 1\ndelay = 0\ncall = 0\n",
        "out of range at top delay",
    ),
    (
        "version = 1\ncores = 1\ndelay = 1\ncall = 65537\nmin_budget = 'x'\n",
        "out of range at top call",
    ),
    (
        "version = 1\ncores = 1\ndelay = 1\nmin_budget = 0\ncontext = 1\n",
        "out of range at top min_budget",
    ),
];

static OF_CONTEXTS: [(&str, &str); 14] = [
    ("context = 1\nnote = 1\n", "wrong kind at context"),
    ("[context]\nname = 'a b'\n", "wrong kind at context"),
    ("context = [1,{speed=1}]\n", "wrong kind at context 1"),
    ("context = [{speed=1},1]\n", "unknown key at context 1 ?"),
    (
        "context = [{name='a b',core=0,budget=2,period=5,prio=1}]\n",
        "unknown key at context 1 ?",
    ),
    (
        "context = [{core=2,budget=2,period=5}]\n",
        "missing key at context 1 name",
    ),
    (
        "context = [{name=1,core='x',budget=2,period=5}]\n",
        "wrong kind at context 1 name",
    ),
    (
        "context = [{name='',core=2,budget=2,period=5}]\n",
        "bad name at context 1 name",
    ),
    (
        "context = [{name='a',core=0,budget=2,period=5},{name='a',core=2,budget=2,period=5}]\n",
        "double name at context 2 name",
    ),
    (
        "context = [{name='a',budget=0,period=5}]\n",
        "missing key at context 1 core",
    ),
    (
        "context = [{name='a',core=2,budget=-1,period=5}]\n",
        "out of range at context 1 core",
    ),
    (
        "context = [{name='a',core=0,budget=-1,period='x'}]\n",
        "out of range at context 1 budget",
    ),
    (
        "context = [{name='a',core=0,budget=0}]\n",
        "missing key at context 1 period",
    ),
    (
        "context = [{name='a',core=0,budget=0,period=5,extra_refills=-1}]\n",
        "out of range at context 1 extra_refills",
    ),
];

static REFUSED: [(&str, &str); 5] = [
    (
        "min_budget = 4\ncontext = [{name='a',core=0,budget=0,period=1}]\n",
        "control: zero budget at context 1 budget",
    ),
    (
        "min_budget = 4\ncontext = [{name='a',core=0,budget=3,period=2}]\n",
        "control: budget too small at context 1 budget",
    ),
    (
        "context = [{name='a',core=0,budget=1099511627778,period=1099511627777}]\n",
        "control: budget over period at context 1 budget",
    ),
    (
        "context = [{name='a',core=0,budget=1099511627777,period=1099511627777,extra_refills=65}]\n",
        "control: period too long at context 1 period",
    ),
    (
        "context = [{name='a',core=0,budget=2,period=5,extra_refills=65},{speed=1}]\n",
        "control: too many refills at context 1 extra_refills",
    ),
];

static OF_NOTIFICATIONS: [(&str, &str); 7] = [
    ("note = {}\nthread = 1\n", "wrong kind at note"),
    (
        "note = [{name='n',core=2,budget=2}]\n",
        "unknown key at note 1 ?",
    ),
    ("note = [{core=2}]\n", "missing key at note 1 name"),
    (
        "note = [{name='n',core='x'},{name='n',core=0}]\n",
        "wrong kind at note 1 core",
    ),
    (
        "note = [{name='n',core=0},{name='n',core=2}]\n",
        "double name at note 2 name",
    ),
    ("note = [{name='n.',core=2}]\n", "bad name at note 1 name"),
    (
        "note = [{name='n',core=2}]\nthread = 1\n",
        "out of range at note 1 core",
    ),
];

/// The walk's order decides, not the weight of a fault. The thread's unknown key comes after the
/// double name.
const LATER_FAULT: &[(&str, &str)] = &[(
    "context = [{name='a',core=0,budget=10,period=100},{name='a',core=0,budget=10,period=100}]
thread = [{prio=1,name='A',context='a',priority=5,script=['compute 2']}]\n",
    "double name at context 2 name",
)];

#[test]
fn faults_of_a_system(rt: HostRuntime) -> Result<(), Fail> {
    let alloc = rt.alloc();
    are_answered(&rt, alloc, ("", ""), SMALL.as_slice())?;
    are_answered(&rt, alloc, ("", ""), AT_THE_TOP.as_slice())?;
    are_answered(&rt, alloc, (TOP, ""), OF_CONTEXTS.as_slice())?;
    are_answered(&rt, alloc, (TOP, ""), REFUSED.as_slice())?;
    are_answered(&rt, alloc, (TOP, ""), OF_NOTIFICATIONS.as_slice())?;
    are_answered(&rt, alloc, (TOP, ""), LATER_FAULT)
}
