//! Each limit of a number or a name is accepted, and one past it is refused.

use crate::load::files::{PARTS, THREAD, TOP, are_answered};
use std::test::Fail;

static LIMITS_OF_THE_TOP: [(&str, &str); 10] = [
    (
        "cores = 64\ndelay = 1048576\ncall = 65536\nmin_budget = 1048576\n",
        "accepted",
    ),
    (
        "cores = 1\ndelay = 1\ncall = 1\nmin_budget = 1\n",
        "accepted",
    ),
    ("cores = 0\ndelay = 1\n", "out of range at top cores"),
    ("cores = 65\ndelay = 1\n", "out of range at top cores"),
    ("cores = 1\ndelay = 0\n", "out of range at top delay"),
    ("cores = 1\ndelay = 1048577\n", "out of range at top delay"),
    (
        "cores = 1\ndelay = 1\ncall = 65537\n",
        "out of range at top call",
    ),
    (
        "cores = 1\ndelay = 1\nmin_budget = 1048577\n",
        "out of range at top min_budget",
    ),
    (
        "cores = 1\ndelay = 1\ncall = 0\n",
        "out of range at top call",
    ),
    (
        "cores = 1\ndelay = 1\nmin_budget = 0\n",
        "out of range at top min_budget",
    ),
];

static LIMITS_OF_CONTEXTS: [(&str, &str); 14] = [
    (
        "context = [{name='ABCDEFGHIJKLMNOPQRSTUVWXYZ012345',core=1,budget=1,period=2}]\n",
        "accepted",
    ),
    (
        "context = [{name='ABCDEFGHIJKLMNOPQRSTUVWXYZ0123456',core=1,budget=1,period=2}]\n",
        "bad name at context 1 name",
    ),
    (
        "context = [{name='abcdefghijklmnopqrstuvwxyz6789_-',core=0,budget=1,period=2}]\n",
        "accepted",
    ),
    (
        "context = [{name='caf\u{e9}',core=0,budget=1,period=2}]\n",
        "bad name at context 1 name",
    ),
    (
        "context = [{name='a',core=2,budget=1,period=2}]\n",
        "out of range at context 1 core",
    ),
    (
        "context = [{name='a',core=0,budget=1099511627776,period=1099511627776,extra_refills=64}]\n",
        "accepted",
    ),
    (
        "context = [{name='a',core=0,budget=1099511627777,period=1099511627777}]\n",
        "control: period too long at context 1 period",
    ),
    (
        "context = [{name='a',core=0,budget=2,period=5,extra_refills=65}]\n",
        "control: too many refills at context 1 extra_refills",
    ),
    (
        "context = [{name='a',core=0,budget=-1,period=5}]\n",
        "out of range at context 1 budget",
    ),
    (
        "context = [{name='a',core=0,budget=0,period=5}]\n",
        "control: zero budget at context 1 budget",
    ),
    (
        "context = [{name='a',core=0,budget=1,period=1,extra_refills=0}]\n",
        "accepted",
    ),
    (
        "context = [{name='a',core=-1,budget=1,period=2}]\n",
        "out of range at context 1 core",
    ),
    (
        "context = [{name='a',core=0,budget=1,period=0}]\n",
        "control: budget over period at context 1 budget",
    ),
    (
        "context = [{name='a',core=0,budget=1,period=-1}]\n",
        "out of range at context 1 period",
    ),
];

/// keys of a thread after its name and its context
static LIMITS_OF_THREADS: [(&str, &str); 16] = [
    (
        "priority=0,start=0,rounds=0,deadline=0,script=['yield']",
        "accepted",
    ),
    (
        "priority=255,start=1099511627776,rounds=1099511627776,deadline=1099511627776,script=['yield']",
        "accepted",
    ),
    (
        "priority=256,script=['yield']",
        "out of range at thread 1 priority",
    ),
    (
        "priority=5,start=1099511627777,script=['yield']",
        "out of range at thread 1 start",
    ),
    (
        "priority=5,rounds=1099511627777,script=['yield']",
        "out of range at thread 1 rounds",
    ),
    (
        "priority=5,deadline=1099511627777,script=['yield']",
        "out of range at thread 1 deadline",
    ),
    (
        "priority=5,script=['compute 1','compute 1099511627776']",
        "accepted",
    ),
    (
        "priority=5,script=['compute 1099511627777']",
        "bad item: bad number at thread 1 script item 1",
    ),
    (
        "priority=5,script=['signal m 1','signal m 4294967295']",
        "accepted",
    ),
    (
        "priority=5,script=['signal m 4294967296']",
        "bad item: bad number at thread 1 script item 1",
    ),
    (
        "priority=5,script=['wait n']",
        "wait is last at thread 1 script item 1",
    ),
    (
        "priority=-1,script=['yield']",
        "out of range at thread 1 priority",
    ),
    (
        "priority=5,start=-1,script=['yield']",
        "out of range at thread 1 start",
    ),
    (
        "priority=5,rounds=-1,script=['yield']",
        "out of range at thread 1 rounds",
    ),
    (
        "priority=5,script=['compute 0']",
        "bad item: bad number at thread 1 script item 1",
    ),
    (
        "priority=5,script=['signal m 0']",
        "bad item: bad number at thread 1 script item 1",
    ),
];

static LIMITS_OF_ORDERS: [(&str, &str); 6] = [
    (
        "order = [{at=1099511627776,core=0,context='a',budget=1,period=9}]\n",
        "accepted",
    ),
    (
        "order = [{at=1099511627777,core=0,context='a',budget=1,period=9}]\n",
        "out of range at order 1 at",
    ),
    (
        "order = [{at=0,core=0,context='a',budget=1,period=1099511627776,extra_refills=64}]\n",
        "accepted",
    ),
    (
        "order = [{at=0,core=0,context='a',budget=1,period=1099511627777}]\n",
        "control: period too long at order 1 period",
    ),
    (
        "order = [{at=0,core=0,context='a',budget=1,period=9,extra_refills=65}]\n",
        "control: too many refills at order 1 extra_refills",
    ),
    (
        "order = [{at=0,core=0,context='a',budget=9,period=8}]\n",
        "control: budget over period at order 1 budget",
    ),
];

#[test]
fn limits_are_accepted(rt: HostRuntime) -> Result<(), Fail> {
    let alloc = rt.alloc();
    are_answered(
        &rt,
        alloc,
        ("version = 1\n", ""),
        LIMITS_OF_THE_TOP.as_slice(),
    )?;
    are_answered(&rt, alloc, (TOP, ""), LIMITS_OF_CONTEXTS.as_slice())?;
    are_answered(&rt, alloc, (THREAD, "}]\n"), LIMITS_OF_THREADS.as_slice())?;
    are_answered(&rt, alloc, (PARTS, ""), LIMITS_OF_ORDERS.as_slice())
}
