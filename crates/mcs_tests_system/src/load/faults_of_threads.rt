//! Faults of threads, of their scripts and of orders.

use crate::load::files::{PARTS, THREAD, are_answered};
use std::test::Fail;

static OF_THREADS: [(&str, &str); 14] = [
    ("thread = 'A'\norder = 1\n", "wrong kind at thread"),
    (
        "thread = [{prio=1,context='a'}]\n",
        "unknown key at thread 1 ?",
    ),
    (
        "thread = [{name='A',context='a',priority=5,script=['yield']},{name='A',context='c'}]\n",
        "double name at thread 2 name",
    ),
    (
        "thread = [{name='A',context=1,priority=256}]\n",
        "wrong kind at thread 1 context",
    ),
    (
        "thread = [{name='A',context='n',priority=256}]\n",
        "unknown name at thread 1 context",
    ),
    (
        "thread = [{name='A',context='a',priority=5,script=['yield']},{name='B',context='a'}]\n",
        "context taken at thread 2 context",
    ),
    (
        "thread = [{name='A',context='a',start=-1}]\n",
        "missing key at thread 1 priority",
    ),
    (
        "thread = [{name='A',context='a',priority=256,start=-1}]\n",
        "out of range at thread 1 priority",
    ),
    (
        "thread = [{name='A',context='a',priority=5,start=1099511627777,rounds=-1}]\n",
        "out of range at thread 1 start",
    ),
    (
        "thread = [{name='A',context='a',priority=5,rounds='x',deadline=-1}]\n",
        "wrong kind at thread 1 rounds",
    ),
    (
        "thread = [{name='A',context='a',priority=5,deadline=-1}]\n",
        "out of range at thread 1 deadline",
    ),
    (
        "thread = [{name='A',context='a',priority=5}]\norder = 1\n",
        "missing key at thread 1 script",
    ),
    (
        "thread = [{name='A',context='a',priority=5,script='wait n'},1]\n",
        "wrong kind at thread 1 script",
    ),
    (
        "thread = [{name='A',context='a',priority=5,script=[]},1]\n",
        "out of range at thread 1 script",
    ),
];

/// scripts of a thread with a later fault after them
static OF_SCRIPTS: [(&str, &str); 10] = [
    (
        "priority=5,script=[1,'sleep 1']",
        "wrong kind at thread 1 script item 1",
    ),
    (
        "priority=5,script=['yield','sleep 1',1]",
        "bad item: unknown word at thread 1 script item 2",
    ),
    (
        "priority=5,script=['compute','wait n']",
        "bad item: missing part at thread 1 script item 1",
    ),
    (
        "priority=5,script=['signal n 0 x','wait n']",
        "bad item: extra part at thread 1 script item 1",
    ),
    (
        "priority=5,script=['signal nowhere x']",
        "bad item: bad number at thread 1 script item 1",
    ),
    (
        "priority=5,script=['signal nowhere 1','wait m']",
        "unknown name at thread 1 script item 1",
    ),
    (
        "priority=5,script=['wait m','sleep 1']",
        "other core at thread 1 script item 1",
    ),
    (
        "priority=5,script=['wait m']",
        "other core at thread 1 script item 1",
    ),
    (
        "priority=5,script=['wait a']",
        "unknown name at thread 1 script item 1",
    ),
    (
        "priority=5,script=['yield','wait n']",
        "wait is last at thread 1 script item 2",
    ),
];

static OF_ORDERS: [(&str, &str); 12] = [
    ("order = [{at=-1,name='a'}]\n", "unknown key at order 1 ?"),
    ("order = [{core=2}]\n", "missing key at order 1 at"),
    ("order = [{at=-1,core=2}]\n", "out of range at order 1 at"),
    (
        "order = [{at=0,core=2,context='c'}]\n",
        "out of range at order 1 core",
    ),
    (
        "order = [{at=0,core=0,budget=-1}]\n",
        "missing key at order 1 context",
    ),
    (
        "order = [{at=0,core=1,context='c',budget=-1}]\n",
        "unknown name at order 1 context",
    ),
    (
        "order = [{at=0,core=1,context='a',budget=-1}]\n",
        "other core at order 1 core",
    ),
    (
        "order = [{at=0,core=0,context='a',budget=-1,period='x'}]\n",
        "out of range at order 1 budget",
    ),
    (
        "order = [{at=0,core=0,context='a',budget=0}]\n",
        "missing key at order 1 period",
    ),
    (
        "order = [{at=0,core=1,context='b',budget=0,period=5}]\n",
        "control: zero budget at order 1 budget",
    ),
    (
        "order = [{at=0,core=0,context='a',budget=5,period=5},1]\n",
        "kind change at order 1 period",
    ),
    (
        "order = [{at=0,core=1,context='b',budget=2,period=5},{core=2}]\n",
        "kind change at order 1 period",
    ),
];

#[test]
fn faults_of_its_threads_and_orders(rt: HostRuntime) -> Result<(), Fail> {
    let alloc = rt.alloc();
    are_answered(&rt, alloc, (PARTS, ""), OF_THREADS.as_slice())?;
    are_answered(
        &rt,
        alloc,
        (THREAD, "}]\norder = 1\n"),
        OF_SCRIPTS.as_slice(),
    )?;
    are_answered(&rt, alloc, (PARTS, ""), OF_ORDERS.as_slice())
}
