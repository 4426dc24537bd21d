//! Faults of sources and chains.

use crate::load::files::are_answered;
use std::test::Fail;

/// A notification, and a source. The keys after its name follow.
const SOURCE: &str = "version = 3\ncores = 1\ndelay = 1
note = [{name='n',core=0}]\nserver = [{name='v',core=0,priority=9,script=['yield']}]
source = [{name='s',";

/// Threads A (which begins with a wait), B (which waits later) and C (which never waits), a source,
/// and a chain. The keys after its name follow.
const CHAIN: &str = "version = 3\ncores = 1\ndelay = 1
context = [{name='a',core=0,budget=2,period=5},{name='b',core=0,budget=2,period=5},{name='c',core=0,budget=2,period=5}]
note = [{name='n',core=0}]\nsource = [{name='s',note='n',badge=1,period=5}]
thread = [{name='A',context='a',priority=5,script=['wait n','on 1','yield']},
{name='B',context='b',priority=5,script=['yield','wait n','yield']},{name='C',context='c',priority=5,script=['yield']}]
chain = [{name='e',";

static OF_SOURCES: [(&str, &str); 28] = [
    ("note='n',badge=1,period=1", "accepted"),
    (
        "note='n',badge=4294967295,period=1099511627776,start=1099511627776,count=1099511627776,at=[0,1099511627775]",
        "accepted",
    ),
    ("note='n',prio=1", "unknown key at source 1 ?"),
    ("badge=0", "missing key at source 1 note"),
    ("note=1,badge=0", "wrong kind at source 1 note"),
    ("note='v',badge=0", "unknown name at source 1 note"),
    ("note='n',period=0", "missing key at source 1 badge"),
    (
        "note='n',badge=0,period=0",
        "out of range at source 1 badge",
    ),
    (
        "note='n',badge=4294967296,period=0",
        "out of range at source 1 badge",
    ),
    (
        "note='n',badge=1,start=-1",
        "missing key at source 1 period",
    ),
    (
        "note='n',badge=1,period=0,start=-1",
        "out of range at source 1 period",
    ),
    (
        "note='n',badge=1,period=1099511627777,start=-1",
        "out of range at source 1 period",
    ),
    (
        "note='n',badge=1,period=5,start=-1,count=-1",
        "out of range at source 1 start",
    ),
    (
        "note='n',badge=1,period=5,count=-1,at=1",
        "out of range at source 1 count",
    ),
    (
        "note='n',badge=1,period=5,count=1.0,at=1",
        "wrong kind at source 1 count",
    ),
    (
        "note='n',badge=1,period=5,at=1",
        "wrong kind at source 1 at",
    ),
    (
        "note='n',badge=1,period=5,at=[]",
        "out of range at source 1 at",
    ),
    (
        "note='n',badge=1,period=5,at=[0,'1',9]",
        "wrong kind at source 1 at item 2",
    ),
    (
        "note='n',badge=1,period=5,at=[-1]",
        "out of range at source 1 at item 1",
    ),
    (
        "note='n',badge=1,period=5,at=[5]",
        "out of range at source 1 at item 1",
    ),
    ("note='n',badge=1,period=5,at=[4]", "accepted"),
    (
        "note='n',badge=1,period=5,at=[0,2,2]",
        "out of range at source 1 at item 3",
    ),
    (
        "note='n',badge=1,period=5,at=[3,1,true]",
        "out of range at source 1 at item 2",
    ),
    ("note='n',badge=1,period=5,at=[0,1,2,3,4]", "accepted"),
    (
        "note='n',badge=1,period=5},{name='s'",
        "double name at source 2 name",
    ),
    (
        "note='n',badge=1,period=5},{name='n',note='n',badge=1,period=5",
        "accepted",
    ),
    (
        "note='n',badge=1,period=5},1,{name='x'",
        "wrong kind at source 2",
    ),
    (
        "note='n',badge=1,period=5},{name='k',note='s'",
        "unknown name at source 2 note",
    ),
];

static OF_CHAINS: [(&str, &str); 16] = [
    ("source='s',thread='A'", "accepted"),
    (
        "source='s',thread='A',badges=4294967295,deadline=1099511627776",
        "accepted",
    ),
    ("source='s',thread='B'", "accepted"),
    ("source='s',from='A'", "unknown key at chain 1 ?"),
    ("thread='X'", "missing key at chain 1 source"),
    ("source='A',thread='X'", "unknown name at chain 1 source"),
    ("source='s',badges=-1", "missing key at chain 1 thread"),
    (
        "source='s',thread='s',badges=-1",
        "unknown name at chain 1 thread",
    ),
    (
        "source='s',thread='C',badges=-1,deadline=-1",
        "out of range at chain 1 badges",
    ),
    (
        "source='s',thread='C',badges=4294967296",
        "out of range at chain 1 badges",
    ),
    (
        "source='s',thread='C',deadline=1099511627777",
        "out of range at chain 1 deadline",
    ),
    (
        "source='s',thread='C',deadline='1'",
        "wrong kind at chain 1 deadline",
    ),
    ("source='s',thread='C'", "no wait at chain 1 thread"),
    (
        "source='s',thread='C',badges=1",
        "no wait at chain 1 thread",
    ),
    (
        "source='s',thread='B',badges=1",
        "no wait at chain 1 badges",
    ),
    (
        "source='s',thread='A'},{name='e'",
        "double name at chain 2 name",
    ),
];

/// The keys of a source, and the numbers of `at` one by one.
#[test]
fn faults_of_sources(rt: HostRuntime) -> Result<(), Fail> {
    let alloc = rt.alloc();
    are_answered(&rt, alloc, (SOURCE, "}]\n"), OF_SOURCES.as_slice())
}

/// The keys of a chain, and that its thread waits.
#[test]
fn faults_of_chains(rt: HostRuntime) -> Result<(), Fail> {
    let alloc = rt.alloc();
    are_answered(&rt, alloc, (CHAIN, "}]\n"), OF_CHAINS.as_slice())
}
