//! Faults of notifications' first words, of servers, and of the items that version 3 adds.

use crate::load::files::are_answered;
use std::test::Fail;

/// The numbers at the top of a file of version 3, with a context on core 0, and notifications n (on
/// core 0) and m (on core 1).
const PARTS: &str = "version = 3\ncores = 2\ndelay = 1
context = [{name='a',core=0,budget=2,period=5}]
note = [{name='n',core=0},{name='m',core=1}]\n";

/// `PARTS`, with servers v (on core 0) and w (on core 1), and a thread. Its items follow.
const SCRIPT: &str = "version = 3\ncores = 2\ndelay = 1
context = [{name='a',core=0,budget=2,period=5}]
note = [{name='n',core=0},{name='m',core=1}]
server = [{name='v',core=0,priority=9,script=['compute 1','on 1','yield','on 6','compute 2','wait n']},
{name='w',core=1,priority=9,script=['yield']}]
thread = [{name='A',context='a',priority=5,script=[";

static OF_WORDS: [(&str, &str); 6] = [
    ("{name='n',core=0,word=0}", "accepted"),
    ("{name='n',core=0,word=4294967295}", "accepted"),
    (
        "{name='n',core=0,word=4294967296}",
        "out of range at note 1 word",
    ),
    ("{name='n',core=0,word=-1}", "out of range at note 1 word"),
    ("{name='n',core=0,word='1'}", "wrong kind at note 1 word"),
    ("{name='n',core=9,word='1'}", "out of range at note 1 core"),
];

static OF_SERVERS: [(&str, &str); 16] = [
    ("server = 1\nthread = 1\n", "wrong kind at server"),
    ("server = [1]\n", "wrong kind at server 1"),
    (
        "server = [{name='v',context='a'}]\n",
        "unknown key at server 1 ?",
    ),
    ("server = [{core=0}]\n", "missing key at server 1 name"),
    (
        "server = [{name='n',core=9}]\n",
        "double name at server 1 name",
    ),
    (
        "server = [{name='v',core=0,priority=9,script=['yield']},{name='v'}]\n",
        "double name at server 2 name",
    ),
    (
        "server = [{name='v',core=2,priority=-1}]\n",
        "out of range at server 1 core",
    ),
    (
        "server = [{name='v',core=0,script=1}]\n",
        "missing key at server 1 priority",
    ),
    (
        "server = [{name='v',core=0,priority=256,script=1}]\n",
        "out of range at server 1 priority",
    ),
    (
        "server = [{name='v',core=0,priority=9}]\n",
        "missing key at server 1 script",
    ),
    (
        "server = [{name='v',core=0,priority=9,script=[]}]\n",
        "out of range at server 1 script",
    ),
    (
        "server = [{name='v',core=0,priority=9,script=['on 1','wait n','on 2','wait n']}]\n",
        "accepted",
    ),
    (
        "server = [{name='v',core=0,priority=9,script=['yield','call v 1']}]\n",
        "unknown name at server 1 script item 2",
    ),
    (
        "server = [{name='v',core=0,priority=9,script=['call w 1']},{name='w',core=0,priority=9,script=['yield']}]\n",
        "unknown name at server 1 script item 1",
    ),
    (
        "server = [{name='v',core=0,priority=9,script=['yield']},{name='w',core=1,priority=9,script=['call v 1']}]\n",
        "other core at server 2 script item 1",
    ),
    (
        "server = [{name='v',core=0,priority=9,script=['wait m']}]\n",
        "other core at server 1 script item 1",
    ),
];

static OF_ITEMS: [(&str, &str); 22] = [
    ("'call v 1'", "accepted"),
    ("'wait n','on 1','spin'", "accepted"),
    ("'wait n','on 1','on 2'", "accepted"),
    ("'on'", "bad item: missing part at thread 1 script item 1"),
    ("'on 0'", "bad item: bad number at thread 1 script item 1"),
    (
        "'on 4294967296'",
        "bad item: bad number at thread 1 script item 1",
    ),
    ("'on 1 2'", "bad item: extra part at thread 1 script item 1"),
    (
        "'call v'",
        "bad item: missing part at thread 1 script item 1",
    ),
    (
        "'call x 0'",
        "bad item: bad number at thread 1 script item 1",
    ),
    ("'spin 1'", "bad item: extra part at thread 1 script item 1"),
    ("'call n 1'", "unknown name at thread 1 script item 1"),
    ("'signal v 1'", "unknown name at thread 1 script item 1"),
    ("'wait v'", "unknown name at thread 1 script item 1"),
    ("'call w 1'", "other core at thread 1 script item 1"),
    ("'on 1'", "on without wait at thread 1 script item 1"),
    (
        "'compute 1','on 1'",
        "on without wait at thread 1 script item 2",
    ),
    (
        "'call v 2','on 1'",
        "on without wait at thread 1 script item 2",
    ),
    ("'wait n'", "wait is last at thread 1 script item 1"),
    (
        "'wait n','on 1','wait n'",
        "wait is last at thread 1 script item 3",
    ),
    (
        "'wait n','wait n','on 1','wait n'",
        "wait is last at thread 1 script item 2",
    ),
    (
        "'call v 4','call v 4','wait n'",
        "wait is last at thread 1 script item 3",
    ),
    ("'wait n','on 1','call v 4','on 2'", "accepted"),
];

static OF_OLD_VERSIONS: [(&str, &str); 5] = [
    ("server = []\n", "unknown key at top ?"),
    ("source = []\n", "unknown key at top ?"),
    ("chain = []\n", "unknown key at top ?"),
    (
        "note = [{name='n',core=0,word=1}]\n",
        "unknown key at note 1 ?",
    ),
    (
        "context = [{name='a',core=0,budget=2,period=5}]\nthread = [{name='A',context='a',priority=5,script=['spin']}]\n",
        "bad item: unknown word at thread 1 script item 1",
    ),
];

/// The word comes after the core.
#[test]
fn faults_of_words(rt: HostRuntime) -> Result<(), Fail> {
    let alloc = rt.alloc();
    let begin = "version = 3\ncores = 2\ndelay = 1\nnote = [";
    are_answered(&rt, alloc, (begin, "]\n"), OF_WORDS.as_slice())
}

/// A server's script has neither `on without wait` nor `wait is last`, and names earlier servers
/// only.
#[test]
fn faults_of_servers(rt: HostRuntime) -> Result<(), Fail> {
    let alloc = rt.alloc();
    are_answered(&rt, alloc, (PARTS, ""), OF_SERVERS.as_slice())
}

/// A place counts items, not the steps that calls become.
#[test]
fn faults_of_new_items(rt: HostRuntime) -> Result<(), Fail> {
    let alloc = rt.alloc();
    are_answered(&rt, alloc, (SCRIPT, "]}]\n"), OF_ITEMS.as_slice())
}

/// Version 2 has no servers, sources, chains, first words or new items.
#[test]
fn version_2_has_none(rt: HostRuntime) -> Result<(), Fail> {
    let alloc = rt.alloc();
    let begin = "version = 2\ncores = 2\ndelay = 1\n";
    are_answered(&rt, alloc, (begin, ""), OF_OLD_VERSIONS.as_slice())
}
