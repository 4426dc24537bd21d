//! The maximum number of rows of each kind in a file, and one more.

use crate::load::files::{PARTS, TOP, answer};
use std::alloc::{AllocError, Global};
use std::process::Abort;
use std::test::Fail;

/// Appends `count` rows to a text. A row's pieces have its number between them.
fn with_rows(
    alloc: Global,
    begin: &str,
    pieces: &[&str],
    count: usize,
) -> Result<String, AllocError> {
    let mut text = String::from_str(alloc, begin)?;
    for i in 0..count {
        for (place, piece) in pieces.iter().enumerate() {
            if place != 0 {
                write!(text, "{i}")?;
            }
            text.push_str(piece)?;
        }
    }
    Ok(text)
}

/// A thread. The items of its script follow.
const SCRIPT: &str = "version = 1\ncores = 1\ndelay = 1
context = [{name='a',core=0,budget=2,period=5}]
thread = [{name='A',context='a',priority=5,script=[";

/// Rows of a kind, the maximum of them in a file, and the result of one more.
#[derive(Clone, Copy)]
struct Rows {
    begin: &'static str,
    pieces: &'static [&'static str],
    most: usize,
    end: &'static str,
    want: &'static str,
}

static ROWS: [Rows; 10] = [
    Rows {
        begin: TOP,
        pieces: CONTEXTS,
        most: 4_096,
        end: "",
        want: "too many at context",
    },
    Rows {
        begin: TOP,
        pieces: &["[[note]]\nname = 'n", "'\ncore = 1\n"],
        most: 4_096,
        end: "",
        want: "too many at note",
    },
    Rows {
        begin: PARTS,
        pieces: &[
            "[[order]]\nat = ",
            "\ncore = 1\ncontext = 'b'\nbudget = 7\nperiod = 7\n",
        ],
        most: 4_096,
        end: "",
        want: "too many at order",
    },
    Rows {
        begin: SCRIPT,
        pieces: &["'yield',"],
        most: 1_024,
        end: "]}]\n",
        want: "too many at thread 1 script",
    },
    Rows {
        begin: NOTES,
        pieces: &[
            "[[server]]\nname = 'v",
            "'\ncore = 0\npriority = 5\nscript = ['yield']\n",
        ],
        most: 4_095,
        end: "",
        want: "too many at server",
    },
    Rows {
        begin: NOTES,
        pieces: &[
            "[[source]]\nname = 's",
            "'\nnote = 'n'\nbadge = 1\nperiod = 1\n",
        ],
        most: 4_096,
        end: "",
        want: "too many at source",
    },
    Rows {
        begin: OFFSETS,
        pieces: &["", ","],
        most: 1_024,
        end: "]}]\n",
        want: "too many at source 1 at",
    },
    Rows {
        begin: FULL_OFFSETS,
        pieces: &["{name='s", "',note='n',badge=1,period=5000},"],
        most: 4_093,
        end: "]\n",
        want: "too many at source 4095 at",
    },
    Rows {
        begin: SERVER,
        pieces: &["'yield',"],
        most: 1_022,
        end: CALL,
        want: "too many at thread 1 script item 1",
    },
    Rows {
        begin: CALLER,
        pieces: &["'call v 1',"],
        most: 341,
        end: "'yield']}]\n",
        want: "too many at thread 1 script item 342",
    },
];

/// A notification.
const NOTES: &str = "version = 3\ncores = 1\ndelay = 1\n[[note]]\nname = 'n'\ncore = 0\n";

/// A source. The numbers of `at` follow.
const OFFSETS: &str = "version = 3\ncores = 1\ndelay = 1\nnote = [{name='n',core=0}]
source = [{name='s',note='n',badge=1,period=5000,at=[";

/// A source with three numbers in `at`. Later sources have no `at`, which counts as one.
const FULL_OFFSETS: &str = "version = 3\ncores = 1\ndelay = 1\nnote = [{name='n',core=0}]
source = [{name='f',note='n',badge=1,period=5000,at=[0,1,2]},";

/// A server. The items of its script follow.
const SERVER: &str = "version = 3\ncores = 1\ndelay = 1
context = [{name='a',core=0,budget=2,period=5}]
server = [{name='v',core=0,priority=5,script=[";

/// The end of the server, and a thread that calls it: two further steps.
const CALL: &str = "]}]\nthread = [{name='A',context='a',priority=5,script=['call v 1']}]\n";

/// A thread that calls a server. Each call becomes three steps.
const CALLER: &str = "version = 3\ncores = 1\ndelay = 1
context = [{name='a',core=0,budget=2,period=5}]
server = [{name='v',core=0,priority=5,script=['yield','on 2','yield']}]
thread = [{name='A',context='a',priority=5,script=[";

const CONTEXTS: &[&str] = &[
    "[[context]]\nname = 'c",
    "'\ncore = 0\nbudget = 1\nperiod = 2\n",
];

const THREADS: &[&str] = &[
    "[[thread]]\nname = 't",
    "'\ncontext = 'c",
    "'\npriority = 5\nscript = ['yield']\n",
];

fn are_most(rt: &impl Abort, alloc: Global, begin: &str, rows: &Rows) -> Result<(), Fail> {
    let Rows {
        pieces,
        most,
        end,
        want,
        ..
    } = *rows;
    for (count, want) in [(most, "accepted"), (most.saturating_add(1), want)] {
        let mut text = with_rows(alloc, begin, pieces, count)?;
        text.push_str(end)?;
        let found = answer(alloc, text.as_str())?;
        assert_eq!(rt; found.as_str(), want, "of {count}");
    }
    Ok(())
}

#[test]
fn most_rows(rt: HostRuntime) -> Result<(), Fail> {
    for rows in ROWS.as_slice() {
        are_most(&rt, rt.alloc(), rows.begin, rows)?;
    }
    Ok(())
}

/// each thread has its context
#[test]
fn most_threads(rt: HostRuntime) -> Result<(), Fail> {
    let begin = with_rows(rt.alloc(), TOP, CONTEXTS, 4_096)?;
    let rows = Rows {
        begin: "",
        pieces: THREADS,
        most: 4_096,
        end: "",
        want: "too many at thread",
    };
    are_most(&rt, rt.alloc(), begin.as_str(), &rows)
}
