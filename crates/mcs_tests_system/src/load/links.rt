//! Faults of links between cores, and of the versions that have them.

use crate::load::files::{answer, are_answered};
use std::alloc::Global;
use std::test::Fail;

/// The numbers at the top of a file of version 2, within their limits.
const TOP: &str = "version = 2\ncores = 2\ndelay = 1\n";

static OF_VERSIONS: [(&str, &str); 11] = [
    ("version = 2\ncores = 2\ndelay = 1\n", "accepted"),
    ("version = 3\ncores = 2\ndelay = 1\n", "accepted"),
    (
        "version = 4\ncores = 2\ndelay = 1\n",
        "out of range at top version",
    ),
    (
        "version = 0\ncores = 2\ndelay = 1\n",
        "out of range at top version",
    ),
    (
        "version = 1\ncores = 2\ndelay = 1\nlink = [{maker=0,home=1,delay=1}]\n",
        "unknown key at top ?",
    ),
    ("version = 3\ncores = 2\ndelay = 1\nlink = []\n", "accepted"),
    (
        "version = 4\ncores = 2\ndelay = 1\nlink = []\n",
        "unknown key at top ?",
    ),
    (
        "version = 2.0\ncores = 2\ndelay = 1\nlink = []\n",
        "unknown key at top ?",
    ),
    ("cores = 2\ndelay = 1\nlink = []\n", "unknown key at top ?"),
    (
        "version = 2\ncores = 0\ndelay = 1\nlink = 1\n",
        "out of range at top cores",
    ),
    (
        "version = 2\ncores = 2\ndelay = 1\nspeed = 1\n",
        "unknown key at top ?",
    ),
];

static OF_LINKS: [(&str, &str); 24] = [
    ("link = []\n", "accepted"),
    ("link = [{maker=0,home=1,delay=1}]\n", "accepted"),
    ("link = [{maker=1,home=0,delay=1048576}]\n", "accepted"),
    (
        "link = [{maker=0,home=1,delay=1},{maker=1,home=0,delay=1}]\n",
        "accepted",
    ),
    ("[[link]]\nmaker = 1\nhome = 0\ndelay = 3\n", "accepted"),
    ("link = 1\ncontext = 1\n", "wrong kind at link"),
    (
        "[link]\nmaker = 0\nhome = 1\ndelay = 1\n",
        "wrong kind at link",
    ),
    ("link = [1]\n", "wrong kind at link 1"),
    (
        "link = [{maker=2,home=1,delay=1,core=0}]\n",
        "unknown key at link 1 ?",
    ),
    (
        "link = [{home='x',delay=0}]\n",
        "missing key at link 1 maker",
    ),
    (
        "link = [{maker='0',home=2,delay=0}]\n",
        "wrong kind at link 1 maker",
    ),
    (
        "link = [{maker=2,home=2,delay=0}]\n",
        "out of range at link 1 maker",
    ),
    (
        "link = [{maker=-1,home=1,delay=1}]\n",
        "out of range at link 1 maker",
    ),
    ("link = [{maker=0,delay=0}]\n", "missing key at link 1 home"),
    (
        "link = [{maker=0,home=1.0,delay=0}]\n",
        "wrong kind at link 1 home",
    ),
    (
        "link = [{maker=0,home=2,delay=0}]\n",
        "out of range at link 1 home",
    ),
    ("link = [{maker=1,home=1}]\n", "missing key at link 1 delay"),
    (
        "link = [{maker=1,home=1,delay='1'}]\n",
        "wrong kind at link 1 delay",
    ),
    (
        "link = [{maker=1,home=1,delay=0}]\n",
        "out of range at link 1 delay",
    ),
    (
        "link = [{maker=0,home=1,delay=1048577}]\n",
        "out of range at link 1 delay",
    ),
    (
        "link = [{maker=1,home=1,delay=1}]\n",
        "self link at link 1 home",
    ),
    (
        "link = [{maker=0,home=1,delay=1},{maker=0,home=1,delay=1}]\n",
        "double link at link 2 home",
    ),
    (
        "link = [{maker=0,home=1,delay=1},{maker=1,home=0,delay=1},{maker=0,home=1,delay=2}]\n",
        "double link at link 3 home",
    ),
    (
        "context = 1\nlink = [{maker=1,home=1,delay=1}]\n",
        "self link at link 1 home",
    ),
];

#[test]
fn faults_of_links(rt: HostRuntime) -> Result<(), Fail> {
    let alloc = rt.alloc();
    are_answered(&rt, alloc, ("", ""), OF_VERSIONS.as_slice())?;
    are_answered(&rt, alloc, (TOP, ""), OF_LINKS.as_slice())
}

/// Returns a file of 64 cores with a link between each two of them in both directions, and these
/// rows.
fn with_all_links(alloc: Global, rows: &str) -> Result<String, Fail> {
    let mut text = String::from_str(alloc, "version = 2\ncores = 64\ndelay = 1\nlink = [")?;
    for maker in 0..64u32 {
        for home in 0..64u32 {
            if maker != home {
                write!(text, "{{maker={maker},home={home},delay=2}},")?;
            }
        }
    }
    text.push_str(rows)?;
    text.push_str("]\n")?;
    Ok(text)
}

/// Returns that file with `count` more links of one pair.
fn with_doubles(alloc: Global, count: usize) -> Result<String, Fail> {
    let mut rows = String::new(alloc);
    for _ in 0..count {
        rows.push_str("{maker=0,home=1,delay=2},")?;
    }
    with_all_links(alloc, rows.as_str())
}

/// There are 4,032 pairs of 64 cores. The 4,033rd row is double, and 4,097 rows are too many.
#[test]
fn most_links(rt: HostRuntime) -> Result<(), Fail> {
    let cases = [
        (0, "accepted"),
        (1, "double link at link 4033 home"),
        (64, "double link at link 4033 home"),
        (65, "too many at link"),
    ];
    for (count, want) in cases {
        let text = with_doubles(rt.alloc(), count)?;
        let found = answer(rt.alloc(), text.as_str())?;
        assert_eq!(rt; found.as_str(), want, "of {count} more");
    }
    Ok(())
}
