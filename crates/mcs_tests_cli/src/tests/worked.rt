//! Worked systems, and their output.

use mcs_cli::{Options, Show};
use mcs_ticks::Tick;

/// Two systems, and the schedule of each up to time 20.
pub static WORKED: [(&str, &str); 2] = [
    (
        "\
version = 1
cores = 1
delay = 1

[[context]]
name = \"a\"
core = 0
budget = 2
period = 5

[[thread]]
name = \"A\"
context = \"a\"
priority = 5
rounds = 1
script = [\"compute 5\"]
",
        "\
0 0 release A
0 0 run A
2 0 stop A spent 2 until 5
5 0 release A
5 0 run A
7 0 stop A spent 2 until 10
10 0 release A
10 0 run A
11 0 round A 1 11
11 0 stop A done 1
",
    ),
    (
        "\
version = 1
cores = 2
delay = 3

[[context]]
name = \"s\"
core = 1
budget = 5
period = 10

[[note]]
name = \"n\"
core = 0

[[thread]]
name = \"S\"
context = \"s\"
priority = 5
rounds = 1
script = [\"compute 1\", \"signal n 1\", \"signal n 2\", \"signal n 4\"]
",
        "\
0 1 release S
0 1 run S
2 1 signal S n 1
3 1 signal S n 2
4 1 signal S n 4
4 1 round S 1 4
4 1 stop S done 4
5 0 arrive n 1 from 1
5 0 hold n 1
6 0 arrive n 2 from 1
6 0 hold n 3
7 0 arrive n 4 from 1
7 0 hold n 7
",
    ),
];

/// The reports of the first system up to time 20.
pub const REPORTED: &str = "\
thread A ran 5 rounds 1 least 11 greatest 11 total 11 late 0 spent 2 throttled 6 longest 3
core 0 busy 5 idle 15
";

/// Returns the options of a run up to time 20, with two workers or with one.
pub fn to_twenty(show: Show, team: bool) -> Options {
    Options {
        file: None,
        horizon: Tick::new(20).unwrap(),
        workers: if team { 2 } else { 1 },
        show,
    }
}
