ghost use Rattle.std.specs.Prelude.{◌≡◌, Some, option_map, string_bytes};
ghost use Rattle.mcs_explain.specs.WhyFault.{answers_text, nearest_text, rounds_text, status_of, why_fault_text};
ghost use Rattle.mcs_explain.specs.declared.why_fault.WhyFault.TheVariants.{Run};

use mcs_check_run::CheckFault;
use mcs_cli::RunFault;
use std::fmt;

/// Why a round or an answer could not be explained. Its text is the line that the program writes to
/// standard error.
#[derive(Debug, PartialEq, Eq, Drop)]
pub enum WhyFault {
    /// The source failed, its text is no system, memory ran out, or the target failed.
    Run(RunFault),
    /// An option has nothing to do with a round: findings, figures, or rows of CSV.
    Mixed,
    /// The system has no such thread, and no chain.
    NoThread {
        /// The name that was given.
        name: String,
        /// The nearest name of a thread, the first of equally near ones. `None` if there is no
        /// thread, or if `name` has more than 64 bytes.
        nearest: Option<String>,
    },
    /// The system has chains, but no thread and no chain of this name.
    NoName {
        /// The name that was given.
        name: String,
        /// The nearest name of a thread or a chain. Among equally near ones threads come first, in
        /// file order. `None` if `name` has more than 64 bytes.
        nearest: Option<String>,
    },
    /// The thread has no such round.
    NoRound {
        /// The thread's name.
        thread: String,
        /// The round that was given, as its argument has it.
        round: String,
        rounds: Rounds,
    },
    /// The chain has no such answer.
    NoAnswer {
        /// The chain's name.
        chain: String,
        /// The answer's number that was given, as its argument has it.
        number: String,
        answers: Answers,
    },
}

/// The number of rounds of a thread; the last one may not have ended. Its text says which there
/// are.
#[derive(Clone, Copy, Debug, PartialEq, Eq)]
pub struct Rounds(pub u64);

impl fmt::Display for Rounds {
    ghost output = { λ rounds. Some (rounds_text rounds.0) };

    fn fmt<W: fmt::Write>(&self, f: &mut fmt::Formatter<W>) -> fmt::Result {
        let rounds = self.0;
        if rounds == 0 {
            f.write_str("there is none")
        } else if rounds == 1 {
            f.write_str("there is round 1")
        } else {
            write!(f, "there are rounds 1 to {rounds}")
        }
    }
}

/// The number of answers of a chain. Its text says which there are.
#[derive(Clone, Copy, Debug, PartialEq, Eq)]
pub struct Answers(pub u64);

impl fmt::Display for Answers {
    ghost output = { λ answers. Some (answers_text answers.0) };

    fn fmt<W: fmt::Write>(&self, f: &mut fmt::Formatter<W>) -> fmt::Result {
        let answers = self.0;
        if answers == 0 {
            f.write_str("there is none")
        } else if answers == 1 {
            f.write_str("there is answer 1")
        } else {
            write!(f, "there are answers 1 to {answers}")
        }
    }
}

/// The end of a line about a name that nothing has.
#[derive(Clone, Copy, Drop)]
struct Nearest<'a>(&'a Option<String>);

impl fmt::Display for Nearest<'_> {
    ghost output = { λ nearest. Some (nearest_text (option_map string_bytes nearest.0.now)) };

    fn fmt<W: fmt::Write>(&self, f: &mut fmt::Formatter<W>) -> fmt::Result {
        match self.0 {
            Some(near) => write!(f, "the nearest is {near}"),
            None => f.write_str("there is none"),
        }
    }
}

impl fmt::Display for WhyFault {
    ghost output = { why_fault_text };

    fn fmt<W: fmt::Write>(&self, f: &mut fmt::Formatter<W>) -> fmt::Result {
        match self {
            WhyFault::Run(fault) => {
                let fault = CheckFault::Run(*fault);
                write!(f, "{fault}")
            }
            WhyFault::Mixed => f.write_str(
                "mcscheck: --why: not with --show, --strict, --allow-lost or --format csv",
            ),
            WhyFault::NoThread { name, nearest } => {
                let nearest = Nearest(nearest);
                write!(
                    f,
                    "mcscheck: --why: no thread is called {name:?}: {nearest}"
                )
            }
            WhyFault::NoName { name, nearest } => {
                let nearest = Nearest(nearest);
                write!(
                    f,
                    "mcscheck: --why: no thread or chain is called {name:?}: {nearest}"
                )
            }
            WhyFault::NoRound {
                thread,
                round,
                rounds,
            } => write!(
                f,
                "mcscheck: --why: no round {round:?} of {thread}: {rounds}"
            ),
            WhyFault::NoAnswer {
                chain,
                number,
                answers,
            } => write!(
                f,
                "mcscheck: --why: no answer {number:?} of {chain}: {answers}"
            ),
        }
    }
}

impl WhyFault {
    /// Returns the program's exit code: 2 if an argument is to blame, else that of the run's fault.
    pub fn status(&self) -> u8
        ensures { result ≡ status_of self.now }
    {
        match self {
            WhyFault::Run(fault) => fault.status(),
            _ => 2,
        }
    }
}

impl From<RunFault> for WhyFault {
    ghost from_gives = { λ fault result. result ≡ Run fault };

    fn from(fault: RunFault) -> Self {
        WhyFault::Run(fault)
    }
}
