ghost use Rattle.std.specs.Prelude.{◌≡◌, ◌∷◌, [], List, IfOk, OnOk};
ghost use Rattle.mcs_ticks.specs.declared.row.Row.{Row as TheRow};
ghost use Rattle.mcs_system.specs.System.{System as TheSystem};
ghost use Rattle.mcs_verdict.specs.Account.{subject};
ghost use Rattle.mcs_verdict.specs.Findings.{UpTo};
ghost use Rattle.mcs_chain.specs.Answers.{gone_after};
ghost use Rattle.mcs_chain.specs.Moves.{moves};
ghost use Rattle.mcs_chain.specs.Steps.{goer};
ghost use Rattle.mcs_chain.specs.declared.answer.Answer.{Answer as TheAnswer};
ghost use Rattle.mcs_way.specs.Stances.{stances_of};
ghost use Rattle.mcs_way.specs.Trail.{aim_of, goes_on, stood_by, trail_of, way_of};

use crate::Leg;
use crate::aim::Aim;
use crate::course::Course;
use crate::stance::{Stance, all_new, stand, stood_of, subject};
use mcs_chain::{Answer, Move, Steps};
use mcs_system::{System, SystemParts};
use mcs_ticks::{NoMemory, Row, SourceId, ThreadId, What};
use mcs_verdict::Stood;
use std::alloc::Global;
use std::marker::Model;

/// Follows the interrupt of an answer as the rows of a schedule go by: which carriers have it, and
/// on which legs it came to each. Its room grows only with these legs. The system is the one that
/// it was made for.
#[derive(Drop)]
pub struct Trail {
    aim: Aim,
    steps: Steps,
    course: Course,
    stances: Vec<Stance>,
}

impl Model for Trail {
    ghost use Rattle.mcs_way.specs.Trail.{Trail};

    ghost Value = { Trail };

    ghost view = { λ a. record { aim = a.aim; gone = a.steps; course = a.course; stances = a.stances.items } };
}

/// The answer to follow, and the source of its chain.
fn aim_of(parts: &SystemParts, answer: &Answer) -> Aim
    ensures { result ≡ aim_of parts.now answer.now }
{
    let source = match parts.chains.as_slice().get(answer.chain.0) {
        Some(chain) => chain.source,
        None => SourceId(0),
    };
    Aim {
        source,
        answer: *answer,
    }
}

/// The thread of a row that posts, takes or ends a round.
fn goer(what: &What) -> Option<ThreadId>
    ensures { result ≡ goer what.now }
{
    match *what {
        What::Signal { thread, .. }
        | What::Wake { thread, .. }
        | What::Got { thread, .. }
        | What::Round { thread, .. } => Some(thread),
        _ => None,
    }
}

/// How the thread of a row stood since it has the origin.
fn stood_by(stances: &[Stance], course: &Course, row: &Row) -> Stood
    ensures { (past : List TheRow) → stances.now ≡ stances_of 0 course.now.carried past → UpTo row.now.moment past →
        result ≡ stood_by past row.now.moment (goer row.now.what) course.now }
{
    match goer(&row.what) {
        Some(thread) => stood_of(stances, thread, row.moment, course.since(thread)),
        None => Stood::new(),
    }
}

/// The course takes one more row.
fn follow(
    alloc: Global,
    course: &mut Course,
    stances: &[Stance],
    aim: &Aim,
    row: &Row,
    effect: &Move,
) -> Result<(), NoMemory>
    ensures { (system : TheSystem) (past : List TheRow) → stances.now ≡ stances_of 0 course.old.carried past → UpTo row.now.moment past →
        effect.now ≡ moves system (gone_after system past) row.now →
        OnOk result (course.new ≡ goes_on system aim.now past row.now course.old) }
{
    let stood = stood_by(stances, course, row);
    course.see(alloc, aim, row, stood, effect)
}

/// Takes one more row.
fn go(
    alloc: Global,
    course: &mut Course,
    stances: &mut [Stance],
    aim: &Aim,
    row: &Row,
    effect: &Move,
) -> Result<(), NoMemory>
    ensures { (system : TheSystem) (past : List TheRow) → stances.old ≡ stances_of 0 course.old.carried past → UpTo row.now.moment past →
        effect.now ≡ moves system (gone_after system past) row.now →
        OnOk result ((course.new ≡ goes_on system aim.now past row.now course.old) × (stances.new ≡ stances_of 0 course.new.carried (row.now ∷ past))) }
{
    match subject(&row.what) {
        Some(thread) => {
            let before = course.since(thread);
            follow(alloc, course, stances, aim, row, effect)?;
            let after = course.since(thread);
            stand(stances, thread, row, before, after);
            Ok(())
        }
        None => follow(alloc, course, stances, aim, row, effect),
    }
}

impl Trail {
    /// The trail before the first row. `NoMemory` if an allocation failed.
    pub fn new(alloc: Global, system: &System, answer: &Answer) -> Result<Self, NoMemory>
        ensures { IfOk result (λ trail. trail ≡ trail_of system.now answer.now []) }
    {
        let parts = system.parts();
        Ok(Trail {
            aim: aim_of(parts, answer),
            steps: Steps::new(alloc, system)?,
            course: Course::new(alloc, parts)?,
            stances: all_new(alloc, parts)?,
        })
    }

    /// Takes one more row, in the order of their times. `NoMemory` if an allocation failed: then
    /// the trail can only be dropped. A row that does not move the interrupt takes constant time.
    pub fn see(&mut self, alloc: Global, system: &System, row: &Row) -> Result<(), NoMemory>
        ensures { (answer : TheAnswer) (past : List TheRow) → self.old ≡ trail_of system.now answer past → UpTo row.now.moment past →
            OnOk result (self.new ≡ trail_of system.now answer (row.now ∷ past)) }
    {
        let effect = self.steps.moves(system, row);
        go(
            alloc,
            &mut self.course,
            self.stances.as_mut_slice(),
            &self.aim,
            row,
            &effect,
        )?;
        self.steps.see(system, row);
        Ok(())
    }

    /// The legs from the interrupt to the answer, the first one first; none before the answer.
    pub fn way(&self) -> &[Leg]
        ensures { result.now ≡ self.now.course.way }
    {
        self.course.way()
    }
}
