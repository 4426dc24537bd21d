ghost use Rattle.std.specs.Prelude.{◌≡◌, ℕ, ◌+◌, ◌*◌, ◌^◌, ◌<◌, ◌≤◌, None, Some, length, slice_index_or, slice_set, IfOk, IsSome};
ghost use Rattle.mcs_release.specs.Release.{earliest, next_date};
ghost use Rattle.mcs_release.specs.stored.Least.{empty, leaves};
ghost use Rattle.mcs_release.specs.stored.Places.{date_of, entered, key, places_of, AreEmptyFrom, AreOfPlaces, IsTaken};

use crate::Dated;
use crate::least::{EMPTY, ROOT, clear, lower, rebuild};
use mcs_ticks::{NoMemory, ThreadId, Tick};
use std::alloc::Global;
use std::marker::Model;

/// Maximum number of places.
const PLACES: u64 = 1 << 21;

/// Places for waiting threads, each empty or with a thread and its date. Contracts see them in
/// their order.
#[derive(Debug, Drop)]
pub(crate) struct Places {
    /// the thread of each place that is not empty
    threads: Vec<ThreadId>,
    /// a tree of minima over the places; its root is the number of the thread with the earliest
    /// date, and at equal dates the first place
    nodes: Vec<u64>,
    /// the number of inner nodes
    inner: usize,
}

impl Model for Places {
    ghost use Rattle.std.specs.Prelude.{List, Option};
    ghost use Rattle.mcs_release.specs.declared.dated.Dated.{Dated};

    ghost Value = { List (Option Dated) };

    ghost use Rattle.mcs_release.specs.stored.Least.{leaves};
    ghost use Rattle.mcs_release.specs.stored.Places.{places_of, IsStored};

    ghost view = { λ a. places_of (leaves a.inner a.nodes.items) a.threads.items };

    ghost invariant = { λ a. IsStored a.inner a.nodes.items a.threads.items };
}

impl Places {
    /// Returns at least `wanted` places, all empty.
    pub(crate) fn new(alloc: Global, wanted: usize) -> Result<Self, NoMemory>
        requires few { wanted + 4 ≤ 2 ^ 21 }
        ensures empty { IfOk result (λ places. AreEmptyFrom 0 places) }
        ensures wide { IfOk result (λ places. wanted ≤ length places) }
    {
        let inner = wanted / 3 + 1;
        let threads = vec![in alloc; ThreadId(0); 3 * inner + 1]?;
        let nodes = vec![in alloc; EMPTY; 4 * inner + 4]?;
        Ok(Places {
            threads,
            nodes,
            inner,
        })
    }

    /// Returns the number of places.
    #[inline(always)]
    pub(crate) fn len(&self) -> usize
        ensures { result ≡ length self.now }
    {
        self.threads.len()
    }

    /// Returns the earliest date, or `None` if all places are empty.
    #[inline(always)]
    pub(crate) fn first_date(&self) -> Option<Tick>
        ensures { result ≡ next_date (entered self.now) }
    {
        date_of(self.nodes[ROOT])
    }

    /// Returns the threads in the order of their places, each with its date.
    pub(crate) fn list(&self, alloc: Global) -> Result<Vec<Dated>, NoMemory>
        ensures { IfOk result (λ list. list.items ≡ entered self.now) }
    {
        entries(alloc, &self.nodes[self.inner + ROOT..], &self.threads)
    }

    /// Returns the thread in a place with its date, or `None` if the place is empty.
    pub(crate) fn get(&self, place: usize) -> Option<Dated>
        requires { place < length self.now }
        ensures { result ≡ slice_index_or self.now place None }
    {
        let date = date_of(self.nodes[self.inner + ROOT + place])?;
        Some(Dated {
            thread: self.threads[place],
            date,
        })
    }

    /// Takes the thread with the earliest date; at equal dates, the one in the first place. The
    /// caller ensures that there is one.
    #[inline(always)]
    pub(crate) fn take_first(&mut self) -> ThreadId
        requires { IsSome (earliest (entered self.old)) }
        ensures { IsTaken self.old self.new result }
    {
        let place = (self.nodes[ROOT] % PLACES) as usize;
        clear(&mut self.nodes, self.inner, place);
        self.threads[place]
    }

    /// Puts a thread with its date into an empty place.
    #[inline(always)]
    pub(crate) fn put(&mut self, place: usize, entry: Dated)
        requires within { place < length self.old }
        requires empty { slice_index_or self.old place None ≡ None }
        ensures put { self.new ≡ slice_set self.old place (Some entry) }
        ensures few { length self.new ≤ 2 ^ 21 }
    {
        self.threads[place] = entry.thread;
        lower(&mut self.nodes, self.inner, place, key(entry.date, place));
    }

    /// Moves all entries to the front in their order, and returns their number.
    #[inline(never)]
    pub(crate) fn close_up(&mut self) -> usize
        ensures entered { entered self.new ≡ entered self.old }
        ensures count { result ≡ length (entered self.old) }
        ensures behind { AreEmptyFrom result self.new }
        ensures len { length self.new ≡ length self.old }
    {
        let front = move_to_front(&mut self.nodes, &mut self.threads, self.inner);
        rebuild(&mut self.nodes, self.inner);
        front
    }
}

/// Returns the number of a thread in this place that waits for this date.
#[inline(always)]
fn key(date: Tick, place: usize) -> u64
    requires { place < 2 ^ 21 }
    ensures value { result ≡ key date place }
    ensures in_range { date ≤ 2 ^ 42 }
{
    date.get() * PLACES + place as u64
}

/// Returns the date of such a number, or `None` for the number of an empty place.
#[inline(always)]
fn date_of(number: u64) -> Option<Tick>
    ensures { result ≡ date_of number }
{
    Tick::new(number / PLACES)
}

/// Returns the entries of places with these numbers and threads, in order.
fn entries(alloc: Global, numbers: &[u64], threads: &[ThreadId]) -> Result<Vec<Dated>, NoMemory>
    requires { length numbers.now ≡ length threads.now }
    ensures { IfOk result (λ list. list.items ≡ entered (places_of numbers.now threads.now)) }
{
    let mut list = Vec::new(alloc);
    for place in 0..threads.len() {
        if let Some(date) = date_of(numbers[place]) {
            list.push(Dated {
                thread: threads[place],
                date,
            })?;
        }
    }
    Ok(list)
}

/// Moves the threads and their numbers to the front in order, and returns how many there are. The
/// inner nodes do not change.
fn move_to_front(nodes: &mut [u64], threads: &mut [ThreadId], inner: usize) -> usize
    requires numbered { AreOfPlaces (leaves inner nodes.old) }
    requires size { length nodes.old ≡ 4 * inner + 4 }
    requires wide { length threads.old ≡ 3 * inner + 1 }
    requires few { 3 * inner + 1 ≤ 2 ^ 21 }
    ensures entered { entered (places_of (leaves inner nodes.new) threads.new)
        ≡ entered (places_of (leaves inner nodes.old) threads.old) }
    ensures count { result ≡ length (entered (places_of (leaves inner nodes.old) threads.old)) }
    ensures behind { AreEmptyFrom result (places_of (leaves inner nodes.new) threads.new) }
    ensures numbered { AreOfPlaces (leaves inner nodes.new) }
{
    let mut front = 0;
    for place in 0..threads.len() {
        let node = inner + ROOT + place;
        if let Some(date) = date_of(nodes[node]) {
            nodes[node] = EMPTY;
            nodes[inner + ROOT + front] = key(date, front);
            threads[front] = threads[place];
            front += 1;
        }
    }
    front
}
