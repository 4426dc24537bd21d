//! An origin at one of its carriers.
ghost use Rattle.std.specs.Prelude.{◌≡◌, ◌∷◌, [], ◌++◌, Some, bit_or, IfOk};
ghost use Rattle.mcs_way.specs.Trace.{begun, ended_legs, given, is_at, joined, left, left_note, legs_to, since_of, taken, taken_first};

use crate::{Carrier, Leg};
use mcs_chain::Taking;
use mcs_ticks::{NoMemory, NoteId, Tick};
use std::alloc::Global;
use std::marker::Model;

/// An origin at one of its carriers, with the legs on which it came there.
#[derive(Drop)]
pub(crate) struct Trace {
    /// The bits of a word at which it is; and 2^32 if it is in a thread's free set.
    places: u64,
    since: Tick,
    legs: Vec<Leg>,
}

impl Model for Trace {
    ghost use Rattle.mcs_way.specs.Trace.{Trace};

    ghost Value = { Trace };

    ghost view = { λ a. record { places = a.places; since = a.since; legs = a.legs.items } };
}

/// These legs and one more.
fn legs_with(alloc: Global, legs: &[Leg], leg: Leg) -> Result<Vec<Leg>, NoMemory>
    ensures { IfOk result (λ all. all.items ≡ legs.now ++ leg ∷ []) }
{
    let mut all = Vec::from_slice(alloc, legs)?;
    all.push(leg)?;
    Ok(all)
}

impl Trace {
    /// The interrupt, which its source posts with this badge.
    pub(crate) fn new(alloc: Global, moment: Tick, badge: u32) -> Self
        ensures { result ≡ begun moment badge }
    {
        Trace {
            places: u64::from(badge),
            since: moment,
            legs: Vec::new(alloc),
        }
    }

    /// Whether it is at one of these places.
    fn is_at(&self, places: u64) -> bool
        ensures { result ≡ is_at places self.now }
    {
        self.places & places != 0
    }

    /// The places at which it is.
    pub(crate) fn places(&self) -> u64
        ensures { result ≡ self.now.places }
    {
        self.places
    }

    /// Since when it is there.
    fn since(&self) -> Tick
        ensures { result ≡ self.now.since }
    {
        self.since
    }

    /// The legs of an origin that leaves this carrier at this moment.
    fn legs_to(&self, alloc: Global, carrier: Carrier, moment: Tick) -> Result<Vec<Leg>, NoMemory>
        ensures { IfOk result (λ legs. legs.items ≡ legs_to carrier moment self.now) }
    {
        let leg = Leg {
            carrier,
            from: self.since,
            to: moment,
        };
        legs_with(alloc, self.legs.as_slice(), leg)
    }

    /// The origin at the next carrier, at these places.
    pub(crate) fn leave(
        &self,
        alloc: Global,
        carrier: Carrier,
        moment: Tick,
        places: u64,
    ) -> Result<Self, NoMemory>
        ensures { IfOk result (λ trace. trace ≡ left carrier moment places self.now) }
    {
        let legs = self.legs_to(alloc, carrier, moment)?;
        Ok(Trace {
            places,
            since: moment,
            legs,
        })
    }

    /// The origin at the same carrier, at these places.
    fn moved_to(&self, alloc: Global, places: u64) -> Result<Self, NoMemory>
        ensures { IfOk result (λ trace. trace ≡ record self.now { places = places }) }
    {
        let legs = Vec::from_slice(alloc, self.legs.as_slice())?;
        Ok(Trace {
            places,
            since: self.since,
            legs,
        })
    }

    /// The origin at a thread that takes it from a notification.
    fn leave_note(
        &self,
        alloc: Global,
        note: NoteId,
        moment: Tick,
        places: u64,
    ) -> Result<Self, NoMemory>
        ensures { IfOk result (λ trace. trace ≡ left_note note moment places self.now) }
    {
        if self.since() == moment {
            self.moved_to(alloc, places)
        } else {
            self.leave(alloc, Carrier::Note(note), moment, places)
        }
    }

    /// The origin as a thread's first wait takes it.
    fn take_first(
        &self,
        alloc: Global,
        bits: u64,
        note: NoteId,
        moment: Tick,
    ) -> Result<Option<Self>, NoMemory>
        ensures { IfOk result (λ trace. trace ≡ taken_first bits note moment self.now) }
    {
        if !self.is_at(bits) {
            return Ok(None);
        }
        let taken = self.leave_note(alloc, note, moment, self.places() & bits)?;
        Ok(Some(taken))
    }

    /// The origin as a thread's later wait puts it at these places.
    fn take_later(
        &self,
        alloc: Global,
        places: u64,
        note: NoteId,
        moment: Tick,
    ) -> Result<Option<Self>, NoMemory>
        ensures { IfOk result (λ trace. trace ≡ Some (left_note note moment places self.now)) }
    {
        let taken = self.leave_note(alloc, note, moment, places)?;
        Ok(Some(taken))
    }

    fn add_places(&mut self, places: u64)
        ensures { self.new ≡ record self.old { places = bit_or self.old.places places } }
    {
        self.places |= places;
    }
}

/// The origin as a signal with this badge carries it, if its thread has it at these places.
pub(crate) fn given(
    alloc: Global,
    spot: &Option<Trace>,
    carrier: Carrier,
    moment: Tick,
    signal: (u64, u32),
) -> Result<Option<Trace>, NoMemory>
    ensures { IfOk result (λ trace. trace ≡ given signal.0 signal.1 carrier moment spot.now) }
{
    let (places, badge) = signal;
    let Some(trace) = spot else {
        return Ok(None);
    };
    if !trace.is_at(places) {
        return Ok(None);
    }
    let given = trace.leave(alloc, carrier, moment, u64::from(badge))?;
    Ok(Some(given))
}

/// The origin as a thread takes it from a notification.
pub(crate) fn taken(
    alloc: Global,
    spot: &Option<Trace>,
    taking: Taking,
    note: NoteId,
    moment: Tick,
) -> Result<Option<Trace>, NoMemory>
    ensures { IfOk result (λ trace. trace ≡ taken taking note moment spot.now) }
{
    let Some(trace) = spot else {
        return Ok(None);
    };
    match taking {
        Taking::First(bits) => trace.take_first(alloc, bits, note, moment),
        Taking::Later(places) => trace.take_later(alloc, places, note, moment),
    }
}

/// Gives the origin to a carrier. If the carrier has it already, the first way stays.
pub(crate) fn join(spot: &mut Option<Trace>, more: Option<Trace>)
    ensures { spot.new ≡ joined more spot.old }
{
    let Some(trace) = more else {
        return;
    };
    match spot {
        Some(there) => there.add_places(trace.places()),
        None => *spot = Some(trace),
    }
}

/// Since when the origin is at a carrier, if it is.
pub(crate) fn since_of(spot: &Option<Trace>) -> Option<Tick>
    ensures { result ≡ since_of spot.now }
{
    match spot {
        Some(trace) => Some(trace.since()),
        None => None,
    }
}

/// The legs of an origin that leaves this carrier for good; none if it is not there.
pub(crate) fn ended_legs(
    alloc: Global,
    spot: &Option<Trace>,
    carrier: Carrier,
    moment: Tick,
) -> Result<Vec<Leg>, NoMemory>
    ensures { IfOk result (λ legs. legs.items ≡ ended_legs carrier moment spot.now) }
{
    match spot {
        Some(trace) => trace.legs_to(alloc, carrier, moment),
        None => Ok(Vec::new(alloc)),
    }
}
