ghost use Rattle.std.specs.Prelude.{◌≡◌, ◌↔◌, ◌≢◌, ℕ, ◌<◌, ◌≤◌, ◌^◌, List, length, All, AllPairs, Any, IsTrue, IsSome, IfSome};
ghost use Rattle.mcs_script.specs.Script.{IsScript};
ghost use Rattle.mcs_system.specs.System.{context_part, note_part, is_server};
ghost use Rattle.mcs_system.specs.Names.{is_name};
ghost use Rattle.mcs_system.specs.WellFormed.{AreNamed, AreLimits, IsContext, IsNote, IsNotification, IsServer, IsItem, IsThread, IsOrder, IsLink, IsSource, IsBeat, DoPrecede, AreInOrder, AreSources, AreServers, IsChain, AreChains, DifferInCores, IsWellFormed};

use crate::{
    Beat, ChainPart, ContextPart, Link, Name, NotePart, SourcePart, SystemParts, ThreadPart,
};
use mcs_control::{Config, Order};
use mcs_script::{Item, Script};
use mcs_ticks::{ContextId, CoreId, Limits, NoteId};

trait Named {
    ghost name: { Self → List ℕ };

    fn name(&self) -> &Name
        ensures { result.now ≡ name self.now };
}

impl Named for ContextPart {
    ghost name = { λ context. context.name };

    fn name(&self) -> &Name {
        &self.name
    }
}

impl Named for NotePart {
    ghost name = { λ note. note.name };

    fn name(&self) -> &Name {
        &self.name
    }
}

impl Named for ThreadPart {
    ghost name = { λ thread. thread.name };

    fn name(&self) -> &Name {
        &self.name
    }
}

impl Named for SourcePart {
    ghost name = { λ source. source.name };

    fn name(&self) -> &Name {
        &self.name
    }
}

impl Named for ChainPart {
    ghost name = { λ chain. chain.name };

    fn name(&self) -> &Name {
        &self.name
    }
}

fn have_names<T: Named>(things: &[T]) -> bool
    ensures { IsTrue result ↔ All (λ thing. IsTrue (is_name (T.name thing))) things.now }
{
    things
        .iter()
        .all(|thing| Name::accepts(thing.name().as_str()))
}

fn shares_name<T: Named>(thing: &T, earlier: &[T]) -> bool
    ensures { IsTrue result ↔ Any (λ other. T.name other ≡ T.name thing.now) earlier.now }
{
    earlier.iter().any(|other| other.name() == thing.name())
}

/// Compares each name with all earlier ones. This allocates no memory, and is done once for a
/// system.
fn have_distinct_names<T: Named>(things: &[T]) -> bool
    ensures { IsTrue result ↔ AllPairs (λ a b. T.name a ≢ T.name b) things.now }
{
    for (i, thing) in things.iter().enumerate() {
        if shares_name(thing, &things[..i]) {
            return false;
        }
    }
    true
}

/// Checks names and their number; the limit is the same for all kinds.
fn are_named<T: Named>(things: &[T]) -> bool
    ensures { IsTrue result ↔ AreNamed T.name things.now }
{
    things.len() <= Limits::THREADS && have_names(things) && have_distinct_names(things)
}

/// Marks the contexts that have a thread. The marks are on the stack, so no memory is allocated.
fn have_contexts_of_their_own(threads: &[ThreadPart]) -> bool
    requires { All (λ thread. thread.context < 4096) threads.now }
    ensures { IsTrue result ↔ AllPairs (λ a b. a.context ≢ b.context) threads.now }
{
    let mut has_thread = [false; Limits::CONTEXTS];
    for thread in threads {
        let context = thread.context.0;
        if has_thread[context] {
            return false;
        }
        has_thread[context] = true;
    }
    true
}

/// Marks the pairs of cores that have a link, on the stack.
fn have_cores_of_their_own(links: &[Link]) -> bool
    requires { All (λ link. (link.maker < 64) × (link.home < 64)) links.now }
    ensures { IsTrue result ↔ AllPairs DifferInCores links.now }
{
    let mut has_link = [false; Limits::CORES * Limits::CORES];
    for link in links {
        let pair = link.maker.0 * Limits::CORES + link.home.0;
        if has_link[pair] {
            return false;
        }
        has_link[pair] = true;
    }
    true
}

fn do_precede(one: Beat, other: Beat) -> bool
    requires { (one.first ≤ 2 ^ 41) × (one.period ≤ 2 ^ 40) }
    ensures { IsTrue result ↔ DoPrecede one other }
{
    one.source.0 < other.source.0
        || one.source == other.source
            && one.period == other.period
            && one.first.get() < other.first.get()
            && other.first.get() < one.first.get() + one.period
}

fn stands_behind(beat: Beat, earlier: &[Beat]) -> bool
    requires { All (λ other. (other.first ≤ 2 ^ 41) × (other.period ≤ 2 ^ 40)) earlier.now }
    ensures { IsTrue result ↔ All (λ other. DoPrecede other beat) earlier.now }
{
    earlier.iter().all(|other| do_precede(*other, beat))
}

/// Compares each beat with all earlier ones.
fn are_in_order(beats: &[Beat]) -> bool
    requires { All (λ beat. (beat.first ≤ 2 ^ 41) × (beat.period ≤ 2 ^ 40)) beats.now }
    ensures { IsTrue result ↔ AreInOrder beats.now }
{
    for (i, beat) in beats.iter().enumerate() {
        if !stands_behind(*beat, &beats[..i]) {
            return false;
        }
    }
    true
}

fn are_free(servers: &[NotePart]) -> bool
    ensures { IsTrue result ↔ All (λ note. note.word ≡ 1) servers.now }
{
    servers.iter().all(|server| server.word == 1)
}

fn has_numbers(thread: &ThreadPart) -> bool
    ensures { IsTrue result
        ↔ (thread.now.priority ≤ 255) × (thread.now.start ≤ 2 ^ 40) × (thread.now.rounds ≤ 2 ^ 40)
        × (thread.now.deadline ≤ 2 ^ 40) }
{
    u64::from(thread.priority) <= Limits::PRIORITY
        && thread.start.get() <= Limits::START
        && thread.rounds <= Limits::ROUNDS
        && thread.deadline <= Limits::DEADLINE
}

impl SystemParts {
    /// Whether the system is well formed (profile M):
    ///
    /// - counts and numbers are in range, and refer to things that exist;
    /// - names are 1 to 32 characters of `A-Z a-z 0-9 _ -`, and distinct within each kind;
    /// - each configuration passes its check with the system's `min_budget`, and a round-robin
    ///   context has mode `Sporadic`;
    /// - no two threads have the same context;
    /// - a thread waits only on notifications, and enters only servers, of its core;
    /// - an order keeps the kind of its context;
    /// - a link goes from one core to another, and no pair has two;
    /// - signals and sources post on notifications, not on servers; each server is free at first;
    /// - the dates of a source within a period rise.
    ///
    /// Allocates no memory. Names and beats are compared in pairs, in time quadratic in their
    /// number; the rest is linear.
    pub fn is_well_formed(&self) -> bool
        ensures { IsTrue result ↔ IsWellFormed self.now }
    {
        self.has_limits()
            && are_named(self.contexts.as_slice())
            && self.has_contexts()
            && are_named(self.notes.as_slice())
            && self.has_notes()
            && are_named(self.threads.as_slice())
            && self.has_threads()
            && have_contexts_of_their_own(self.threads.as_slice())
            && self.orders.len() <= Limits::ORDERS
            && self.has_orders()
            && self.links.len() <= Link::MOST
            && self.has_links()
            && self.has_ties()
    }

    fn has_limits(&self) -> bool
        ensures { IsTrue result ↔ AreLimits self.now }
    {
        1 <= self.cores
            && self.cores <= Limits::CORES
            && 1 <= self.delay
            && self.delay <= Limits::DELAY
            && 1 <= self.call
            && self.call <= Limits::CALL
            && 1 <= self.min_budget
            && self.min_budget <= Limits::MIN_BUDGET
    }

    fn is_context(&self, context: &ContextPart) -> bool
        ensures { IsTrue result ↔ IsContext self.now context.now }
    {
        context.core.0 < self.cores
            && context.config.check(self.min_budget).is_ok()
            && context.config.kind().takes(context.mode)
    }

    fn has_contexts(&self) -> bool
        ensures { IsTrue result ↔ All (IsContext self.now) self.now.contexts }
    {
        self.contexts
            .as_slice()
            .iter()
            .all(|context| self.is_context(context))
    }

    fn has_notes(&self) -> bool
        ensures { IsTrue result ↔ All (IsNote self.now) self.now.notes }
    {
        self.notes
            .as_slice()
            .iter()
            .all(|note| note.core.0 < self.cores)
    }

    fn is_at_home(&self, note: NoteId, core: CoreId) -> bool
        ensures { IsTrue result ↔ (note < length self.now.notes) × ((note_part self.now note).core ≡ core) }
    {
        match self.notes.as_slice().get(note.0) {
            Some(part) => part.core == core,
            None => false,
        }
    }

    /// Whether a note is a server. The caller ensures that the note exists.
    pub fn is_server(&self, note: NoteId) -> bool
        requires { note < length self.now.notes }
        ensures { result ≡ is_server self.now note }
    {
        self.notes.len() - note.0 <= self.servers
    }

    fn is_notification(&self, note: NoteId, core: CoreId) -> bool
        ensures { IsTrue result ↔ IsNotification self.now core note }
    {
        self.is_at_home(note, core) && !self.is_server(note)
    }

    fn is_server_of(&self, note: NoteId, core: CoreId) -> bool
        ensures { IsTrue result ↔ IsServer self.now core note }
    {
        self.is_at_home(note, core) && self.is_server(note)
    }

    fn is_item(&self, core: CoreId, item: Item) -> bool
        ensures { IsTrue result ↔ IsItem self.now core item }
    {
        match item {
            Item::Compute(ticks) => 1 <= ticks && ticks <= Limits::COMPUTE,
            Item::Signal(note, badge) => {
                note.0 < self.notes.len() && !self.is_server(note) && 1 <= badge
            }
            Item::Wait(note) => self.is_notification(note, core),
            Item::Yield | Item::Spin => true,
            Item::On(badges) => 1 <= badges,
            Item::Enter(server, _) | Item::Leave(server, _) => self.is_server_of(server, core),
        }
    }

    fn has_items(&self, core: CoreId, script: &Script) -> bool
        ensures items { IsTrue result ↔ All (IsItem self.now core) script.now }
        ensures is_script { IsScript script.now }
    {
        script
            .as_slice()
            .iter()
            .all(|item| self.is_item(core, *item))
    }

    /// Returns the core and the configuration of the context with this number, if it exists.
    fn accepted_at(&self, context: ContextId) -> Option<(CoreId, Config)>
        ensures there { IsSome result ↔ (context < length self.now.contexts) }
        ensures value { IfSome result
            (λ part. (part.0 ≡ (context_part self.now context).core)
            × (part.1 ≡ (context_part self.now context).config)) }
    {
        self.contexts
            .as_slice()
            .get(context.0)
            .map(|part| (part.core, part.config))
    }

    fn is_thread(&self, thread: &ThreadPart) -> bool
        ensures { IsTrue result ↔ IsThread self.now thread.now }
    {
        match self.accepted_at(thread.context) {
            Some((core, _)) => has_numbers(thread) && self.has_items(core, &thread.script),
            None => false,
        }
    }

    fn has_threads(&self) -> bool
        ensures { IsTrue result ↔ All (IsThread self.now) self.now.threads }
    {
        self.threads
            .as_slice()
            .iter()
            .all(|thread| self.is_thread(thread))
    }

    fn is_order(&self, order: &Order) -> bool
        ensures { IsTrue result ↔ IsOrder self.now order.now }
    {
        match self.accepted_at(order.context) {
            Some((_, config)) => {
                order.moment.get() <= Limits::ORDER_MOMENT
                    && order.config.check(self.min_budget).is_ok()
                    && order.config.kind() == config.kind()
            }
            None => false,
        }
    }

    fn has_orders(&self) -> bool
        ensures { IsTrue result ↔ All (IsOrder self.now) self.now.orders }
    {
        self.orders
            .as_slice()
            .iter()
            .all(|order| self.is_order(order))
    }

    fn is_link(&self, link: Link) -> bool
        ensures { IsTrue result ↔ IsLink self.now link }
    {
        link.maker.0 < self.cores
            && link.home.0 < self.cores
            && link.maker != link.home
            && 1 <= link.delay
            && link.delay <= Limits::DELAY
    }

    fn has_links(&self) -> bool
        ensures { IsTrue result ↔ All (IsLink self.now) self.now.links }
    {
        self.links.as_slice().iter().all(|link| self.is_link(*link))
    }

    fn is_source(&self, source: &SourcePart) -> bool
        ensures { IsTrue result ↔ IsSource self.now source.now }
    {
        source.note.0 < self.notes.len() && !self.is_server(source.note) && 1 <= source.badge
    }

    fn has_sources(&self) -> bool
        ensures { IsTrue result ↔ All (IsSource self.now) self.now.sources }
    {
        self.sources
            .as_slice()
            .iter()
            .all(|source| self.is_source(source))
    }

    fn has_ties(&self) -> bool
        requires { All (λ link. (link.maker < 64) × (link.home < 64)) self.now.links }
        ensures { IsTrue result
            ↔ AllPairs DifferInCores self.now.links × AreServers self.now × AreSources self.now × AreChains self.now }
    {
        have_cores_of_their_own(self.links.as_slice())
            && self.are_servers()
            && self.are_sources()
            && self.are_chains()
    }

    fn are_servers(&self) -> bool
        ensures { IsTrue result ↔ AreServers self.now }
    {
        let notes = self.notes.as_slice();
        self.servers <= notes.len() && are_free(&notes[notes.len() - self.servers..])
    }

    fn is_chain(&self, chain: &ChainPart) -> bool
        ensures { IsTrue result ↔ IsChain self.now chain.now }
    {
        chain.source.0 < self.sources.len()
            && chain.thread.0 < self.threads.len()
            && u64::from(chain.badges) <= Limits::BADGE
            && chain.deadline <= Limits::DEADLINE
    }

    fn has_chains(&self) -> bool
        ensures { IsTrue result ↔ All (IsChain self.now) self.now.chains }
    {
        self.chains
            .as_slice()
            .iter()
            .all(|chain| self.is_chain(chain))
    }

    fn are_chains(&self) -> bool
        ensures { IsTrue result ↔ AreChains self.now }
    {
        are_named(self.chains.as_slice()) && self.has_chains()
    }

    fn are_sources(&self) -> bool
        ensures { IsTrue result ↔ AreSources self.now }
    {
        self.has_named_sources() && self.are_beats()
    }

    fn has_named_sources(&self) -> bool
        ensures { IsTrue result
            ↔ AreNamed (λ source. source.name) self.now.sources × All (IsSource self.now) self.now.sources }
    {
        are_named(self.sources.as_slice()) && self.has_sources()
    }

    fn are_beats(&self) -> bool
        ensures { IsTrue result
            ↔ (length self.now.beats ≤ 4096) × All (IsBeat self.now) self.now.beats × AreInOrder self.now.beats }
    {
        self.beats.len() <= Beat::MOST && self.has_beats() && are_in_order(self.beats.as_slice())
    }

    fn is_beat(&self, beat: Beat) -> bool
        ensures { IsTrue result ↔ IsBeat self.now beat }
    {
        beat.source.0 < self.sources.len()
            && beat.first.get() <= 1 << 41
            && 1 <= beat.period
            && beat.period <= Limits::PERIOD
    }

    fn has_beats(&self) -> bool
        ensures { IsTrue result ↔ All (IsBeat self.now) self.now.beats }
    {
        self.beats.as_slice().iter().all(|beat| self.is_beat(*beat))
    }
}
