//! The parts of a system of two cores; a test changes one of them.

use mcs_control::{Config, Mode, Order};
use mcs_script::{Item, Script};
use mcs_system::{
    Beat, ChainPart, ContextPart, Link, Name, NotePart, SourcePart, SystemParts, ThreadPart,
};
use mcs_ticks::{ContextId, CoreId, NoteId, Sequence, SourceId, ThreadId, Tick};
use std::alloc::Global;
use std::test::Fail;

/// The numbers and names of these parts.
#[derive(Clone, Copy)]
struct Sample {
    cores: usize,
    delay: u64,
    call: u64,
    min_budget: u64,
    context: &'static str,
    context_core: usize,
    config: Config,
    mode: Mode,
    note: &'static str,
    note_core: usize,
    thread: &'static str,
    bound_to: usize,
    priority: u8,
    start: u64,
    rounds: u64,
    deadline: u64,
    compute: u64,
    signal_to: usize,
    badge: u32,
    wait_on: usize,
    order_at: u64,
    order_for: usize,
    order: Config,
    maker: usize,
    home: usize,
    link_delay: u64,
    servers: usize,
    server_word: u32,
    entered: usize,
    source: &'static str,
    source_note: usize,
    source_badge: u32,
    beat_source: usize,
    first: u64,
    period: u64,
    last_first: u64,
    last_period: u64,
    chain: &'static str,
    chain_source: usize,
    chain_thread: usize,
    chain_deadline: u64,
}

const SPORADIC: Config = Config {
    budget: 4,
    period: 10,
    extra: 0,
};

const SAMPLE: Sample = Sample {
    cores: 2,
    delay: 1,
    call: 1,
    min_budget: 1,
    context: "a",
    context_core: 0,
    config: SPORADIC,
    mode: Mode::Sporadic,
    note: "n",
    note_core: 0,
    thread: "A",
    bound_to: 0,
    priority: 5,
    start: 0,
    rounds: 1,
    deadline: 0,
    compute: 1,
    signal_to: 1,
    badge: 1,
    wait_on: 0,
    order_at: 3,
    order_for: 0,
    order: SPORADIC,
    maker: 0,
    home: 1,
    link_delay: 3,
    servers: 1,
    server_word: 1,
    entered: 2,
    source: "s",
    source_note: 1,
    source_badge: 1,
    beat_source: 0,
    first: 5,
    period: 10,
    last_first: 7,
    last_period: 10,
    chain: "c",
    chain_source: 0,
    chain_thread: 0,
    chain_deadline: 0,
};

fn tick(ticks: u64) -> Result<Tick, Fail> {
    Ok(Tick::new(ticks).ok_or("a tick")?)
}

fn name(alloc: Global, text: &str) -> Result<Name, Fail> {
    Ok(Name::new(String::from_str(alloc, text)?))
}

fn script(items: Vec<Item>) -> Result<Script, Fail> {
    Ok(Script::new(items).ok().ok_or("a script")?)
}

fn contexts(alloc: Global, sample: Sample) -> Result<Vec<ContextPart>, Fail> {
    let first = ContextPart {
        name: name(alloc, sample.context)?,
        core: CoreId(sample.context_core),
        config: sample.config,
        mode: sample.mode,
    };
    let second = ContextPart {
        name: name(alloc, "b")?,
        core: CoreId(1),
        config: Config {
            budget: 5,
            period: 5,
            extra: 0,
        },
        mode: Mode::Sporadic,
    };
    Ok(vec![in alloc; first, second]?)
}

fn notes(alloc: Global, sample: Sample) -> Result<Vec<NotePart>, Fail> {
    let first = NotePart {
        name: name(alloc, sample.note)?,
        core: CoreId(sample.note_core),
        word: 0,
    };
    let second = NotePart {
        name: name(alloc, "m")?,
        core: CoreId(1),
        word: 0,
    };
    let server = NotePart {
        name: name(alloc, "v")?,
        core: CoreId(0),
        word: sample.server_word,
    };
    Ok(vec![in alloc; first, second, server]?)
}

fn threads(alloc: Global, sample: Sample) -> Result<Vec<ThreadPart>, Fail> {
    let items = vec![in alloc;
        Item::Compute(sample.compute),
        Item::Signal(NoteId(sample.signal_to), sample.badge),
        Item::Wait(NoteId(sample.wait_on)),
        Item::Enter(NoteId(sample.entered), 7),
        Item::Leave(NoteId(2), 5),
        Item::Yield,
    ]?;
    let first = ThreadPart {
        name: name(alloc, sample.thread)?,
        context: ContextId(sample.bound_to),
        priority: sample.priority,
        start: tick(sample.start)?,
        rounds: sample.rounds,
        deadline: sample.deadline,
        script: script(items)?,
    };
    let second = ThreadPart {
        name: name(alloc, "B")?,
        context: ContextId(1),
        priority: 0,
        start: Tick::ZERO,
        rounds: 0,
        deadline: 0,
        script: script(vec![in alloc; Item::Yield]?)?,
    };
    Ok(vec![in alloc; first, second]?)
}

fn sources(alloc: Global, sample: Sample) -> Result<Vec<SourcePart>, Fail> {
    let first = SourcePart {
        name: name(alloc, sample.source)?,
        note: NoteId(sample.source_note),
        badge: sample.source_badge,
    };
    let second = SourcePart {
        name: name(alloc, "k")?,
        note: NoteId(0),
        badge: 1,
    };
    Ok(vec![in alloc; first, second]?)
}

/// Returns two dates in each period of the first source, and one of the second. The later of the
/// two may be changed.
fn beats(alloc: Global, sample: Sample) -> Result<Vec<Beat>, Fail> {
    let first = Beat {
        source: SourceId(0),
        first: tick(2)?,
        period: 10,
        count: 0,
    };
    let second = Beat {
        source: SourceId(sample.beat_source),
        first: tick(sample.first)?,
        period: sample.period,
        count: 0,
    };
    let third = Beat {
        source: SourceId(1),
        first: tick(sample.last_first)?,
        period: sample.last_period,
        count: 3,
    };
    Ok(vec![in alloc; first, second, third]?)
}

fn chains(alloc: Global, sample: Sample) -> Result<Vec<ChainPart>, Fail> {
    let first = ChainPart {
        name: name(alloc, sample.chain)?,
        source: SourceId(sample.chain_source),
        thread: ThreadId(sample.chain_thread),
        badges: 0,
        deadline: sample.chain_deadline,
    };
    let second = ChainPart {
        name: name(alloc, "d")?,
        source: SourceId(1),
        thread: ThreadId(1),
        badges: u32::MAX,
        deadline: 0,
    };
    Ok(vec![in alloc; first, second]?)
}

pub(crate) fn link(maker: usize, home: usize, delay: u64) -> Link {
    Link {
        maker: CoreId(maker),
        home: CoreId(home),
        delay,
    }
}

fn links(alloc: Global, sample: Sample) -> Result<Vec<Link>, Fail> {
    let first = link(sample.maker, sample.home, sample.link_delay);
    Ok(vec![in alloc; first, link(1, 0, 7)]?)
}

fn parts(alloc: Global, sample: Sample) -> Result<SystemParts, Fail> {
    let order = Order {
        moment: tick(sample.order_at)?,
        context: ContextId(sample.order_for),
        config: sample.order,
    };
    Ok(SystemParts {
        cores: sample.cores,
        delay: sample.delay,
        call: sample.call,
        min_budget: sample.min_budget,
        contexts: Sequence::new(contexts(alloc, sample)?),
        notes: Sequence::new(notes(alloc, sample)?),
        threads: Sequence::new(threads(alloc, sample)?),
        orders: Sequence::new(vec![in alloc; order]?),
        links: Sequence::new(links(alloc, sample)?),
        servers: sample.servers,
        sources: Sequence::new(sources(alloc, sample)?),
        beats: Sequence::new(beats(alloc, sample)?),
        chains: Sequence::new(chains(alloc, sample)?),
    })
}

/// A change of one part of the sample.
#[derive(Clone, Copy)]
pub(crate) enum Change {
    Cores(usize),
    Delay(u64),
    Call(u64),
    MinBudget(u64),
    Context(&'static str),
    ContextCore(usize),
    Configured(u64, u64, u64),
    InBandwidthMode(u64, u64),
    Note(&'static str),
    NoteCore(usize),
    Thread(&'static str),
    BoundTo(usize),
    Priority(u8),
    Start(u64),
    Rounds(u64),
    Deadline(u64),
    Compute(u64),
    SignalTo(usize),
    Badge(u32),
    WaitOn(usize),
    OrderAt(u64),
    OrderFor(usize),
    Ordered(u64, u64, u64),
    Linked(usize, usize, u64),
    Servers(usize),
    ServerWord(u32),
    Entered(usize),
    Source(&'static str),
    Interrupting(usize, u32),
    Beating(usize, u64, u64),
    LastBeat(u64, u64),
    Chain(&'static str),
    Chained(usize, usize),
    ChainDeadline(u64),
}

fn config(budget: u64, period: u64, extra: u64) -> Config {
    Config {
        budget,
        period,
        extra,
    }
}

fn apply(change: Change, sample: &mut Sample) {
    match change {
        Change::Cores(cores) => sample.cores = cores,
        Change::Delay(delay) => sample.delay = delay,
        Change::Call(call) => sample.call = call,
        Change::MinBudget(budget) => sample.min_budget = budget,
        Change::Context(name) => sample.context = name,
        Change::ContextCore(core) => sample.context_core = core,
        Change::Configured(budget, period, extra) => sample.config = config(budget, period, extra),
        Change::InBandwidthMode(budget, period) => {
            sample.config = config(budget, period, 0);
            sample.mode = Mode::Bandwidth;
        }
        Change::Note(name) => sample.note = name,
        Change::NoteCore(core) => sample.note_core = core,
        Change::Thread(name) => sample.thread = name,
        Change::BoundTo(context) => sample.bound_to = context,
        Change::Priority(priority) => sample.priority = priority,
        Change::Start(start) => sample.start = start,
        Change::Rounds(rounds) => sample.rounds = rounds,
        Change::Deadline(deadline) => sample.deadline = deadline,
        Change::Compute(ticks) => sample.compute = ticks,
        Change::SignalTo(note) => sample.signal_to = note,
        Change::Badge(badge) => sample.badge = badge,
        Change::WaitOn(note) => sample.wait_on = note,
        Change::OrderAt(moment) => sample.order_at = moment,
        Change::OrderFor(context) => sample.order_for = context,
        Change::Ordered(budget, period, extra) => sample.order = config(budget, period, extra),
        Change::Linked(maker, home, delay) => {
            sample.maker = maker;
            sample.home = home;
            sample.link_delay = delay;
        }
        Change::Servers(servers) => sample.servers = servers,
        Change::ServerWord(word) => sample.server_word = word,
        Change::Entered(server) => sample.entered = server,
        Change::Source(name) => sample.source = name,
        Change::Interrupting(note, badge) => {
            sample.source_note = note;
            sample.source_badge = badge;
        }
        Change::Beating(source, first, period) => {
            sample.beat_source = source;
            sample.first = first;
            sample.period = period;
        }
        Change::LastBeat(first, period) => {
            sample.last_first = first;
            sample.last_period = period;
        }
        Change::Chain(name) => sample.chain = name,
        Change::Chained(source, thread) => {
            sample.chain_source = source;
            sample.chain_thread = thread;
        }
        Change::ChainDeadline(deadline) => sample.chain_deadline = deadline,
    }
}

/// Returns the parts of the sample, with this change.
pub(crate) fn changed(alloc: Global, change: Change) -> Result<SystemParts, Fail> {
    let mut sample = SAMPLE;
    apply(change, &mut sample);
    parts(alloc, sample)
}
