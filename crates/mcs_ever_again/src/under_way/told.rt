ghost use Rattle.std.specs.Prelude.{◌≡◌, ◌<◌, [], ◌∷◌, filter, option_to_list};
ghost use Rattle.mcs_system.specs.System.{note_part, delay_by_link};
ghost use Rattle.mcs_core.specs.Turn.{mail_to};
ghost use Rattle.mcs_ever_again.specs.UnderWay.{told_mails, can_arrive};

use mcs_mail::Mail;
use mcs_system::{Link, System};
use mcs_ticks::{CoreId, NoteId, Row, Tick, What};

/// The home core of a notification, always below 64.
pub(crate) fn home_of(system: &System, note: NoteId) -> CoreId
    ensures home { result ≡ (note_part system.now note).core }
    ensures few { result < 64 }
{
    // the system is well formed, so it has at most 64 cores
    let _parts = system.parts();
    system.home_of(note)
}

/// The signal that a row makes, if it is for another core and arrives at most at 2^42.
pub(crate) fn mail_of(system: &System, row: &Row) -> Option<Mail>
    ensures { option_to_list result ≡ filter can_arrive (told_mails system.now (row.now ∷ [])) }
{
    let What::Signal { note, badge, .. } = row.what else {
        return None;
    };
    if system.home_of(note) == row.core {
        return None;
    }
    mail_to(system, row.core, row.moment, note, badge)
}

/// The delay of the first link of these cores, or the common delay if no link is theirs.
fn delay_by_link(links: &[Link], maker: CoreId, home: CoreId, delay: u64) -> u64
    ensures { result ≡ delay_by_link links.now maker home delay }
{
    for link in links {
        if link.maker == maker && link.home == home {
            return link.delay;
        }
    }
    delay
}

/// The signal of a core at a moment, if it arrives at most at 2^42.
fn mail_to(system: &System, maker: CoreId, made: Tick, note: NoteId, badge: u32) -> Option<Mail>
    ensures { option_to_list result ≡ filter can_arrive (mail_to system.now maker made note badge ∷ []) }
{
    let home = home_of(system, note);
    let parts = system.parts();
    let delay = delay_by_link(parts.links.as_slice(), maker, home, parts.delay);
    let arrives = made.plus(delay)?;
    Some(Mail {
        arrives,
        made,
        maker,
        note,
        badge,
    })
}
