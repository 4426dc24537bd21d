ghost use Rattle.std.specs.Prelude.{◌≡◌};

use crate::image::CoreImage;
use crate::under_way::UnderWay;
use mcs_ticks::Tick;
use std::marker::Model;

/// All cores of a system before the present moment, in plain lists, beside the signals under way
/// between them, which it does not copy. Contracts see the snapshot that they are.
#[derive(Debug, Drop)]
pub struct Present<'a> {
    moment: Tick,
    cores: Vec<CoreImage>,
    under_way: &'a UnderWay,
}

impl<'a> Model for Present<'a> {
    ghost use Rattle.mcs_ever_again.specs.Snapshot.{Snapshot};

    ghost Value = { Snapshot };

    ghost view = { λ a. record { moment = a.moment; each = a.cores.items; mails = a.under_way.now } };
}

impl<'a> Present<'a> {
    /// Returns the cores before a moment, by their numbers, and the signals under way.
    pub fn new(moment: Tick, cores: Vec<CoreImage>, under_way: &'a UnderWay) -> Self
        ensures { result ≡ record { moment = moment; each = cores.items; mails = under_way.now } }
    {
        Present {
            moment,
            cores,
            under_way,
        }
    }

    /// The present moment.
    pub(crate) fn moment(&self) -> Tick
        ensures { result ≡ self.now.moment }
    {
        self.moment
    }

    /// The cores, by their numbers.
    pub(crate) fn cores(&self) -> &[CoreImage]
        ensures { result.now ≡ self.now.each }
    {
        self.cores.as_slice()
    }

    /// The signals under way.
    pub(crate) fn under_way(&self) -> &UnderWay
        ensures { result.now ≡ self.now.mails }
    {
        self.under_way
    }
}
