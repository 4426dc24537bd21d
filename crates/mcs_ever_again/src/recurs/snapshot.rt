ghost use Rattle.std.specs.Prelude.{◌≡◌};

use crate::image::CoreImage;
use crate::under_way::UnderWay;
use mcs_ticks::Tick;
use std::marker::Model;

/// All cores of a system before one moment, in plain lists, and the signals under way between them.
#[derive(Debug, Drop)]
pub struct Snapshot {
    moment: Tick,
    cores: Vec<CoreImage>,
    under_way: UnderWay,
}

impl Model for Snapshot {
    ghost use Rattle.mcs_ever_again.specs.Snapshot.{Snapshot as TheSnapshot};

    ghost Value = { TheSnapshot };

    ghost view = { λ a. record { moment = a.moment; each = a.cores.items; mails = a.under_way } };
}

impl Snapshot {
    /// Returns a snapshot of the cores before a moment, by their numbers, and of the signals under
    /// way.
    pub fn new(moment: Tick, cores: Vec<CoreImage>, under_way: UnderWay) -> Self
        ensures { result ≡ record { moment = moment; each = cores.items; mails = under_way } }
    {
        Snapshot {
            moment,
            cores,
            under_way,
        }
    }

    /// The moment of the snapshot.
    pub fn moment(&self) -> Tick
        ensures { result ≡ self.now.moment }
    {
        self.moment
    }

    /// The cores, by their numbers.
    pub fn cores(&self) -> &[CoreImage]
        ensures { result.now ≡ self.now.each }
    {
        self.cores.as_slice()
    }

    /// The signals under way.
    pub fn under_way(&self) -> &UnderWay
        ensures { result.now ≡ self.now.mails }
    {
        &self.under_way
    }
}
