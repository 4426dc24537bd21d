//! Spare places. A queue for many threads begins with few places, so its tree is low as long as few
//! threads wait. If more wait, they move into its spare places, which are enough for all.
ghost use Rattle.std.specs.Prelude.{◌≡◌, ◌≤◌, ◌<◌, length};
ghost use Rattle.mcs_release.specs.stored.Places.{entered, AreEmptyFrom, AreEnoughFor, AsManyFit};

use crate::places::Places;

/// Moves all threads to the front and returns how many there are. If they take more than half of
/// the places, they move into the spare ones, if there are any. The old places are then freed.
#[inline(never)]
pub(crate) fn make_room(places: &mut Places, spare: &mut Option<Places>) -> usize
    requires { AreEnoughFor (length (entered places.old)) places.old spare.old }
    ensures entered { entered places.new ≡ entered places.old }
    ensures within { result < length places.new }
    ensures behind { AreEmptyFrom result places.new }
    ensures enough { AsManyFit places.old spare.old places.new spare.new }
{
    let front = places.close_up();
    if front > places.len() / 2 {
        if let Some(mut more) = spare.take() {
            move_over(places, &mut more, front);
            *places = more;
        }
    }
    front
}

/// Puts the threads of the first `front` places into the same places of `to`, which are empty. The
/// other places of `from` are empty.
fn move_over(from: &Places, to: &mut Places, front: usize)
    requires within { front ≤ length from.now }
    requires wide { front ≤ length to.old }
    requires behind { AreEmptyFrom front from.now }
    requires empty { AreEmptyFrom 0 to.old }
    ensures entered { entered to.new ≡ entered from.now }
    ensures behind { AreEmptyFrom front to.new }
    ensures len { length to.new ≡ length to.old }
{
    for place in 0..front {
        if let Some(entry) = from.get(place) {
            to.put(place, entry);
        }
    }
}
