//! Trees of minima over places, each stored in one list. The four children of a node are adjacent,
//! so the root is node 3, the parent of node `j` is `j / 4 + 2`, and nodes 0 to 2 are unused. The
//! numbers of the places follow the inner nodes.
ghost use Rattle.std.specs.Prelude.{◌≡◌, ◌+◌, ◌-◌, ◌*◌, ◌≤◌, length, slice_index_or, slice_set};
ghost use Rattle.mcs_release.specs.stored.Least.{empty, leaves, least_child, IsLeast};

/// The root of each tree.
pub(crate) const ROOT: usize = 3;

/// The number of an empty place, above every other number.
pub(crate) const EMPTY: u64 = u64::MAX;

/// Lowers the number of a place.
pub(crate) fn lower(nodes: &mut [u64], inner: usize, place: usize, number: u64)
    requires tree { IsLeast inner nodes.old }
    requires within { place ≤ 3 * inner }
    requires lower { number ≤ slice_index_or (leaves inner nodes.old) place empty }
    ensures tree { IsLeast inner nodes.new }
    ensures leaves { leaves inner nodes.new ≡ slice_set (leaves inner nodes.old) place number }
{
    let mut node = inner + ROOT + place;
    nodes[node] = number;
    while node > ROOT {
        node = node / 4 + 2;
        if nodes[node] <= number {
            return;
        }
        nodes[node] = number;
    }
}

/// Empties a place.
pub(crate) fn clear(nodes: &mut [u64], inner: usize, place: usize)
    requires tree { IsLeast inner nodes.old }
    requires within { place ≤ 3 * inner }
    ensures tree { IsLeast inner nodes.new }
    ensures leaves { leaves inner nodes.new ≡ slice_set (leaves inner nodes.old) place empty }
{
    let mut node = inner + ROOT + place;
    nodes[node] = EMPTY;
    while node > ROOT {
        node = node / 4 + 2;
        nodes[node] = least_child(nodes, node);
    }
}

/// Recomputes every inner node as the minimum of its children, after numbers of places changed.
pub(crate) fn rebuild(nodes: &mut [u64], inner: usize)
    requires { length nodes.old ≡ 4 * inner + 4 }
    ensures tree { IsLeast inner nodes.new }
    ensures leaves { leaves inner nodes.new ≡ leaves inner nodes.old }
{
    for i in 0..inner {
        let node = inner + 2 - i;
        nodes[node] = least_child(nodes, node);
    }
}

/// Returns the minimum of the four children of an inner node.
#[inline(always)]
fn least_child(nodes: &[u64], node: usize) -> u64
    requires inner { 3 ≤ node }
    requires within { 4 * node ≤ length nodes.now + 4 }
    ensures { result ≡ least_child nodes.now node }
{
    let child = 4 * node - 8;
    nodes[child]
        .min(nodes[child + 1])
        .min(nodes[child + 2].min(nodes[child + 3]))
}
