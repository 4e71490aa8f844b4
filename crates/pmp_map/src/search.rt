//! The search for the run that contains a byte.

ghost use Rattle.std.specs.Prelude.{◌≡◌, ◌+◌, ◌*◌, ◌<◌, ◌≤◌};
ghost use Rattle.pmp_map.specs.Search.{IsRising, IsBetween, IsWithin};

/// The length of a table of starts, more than the number of runs: the six times six times six places that a search
/// distinguishes, and one more at the end.
pub const PLACES: usize = 6 * 6 * 6 + 1;

/// Tables with at most this many runs are searched by two counts instead of three.
pub const SHORT: usize = 36;

/// Tables with no more runs than this are searched by one count.
pub const FEW: usize = 6;

/// Returns the place of the byte among six, `stride` apart from `low` on: counts the starts at or below the byte.
#[inline(always)]
fn count_from(starts: &[u64; PLACES], low: usize, stride: usize, byte: u64) -> usize
    requires { low + 6 * stride < PLACES }
    ensures inside { result + stride < PLACES }
    ensures between { IsRising starts.now → IsBetween starts.now byte low (6 * stride)
        → IsBetween starts.now byte result stride }
{
    let count = usize::from(starts[low + stride] <= byte)
        + usize::from(starts[low + 2 * stride] <= byte)
        + usize::from(starts[low + 3 * stride] <= byte)
        + usize::from(starts[low + 4 * stride] <= byte)
        + usize::from(starts[low + 5 * stride] <= byte);
    low + stride * count
}

/// Returns the place, in a table of starts for the given number of runs, of the run that has the byte. It is before the
/// last place for any table and number. Adds up tests instead of branching on them; the branches are the same at every
/// look-up of a map.
#[inline(always)]
pub fn place_of(starts: &[u64; PLACES], runs: usize, byte: u64) -> usize
    ensures inside { result + 1 < PLACES }
    ensures between { IsWithin starts.now runs byte → IsBetween starts.now byte result 1 }
{
    let far = if runs > SHORT {
        count_from(starts, 0, 36, byte)
    } else {
        0
    };
    let near = if runs > FEW {
        count_from(starts, far, 6, byte)
    } else {
        far
    };
    count_from(starts, near, 1, byte)
}
