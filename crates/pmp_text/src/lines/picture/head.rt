//! What stands above the bands of a picture.

ghost use Rattle.std.specs.Prelude.{◌≡◌, is_some};
ghost use Rattle.pmp_text.specs.MetNames.{given_names};
ghost use Rattle.pmp_text.specs.Picture.{names_head, switch_text, width_text};

use crate::address_name::AddressNames;
use pmp_core::{Csr, RegFile};

/// What the picture shows, in words for screen readers, and the colour for each set of rights of supervisor and user mode.
pub const STYLE: &str = "\
<desc>One band for each run of bytes that have one owner, from byte 0 down to byte 2^56 - 1, not to scale. A band has
the first and the last byte of its run, its size, its owner, what machine mode may do there, what supervisor and user
mode may do there, and its lock: a full one if the owner and all entries before it are frozen, so that what the
owner decides holds until a reset, an empty one if only the owner is, an open one if RLB bypasses it.</desc>
<style>
text{font-family:monospace;font-size:13px;fill:#111}
.large{font-size:20px;font-weight:bold}
rect{fill:#fff}
g rect{stroke:#fff}
path{fill:#111}
.empty{fill:none;stroke:#111}
.su--- rect{fill:#dcdfe4}
.su--x rect{fill:#e2d0ff}
.sur-- rect{fill:#c9e2ff}
.sur-x rect{fill:#c4edcb}
.surw- rect{fill:#ffe9a3}
.surwx rect{fill:#ffc4ba}
</style>
";

/// What the bands and their colours mean, and the names of their columns but that of names.
pub const LEGEND: &str = "\
<text x='16' y='86'>One band for each run of bytes that have one owner, from byte 0 down to byte 2^56 - 1; \
not to scale.</text>
<text x='16' y='117'>Colour: what supervisor and user mode may do</text>
<g class='su---' transform='translate(380,117)'><rect y='-17' width='88' height='24'/><text x='8'>--- none</text></g>
<g class='su--x' transform='translate(476,117)'><rect y='-17' width='64' height='24'/><text x='20'>--x</text></g>
<g class='sur--' transform='translate(548,117)'><rect y='-17' width='64' height='24'/><text x='20'>r--</text></g>
<g class='sur-x' transform='translate(620,117)'><rect y='-17' width='64' height='24'/><text x='20'>r-x</text></g>
<g class='surw-' transform='translate(692,117)'><rect y='-17' width='64' height='24'/><text x='20'>rw-</text></g>
<g class='surwx' transform='translate(764,117)'><rect y='-17' width='64' height='24'/><text x='20'>rwx</text></g>
<g transform='translate(16,152)'>
<text x='8'>First byte</text><text x='148'>Last byte</text><text x='292'>Size</text><text x='496'>Owner</text>
<text x='592'>Machine</text><text x='700'>Supervisor, user</text><text x='846'>Lock</text>";

/// Where the bands begin.
pub const BANDS: &str = "
</g>
<g transform='translate(16,177)'>
";

/// Returns the width of a picture, which is wider with names.
pub fn width_word(names: Option<AddressNames<'_>>) -> &'static str
    ensures { result.now ≡ width_text (is_some (given_names names.entry)) }
{
    match names {
        Some(_) => "1280",
        None => "960",
    }
}

/// Returns the name of the column of names, if there is one.
pub fn names_head(names: Option<AddressNames<'_>>) -> &'static str
    ensures { result.now ≡ names_head (is_some (given_names names.entry)) }
{
    match names {
        Some(_) => "<text x='936'>Names</text>",
        None => "",
    }
}

/// Whether a bit of `mseccfg` is set.
pub fn switch_word(is_on: bool) -> &'static str
    ensures { result.now ≡ switch_text is_on }
{
    if is_on { "on" } else { "off" }
}

/// Returns which of the bits MML, MMWP and RLB of `mseccfg` are set.
pub fn switches(file: &RegFile) -> (bool, bool, bool)
    ensures { record { mml = result.0; mmwp = result.1; rlb = result.2 } ≡ file.now.mseccfg }
{
    let bits = file.read(Csr::Mseccfg);
    (bits % 2 == 1, bits / 2 % 2 == 1, bits / 4 % 2 == 1)
}
