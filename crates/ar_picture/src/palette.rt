// Colours. Those of units, of extents and of the background all differ (`colours_differ`).
ghost use Rattle.std.specs.Prelude.{◌≡◌, ◌+◌, ◌*◌, true, ◌∷◌, map, slice_index_or};
ghost use Rattle.std.specs.List.{list_all};
ghost use Rattle.ar_picture.specs.Looks.{are_apart, colour_at, is_colour};

use crate::{UNITS_MAX, Unit};

/// The colours of units: that of unit L of host H has index 8 H + L. The hosts' hues, from Okabe and Ito's palette, are
/// distinct with red-green colour blindness, too; a host's units alternate between dark and light.
pub static COLOURS: [&str; UNITS_MAX] = [
    // Host 0: blue.
    "#0072B2", "#99C7E0", "#003350", "#4C9CC9", "#00507D", "#C7E0EE", "#001927", "#73B1D5",
    // Host 1: vermilion.
    "#D55E00", "#EEBF99", "#602A00", "#E28E4C", "#954200", "#F6DCC7", "#2F1500", "#E8A673",
    // Host 2: bluish green.
    "#009E73", "#99D8C7", "#004734", "#4CBB9D", "#006F50", "#C7EAE0", "#002319", "#73CAB2",
    // Host 3: reddish purple.
    "#CC79A7", "#EBC9DC", "#5C364B", "#DBA1C1", "#8F5575", "#F4E2EC", "#2D1B25", "#E3B5CF",
];

/// The colour for an index without a unit.
const NO_UNIT: &str = "#000000";

/// The fill of extents of mirrored groups.
pub const MIRRORED: &str = "#D3EAF9";

/// The fill of extents of parity groups.
pub const PARITY: &str = "#FBF1C0";

/// The fill of extents of free groups, and the background.
pub const GROUND: &str = "#FFFFFF";

/// All colours differ: each unit's, that for no unit, and the fills behind them. The function does nothing.
pub fn colours_differ()
    // All are written in the same form, so that different texts are different colours.
    ensures written { list_all is_colour
        (MIRRORED.now ∷ PARITY.now ∷ GROUND.now ∷ NO_UNIT.now ∷ map (λ colour. colour.now) COLOURS) ≡ true }
    ensures apart { are_apart
        (MIRRORED.now ∷ PARITY.now ∷ GROUND.now ∷ NO_UNIT.now ∷ map (λ colour. colour.now) COLOURS) ≡ true }
{}

/// Returns the colour of a unit.
pub fn colour_of(unit: Unit) -> &'static str
    ensures { result.now ≡ colour_at (8 * unit.host + unit.lun) }
{
    colour_at(8 * usize::from(unit.host) + usize::from(unit.lun))
}

/// Returns the colour of the unit with this index, or black past the last unit.
#[tactic(auto, unfolding(crate::specs::Looks::colour_at))]
pub fn colour_at(index: usize) -> &'static str
    ensures { result.now ≡ colour_at index }
{
    text_at(&COLOURS, index, NO_UNIT)
}

// The text at an index, or `other` past the end.
fn text_at(texts: &[&'static str], place: usize, other: &'static str) -> &'static str
    ensures { result.now ≡ slice_index_or (map (λ text. text.now) texts.now) place other.now }
{
    match texts.get(place) {
        Some(text) => *text,
        None => other,
    }
}
