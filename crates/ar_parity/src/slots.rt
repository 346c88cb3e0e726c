// The slots of a parity group: the parity rotates, the data are in order past it (right-asymmetric, as md calls it).
//
//              member 0   member 1   member 2   member 3
//     row 0    P          slot 0     slot 1     slot 2
//     row 1    slot 3     P          slot 4     slot 5
//     row 2    slot 6     slot 7     P          slot 8
//     row 3    slot 9     slot 10    slot 11    P
ghost use Rattle.std.specs.Prelude.{◌≡◌, ◌+◌, ◌<◌, ◌≢◌, ◌%◌};
ghost use Rattle.ar_parity.specs.Row.{row_of, data_position, parity_position};
ghost use Rattle.ar_parity.specs.Others.{low_other, high_other};

// The data blocks of a stripe.
const DATA_BLOCKS: u16 = 3;

// The row of a slot.
pub(crate) fn row_of_slot(slot: u16) -> u16
    ensures { result ≡ row_of slot }
{
    slot / DATA_BLOCKS
}

// The member position of a stripe's parity.
pub(crate) fn parity_at(row: u16) -> u8
    ensures position { result ≡ parity_position row }
    ensures below { result < 4 }
{
    (row % 4) as u8
}

// The member position of a slot's block.
pub(crate) fn data_at(slot: u16) -> u8
    ensures position { result ≡ data_position slot }
    ensures below { result < 4 }
    ensures apart { result ≢ parity_position (row_of slot) }
{
    let place = (slot % DATA_BLOCKS) as u8;
    if place < parity_at(row_of_slot(slot)) {
        place
    } else {
        place + 1
    }
}

// The position after this one, and so another.
pub(crate) fn another(position: u8) -> u8
    requires { position < 4 }
    ensures next { result ≡ (position + 1) % 4 }
    ensures below { result < 4 }
    ensures apart { result ≢ position }
{
    (position + 1) % 4
}

// The lowest position that is neither of two.
pub(crate) fn lowest_beside(one: u8, other: u8) -> u8
    ensures position { result ≡ low_other one other }
    ensures below { result < 4 }
    ensures apart_one { result ≢ one }
    ensures apart_other { result ≢ other }
{
    if one != 0 && other != 0 {
        0
    } else if one != 1 && other != 1 {
        1
    } else {
        2
    }
}

// The highest position that is neither of two.
pub(crate) fn highest_beside(one: u8, other: u8) -> u8
    ensures position { result ≡ high_other one other }
    ensures below { result < 4 }
    ensures apart_one { result ≢ one }
    ensures apart_other { result ≢ other }
{
    if one != 3 && other != 3 {
        3
    } else if one != 2 && other != 2 {
        2
    } else {
        1
    }
}
