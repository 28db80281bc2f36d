// 01's table of items ("MDI packet"): where the known items of a packet stand, whether one that must be there is missing, and whether one
// has a length that is not in the table. A row is its place in the table.
#![tactic(auto)]

ghost use Rattle.std.specs.Prelude.{Bool, ◌&&◌, not, ◌≡◌, ◌≤◌, length};
ghost use Rattle.items.specs.Items.{cut_of};
ghost use Rattle.mdi_spots.specs.Table.{whole_bytes, sdc_bits, sdci_bits};
ghost use Rattle.mdi_spots.specs.Spotted.{passed_of, spot_in, away, absent_at, bad_length_at};

use items::Spot;

// The names in the table's order, four bytes each: looked for by the reader, written by the writer.
pub const NAMES: [u8; 44] = *b"*ptrdlfcfac_sdc_sdcirobmstr0str1str2str3tist";

// The row in the slot at the remainder of its name's number by 13; 11 where there is none.
const SLOTS: [u8; 13] = [11, 2, 0, 6, 7, 8, 9, 4, 5, 10, 3, 1, 11];

// The value of `*ptr` as it is written: the protocol's four letters, major and minor revision 0. The reader compares the letters.
pub const OPENING: [u8; 8] = *b"DMDI\0\0\0\0";

pub const PTR: usize = 0;

pub const DLFC: usize = 1;

pub const FAC: usize = 2;

pub const SDC: usize = 3;

pub const SDCI: usize = 4;

pub const ROBM: usize = 5;

pub const STR0: usize = 6;

pub const STR1: usize = 7;

pub const STR2: usize = 8;

pub const STR3: usize = 9;

pub const TIST: usize = 10;

// Where the value of each row's item starts in the packet, and how many bits it has; 0 and 0: there is no such item.
// Kept: two arrays, as tag_spots::find_all fills them; one array of Spot would be a copy of them, row by row.
#[derive(Clone, Copy)]
pub struct Spots {
    pub start: [usize; 11],
    pub bits: [u32; 11],
}

// What one walk over a packet gives: the spots of its known items, and the offset behind its last whole item.
#[derive(Clone, Copy)]
pub struct Passed {
    pub spots: Spots,
    pub stop: usize,
}

pub fn find_all(s: &[u8]) -> Passed
    ensures { (result ≡ passed_of (cut_of s.now)) × (result.stop ≤ length s.now) }
{
    let mut start = [0usize; 11];
    let mut bits = [0u32; 11];
    let stop = tag_spots::find_all(s, &NAMES, &SLOTS, &mut start, &mut bits);
    let spots = Spots { start, bits };
    Passed { spots, stop }
}

// The spot of a row; 0 and 0 where there is no such row.
pub fn spot(t: Spots, row: usize) -> Spot
    ensures { result ≡ spot_in t row }
{
    if 11 <= row {
        return Spot { start: 0, bits: 0 };
    }
    let start = t.start[row];
    let bits = t.bits[row];
    Spot { start, bits }
}

fn is_away(x: Spot) -> bool
    ensures { result ≡ away x }
{
    x.start == 0
}

fn is_whole(bits: u32) -> bool
    ensures { result ≡ whole_bytes bits }
{
    bits % 8 == 0
}

fn is_sdc(bits: u32) -> bool
    ensures { result ≡ sdc_bits bits }
{
    bits == 0 || (24..=8216).contains(&bits) && is_whole(bits)
}

fn is_sdci(bits: u32) -> bool
    ensures { result ≡ sdci_bits bits }
{
    [32, 56, 80, 104].contains(&bits)
}

// An item that is there has a length that is not allowed.
fn is_wrong<F: Fn(u32) -> bool>(x: Spot, is_allowed: F) -> bool
    requires { F.IsAlwaysCallable is_allowed }
    ensures { (ok : Bool) × F.post is_allowed x.bits ok × (result ≡ (not (away x) && not ok)) }
{
    !is_away(x) & !is_allowed(x.bits)
}

// 4: one of the five items that must be there is not.
pub fn missing(t: Spots) -> bool
    ensures { result ≡ absent_at t }
{
    is_away(spot(t, PTR))
        | is_away(spot(t, DLFC))
        | is_away(spot(t, FAC))
        | is_away(spot(t, SDCI))
        | is_away(spot(t, ROBM))
}

// 5: an item has a length that is not in the table.
pub fn bad_length(t: Spots) -> bool
    ensures { result ≡ bad_length_at t }
{
    is_wrong(spot(t, PTR), |bits| bits == 64)
        | is_wrong(spot(t, DLFC), |bits| bits == 32)
        | is_wrong(spot(t, FAC), |bits| bits == 72)
        | is_wrong(spot(t, SDC), is_sdc)
        | is_wrong(spot(t, SDCI), is_sdci)
        | is_wrong(spot(t, ROBM), |bits| bits == 8)
        | is_wrong(spot(t, STR0), is_whole)
        | is_wrong(spot(t, STR1), is_whole)
        | is_wrong(spot(t, STR2), is_whole)
        | is_wrong(spot(t, STR3), is_whole)
        | is_wrong(spot(t, TIST), |bits| bits == 64)
}
