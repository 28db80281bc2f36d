// Where the items of a table stand in a packet, for any table of names: one walk (01, "MDI packet"). A row is known by its place in the
// table; the numbers of its item stand at that place of two lent slices, 0 and 0 where there is no such item.
#![tactic(auto)]

ghost use Rattle.std.specs.Prelude.{◌≡◌, ◌^◌, ◌≤◌, ◌<◌, length};
ghost use Rattle.items.specs.Items.{cut_of};
ghost use Rattle.tag_spots.specs.Rows.{keys_of, starts_after, bits_after, starts_for, bits_for};
ghost use Rattle.tag_spots.specs.Notes.{row_of, IsRow, noted_at};

// The row whose name has this number, of n rows. The names stand one behind the other, four bytes each; the slot at
// the number's remainder holds the only row that can have it.
fn row_of(names: &[u8], slots: &[u8], n: usize, key: u32) -> Option<usize>
    ensures { IsRow n (row_of key (keys_of names.now slots.now n)) result }
{
    let m = slots.len();
    if m == 0 {
        return None;
    }
    let row = usize::from(slots[key as usize % m]);
    if row < n && fields::read32(names, 4 * row) == key {
        return Some(row);
    }
    None
}

// An item is noted in the row of its name. The first one stays, and an unknown item is passed over.
fn note(
    names: &[u8],
    slots: &[u8],
    key: u32,
    start: usize,
    size: u32,
    starts: &mut [usize],
    bits: &mut [u32],
)
    requires { length bits.old ≡ length starts.old }
    ensures { (starts.new ≡ noted_at (row_of key (keys_of names.now slots.now (length starts.old))) start starts.old starts.old) × (bits.new ≡ noted_at (row_of key (keys_of names.now slots.now (length starts.old))) size starts.old bits.old) × (key < 2 ^ 32) }
{
    let n = starts.len();
    if let Some(i) = row_of(names, slots, n, key) {
        if starts[i] == 0 {
            starts[i] = start;
            bits[i] = size;
        }
    }
}

// One walk over the packet notes the first item of each row that has none yet, and gives where the whole items stop.
fn note_all(s: &[u8], names: &[u8], slots: &[u8], starts: &mut [usize], bits: &mut [u32]) -> usize
    requires { length bits.old ≡ length starts.old }
    ensures { (result ≡ (cut_of s.now).stop) × (result ≤ length s.now) × (starts.new ≡ starts_after (keys_of names.now slots.now (length starts.old)) (cut_of s.now).items starts.old bits.old) × (bits.new ≡ bits_after (keys_of names.now slots.now (length starts.old)) (cut_of s.now).items starts.old bits.old) }
{
    let mut at: usize = 0;
    // Kept: a loop, for the answer is the offset where the items stop, as in items::walk.
    loop {
        let n = items::size_at(s, at);
        if n == 0 {
            return at;
        }
        let key = fields::read32(s, at);
        let size = fields::read32(s, at + 4);
        note(names, slots, key, at + 8, size, starts, bits);
        at += n;
    }
}

// The same of any two slices: where their lengths differ they are left as they are.
// Kept: two slices, since docs/PROMISES.md (tag_spots) and starts_for and bits_for say what is left where their lengths differ.
pub fn find_all(
    s: &[u8],
    names: &[u8],
    slots: &[u8],
    starts: &mut [usize],
    bits: &mut [u32],
) -> usize
    ensures { (result ≡ (cut_of s.now).stop) × (result ≤ length s.now) × (starts.new ≡ starts_for names.now slots.now (cut_of s.now).items starts.old bits.old) × (bits.new ≡ bits_for names.now slots.now (cut_of s.now).items starts.old bits.old) }
{
    if bits.len() != starts.len() {
        let w = items::walk(s);
        return w.stop;
    }
    note_all(s, names, slots, starts, bits)
}
