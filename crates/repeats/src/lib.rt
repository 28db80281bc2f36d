// The first item of a packet whose name came earlier (01, "MDI packet"; refusal 3). The names are kept in a digital search tree: a name
// is found or stored in at most 33 steps whatever the names are, so that no packet costs more than its bytes are worth.
#![tactic(auto)]

ghost use Rattle.std.specs.Prelude.{◌≡◌, ◌+◌, ◌*◌, ◌≤◌, ◌<◌, length};
ghost use Rattle.items.specs.Items.{cut_of, twice};
ghost use Rattle.repeats.specs.Tree.{Tree, Ends, Stored, Zeros, Looked};
ghost use Rattle.repeats.specs.Repeats.{repeat_in, repeat_of, repeat_for};

// Ok: the node of a key. Err: the free place below the last node on its way.
fn descend(keys: &[u32], kids: &[u32], n: usize, key: u32) -> Result<usize, usize>
    requires { (0 < n) × (n ≤ length keys.now) × (2 * n ≤ length kids.now) × Tree keys.now kids.now n }
    ensures { Ends keys.now kids.now n key result }
{
    let mut node: usize = 0;
    let mut w = key;
    // Kept: a loop down the tree, from node to node; it counts no index.
    loop {
        if keys[node] == key {
            return Ok(node);
        }
        let slot = 2 * node + (w % 2) as usize;
        let next = kids[slot] as usize;
        if next == 0 {
            return Err(slot);
        }
        node = next;
        w = w / 2;
    }
}

// Whether a key is one of the n stored; it is stored if it is not.
fn insert(key: u32, n: usize, keys: &mut [u32], kids: &mut [u32]) -> bool
    requires { (n < length keys.old) × (n < 8192) × (2 * n + 2 ≤ length kids.old) × Tree keys.old kids.old n }
    ensures { Stored keys.old kids.old n key result keys.new kids.new }
{
    if n == 0 {
        keys[0] = key;
        return false;
    }
    match descend(keys, kids, n, key) {
        Ok(_) => true,
        Err(slot) => {
            keys[n] = key;
            kids[slot] = n as u32;
            false
        }
    }
}

// The names of the packet's items are stored one after the other, until one is there already: its item's offset, where
// there is one. None: there was no room for all the names.
fn store(s: &[u8], keys: &mut [u32], kids: &mut [u32]) -> Option<Option<usize>>
    requires { (length keys.old ≤ 8192) × (2 * length keys.old ≤ length kids.old) × Zeros kids.old }
    ensures { Looked s.now (length keys.old) result }
{
    let mut n: usize = 0;
    let mut at: usize = 0;
    // Kept: a loop; it ends in three ways, each with an answer of its own, and a `for` over the items would have these and a fourth behind it.
    loop {
        let k = items::size_at(s, at);
        if k == 0 {
            return Some(None);
        }
        if n == keys.len() {
            return None;
        }
        if insert(fields::read32(s, at), n, keys, kids) {
            return Some(Some(at));
        }
        n += 1;
        at += k;
    }
}

// Arrays for few items and for as many as a packet may have: most packets are spared the clearing of 96 KB.
fn among_few(s: &[u8]) -> Option<Option<usize>>
    ensures { Looked s.now 32 result }
{
    let mut keys = [0u32; 32];
    let mut kids = [0u32; 64];
    store(s, &mut keys, &mut kids)
}

fn among_many(s: &[u8]) -> Option<usize>
    requires { length s.now ≤ 65528 }
    ensures { repeat_in result ≡ repeat_of (twice (cut_of s.now).items) }
{
    let mut keys = [0u32; 8192];
    let mut kids = [0u32; 16384];
    store(s, &mut keys, &mut kids).flatten()
}

// The offset of the first such item, where there is one. A packet of over 65,528 bytes is not looked at, and answered as one in which no name
// stands twice.
pub fn first_again(packet: &[u8]) -> Option<usize>
    ensures { repeat_in result ≡ repeat_for packet.now }
{
    if 65528 < packet.len() {
        return None;
    }
    match among_few(packet) {
        Some(first) => first,
        None => among_many(packet),
    }
}
