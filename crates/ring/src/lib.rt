// Bytes that stand in a ring (02, E9): from a place on to the end, and on from the front.
#![tactic(auto)]

ghost use Rattle.std.specs.Prelude.{◌≡◌};
ghost use Rattle.ring.specs.Ring.{copied_out, copied_in};

// The n bytes of the ring from place at on, to the front of dst. Where there is no such place or no room, nothing is written.
pub fn copy_out(ring: &[u8], at: usize, n: usize, dst: &mut [u8])
    ensures { dst.new ≡ copied_out ring.now at n dst.old }
{
    if ring.len() < at || ring.len() < n || dst.len() < n {
        return;
    }
    let (front, back) = ring.split_at(at);
    if n <= back.len() {
        moves::copy(&back[..n], dst, 0);
    } else {
        moves::copy(back, dst, 0);
        moves::copy(&front[..n - back.len()], dst, back.len());
    }
}

// All of src into the ring, from place at on. Where there is no such place or no room, nothing is written.
pub fn copy_in(src: &[u8], ring: &mut [u8], at: usize)
    ensures { ring.new ≡ copied_in ring.old at src.now }
{
    if ring.len() < at || ring.len() < src.len() {
        return;
    }
    let room = ring.len() - at;
    if src.len() <= room {
        moves::copy(src, ring, at);
    } else {
        let (head, rest) = src.split_at(room);
        moves::copy(head, ring, at);
        moves::copy(rest, ring, 0);
    }
}
