// One data packet (01, "Packets, queues and receiver"; 000, 6.6.1.1 and 6.6.1.2): checked, read and written. p is the number of its
// data bytes; a header byte stands before them and the CRC-16 of all that behind them.
#![tactic(auto)]

ghost use Rattle.std.specs.Prelude.{◌≡◌, ◌∷◌, ◌+◌, ◌≤◌, ◌<◌, length};
ghost use Rattle.laws.specs.Refuse.{refused_with};
ghost use Rattle.laws.specs.Written.{written};
ghost use Rattle.refusal.specs.Refusal.{number_in};
ghost use Rattle.moves.specs.Wrote.{wrote_in};
ghost use Rattle.packet.specs.Packet.{packet_of, padded, head_of, data_of, sealed};
ghost use Rattle.packet.specs.Calls.{check_for, head_in, read_for, useful_for, write_tests, write_for, out_for};

use refusal::Refusal;

// What a packet's header says, and how many useful bytes it has.
#[derive(Clone, Copy, Default)]
pub struct Head {
    pub first: bool,
    pub last: bool,
    pub id: u8,
    pub padded: bool,
    pub index: u8,
    pub length: usize,
}

impl Head {
    // The header byte.
    fn byte(self) -> u8
        requires { (self.id < 4) × (self.index < 8) }
        ensures { result ≡ head_of self.first self.last self.id self.padded self.index }
    {
        u8::from(self.first) * 128
            + u8::from(self.last) * 64
            + self.id * 16
            + u8::from(self.padded) * 8
            + self.index
    }

    // Why a packet with this header is not written to an output of so many bytes.
    fn fits(self, p: usize, room: usize) -> Result<(), Refusal>
        ensures { number_in result ≡ refused_with (write_tests p self.id self.index self.length room) }
    {
        if p == 0 || 255 < p {
            return Err(Refusal::BadSettings);
        }
        if p < self.length {
            return Err(Refusal::Size);
        }
        if 3 < self.id || 7 < self.index {
            return Err(Refusal::BadValue);
        }
        if room < p + 3 {
            return Err(Refusal::Size);
        }
        Ok(())
    }
}

// The padded flag of a header.
fn is_padded(head: u8) -> bool
    ensures { result ≡ padded head }
{
    head / 8 % 2 == 1
}

// Refused with 13: p outside 1 to 255. With 1: another length than p + 3. With 16: the check word is wrong, or the count of a padded
// packet is over p - 1.
pub fn check(p: usize, bytes: &[u8]) -> Result<(), Refusal>
    ensures { number_in result ≡ check_for p bytes.now }
{
    if p == 0 || 255 < p {
        return Err(Refusal::BadSettings);
    }
    if bytes.len() != p + 3 {
        return Err(Refusal::Size);
    }
    if fields::read16(bytes, p + 1) != crc::crc16(&bytes[0..p + 1]) {
        return Err(Refusal::PacketCrc);
    }
    if is_padded(bytes[0]) && p - 1 < usize::from(bytes[1]) {
        return Err(Refusal::PacketCrc);
    }
    Ok(())
}

// The header and the number of useful bytes. Refused as `check` is.
pub fn read(p: usize, bytes: &[u8]) -> Result<Head, Refusal>
    ensures { head_in result ≡ read_for p bytes.now }
{
    check(p, bytes)?;
    let h = bytes[0];
    let padded = is_padded(h);
    Ok(Head {
        first: h / 128 % 2 == 1,
        last: h / 64 % 2 == 1,
        id: h / 16 % 4,
        padded,
        index: h % 8,
        length: if padded { usize::from(bytes[1]) } else { p },
    })
}

// The useful bytes, as a part of the packet: empty where `check` refuses it.
pub fn useful<'a>(p: usize, bytes: &'a [u8]) -> &'a [u8]
    ensures { result.now ≡ useful_for p bytes.now }
{
    if check(p, bytes).is_err() {
        return &bytes[..0];
    }
    if is_padded(bytes[0]) {
        let n = usize::from(bytes[1]);
        return &bytes[2..2 + n];
    }
    &bytes[1..p + 1]
}

// A header and the p data bytes that carry the useful ones.
fn put_plain(p: usize, head: u8, useful: &[u8], out: &mut [u8])
    requires { (1 ≤ p) × (p ≤ 255) × (length useful.now ≤ p) × (p + 3 ≤ length out.old) }
    ensures { out.new ≡ written out.old 0 (head ∷ data_of p useful.now) }
{
    let n = useful.len();
    out[0] = head;
    if n < p {
        out[1] = n as u8;
        moves::copy(useful, out, 2);
        moves::clear(out, 2 + n, p - 1 - n);
        return;
    }
    moves::copy(useful, out, 1);
}

// The same, with the check word behind.
fn put(p: usize, head: u8, useful: &[u8], out: &mut [u8])
    requires { (1 ≤ p) × (p ≤ 255) × (length useful.now ≤ p) × (p + 3 ≤ length out.old) }
    ensures { out.new ≡ written out.old 0 (sealed (head ∷ data_of p useful.now)) }
{
    put_plain(p, head, useful, out);
    let word = crc::crc16(&out[0..p + 1]);
    fields::write16(out, p + 1, word);
}

// Writes a packet to the front of the output; it is padded where it has fewer than p useful bytes. Refused with 13: p outside 1 to
// 255. With 1: over p useful bytes. With 6: an id over 3, an index over 7. Last with 1: an output under p + 3 bytes.
pub fn write(
    p: usize,
    first: bool,
    last: bool,
    id: u8,
    index: u8,
    useful: &[u8],
    out: &mut [u8],
) -> Result<usize, Refusal>
    ensures answer { wrote_in result ≡ write_for p (packet_of first last id index useful.now) (length out.old) }
    ensures memory { out.new ≡ out_for p (packet_of first last id index useful.now) out.old }
{
    let n = useful.len();
    let head = Head {
        first,
        last,
        id,
        padded: n < p,
        index,
        length: n,
    };
    head.fits(p, out.len())?;
    put(p, head.byte(), useful, out);
    Ok(p + 3)
}
