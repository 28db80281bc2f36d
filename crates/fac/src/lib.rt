// The fast access channel (01, "MDI packet", FAC; 000, 6.3): 18 fields in 64 bits with a CRC-8 behind them, read and written. All bits
// are kept, reserved ones too.
#![tactic(auto)]

ghost use Rattle.std.specs.Prelude.{◌≡◌, ◌≤◌, ◌<◌, ◌^◌, length, take, drop};
ghost use Rattle.laws.specs.Fields.{number_of};
ghost use Rattle.laws.specs.Refuse.{refused_with};
ghost use Rattle.laws.specs.Written.{written};
ghost use Rattle.fac.specs.Bounds.{ChannelFits, ServiceFits};
ghost use Rattle.fac.specs.Channel.{widths, in_order, fac_from, fac_bytes, fac_of, sealed, is_too_large, not_served};
ghost use Rattle.fac.specs.Answers.{read_tests, announced_in, read_for, write_tests, write_for, out_for};
ghost use Rattle.moves.specs.Wrote.{wrote_in};
ghost use Rattle.refusal.specs.Refusal.{number_in};

use refusal::Refusal;

// The fields in the order of their bits.
#[derive(Clone, Copy, Default, PartialEq, Eq)]
pub struct Fac {
    pub base: u8,
    pub identity: u8,
    pub rm: u8,
    pub occupancy: u8,
    pub interleaver: u8,
    pub msc: u8,
    pub sdc: u8,
    pub services: u8,
    pub reconfiguration: u8,
    pub channel: u8,
    pub service: u32,
    pub short: u8,
    pub audio_ca: u8,
    pub language: u8,
    pub audio_data: u8,
    pub descriptor: u8,
    pub data_ca: u8,
    pub reserved: u8,
}

// The fields of 64 bits: the widths are 1 2 1 3 1 2 1 4 3 2 24 2 1 4 1 5 1 6.
fn split(x: u64) -> Fac
    ensures { result ≡ fac_from x }
{
    Fac {
        base: (x / 9223372036854775808 % 2) as u8,
        identity: (x / 2305843009213693952 % 4) as u8,
        rm: (x / 1152921504606846976 % 2) as u8,
        occupancy: (x / 144115188075855872 % 8) as u8,
        interleaver: (x / 72057594037927936 % 2) as u8,
        msc: (x / 18014398509481984 % 4) as u8,
        sdc: (x / 9007199254740992 % 2) as u8,
        services: (x / 562949953421312 % 16) as u8,
        reconfiguration: (x / 70368744177664 % 8) as u8,
        channel: (x / 17592186044416 % 4) as u8,
        service: (x / 1048576 % 16777216) as u32,
        short: (x / 262144 % 4) as u8,
        audio_ca: (x / 131072 % 2) as u8,
        language: (x / 8192 % 16) as u8,
        audio_data: (x / 4096 % 2) as u8,
        descriptor: (x / 128 % 32) as u8,
        data_ca: (x / 64 % 2) as u8,
        reserved: (x % 64) as u8,
    }
}

// What a `fac_` value says, whatever its length: all zeros where it has fewer than eight bytes.
pub fn of_value(value: &[u8]) -> Fac
    ensures { result ≡ fac_of value.now }
{
    split(fields::read64(value, 0))
}

// Whether the ninth byte is the CRC-8 of the eight before it.
pub fn is_sealed(value: &[u8]) -> bool
    ensures { result ≡ sealed value.now }
{
    if value.len() < 9 {
        return false;
    }
    crc::crc8(&value[0..8]) == value[8]
}

// Whether a field has a number too large for its bits.
pub fn too_large(f: Fac) -> bool
    ensures { result ≡ is_too_large f }
{
    let service = (8 <= f.reconfiguration)
        | ((4 <= f.channel)
            | ((16777216 <= f.service)
                | ((4 <= f.short)
                    | ((2 <= f.audio_ca)
                        | ((16 <= f.language)
                            | ((2 <= f.audio_data)
                                | ((32 <= f.descriptor)
                                    | ((2 <= f.data_ca) | (64 <= f.reserved)))))))));
    (2 <= f.base)
        | ((4 <= f.identity)
            | ((2 <= f.rm)
                | ((8 <= f.occupancy)
                    | ((2 <= f.interleaver)
                        | ((4 <= f.msc) | ((2 <= f.sdc) | ((16 <= f.services) | service)))))))
}

// Whether the channel is one that 01 does not serve.
#[tactic(auto, unfolding(crate::specs::Channel::not_served))]
pub fn not_served(f: Fac) -> bool
    ensures { result ≡ not_served f }
{
    (f.base == 1)
        | (f.rm == 1)
        | ((f.occupancy == 6) | (f.occupancy == 7))
        | ((f.msc == 1) | (f.msc == 2))
        | ((f.services == 11) | (f.services == 14))
}

// Why a value is not read.
fn check_value(value: &[u8]) -> Result<(), Refusal>
    ensures { number_in result ≡ refused_with (read_tests value.now) }
{
    if 65528 < value.len() {
        return Err(Refusal::Size);
    }
    if value.len() != 9 {
        return Err(Refusal::ItemLength);
    }
    if !is_sealed(value) {
        return Err(Refusal::FacCrc);
    }
    if not_served(of_value(value)) {
        return Err(Refusal::NotServed);
    }
    Ok(())
}

// Reads the value of a `fac_` item. Refused with 1 (over 65,528 bytes), 5 (not 9 bytes), 7 (CRC), 9 (not served).
pub fn read(value: &[u8]) -> Result<Fac, Refusal>
    ensures { announced_in result ≡ read_for value.now }
{
    check_value(value)?;
    Ok(of_value(value))
}

// The 20 channel bits of fields that fit.
fn channel_bits(f: Fac) -> u64
    requires { ChannelFits f }
    ensures { (result ≡ number_of (take 10 widths) (take 10 (in_order f))) × (result < 2 ^ 20) }
{
    f.base as u64 * 524288
        + f.identity as u64 * 131072
        + f.rm as u64 * 65536
        + f.occupancy as u64 * 8192
        + f.interleaver as u64 * 4096
        + f.msc as u64 * 1024
        + f.sdc as u64 * 512
        + f.services as u64 * 32
        + f.reconfiguration as u64 * 4
        + f.channel as u64
}

// And the 44 service bits.
fn service_bits(f: Fac) -> u64
    requires { ServiceFits f }
    ensures { (result ≡ number_of (drop 10 widths) (drop 10 (in_order f))) × (result < 2 ^ 44) }
{
    f.service as u64 * 1048576
        + f.short as u64 * 262144
        + f.audio_ca as u64 * 131072
        + f.language as u64 * 8192
        + f.audio_data as u64 * 4096
        + f.descriptor as u64 * 128
        + f.data_ca as u64 * 64
        + f.reserved as u64
}

// The nine bytes of a value, at the front of the output.
fn put(f: Fac, out: &mut [u8])
    requires { ChannelFits f × ServiceFits f × (9 ≤ length out.old) }
    ensures { out.new ≡ written out.old 0 (fac_bytes f) }
{
    let bits = channel_bits(f) * 17592186044416 + service_bits(f);
    fields::write64(out, 0, bits);
    out[8] = crc::crc8(&out[0..8]);
}

// Why a record is not written to an output of so many bytes.
fn check_fac(f: Fac, room: usize) -> Result<(), Refusal>
    ensures { number_in result ≡ refused_with (write_tests f room) }
{
    if too_large(f) {
        return Err(Refusal::BadValue);
    }
    if not_served(f) {
        return Err(Refusal::NotServed);
    }
    if room < 9 {
        return Err(Refusal::Size);
    }
    Ok(())
}

// Writes the value of a `fac_` item to the front of the output, and answers its length. Refused with 6 (a field too large for its
// bits), 9 (not served), last with 1 (an output under 9 bytes).
pub fn write(f: Fac, out: &mut [u8]) -> Result<usize, Refusal>
    ensures answer { wrote_in result ≡ write_for f (length out.old) }
    ensures memory { out.new ≡ out_for f out.old }
{
    check_fac(f, out.len())?;
    put(f, out);
    Ok(9)
}
