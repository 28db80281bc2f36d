// Exports for the instruction counts of bench/; not delivered to the host.
#![tactic(auto)]

ghost use Rattle.std.specs.Prelude.{◌≡◌, length, get_or};
ghost use Rattle.crc.specs.Crc.{crc_of};
ghost use Rattle.dispersal.specs.Dispersal.{number_for, output_for};
ghost use Rattle.packet.specs.Calls.{check_for};
ghost use Rattle.mdi_write.specs.Answers.{out_for};
ghost use Rattle.mdi_write.specs.Packet.{four};
ghost use Rattle.meter.specs.Seen.{seen_in, record_for, wrote_for};

use record::Record;
use refusal::Refusal;

// Of a packet read: the number, and what shows that its record was made. The byte is one of the SDC data, 0 where there is none.
// Kept: numbers, here and in the calls below, since C links them (bench/meter.h); two of them are the host's, in an archive of its own.
#[repr(C)]
#[derive(Clone, Copy)]
pub struct Seen {
    pub number: u32,
    pub count: u32,
    pub service: u32,
    pub robustness: u8,
    pub byte: u8,
}

#[unsafe(no_mangle)]
pub extern "C" fn meter_crc8(s: &[u8]) -> u8
    ensures { result ≡ crc_of 8 0x1d s.now }
{
    crc::crc8(s)
}

#[unsafe(no_mangle)]
pub extern "C" fn meter_crc16(s: &[u8]) -> u16
    ensures { result ≡ crc_of 16 0x1021 s.now }
{
    crc::crc16(s)
}

#[unsafe(no_mangle)]
pub extern "C" fn meter_disperse(input: &[u8], output: &mut [u8]) -> u32
    ensures value { result ≡ number_for input.now output.old }
    ensures output_after { output.new ≡ output_for input.now output.old }
{
    refusal::number(dispersal::disperse(input, output))
}

#[unsafe(no_mangle)]
pub extern "C" fn meter_check(p: usize, bytes: &[u8]) -> u32
    ensures { result ≡ check_for p bytes.now }
{
    refusal::number(packet::check(p, bytes))
}

fn byte_at(s: &[u8], at: usize) -> u8
    ensures { result ≡ get_or s.now at 0 }
{
    if s.len() <= at {
        return 0;
    }
    s[at]
}

#[unsafe(no_mangle)]
pub extern "C" fn meter_mdi_read(packet: &[u8], at: usize) -> Seen
    ensures { result ≡ seen_in packet.now at }
{
    match mdi::read(packet) {
        Ok(record) => Seen {
            number: 0,
            count: record.count,
            service: record.fac.service,
            robustness: record.robustness,
            byte: byte_at(&record.sdc.body, at),
        },
        Err(refused) => Seen {
            number: refused.why.number(),
            count: 0,
            service: 0,
            robustness: 0,
            byte: 0,
        },
    }
}

// A record out of the values of its items.
fn record_of(count: u32, fac: &[u8], sdc: &[u8], sdci: &[u8], robustness: u8, tist: &[u8]) -> Record
    ensures { result ≡ record_for count fac.now sdc.now sdci.now robustness tist.now }
{
    let fac = fac::of_value(fac);
    let sdc = sdc::of_value(sdc);
    let description = description::of_value(sdci);
    let time = Some(clock::decode(tist).unwrap_or_default());
    Record {
        count,
        fac,
        sdc,
        description,
        robustness,
        time,
    }
}

// A record is made, and written with its streams.
#[unsafe(no_mangle)]
pub extern "C" fn meter_mdi_write(
    count: u32,
    fac: &[u8],
    sdc: &[u8],
    sdci: &[u8],
    robustness: u8,
    tist: &[u8],
    s0: &[u8],
    s1: &[u8],
    s2: &[u8],
    s3: &[u8],
    out: &mut [u8],
) -> u32
    ensures answer { result ≡ wrote_for (record_for count fac.now sdc.now sdci.now robustness tist.now) (four s0.now s1.now s2.now s3.now) (length out.old) }
    ensures memory { out.new ≡ out_for (record_for count fac.now sdc.now sdci.now robustness tist.now) (four s0.now s1.now s2.now s3.now) out.old }
{
    let r = record_of(count, fac, sdc, sdci, robustness, tist);
    match mdi_write::write(r, s0, s1, s2, s3, out) {
        Ok(_) => 0,
        Err(why) => why.number(),
    }
}
