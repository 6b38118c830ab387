// The C boundary: include/mirokdeul.h says what each function does, in C's words.
#![tactic(auto, using(crate::proofs::Laws::returning))]

ghost use Rattle.std.specs.Prelude.{◌≡◌, length};
ghost use Rattle.stored.specs.Stored.{verdict_of};
ghost use Rattle.kernel.specs.Boundary.{BuildReturns, asked, verdict_code};

use flows::Numbers;
use stored::answer::Verdict;

// The answer's number; the line count goes to `count`.
#[unsafe(no_mangle)]
pub extern "C" fn mirokdeul_build(
    file: &[u8],
    site: &[u8],
    reply: &mut [u8],
    work: &mut [u64],
    count: &mut usize,
) -> u8
    ensures { BuildReturns file.now site.now (length reply.old) (length work.old) result reply.new work.new count.new }
{
    match gateway::build(file, site, reply, work) {
        Ok(lines) => {
            *count = lines;
            0
        }
        Err(why) => {
            *count = 0;
            why.into()
        }
    }
}

// 0 to drop, 1 to accept, 13 for bytes that are no table, 14 for numbers that are no flow.
#[unsafe(no_mangle)]
pub extern "C" fn mirokdeul_verdict(
    stored: &[u8],
    direction: u8,
    protocol: u8,
    opener: u8,
    address: u32,
    remote: u16,
    device: u16,
) -> u8
    ensures { result ≡ verdict_code (verdict_of stored.now (asked direction protocol opener address remote device)) }
{
    let flow = Numbers {
        direction,
        protocol: flows::Protocol(protocol),
        opener,
        address: flows::Address(address),
        remote: flows::RemotePort(remote),
        device: flows::DevicePort(device),
    };
    match gateway::verdict(stored, flow) {
        Ok(Verdict::Accept) => 1,
        Ok(Verdict::Drop) => 0,
        Err(why) => why.into(),
    }
}

// How many words the work buffer has.
#[unsafe(no_mangle)]
pub extern "C" fn mirokdeul_work_len() -> usize
    ensures { result ≡ 16290 }
{
    16290
}
