// The opened record, 182 bytes: what opening a frame answers. The zeros before the header record are kept for what later
// requests add.
ghost use Rattle.std.specs.Prelude.{◌≡◌, ◌++◌, ◌≤◌, length};
ghost use Rattle.octets.specs.Strings.{over};
ghost use Rattle.frame.specs.Opening.{marked, told_opened};
ghost use Rattle.records.specs.HeaderRecord.{header_record};
ghost use Rattle.records.specs.OpenedRecord.{option_record, option_of, mark_code, mark_of, opened_front, opened_record};

use crate::{auxiliary_record, header_record, optional};
use frame::{Mark, OpenedFrame};
use header::auxiliary::NwkAuxHeader;
use header::nwk::NwkHeader;
use octets::refusals::Refusal;

pub const OPENED_RECORD_SIZE: usize = 182;

// Where the nonce's address, the two bytes behind it, the header record and the auxiliary record stand in it.
const NONCE_IEEE_AT: usize = 5;

const BEHIND_IEEE_AT: usize = 14;

const HEADER_AT: usize = 16;

const AUXILIARY_AT: usize = 163;

// The auxiliary header or none that an auxiliary record encodes.
#[tactic(auto, unfolding(crate::specs::OpenedRecord::option_of))]
pub fn option_of(bytes: &[u8]) -> Option<NwkAuxHeader>
    ensures { result ≡ option_of bytes.now }
{
    auxiliary_record::is_present(bytes).then_some(auxiliary_record::aux_of(bytes))
}

// Write the record of an auxiliary header or none to the front of an output that has room for it.
#[tactic(auto, unfolding(crate::specs::OpenedRecord::option_record))]
pub fn put_option(out: &mut [u8], aux: Option<NwkAuxHeader>)
    requires { 19 ≤ length out.old }
    ensures { out.new ≡ over out.old 0 (option_record aux) }
{
    match aux {
        Some(aux) => auxiliary_record::put_aux(out, true, aux),
        None => auxiliary_record::put_aux(out, false, NwkAuxHeader::blank()),
    }
}

// The number of a mark, 0 for none.
pub fn mark_code(mark: Option<Mark>) -> u8
    ensures { result ≡ mark_code (marked mark) }
{
    match mark {
        None => 0,
        Some(Mark::Clear) => 1,
        Some(Mark::Sealed) => 2,
    }
}

// The mark of a number; a number that no mark has says nothing.
#[tactic(auto, unfolding(crate::specs::OpenedRecord::mark_of))]
pub fn mark_of(code: u8) -> Option<Mark>
    ensures { marked result ≡ mark_of code }
{
    match code {
        1 => Some(Mark::Clear),
        2 => Some(Mark::Sealed),
        _ => None,
    }
}

// Write the number, the mark, the length and the nonce's address, and zeros in the other places up to the header record.
fn put_front(out: &mut [u8], refusal: u8, mark: u8, n: usize, ieee: Option<u64>)
    requires { 16 ≤ length out.old }
    ensures { out.new ≡ over out.old 0 (opened_front refusal mark n ieee) }
{
    let low = (n % 256) as u8;
    let high = (n / 256 % 256) as u8;
    let values = [refusal, mark, low, high, 0];
    octets::copy_at(out, 0, &values);
    optional::put_ieee(out, NONCE_IEEE_AT, ieee);
    octets::put_u16(out, BEHIND_IEEE_AT, 0);
}

// Write the records of the two headers behind it.
fn put_headers(out: &mut [u8], header: NwkHeader, aux: Option<NwkAuxHeader>)
    requires { 182 ≤ length out.old }
    ensures { out.new ≡ over out.old 16 (header_record header ++ option_record aux) }
{
    header_record::put_header(&mut out[HEADER_AT..], header);
    put_option(&mut out[AUXILIARY_AT..], aux);
}

// Write the record of an answer to the front of an output that has room for it; beside a refusal it has blank headers.
pub fn put_opened(out: &mut [u8], opened: Result<OpenedFrame, Refusal>)
    requires { 182 ≤ length out.old }
    ensures { out.new ≡ over out.old 0 (opened_record (told_opened opened)) }
{
    match opened {
        Ok(given) => {
            let mark = mark_code(Some(given.mark));
            put_front(out, 0, mark, given.length, given.nonce_ieee);
            put_headers(out, given.header, given.aux);
        }
        Err(refusal) => {
            put_front(out, refusal.number(), mark_code(None), 0, None);
            put_headers(out, NwkHeader::blank(), None);
        }
    }
}
