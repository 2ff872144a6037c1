// Reading and writing a header and an auxiliary header.
ghost use Rattle.std.specs.Prelude.{◌≡◌, length, true};
ghost use Rattle.header.specs.Reading.{read_header};
ghost use Rattle.header.specs.Writing.{header_bytes};
ghost use Rattle.header.specs.Auxiliary.{read_aux, aux_bytes};
ghost use Rattle.records.specs.HeaderRecord.{header_record, header_of};
ghost use Rattle.records.specs.AuxiliaryRecord.{aux_record, aux_of};
ghost use Rattle.octets.specs.Writing.{told};
ghost use Rattle.nwk.specs.Answer.{answer_by, given, told_by};
ghost use Rattle.nwk.specs.Headers.{read_header_refusal, write_header_refusal, read_aux_refusal, write_aux_refusal};

use crate::answer::answer;
use header::auxiliary::NwkAuxHeader;
use header::nwk::NwkHeader;
use octets::refusals::Refusal;
use records::{auxiliary_record, header_record};

// Read a header from the front of the bytes into a header record, and give how many bytes it takes.
#[tactic(auto, unfolding(octets::specs::Refusals::unless, octets::specs::Refusals::first_of, crate::specs::Headers::read_header_refusal, header::specs::Reading::read_header))]
fn read_header(bytes: &[u8], header: &mut [u8]) -> Result<usize, Refusal>
    ensures answer { told result ≡ told_by (read_header_refusal bytes.now (length header.old)) (read_header bytes.now).length }
    ensures header { header.new ≡ given (read_header_refusal bytes.now (length header.old)) (header_record (read_header bytes.now).header) header.old }
{
    let (h, length) = NwkHeader::deserialize(bytes)?;
    if header.len() < header_record::HEADER_RECORD_SIZE {
        return Err(Refusal::NoRoom);
    }
    header_record::put_header(header, h);
    Ok(length)
}

// Read a header from the front of the bytes into a header record; refusals 1 to 8 and 18.
#[tactic(auto, using(crate::proofs::Calls::told_answer))]
pub fn nwk_read_header(bytes: &[u8], header: &mut [u8]) -> u64
    ensures answer { result ≡ answer_by (read_header_refusal bytes.now (length header.old)) (read_header bytes.now).length }
    ensures header { header.new ≡ given (read_header_refusal bytes.now (length header.old)) (header_record (read_header bytes.now).header) header.old }
{
    answer(read_header(bytes, header))
}

// Write the header of a record to the front of the output, and give its length.
#[tactic(auto, unfolding(octets::specs::Refusals::unless, octets::specs::Refusals::first_of, octets::specs::Writing::written, crate::specs::Headers::write_header_refusal, header::specs::Writing::write_header), using(records::proofs::RecordBack::header_tests))]
fn write_header(header: &[u8], out: &mut [u8]) -> Result<usize, Refusal>
    ensures answer { told result ≡ told_by (write_header_refusal header.now (length out.old)) (length (header_bytes (header_of header.now))) }
    ensures out { out.new ≡ given (write_header_refusal header.now (length out.old)) (header_bytes (header_of header.now)) out.old }
{
    if header_record::is_bad(header) {
        return Err(Refusal::Field);
    }
    header_record::header_of(header).serialize(out)
}

// Write the header of a record to the front of the output; refusals 13, 28, 17 and 18.
#[tactic(auto, using(crate::proofs::Calls::told_answer))]
pub fn nwk_write_header(header: &[u8], out: &mut [u8]) -> u64
    ensures answer { result ≡ answer_by (write_header_refusal header.now (length out.old)) (length (header_bytes (header_of header.now))) }
    ensures out { out.new ≡ given (write_header_refusal header.now (length out.old)) (header_bytes (header_of header.now)) out.old }
{
    answer(write_header(header, out))
}

// Read an auxiliary header from the front of the bytes into an auxiliary record, and give how many bytes it takes.
#[tactic(auto, unfolding(octets::specs::Refusals::unless, octets::specs::Refusals::first_of, crate::specs::Headers::read_aux_refusal, header::specs::Auxiliary::read_aux))]
fn read_auxiliary(bytes: &[u8], auxiliary: &mut [u8]) -> Result<usize, Refusal>
    ensures answer { told result ≡ told_by (read_aux_refusal bytes.now (length auxiliary.old)) (read_aux bytes.now).length }
    ensures auxiliary { auxiliary.new ≡ given (read_aux_refusal bytes.now (length auxiliary.old)) (aux_record true (read_aux bytes.now).aux) auxiliary.old }
{
    let (aux, length) = NwkAuxHeader::deserialize(bytes)?;
    if auxiliary.len() < auxiliary_record::AUX_RECORD_SIZE {
        return Err(Refusal::NoRoom);
    }
    auxiliary_record::put_aux(auxiliary, true, aux);
    Ok(length)
}

// Read an auxiliary header from the front of the bytes into an auxiliary record; refusals 1, 9, 10, 11 and 18.
#[tactic(auto, using(crate::proofs::Calls::told_answer))]
pub fn nwk_read_auxiliary(bytes: &[u8], auxiliary: &mut [u8]) -> u64
    ensures answer { result ≡ answer_by (read_aux_refusal bytes.now (length auxiliary.old)) (read_aux bytes.now).length }
    ensures auxiliary { auxiliary.new ≡ given (read_aux_refusal bytes.now (length auxiliary.old)) (aux_record true (read_aux bytes.now).aux) auxiliary.old }
{
    answer(read_auxiliary(bytes, auxiliary))
}

// Write the auxiliary header of a record, which must have one, to the front of the output, and give its length.
#[tactic(auto, unfolding(octets::specs::Refusals::unless, octets::specs::Refusals::first_of, octets::specs::Writing::written, crate::specs::Headers::write_aux_refusal, header::specs::Auxiliary::write_aux))]
fn write_auxiliary(auxiliary: &[u8], out: &mut [u8]) -> Result<usize, Refusal>
    ensures answer { told result ≡ told_by (write_aux_refusal auxiliary.now (length out.old)) (length (aux_bytes (aux_of auxiliary.now))) }
    ensures out { out.new ≡ given (write_aux_refusal auxiliary.now (length out.old)) (aux_bytes (aux_of auxiliary.now)) out.old }
{
    if auxiliary_record::is_bad(auxiliary) || !auxiliary_record::is_present(auxiliary) {
        return Err(Refusal::Field);
    }
    auxiliary_record::aux_of(auxiliary).serialize(out)
}

// Write the auxiliary header of a record, which must have one, to the front of the output; refusals 13 and 18.
#[tactic(auto, using(crate::proofs::Calls::told_answer))]
pub fn nwk_write_auxiliary(auxiliary: &[u8], out: &mut [u8]) -> u64
    ensures answer { result ≡ answer_by (write_aux_refusal auxiliary.now (length out.old)) (length (aux_bytes (aux_of auxiliary.now))) }
    ensures out { out.new ≡ given (write_aux_refusal auxiliary.now (length out.old)) (aux_bytes (aux_of auxiliary.now)) out.old }
{
    answer(write_auxiliary(auxiliary, out))
}
