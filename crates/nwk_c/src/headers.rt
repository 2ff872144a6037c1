// Reading and writing a header and an auxiliary header.
ghost use Rattle.std.specs.Prelude.{◌≡◌, length, true};
ghost use Rattle.header.specs.Reading.{read_header};
ghost use Rattle.header.specs.Writing.{header_bytes};
ghost use Rattle.header.specs.Auxiliary.{read_aux, aux_bytes};
ghost use Rattle.records.specs.HeaderRecord.{header_record, header_of};
ghost use Rattle.records.specs.AuxiliaryRecord.{aux_record, aux_of};
ghost use Rattle.nwk.specs.Answer.{answer_by, given};
ghost use Rattle.nwk.specs.Headers.{read_header_refusal, write_header_refusal, read_aux_refusal, write_aux_refusal};

// Read a header from the front of the bytes into a header record; refusals 1 to 8 and 18.
#[unsafe(no_mangle)]
pub extern "C" fn nwk_read_header(bytes: &[u8], header: &mut [u8]) -> u64
    ensures answer { result ≡ answer_by (read_header_refusal bytes.now (length header.old)) (read_header bytes.now).length }
    ensures header { header.new ≡ given (read_header_refusal bytes.now (length header.old)) (header_record (read_header bytes.now).header) header.old }
{
    nwk::headers::nwk_read_header(bytes, header)
}

// Write the header of a record to the front of the output; refusals 13, 28, 17 and 18.
#[unsafe(no_mangle)]
pub extern "C" fn nwk_write_header(header: &[u8], out: &mut [u8]) -> u64
    ensures answer { result ≡ answer_by (write_header_refusal header.now (length out.old)) (length (header_bytes (header_of header.now))) }
    ensures out { out.new ≡ given (write_header_refusal header.now (length out.old)) (header_bytes (header_of header.now)) out.old }
{
    nwk::headers::nwk_write_header(header, out)
}

// Read an auxiliary header from the front of the bytes into an auxiliary record; refusals 1, 9, 10, 11 and 18.
#[unsafe(no_mangle)]
pub extern "C" fn nwk_read_auxiliary(bytes: &[u8], auxiliary: &mut [u8]) -> u64
    ensures answer { result ≡ answer_by (read_aux_refusal bytes.now (length auxiliary.old)) (read_aux bytes.now).length }
    ensures auxiliary { auxiliary.new ≡ given (read_aux_refusal bytes.now (length auxiliary.old)) (aux_record true (read_aux bytes.now).aux) auxiliary.old }
{
    nwk::headers::nwk_read_auxiliary(bytes, auxiliary)
}

// Write the auxiliary header of a record, which must have one, to the front of the output; refusals 13 and 18.
#[unsafe(no_mangle)]
pub extern "C" fn nwk_write_auxiliary(auxiliary: &[u8], out: &mut [u8]) -> u64
    ensures answer { result ≡ answer_by (write_aux_refusal auxiliary.now (length out.old)) (length (aux_bytes (aux_of auxiliary.now))) }
    ensures out { out.new ≡ given (write_aux_refusal auxiliary.now (length out.old)) (aux_bytes (aux_of auxiliary.now)) out.old }
{
    nwk::headers::nwk_write_auxiliary(auxiliary, out)
}
