// Reading and writing a command, and a timeout code's seconds.
ghost use Rattle.std.specs.Prelude.{◌≡◌, length};
ghost use Rattle.commands.specs.Reading.{read_command};
ghost use Rattle.commands.specs.Writing.{command_bytes, timeout_seconds};
ghost use Rattle.command_records.specs.CommandRecord.{command_record, read_record, write_record_refusal};
ghost use Rattle.nwk.specs.Answer.{answer, answer_by, given};
ghost use Rattle.nwk.specs.Commands.{read_command_refusal};

// Read a command into a command record; refusals 12 and 18. The length is the record's.
#[unsafe(no_mangle)]
pub extern "C" fn nwk_read_command(bytes: &[u8], command: &mut [u8]) -> u64
    ensures answer { result ≡ answer_by (read_command_refusal bytes.now (length command.old)) 535 }
    ensures command { command.new ≡ given (read_command_refusal bytes.now (length command.old)) (command_record (read_command bytes.now).command) command.old }
{
    nwk::command::nwk_read_command(bytes, command)
}

// Write the command of a record to the front of the output; refusals 13, 17 and 18.
#[unsafe(no_mangle)]
pub extern "C" fn nwk_write_command(command: &[u8], out: &mut [u8]) -> u64
    ensures answer { result ≡ answer_by (write_record_refusal command.now (length out.old)) (length (command_bytes (read_record command.now).command)) }
    ensures out { out.new ≡ given (write_record_refusal command.now (length out.old)) (command_bytes (read_record command.now).command) out.old }
{
    nwk::command::nwk_write_command(command, out)
}

// A timeout code's seconds, as the answer's length; refusal 13 for a code above 14.
#[unsafe(no_mangle)]
pub extern "C" fn nwk_timeout_seconds(code: u8) -> u64
    ensures { result ≡ answer (timeout_seconds code).refusal (timeout_seconds code).seconds }
{
    nwk::command::nwk_timeout_seconds(code)
}
