// Reading and writing a command, and a timeout code's seconds.
ghost use Rattle.std.specs.Prelude.{◌≡◌, length};
ghost use Rattle.commands.specs.Reading.{read_command};
ghost use Rattle.commands.specs.Writing.{command_bytes, timeout_seconds};
ghost use Rattle.command_records.specs.CommandRecord.{command_record, read_record, write_record_refusal};
ghost use Rattle.octets.specs.Writing.{told};
ghost use Rattle.nwk.specs.Answer.{answer, answer_by, given, told_by};
ghost use Rattle.nwk.specs.Commands.{read_command_refusal};

use crate::answer::answer;
use command_records::COMMAND_RECORD_SIZE;
use octets::refusals::Refusal;

// Read a command into a command record, and give the record's length. A `match`, since `?` would copy the whole command once more.
#[tactic(auto, unfolding(octets::specs::Refusals::unless, octets::specs::Refusals::first_of, crate::specs::Commands::read_command_refusal))]
fn read_command(bytes: &[u8], command: &mut [u8]) -> Result<usize, Refusal>
    ensures answer { told result ≡ told_by (read_command_refusal bytes.now (length command.old)) 535 }
    ensures command { command.new ≡ given (read_command_refusal bytes.now (length command.old)) (command_record (read_command bytes.now).command) command.old }
{
    match command_reader::from_bytes(bytes) {
        Err(refusal) => Err(refusal),
        Ok(_) if command.len() < COMMAND_RECORD_SIZE => Err(Refusal::NoRoom),
        Ok(read) => {
            command_records::put_command(command, read);
            Ok(COMMAND_RECORD_SIZE)
        }
    }
}

// Read a command into a command record; refusals 12 and 18. The length is the record's.
#[tactic(auto, using(crate::proofs::Calls::told_answer))]
pub fn nwk_read_command(bytes: &[u8], command: &mut [u8]) -> u64
    ensures answer { result ≡ answer_by (read_command_refusal bytes.now (length command.old)) 535 }
    ensures command { command.new ≡ given (read_command_refusal bytes.now (length command.old)) (command_record (read_command bytes.now).command) command.old }
{
    answer(read_command(bytes, command))
}

// Write the command of a record to the front of the output, and give its length; a `match` for the same reason.
#[tactic(auto, unfolding(octets::specs::Refusals::unless, octets::specs::Refusals::first_of, octets::specs::Writing::written, command_records::specs::CommandRecord::write_record_refusal, commands::specs::Writing::write_command))]
fn write_command(command: &[u8], out: &mut [u8]) -> Result<usize, Refusal>
    ensures answer { told result ≡ told_by (write_record_refusal command.now (length out.old)) (length (command_bytes (read_record command.now).command)) }
    ensures out { out.new ≡ given (write_record_refusal command.now (length out.old)) (command_bytes (read_record command.now).command) out.old }
{
    match command_records::read_record(command) {
        Ok(read) => command_writer::serialize(read, out),
        Err(refusal) => Err(refusal),
    }
}

// Write the command of a record to the front of the output; refusals 13, 17 and 18.
#[tactic(auto, using(crate::proofs::Calls::told_answer))]
pub fn nwk_write_command(command: &[u8], out: &mut [u8]) -> u64
    ensures answer { result ≡ answer_by (write_record_refusal command.now (length out.old)) (length (command_bytes (read_record command.now).command)) }
    ensures out { out.new ≡ given (write_record_refusal command.now (length out.old)) (command_bytes (read_record command.now).command) out.old }
{
    answer(write_command(command, out))
}

// A timeout code's seconds, as the answer's length; refusal 13 for a code above 14.
pub fn nwk_timeout_seconds(code: u8) -> u64
    ensures { result ≡ answer (timeout_seconds code).refusal (timeout_seconds code).seconds }
{
    answer(commands::codes::timeout_seconds(code).map(|seconds| seconds as usize))
}
