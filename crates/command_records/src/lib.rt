// Commands as byte records of fixed size and layout, the form in which they cross the C boundary: the record of a
// command, and the command of a record.
#![tactic(auto)]

mod fields;
pub mod links;
mod lists;
mod read_fields;
mod read_lists;

ghost use Rattle.std.specs.Prelude.{◌≡◌, ◌≤◌, length};
ghost use Rattle.octets.specs.Strings.{over};
ghost use Rattle.commands.specs.Reading.{told_command};
ghost use Rattle.command_records.specs.CommandRecord.{command_record, read_record};

use commands::NwkCommandWithLists;
use octets::refusals::Refusal;

pub const COMMAND_RECORD_SIZE: usize = 535;

// Write the record of a command to the front of an output that has room for it.
pub fn put_command(out: &mut [u8], f: NwkCommandWithLists)
    requires { 535 ≤ length out.old }
    ensures { out.new ≡ over out.old 0 (command_record f) }
{
    fields::put_fields(out, f.command);
    lists::put_relays(out, f.relay_count, f.relays);
    lists::put_link_statuses(out, f.link_statuses_len, f.link_statuses);
    lists::put_pan_ids(out, f.report_information_count, f.pan_ids);
    lists::put_power_list(out, f.list_count, f.power_list);
    lists::put_unparsed(out, f.unparsed_len, f.unparsed);
}

// Read a record: the command that it encodes, with its lists, or refusal 13 for another length, an undeclared identifier or
// code, and a truth value or presence byte above 1.
#[tactic(auto, unfolding(crate::specs::CommandRecord::read_record, crate::specs::CommandRecord::recorded_by))]
pub fn read_record(bytes: &[u8]) -> Result<NwkCommandWithLists, Refusal>
    ensures { told_command result ≡ read_record bytes.now }
{
    if bytes.len() != COMMAND_RECORD_SIZE {
        return Err(Refusal::Field);
    }
    let Some(command) = read_fields::command_at(bytes) else {
        return Err(Refusal::Field);
    };
    Ok(read_lists::with_lists_at(bytes, command))
}
