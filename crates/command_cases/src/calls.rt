// The calls of a case, by the letter that its line begins with (data/commands.txt says which words follow).

use casefile::fields::{exact, field};
use casefile::{file, outputs, words};
use command_records::COMMAND_RECORD_SIZE;
use commands::NwkCommandWithLists;
use octets::refusals::Refusal;

// The number that an answer gives, 0 where it is no refusal.
fn number<T: Copy>(answer: Result<T, Refusal>) -> u8 {
    answer.err().map_or(0, |refusal| refusal.number())
}

// Word k of the line is the number and the bytes behind it.
fn is_answer(line: &[u8], k: usize, number: u8, bytes: &[u8]) -> bool {
    let mut expected = [0u8; 160];
    let Ok(n) = field(line, k, &mut expected) else {
        return false;
    };
    match expected[..n].split_first() {
        Some((&first, rest)) => first == number && check::same(rest, bytes),
        None => false,
    }
}

// Where a command's own list stands in its record; the record's end for a command that has none.
fn list_at(id: u8) -> usize {
    match id {
        0 => 426,
        5 => 25,
        8 => 132,
        9 => 257,
        13 => 320,
        _ => 535,
    }
}

// The record of the fields and the list that words 3 and 4 say, behind the refusal number.
fn record_said(line: &[u8]) -> Option<(u8, [u8; 535])> {
    let mut fields = [0u8; 26];
    if field(line, 3, &mut fields).ok()? < 2 {
        return None;
    }
    let mut record = [0u8; 535];
    octets::copy_at(&mut record, 0, &fields[1..]);
    let at = file::within(list_at(fields[1]), &record);
    field(line, 4, &mut record[at..]).ok()?;
    Some((fields[0], record))
}

// What was read has the refusal number and the fields of word 3, and the list of word 4: every byte of its record.
fn is_record(line: &[u8], refusal: u8, record: &[u8]) -> bool {
    let Some(said) = record_said(line) else {
        return false;
    };
    let expected = said.1;
    said.0 == refusal && check::same(&expected, record)
}

// Writing a record into so many bytes gives word k: the refusal number, then the bytes written. The rest stays.
fn is_written(line: &[u8], k: usize, record: &[u8], room: u8) -> bool {
    let command = match command_records::read_record(record) {
        Ok(command) => command,
        Err(refusal) => return is_answer(line, k, refusal.number(), b""),
    };
    let mut out = [outputs::FILLER; 160];
    let r = file::within(usize::from(room), &out);
    let answer = command_writer::serialize(command, &mut out[..r]);
    let n = file::within(answer.unwrap_or(0), &out);
    outputs::untouched(&out[n..]) && is_answer(line, k, number(answer), &out[..n])
}

// The command that word 2 of the line holds, read by the codec.
fn read_input(line: &[u8]) -> Option<Result<NwkCommandWithLists, Refusal>> {
    let mut input = [0u8; 160];
    let n = field(line, 2, &mut input).ok()?;
    Some(command_reader::from_bytes(&input[..n]))
}

// The record of what was read; beside a refusal that of an unparsed command without bytes.
fn record_of(read: Result<NwkCommandWithLists, Refusal>) -> [u8; 535] {
    let mut record = [0u8; 535];
    if let Ok(command) = read {
        command_records::put_command(&mut record, command);
    }
    record
}

// `R name input fields list written`: reading the input gives the record, and writing the record gives the bytes.
fn read_case(line: &[u8]) -> Option<bool> {
    let read = read_input(line)?;
    let record = record_of(read);
    Some(is_record(line, number(read), &record) && is_written(line, 5, &record, 160))
}

// `W name input place value room written`: the record of the input, with one byte changed, is written so.
fn write_case(line: &[u8]) -> Option<bool> {
    let place = exact::<2>(line, 3)?;
    let [value] = exact::<1>(line, 4)?;
    let [room] = exact::<1>(line, 5)?;
    let mut record = record_of(read_input(line)?);
    let at = usize::from(u16::from_be_bytes(place));
    if COMMAND_RECORD_SIZE <= at {
        return Some(false);
    }
    record[at] = value;
    Some(is_written(line, 6, &record, room))
}

// `S name code seconds`: the refusal number and the seconds of a timeout code.
fn seconds_case(line: &[u8]) -> Option<bool> {
    let [code] = exact::<1>(line, 2)?;
    let answer = commands::codes::timeout_seconds(code);
    let seconds = answer.unwrap_or(0).to_le_bytes();
    Some(is_answer(line, 3, number(answer), &seconds))
}

// `I name input id`: the command identifier, 00 where it is unknown.
fn id_case(line: &[u8]) -> Option<bool> {
    let id = match read_input(line)? {
        Ok(command) => command.command_id(),
        Err(_) => None,
    };
    Some(is_answer(line, 3, id.map_or(0, |id| id.code()), b""))
}

// Word k of the line is well formed, or lies behind the last.
fn is_word(line: &[u8], k: usize, last: usize) -> bool {
    let mut bytes = [0u8; 160];
    last < k || field(line, k, &mut bytes).is_ok()
}

// The case has a name, each word from 2 to the last is well formed, and there is none behind it.
fn is_whole(line: &[u8], last: usize) -> bool {
    words::is_last(line, last)
        && !words::is(line, 1, b"")
        && is_word(line, 2, last)
        && is_word(line, 3, last)
        && is_word(line, 4, last)
        && is_word(line, 5, last)
        && is_word(line, 6, last)
}

// Whether the case of a line agrees, by its letter.
pub fn agrees(line: &[u8]) -> Option<bool> {
    let letter = words::letter(line);
    let last = match letter {
        b'R' => 5,
        b'W' => 6,
        b'S' | b'I' => 3,
        _ => return None,
    };
    if !is_whole(line, last) {
        return None;
    }
    match letter {
        b'R' => read_case(line),
        b'W' => write_case(line),
        b'S' => seconds_case(line),
        _ => id_case(line),
    }
}
