// Replays recorded answers without any Rust: each call on each recorded image must hand back the recorded number and leave the
// recorded words. The records come on standard input; differential/src/record.rs says how they are laid out and made. No heap is asked
// for: each part of a record stands at the front of an array that holds the largest.
#![tactic(auto)]

use std::io;
use std::io::Read;

// At most so many records are replayed.
const MOST_RECORDS: u64 = 1_000_000;

// The bytes of a record's head: 8 numbers of 32 bits, 9 of 64, 3 of 32 and one of 64.
const HEAD_BYTES: usize = 124;

// A record whose image, output, name, table, rows or index are larger is not read on.
const MOST_IMAGE_BYTES: usize = 65536;

const MOST_NAME_BYTES: usize = 8192;

const MOST_TABLE_WORDS: usize = 10246;

const MOST_ROWS_WORDS: usize = 4100;

const MOST_INDEX_WORDS: usize = 3080;

// So many bytes of words, or of an output that is compared, are read at once.
const CHUNK: usize = 4096;

// What every lent word is before a call, and every byte of an output.
const LENT: u32 = 7;

const LENT_BYTE: u8 = 7;

// Why a record is not had.
#[derive(Debug, Drop)]
enum RecordError {
    // a part is larger than it may be
    TooLarge,
    // the input ends within it, or a read fails
    Unread,
}

impl From<io::Error> for RecordError {
    fn from(_e: io::Error) -> RecordError {
        RecordError::Unread
    }
}

// A number of 32 bits, and of 64, from the front of the input: by no library but the standard one.
fn read_u32<R: Read>(input: &mut R) -> io::Result<u32> {
    let mut bytes = [0; 4];
    input.read_exact(&mut bytes)?;
    Ok(u32::from_le_bytes(bytes))
}

fn read_u64<R: Read>(input: &mut R) -> io::Result<u64> {
    let mut bytes = [0; 8];
    input.read_exact(&mut bytes)?;
    Ok(u64::from_le_bytes(bytes))
}

// The front of an array that holds a part: bytes, and words.
fn read_bytes<'a, R: Read, const N: usize>(
    input: &mut R,
    array: &'a mut [u8; N],
    count: u32,
) -> Result<&'a [u8], RecordError> {
    let Some(bytes) = array.get_mut(..count as usize) else {
        return Err(RecordError::TooLarge);
    };
    input.read_exact(bytes)?;
    Ok(bytes)
}

fn read_words<'a, R: Read, const N: usize>(
    input: &mut R,
    array: &'a mut [u32; N],
    count: u32,
) -> Result<&'a [u32], RecordError> {
    let Some(words) = array.get_mut(..count as usize) else {
        return Err(RecordError::TooLarge);
    };
    let mut chunk = [0u8; CHUNK];
    for part in words.chunks_mut(CHUNK / 4) {
        let Some(bytes) = chunk.get_mut(..4 * part.len()) else {
            return Err(RecordError::TooLarge);
        };
        input.read_exact(bytes)?;
        for (i, word) in part.iter_mut().enumerate() {
            *word = ast::word(bytes, 4 * i);
        }
    }
    Ok(words)
}

// Whether the input goes on with these bytes, as many of which are read.
fn reads_same<R: Read>(input: &mut R, wanted: &[u8]) -> Result<bool, RecordError> {
    let mut chunk = [0u8; CHUNK];
    let mut same = true;
    for part in wanted.chunks(CHUNK) {
        let Some(bytes) = chunk.get_mut(..part.len()) else {
            return Err(RecordError::TooLarge);
        };
        input.read_exact(bytes)?;
        same = same && &*bytes == part;
    }
    Ok(same)
}

// The packed answer of each call.
#[derive(Clone, Copy)]
struct Answers {
    resolve: u64,
    errors: u64,
    once: u64,
    occurrences: u64,
    lookup: u64,
    name: u64,
    sorted: u64,
    index: u64,
    lookup_indexed: u64,
}

impl Answers {
    fn read<R: Read>(input: &mut R) -> io::Result<Answers> {
        Ok(Answers {
            resolve: read_u64(input)?,
            errors: read_u64(input)?,
            once: read_u64(input)?,
            occurrences: read_u64(input)?,
            lookup: read_u64(input)?,
            name: read_u64(input)?,
            sorted: read_u64(input)?,
            index: read_u64(input)?,
            lookup_indexed: read_u64(input)?,
        })
    }
}

// The sizes of a record's parts, what its calls are given, and their answers.
#[derive(Clone, Copy)]
struct Head {
    image_bytes: u32,
    table_words: u32,
    rows_words: u32,
    mode: u32,
    scope: u32,
    name_bytes: u32,
    name_number: u32,
    index_words: u32,
    answers: Answers,
    rename: Rename,
}

// What Rename is given, and its packed answer.
#[derive(Clone, Copy)]
struct Rename {
    binding: u32,
    name: u32,
    output_bytes: u32,
    answer: u64,
}

impl Rename {
    fn read<R: Read>(input: &mut R) -> io::Result<Rename> {
        Ok(Rename {
            binding: read_u32(input)?,
            name: read_u32(input)?,
            output_bytes: read_u32(input)?,
            answer: read_u64(input)?,
        })
    }
}

impl Head {
    // Its bytes at once, then its numbers.
    fn read<R: Read>(input: &mut R) -> io::Result<Head> {
        let mut bytes = [0; HEAD_BYTES];
        input.read_exact(&mut bytes)?;
        let mut numbers = &bytes[..];
        Head::read_numbers(&mut numbers)
    }

    fn read_numbers<R: Read>(input: &mut R) -> io::Result<Head> {
        let image_bytes = read_u32(input)?;
        let table_words = read_u32(input)?;
        let rows_words = read_u32(input)?;
        let mode = read_u32(input)?;
        let scope = read_u32(input)?;
        let name_bytes = read_u32(input)?;
        let name_number = read_u32(input)?;
        let index_words = read_u32(input)?;
        let answers = Answers::read(input)?;
        let rename = Rename::read(input)?;
        Ok(Head {
            image_bytes,
            table_words,
            rows_words,
            mode,
            scope,
            name_bytes,
            name_number,
            index_words,
            answers,
            rename,
        })
    }
}

// So many words of what a call is lent, as they are before it.
fn lent(words: &mut [u32], count: usize) -> Option<&mut [u32]> {
    let part = words.get_mut(..count)?;
    for word in part.iter_mut() {
        *word = LENT;
    }
    Some(part)
}

// A record but what Rename leaves: its head, the image, the name looked up, and the words that the calls leave.
#[derive(Clone, Copy)]
struct Record<'a> {
    head: Head,
    image: &'a [u8],
    name: &'a [u8],
    table: &'a [u32],
    errors: &'a [u32],
    occurrences: &'a [u32],
    sorted: &'a [u32],
    index: &'a [u32],
}

impl<'a> Record<'a> {
    // Whether the call hands back the answer and leaves the recorded table.
    fn leaves_table<F: FnOnce(&[u8], &mut [u32]) -> u64>(
        &self,
        table: &mut [u32],
        answer: u64,
        call: F,
    ) -> bool
        requires { F.IsAlwaysCallable call }
    {
        let Some(table) = lent(table, self.table.len()) else {
            return false;
        };
        call(self.image, table) == answer && &*table == self.table
    }

    // Whether the call hands back the answer and leaves these rows.
    fn leaves_rows<F: FnOnce(&[u8], &mut [u32], &mut [u32]) -> u64>(
        &self,
        table: &mut [u32],
        rows: &mut [u32],
        answer: u64,
        after: &[u32],
        call: F,
    ) -> bool
        requires { F.IsAlwaysCallable call }
    {
        let Some(table) = lent(table, self.table.len()) else {
            return false;
        };
        let Some(rows) = lent(rows, after.len()) else {
            return false;
        };
        call(self.image, table, rows) == answer && &*rows == after
    }

    // Whether the call that makes the index, given the recorded table, hands back the recorded answer and leaves the recorded
    // index.
    fn leaves_index(&self, words: &mut [u32]) -> bool {
        let Some(index) = lent(words, self.index.len()) else {
            return false;
        };
        let answer = exports::eqlog_index(self.image, self.table, index);
        answer == self.head.answers.index && &*index == self.index
    }

    // Whether every call but Rename answers and leaves what is recorded; lookups and name leave nothing. A lookup is given the
    // recorded table, which resolve must leave, and the recorded index. The calls are lent fronts of these words; an index is no
    // longer than rows may be.
    fn is_as_recorded(&self, table: &mut [u32], rows: &mut [u32]) -> bool {
        let Head {
            mode,
            scope,
            name_number,
            answers,
            ..
        } = self.head;
        let found = exports::eqlog_lookup(self.image, self.table, scope, self.name);
        let chained = exports::eqlog_lookup_indexed(
            self.image, self.table, self.index, scope, self.name,
        );
        let place = exports::eqlog_name(self.image, name_number);
        let errors = |image: &[u8], table: &mut [u32], rows: &mut [u32]| exports::eqlog_errors(
            image, table, rows, mode,
        );
        let sorted = |image: &[u8], table: &mut [u32], rows: &mut [u32]| exports::eqlog_sorted(
            image, table, rows, mode,
        );
        found == answers.lookup
            && chained == answers.lookup_indexed
            && place == answers.name
            && self.leaves_table(table, answers.resolve, exports::eqlog_resolve)
            && self.leaves_table(table, answers.once, exports::eqlog_once)
            && self.leaves_rows(table, rows, answers.errors, self.errors, errors)
            && self.leaves_rows(
                table,
                rows,
                answers.occurrences,
                self.occurrences,
                exports::eqlog_occurrences,
            )
            && self.leaves_rows(table, rows, answers.sorted, self.sorted, sorted)
            && self.leaves_index(rows)
    }
}

// Reads a record from its name to its index, and says whether every call but Rename is as recorded. The occurrences stay with the
// caller, for Rename. Not inlined, so that its arrays are gone from the stack when Rename runs.
#[inline(never)]
fn calls_are_as_recorded<R: Read>(
    input: &mut R,
    head: Head,
    image: &[u8],
    occurrences: &mut [u32; MOST_ROWS_WORDS],
    table: &mut [u32],
    rows: &mut [u32],
) -> Result<bool, RecordError> {
    let mut name = [0; MOST_NAME_BYTES];
    let mut after = [0; MOST_TABLE_WORDS];
    let mut errors = [0; MOST_ROWS_WORDS];
    let mut sorted = [0; MOST_ROWS_WORDS];
    let mut index = [0; MOST_INDEX_WORDS];
    let record = Record {
        head,
        image,
        name: read_bytes(input, &mut name, head.name_bytes)?,
        table: read_words(input, &mut after, head.table_words)?,
        errors: read_words(input, &mut errors, head.rows_words)?,
        occurrences: read_words(input, occurrences, head.rows_words)?,
        sorted: read_words(input, &mut sorted, head.rows_words)?,
        index: read_words(input, &mut index, head.index_words)?,
    };
    Ok(record.is_as_recorded(table, rows))
}

// Whether Rename hands back the recorded answer and leaves the output that the record ends with, and the rows of the occurrences
// unless the output is too short. Not inlined, nor is what calls it, so that a frame is there only while it is in use.
#[inline(never)]
fn rename_is_as_recorded<R: Read>(
    input: &mut R,
    head: Head,
    image: &[u8],
    occurrences: &[u32],
    table: &mut [u32],
    rows: &mut [u32],
) -> Result<bool, RecordError> {
    let Rename {
        binding,
        name,
        output_bytes,
        answer: recorded,
    } = head.rename;
    let mut array = [LENT_BYTE; MOST_IMAGE_BYTES];
    let Some(output) = array.get_mut(..output_bytes as usize) else {
        return Err(RecordError::TooLarge);
    };
    let Some(table) = lent(table, head.table_words as usize) else {
        return Err(RecordError::TooLarge);
    };
    let Some(rows) = lent(rows, head.rows_words as usize) else {
        return Err(RecordError::TooLarge);
    };
    let answer = exports::eqlog_rename(image, table, rows, binding, name, output);
    let listed = output.len() < image.len() || &*rows == occurrences;
    let left = reads_same(input, output)?;
    Ok(answer == recorded && listed && left)
}

// Reads the rest of a record, and says whether all is as recorded: no, where the rest cannot be read.
#[inline(never)]
fn rest_is_as_recorded<R: Read>(input: &mut R, head: Head) -> Result<bool, RecordError> {
    let mut bytes = [0; MOST_IMAGE_BYTES];
    let mut words = [0; MOST_ROWS_WORDS];
    let mut table = [LENT; MOST_TABLE_WORDS];
    let mut rows = [LENT; MOST_ROWS_WORDS];
    let image = read_bytes(input, &mut bytes, head.image_bytes)?;
    let calls = calls_are_as_recorded(input, head, image, &mut words, &mut table, &mut rows)?;
    if !calls {
        // Rename has no more to say: what it left is read and let go.
        read_bytes(input, &mut bytes, head.rename.output_bytes)?;
        return Ok(false);
    }
    let Some(occurrences) = words.get(..head.rows_words as usize) else {
        return Err(RecordError::TooLarge);
    };
    rename_is_as_recorded(input, head, image, occurrences, &mut table, &mut rows)
}

// Replays the records of the input; how many there are.
fn replay<P: Print, R: Read>(rt: &P, input: &mut R) -> io::Result<u64> {
    for number in 0..MOST_RECORDS {
        let Ok(head) = Head::read(input) else {
            return Ok(number);
        };
        let as_recorded = rest_is_as_recorded(input, head);
        if !matches!(as_recorded, Ok(true)) {
            println!(rt; "{number} differs")?;
        }
    }
    Ok(MOST_RECORDS)
}

fn main(rt: HostRuntime) -> io::Result<()> {
    let count = replay(&rt, &mut rt.stdin())?;
    println!(rt; "{count} records replayed")
}
