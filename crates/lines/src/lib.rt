// The lines of the report, put into a lent buffer one after another.
#![tactic(auto)]

ghost use Rattle.std.specs.Prelude.{◌≡◌, [], ◌∷◌, ◌++◌, ◌+◌, ◌*◌, ◌<◌, ◌≤◌, length};
ghost use Rattle.occurrences.specs.Occurrences.{once};
ghost use Rattle.scopes.specs.Calls.{lent_table};
ghost use Rattle.lines.specs.Report.{end_lines, error_lines, var_lines, body_lines};
ghost use Rattle.lines.specs.Bytes.{digits, numbers, lines_bytes, report_bytes};
ghost use Rattle.lines.specs.Out.{rows_from, Wrote, Printed};

use error::Unresolved;
use rows::Written;

// No report is longer: a first and a last line of 31 bytes, 28 bytes for each of 2,048 error rows and 2,048 occurrences.
pub const LONGEST: usize = 114750;

fn digit(n: u32) -> u8
    requires { n < 10 }
    ensures { result ≡ 48 + n }
{
    48 + n as u8
}

// The lent buffer, and the place of its next byte: no Vec, since there is no heap, and no `Cursor`, whose `write` does not say that the
// same memory is lent still, so that nothing could be said of the buffer after.
#[derive(Drop)]
struct Printer<'a> {
    bytes: &'a mut [u8],
    place: usize,
}

impl<'a> Printer<'a> {
    // One byte more; a byte for which there is no place is dropped.
    fn put_byte(&mut self, byte: u8)
        ensures { Wrote (byte ∷ []) 1 self.old self.new }
    {
        if self.place < self.bytes.len() {
            self.bytes[self.place] = byte;
            self.place += 1;
        }
    }

    // Byte by byte, since what has no place is dropped.
    fn put_text(&mut self, text: &[u8])
        ensures { Wrote text.now (length text.now) self.old self.new }
    {
        for byte in text {
            self.put_byte(*byte);
        }
    }

    // The number in decimal, with no zero in front. (Tried: `write!`, whose proof did not close: it says what it wrote only where it
    // gives Ok, and nothing says that it does.)
    fn put_number(&mut self, n: u32)
        ensures { Wrote (digits n) 10 self.old self.new }
    {
        if n < 10 {
            self.put_byte(digit(n));
            return;
        }
        self.put_number(n / 10);
        self.put_byte(digit(n % 10));
    }

    // A line: its word, its numbers after single spaces, and the newline.
    fn put_line(&mut self, word: &[u8], values: &[u32])
        ensures { Wrote (word.now ++ numbers values.now) (length word.now + 11 * length values.now + 1) self.old self.new }
    {
        self.put_text(word);
        for n in values {
            self.put_byte(b' ');
            self.put_number(*n);
        }
        self.put_byte(b'\n');
    }

    // The rows that a call has left, each as a line that begins with the word.
    fn put_rows(&mut self, word: &[u8], rows: Written)
        requires { length word.now ≤ 5 }
        ensures { Wrote (rows_from word.now rows.entry.words.now rows.entry.nodes rows.entry.count 0) (28 * rows.entry.count) self.old self.new }
    {
        for (left, right) in rows.pairs() {
            self.put_line(word, &[left, right]);
        }
    }

    // The lines of the plain error rows, those of mode 1. The words that the report lends to a call are all 0 and enough for any image, in
    // fixed memory, since there is no heap.
    fn put_errors(&mut self, image: &[u8])
        ensures { Wrote (lines_bytes (error_lines image.now)) 57344 self.old self.new }
    {
        let mut table = [0; table::MOST_WORDS];
        let mut words = [0; rows::MOST_WORDS];
        if let Ok(count) = bindings::check_bindings(image, &mut table, &mut words, 1) {
            let nodes = ast::node_count(image);
            self.put_rows(
                b"error",
                Written {
                    words: &words,
                    nodes,
                    count,
                },
            );
        }
    }

    // The lines of the occurrences. (One method for this and `put_errors` would take the call as a closure, and state of it all that the
    // two calls ensure: no plainer.)
    fn put_vars(&mut self, image: &[u8])
        ensures { Wrote (lines_bytes (var_lines image.now)) 57344 self.old self.new }
    {
        let mut table = [0; table::MOST_WORDS];
        let mut words = [0; rows::MOST_WORDS];
        if let Ok(count) = occurrences::occurrences(image, &mut table, &mut words) {
            let nodes = ast::node_count(image);
            self.put_rows(
                b"var",
                Written {
                    words: &words,
                    nodes,
                    count,
                },
            );
        }
    }

    // The last line.
    fn put_end(&mut self, image: &[u8])
        ensures { Wrote (lines_bytes (end_lines (once image.now lent_table).answer)) 31 self.old self.new }
    {
        let mut table = [0; table::MOST_WORDS];
        match occurrences::check_occurrences(image, &mut table) {
            Ok(None) => self.put_line(b"end ok", &[]),
            Ok(Some(lone)) => self.put_line(b"end once", &[lone.node.0, lone.binding.0]),
            Err(_) => {}
        }
    }

    // What follows the first line of an image that is resolved.
    fn put_body(&mut self, image: &[u8])
        ensures { Wrote (lines_bytes (body_lines image.now)) 114719 self.old self.new }
    {
        self.put_errors(image);
        self.put_vars(image);
        self.put_end(image);
    }

    // All lines.
    fn put_report(&mut self, image: &[u8])
        ensures { Wrote (report_bytes image.now) 114750 self.old self.new }
    {
        let mut table = [0; table::MOST_WORDS];
        match scopes::resolve_scopes(image, &mut table) {
            Ok(resolved) => {
                self.put_line(b"resolved", &[resolved.scopes, resolved.symbols]);
                self.put_body(image);
            }
            Err(Unresolved::Refused(refusal)) => self.put_line(b"refused", &[u32::from(refusal)]),
            Err(Unresolved::Twice(twice)) => self.put_line(
                b"twice",
                &[twice.name, twice.first.0, twice.second.0],
            ),
        }
    }
}

// The report of any byte string: the first bytes of the lent buffer, which holds any report. Returns how many they are.
pub fn report(image: &[u8], out: &mut [u8; LONGEST]) -> usize
    ensures { Printed (report_bytes image.now) result out.new }
{
    let mut printer = Printer {
        bytes: out,
        place: 0,
    };
    printer.put_report(image);
    printer.place
}
