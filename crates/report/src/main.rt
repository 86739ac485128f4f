// Prints the report of the image on standard input. Input longer than any image, 61,456 bytes, has the report of its first 61,457
// bytes (lines/proofs Long.report-front), so no more is read. A read that fails is no end of the input: the only line is then
// `unread`.
#![tactic(auto)]

ghost use Rattle.std.specs.Prelude.{◌≡◌, ◌≤◌, length, take, true, false, IfOk, OnOk, IfSome};
ghost use Rattle.std.specs.Io.KnownBytes.{Appends, IsAtEnd};
ghost use Rattle.lines.specs.Bytes.{report_bytes};
ghost use Rattle.report.specs.Unread.{unread_line};

use input::read_full;
use std::io;
use std::io::{Read, Write};

// One byte more than any image has.
const TOO_MANY: usize = 61457;

// The input ends here: one more read gives nothing. (`read_full` stops at the end and at a read that fails.)
fn at_end<R: Read>(input: &mut R) -> bool
    ensures { result ≡ true → IsAtEnd (R.remaining input.old) }
{
    // a place for one byte, since a read into none gives nothing at any time
    let mut more = [0u8; 1];
    matches!(input.read(&mut more), Ok(0))
}

// Reads the input, or as much of it as the buffer holds: the bytes that were read. None where a read fails.
fn read_front<'a, R: Read>(input: &mut R, buffer: &'a mut [u8]) -> Option<&'a [u8]>
    ensures in_bounds { IfSome result (λ front. length front.now ≤ length buffer.old) }
    ensures bytes { IfSome result (λ front. IfSome (R.remaining input.old) (λ xs. front.now ≡ take (length buffer.old) xs)) }
{
    let got = read_full(input, buffer);
    if got < buffer.len() && !at_end(input) {
        return None;
    }
    Some(&buffer[..got])
}

// Prints the report of an image.
fn print_report<W: Write>(image: &[u8], to: &mut W) -> io::Result<()>
    ensures { OnOk result (Appends (W.contents to.old) (W.contents to.new) (report_bytes image.now)) }
{
    // fixed memory, as the report takes no heap: so the size stands beside it
    let mut out = [0u8; lines::LONGEST];
    let size = lines::report(image, &mut out);
    to.write_all(&out[..size])
}

// Prints the report of the whole input, or `unread` where a read fails; whether it was the report, by which the clauses tell the two.
fn run<R: Read, W: Write>(input: &mut R, to: &mut W) -> io::Result<bool>
    ensures whole { IfOk result (λ whole. whole ≡ true → IfSome (R.remaining input.old) (λ xs. Appends (W.contents to.old) (W.contents to.new) (report_bytes xs))) }
    ensures unread { IfOk result (λ whole. whole ≡ false → Appends (W.contents to.old) (W.contents to.new) unread_line) }
{
    // fixed memory: the report takes no heap
    let mut buffer = [0u8; TOO_MANY];
    let Some(image) = read_front(input, &mut buffer) else {
        to.write_all(b"unread\n")?;
        return Ok(false);
    };
    print_report(image, to)?;
    Ok(true)
}

fn main(rt: HostRuntime) -> io::Result<()> {
    run(&mut rt.stdin(), &mut rt.stdout())?;
    Ok(())
}

#[cfg(test)]
mod failing_input {
    use super::*;
    use std::io::{Error, ErrorKind};
    use std::test::Fail;

    // Gives one byte, and then fails.
    #[derive(Drop)]
    struct Broken {
        given: bool,
    }

    impl Read for Broken {
        fn read(&mut self, buf: &mut [u8]) -> io::Result<usize> {
            if self.given || buf.is_empty() {
                return Err(Error::from(ErrorKind::Other));
            }
            self.given = true;
            buf[0] = 1;
            Ok(1)
        }
    }

    #[test]
    fn a_failed_read_is_unread(rt: HostRuntime) -> Result<(), Fail> {
        let mut out = Vec::new(rt.alloc());
        let whole = run(&mut Broken { given: false }, &mut out)?;
        assert!(rt; !whole);
        assert_eq!(rt; out.as_slice(), b"unread\n".as_slice());
        Ok(())
    }
}
