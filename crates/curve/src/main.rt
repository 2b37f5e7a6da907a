// Reads a sheet from standard input, and writes the table of its curve, or its refusal, to standard output.

#![tactic(auto)]

ghost use Rattle.std.specs.Prelude.{◌≡◌, ℕ, ◌≤◌, length, take, drop};
ghost use Rattle.std.specs.Io.KnownBytes.{Appends, Consumes};
ghost use Rattle.report.specs.Report.{report_text};
ghost use Rattle.report.specs.Fits.{input_bytes};

use sheet::MOST_BYTES;
use std::io::{Read, Write};

// Reads once into `rest`; the answer is the number of bytes, 0 where the input has ended or the read failed. Nothing is known of the bytes
// that the system gives; of an input whose bytes are known, those that come into `rest` are its next.
fn read_more<R: Read>(input: &mut R, rest: &mut [u8]) -> usize
    ensures within { result ≤ length rest.old }
    ensures bytes { Consumes (R.remaining input.old) (R.remaining input.new) (take result rest.new) }
{
    input.read(rest).unwrap_or(0)
}

// The buffer has one byte more than a sheet may have, so that a longer input is told from it. Reads until the buffer is full, the input
// ends or a read fails.
// `read_exact` does not tell how many bytes a shorter input has.
fn read_input<R: Read>(input: &mut R, sheet: &mut [u8]) -> usize
    requires { length sheet.old ≡ input_bytes }
    ensures within { result ≤ length sheet.new }
    ensures prefix { result ≡ length (take result sheet.new) }
    ensures bytes { Consumes (R.remaining input.old) (R.remaining input.new) (take result sheet.new) }
{
    let mut done = 0;
    while done < sheet.len() {
        let more = read_more(input, &mut sheet[done..]);
        if more == 0 {
            return done;
        }
        done += more;
    }
    done
}

// Writes once: what is left of the text of `sheet` from byte `done` on. The answer is the number of bytes, 0 where the write failed.
fn write_more<W: Write>(output: &mut W, sheet: &[u8], done: usize, rest: &[u8]) -> usize
    requires { rest.now ≡ drop done (report_text sheet.now) }
    ensures within { result ≤ length rest.now }
    ensures bytes { Appends (W.contents output.old) (W.contents output.new) (take result rest.now) }
{
    output.write(rest).unwrap_or(0)
}

// Writes until all of the text is written or a write fails. What is written is a front of the text.
// `write_all` does not promise that where a write fails.
fn write_text<W: Write>(output: &mut W, sheet: &[u8], text: &[u8])
    requires { text.now ≡ report_text sheet.now }
    ensures { (n : ℕ)
        × Appends (W.contents output.old) (W.contents output.new)
        (take n (report_text sheet.now)) }
{
    let mut done = 0;
    while done < text.len() {
        let more = write_more(output, sheet, done, &text[done..]);
        if more == 0 {
            return;
        }
        done += more;
    }
}

fn main(rt: HostRuntime) {
    let mut sheet = [0u8; MOST_BYTES + 1];
    let mut out = [0u8; report::TEXT_BYTES];
    let count = read_input(&mut rt.stdin(), &mut sheet);
    let written = report::report(&sheet[..count], &mut out);
    write_text(&mut rt.stdout(), &sheet[..count], &out[..written]);
}
