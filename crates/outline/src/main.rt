// Reads one log from standard input and prints its keeping view; input that is no log prints
// `refused 1`. An input of no bytes is a log without ops. A read or a write that fails is told on
// standard error, with its cause.
#![tactic(auto)]

ghost use Rattle.std.specs.Prelude.{◌≤◌, ◌<◌, ◌≡◌, length, take};
ghost use Rattle.std.specs.Result.{IfOk};
ghost use Rattle.rules.specs.File.{largest, width};
ghost use Rattle.codec.specs.Answers.{answer_of};
ghost use Rattle.outline.specs.Text as texts;

use codec::Refusal;
use printing::LONGEST;
use soundness::LARGEST;
use std::io;
use std::io::{Print, Read};

// One byte more than the largest log, so that longer input shows.
const INPUT: usize = LARGEST + 1;

// Reads until the input ends or the buffer is full. `read_exact` refuses a shorter input, and
// `read_to_end` needs a heap.
fn read_all<R: Read>(reader: &mut R, buf: &mut [u8]) -> io::Result<usize>
    ensures { IfOk result (λ n. n ≤ length buf.new) }
{
    let mut done: usize = 0;
    while done < buf.len() {
        match reader.read(&mut buf[done..])? {
            0 => break,
            more => done += more,
        }
    }
    Ok(done)
}

// Tells on standard error what failed, and why. Where that fails too, nothing is left to do.
fn tell(errors: &impl Print, what: &str, cause: io::Error) {
    let _told = println!(errors; "outline: {what}: {cause}");
}

// How many bytes an answer counts; none if it is refused.
fn counted(answer: Result<usize, Refusal>) -> usize
    ensures { result ≡ texts.counted (answer_of answer) }
{
    answer.unwrap_or(0)
}

// Writes what the program prints for the input of which it read the first bytes, and answers how
// many bytes that is.
fn text(input: &[u8], n: usize, out: &mut [u8]) -> usize
    requires { texts.Readable input.now n out.old }
    ensures { texts.TextOf input.now n (take result out.new) × (result ≤ length out.old) }
{
    let answer = printing::outline(&input[..n], out);
    counted(answer)
}

// Prints the first bytes, which are the output for some input.
fn print(output: &impl Print, errors: &impl Print, bytes: &[u8], n: usize)
    requires { texts.Printed bytes.now n }
{
    if let Err(cause) = output.write_all(&bytes[..n]) {
        tell(errors, "cannot write the output", cause);
    }
}

// Reads the input, and prints what it gives.
fn run<R: Read>(
    reader: &mut R,
    output: &impl Print,
    errors: &impl Print,
    input: &mut [u8],
    out: &mut [u8],
)
    requires { (largest width < length input.old) × (24492 ≤ length out.old) }
{
    match read_all(reader, input) {
        Ok(n) => {
            let size = text(input, n, out);
            print(output, errors, out, size);
        }
        Err(cause) => tell(errors, "cannot read the input", cause),
    }
}

fn main(rt: HostRuntime) {
    let mut input = [0u8; INPUT];
    let mut out = [0u8; LONGEST];
    run(
        &mut rt.reader(),
        &rt.stdout(),
        &rt.stderr(),
        &mut input,
        &mut out,
    );
}
