// Runs stored cases, one after another from standard input, and prints for each the output and the eight fields of the record. `tools/vectors` writes the
// cases and says what must be printed.
//
// A case is a line of seven numbers, then its inputs, a line each, then its text and a line end. A number has ten digits and a byte behind them.
#![tactic(auto)]

ghost use Rattle.std.specs.Prelude.{◌+◌, ◌*◌, ◌≤◌, length};
ghost use Rattle.call_vectors.specs.Cases.{Lends, Asks};

use call_screen::streams::read_full;
use layout::limits;
use std::io;
use std::io::{Read, Write};

// The digits of a number, with the byte behind them, and the bytes of a case's first line.
const DIGITS: usize = 10;

const NUMBER: usize = 11;

const HEADER: usize = 77;

// Where the numbers of the first line stand behind the steps: depth, bytes of output, of code and of values, how many inputs, bytes of text.
const DEPTH_AT: usize = 11;

const OUTPUT_AT: usize = 22;

const CODE_AT: usize = 33;

const VALUES_AT: usize = 44;

const INPUTS_AT: usize = 55;

const TEXT_AT: usize = 66;

// The most that a case is lent: bytes of text, inputs, bytes of output and of a store. Texts and stores may be larger than they need be.
const BEYOND: usize = 64;

const TEXT: usize = limits::TEXT + BEYOND;

const INPUTS: usize = 16;

const INPUT_BYTES: usize = 64;

const OUTPUT: usize = 4096;

const STORE: usize = limits::STORE_BYTES + BEYOND;

// More cases than there are.
const CASES: u32 = 100000;

// The number at a place: ten bytes, each a digit by its low half, so that any bytes are one. `parse` would refuse some.
fn number(s: &[u8], at: usize) -> u64
    requires { at + 10 ≤ length s.now }
{
    s[at..at + DIGITS]
        .iter()
        .fold(0, |v, digit| v % 1000000000 * 10 + u64::from(digit % 16))
}

// The same as a word of 32 bits.
fn word(s: &[u8], at: usize) -> u32
    requires { at + 10 ≤ length s.now }
{
    (number(s, at) % 4294967296) as u32
}

// The same as a count of at most so many.
fn count(s: &[u8], at: usize, most: usize) -> usize
    requires { at + 10 ≤ length s.now }
    ensures { result ≤ most }
{
    most.min(number(s, at) as usize)
}

// What a case asks for: the steps and the depth, so many bytes of output, of code and of values, so many inputs, and how long its text is.
#[derive(Clone, Copy)]
struct Case {
    steps: u32,
    depth: u32,
    room: usize,
    codes: usize,
    worths: usize,
    inputs: usize,
    text: usize,
}

impl Case {
    // The case that a first line asks for.
    fn of(header: &[u8; HEADER]) -> Case
        ensures { Asks result }
    {
        Case {
            steps: word(header, 0),
            depth: word(header, DEPTH_AT),
            room: count(header, OUTPUT_AT, OUTPUT),
            codes: count(header, CODE_AT, STORE),
            worths: count(header, VALUES_AT, STORE),
            inputs: count(header, INPUTS_AT, INPUTS),
            text: count(header, TEXT_AT, TEXT),
        }
    }

    // Reads its inputs and its text, and runs it.
    fn run<R: Read, W: Write>(self, reader: &mut R, writer: &mut W) -> io::Result<()>
        requires { Asks self }
    {
        let mut inputs = [0u8; INPUT_BYTES];
        read_inputs(reader, &mut inputs, self.inputs)?;
        let mut text = [0u8; TEXT];
        read_full(reader, &mut text[..self.text])?;
        let mut line_end = [0u8; 1];
        read_full(reader, &mut line_end)?;
        self.call(writer, &text[..self.text], &inputs[..self.inputs * 4])
    }

    // Lends as much as it asks for, makes the call, and prints its output and its record.
    fn call<'a, W: Write>(self, writer: &mut W, text: &'a [u8], inputs: &'a [u8]) -> io::Result<()>
        requires { Lends self text.now inputs.now }
    {
        let mut out = [0u8; OUTPUT];
        let mut code = [0u8; STORE];
        let mut values = [0u8; STORE];
        let mut line = [0u8; call_screen::LINE];
        let shown = call_screen::show(
            text,
            self.steps,
            self.depth,
            inputs,
            &mut out[..self.room],
            &mut code[..self.codes],
            &mut values[..self.worths],
            &mut line,
        );
        shown.print(writer, &out[..self.room], &line)
    }
}

// Reads so many inputs into words of 32 bits. Where the input ends, the one read last counts again.
fn read_inputs<R: Read>(reader: &mut R, inputs: &mut [u8], n: usize) -> io::Result<()>
    requires { n * 4 ≤ length inputs.old }
{
    let mut digits = [0u8; NUMBER];
    for i in 0..n {
        read_full(reader, &mut digits)?;
        store_cells::put(inputs, i, word(&digits, 0));
    }
    Ok(())
}

fn main(rt: HostRuntime) -> io::Result<()> {
    let mut reader = rt.stdin();
    let mut writer = rt.stdout();
    for _ in 0..CASES {
        let mut header = [0u8; HEADER];
        if read_full(&mut reader, &mut header)? < HEADER {
            break;
        }
        Case::of(&header).run(&mut reader, &mut writer)?;
    }
    Ok(())
}
