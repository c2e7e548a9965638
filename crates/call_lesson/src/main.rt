// The bench program of the paper: reads a module text from standard input, carries it out, prints the output and then the eight fields of the record.
#![tactic(auto)]

ghost use Rattle.std.specs.Prelude.{◌≤◌, length};
ghost use Rattle.call_lesson.specs.Bench.{text_room, Benched};

use call_screen::Shown;
use call_screen::streams::read_full;
use layout::limits;
use std::io;

// The bytes that a text may have and one more, by which a longer text is known.
const TEXT: usize = limits::TEXT + 1;

// "allows 10,000 steps, depth 16, no inputs, 4,096 output bytes"
const STEPS: u32 = 10000;

const DEPTH: u32 = 16;

const OUTPUT: usize = 4096;

// Carries out a text: what is to be printed then stands in front of the output and of the line.
fn bench(text: &[u8], out: &mut [u8; OUTPUT], line: &mut [u8; call_screen::LINE]) -> Shown
    requires { length text.now ≤ text_room }
    ensures { Benched text.now result out.new line.new }
{
    let mut code = [0u8; limits::STORE_BYTES];
    let mut values = [0u8; limits::STORE_BYTES];
    call_screen::show(
        text,
        STEPS,
        DEPTH,
        &text[..0],
        out,
        &mut code,
        &mut values,
        line,
    )
}

fn main(rt: HostRuntime) -> io::Result<()> {
    let mut text = [0u8; TEXT];
    let n = read_full(&mut rt.stdin(), &mut text)?;
    let mut out = [0u8; OUTPUT];
    let mut line = [0u8; call_screen::LINE];
    bench(&text[..n], &mut out, &mut line).print(&mut rt.stdout(), &out, &line)
}
