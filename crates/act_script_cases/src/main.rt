//! Says what each line of a script says, which a separate model has said too.
//!
//! The script on standard input and the answers that are wanted were made by a model that was written
//! from the definitions alone. The script is taken in pieces of 61 bytes, with two digits.
#![tactic(auto)]

mod spelling;

ghost use Rattle.std.specs.Prelude.{◌≤◌};
ghost use Rattle.act_script.specs.Cutting.{IsOpen};
ghost use Rattle.std.specs.Prelude.{length};

use act_script::{Cutter, read_line};
use anyhow::Result;
use spelling::spelled;
use std::alloc::Global;
use std::io::Read;

/// How many bytes of the script are taken at once.
const PIECE: usize = 61;

/// Prints what a line says.
fn print_line(rt: &impl Print, alloc: Global, line: &[u8]) -> Result<()>
    requires short { length line.now ≤ 16777216 }
    requires one { IsOpen line.now }
{
    let text = spelled(alloc, &read_line(alloc, line, 2))?;
    rt.println(text.as_str())?;
    Ok(())
}

/// Prints what the lines of a script say.
fn print_script(rt: &impl Print, alloc: Global, script: &[u8]) -> Result<()> {
    let mut cutter = Cutter::new(alloc);
    for piece in script.chunks(PIECE) {
        let mut rest = piece;
        while !rest.is_empty() {
            match cutter.take(rest) {
                Ok(taken) => {
                    if taken.line {
                        print_line(rt, alloc, cutter.line())?;
                    }
                    rest = &rest[taken.used..];
                }
                Err(_) => return Ok(()),
            }
        }
    }
    match cutter.finish() {
        Ok(true) => print_line(rt, alloc, cutter.line()),
        _ => Ok(()),
    }
}

fn main(rt: HostRuntime) -> Result<()> {
    let mut script = Vec::new(rt.alloc());
    rt.reader().read_to_end(&mut script)?;
    print_script(&rt, rt.alloc(), &script)
}
