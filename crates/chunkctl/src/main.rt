// A tool that carries out a command for each line of its standard input, and answers it with a line.
#![tactic(auto)]

ghost use Rattle.std.specs.Prelude.{◌≡◌, OnErr};
ghost use Rattle.chunkctl.specs.Celled.{CellKept};

use answer::{Answer, push_line};
use command::parse;
use line::Lines;
use session::Session;
use std::alloc::{AllocError, Global};
use std::io;
use std::io::BufReader;
use trouble::{Complaint, Trouble};

mod answer;
mod command;
mod line;
mod owned_cell;
mod session;
mod stages;
mod trouble;

// Carries out a line.
fn carry_out(
    heap: Global,
    session: &mut Session,
    line: Result<&[u8], Complaint>,
) -> Result<Answer, Trouble>
    ensures line { OnErr line.entry (session.new ≡ session.old) }
    ensures form { OnErr result (session.new.form ≡ session.old.form) }
    ensures stages { OnErr result (session.new.stages ≡ session.old.stages) }
    ensures cell { CellKept session.old.cell session.new.cell result }
{
    let command = parse(heap, line?)?;
    session.run(heap, command)
}

// Carries out a line, and writes the answer to `reply`.
fn respond(
    heap: Global,
    session: &mut Session,
    line: Result<&[u8], Complaint>,
    reply: &mut Vec<u8>,
) -> Result<(), AllocError>
    ensures { OnErr line.entry (session.new ≡ session.old) }
{
    let outcome = carry_out(heap, session, line);
    reply.clear();
    push_line(heap, reply, &outcome, session.buffers.output.as_slice())
}

fn main(rt: HostRuntime) -> io::Result<()> {
    let heap = rt.alloc();
    let mut session = Session::new(heap)?;
    let mut line = Vec::new(heap);
    let mut reply = Vec::new(heap);
    let mut lines = Lines::new(BufReader::new(heap, rt.stdin())?);
    while let Some(kept) = lines.read_line(&mut line)? {
        let line = kept.map(|()| line.as_slice());
        match respond(heap, &mut session, line, &mut reply) {
            Ok(()) => rt.write_all(reply.as_slice())?,
            Err(_) => rt.write_all(b"error: no memory\n")?,
        }
    }
    Ok(())
}
