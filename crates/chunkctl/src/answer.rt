// What a command answers, and how it is written.
ghost use Rattle.std.specs.Prelude.{◌≡◌, ℕ, List, ◌++◌, take, IsSome, Some, OnOk, decimal};
ghost use Rattle.chunkctl.specs.Shown.{shown, list_text, single_text, trouble_text, number_or, value_text, outcome_text, line_text};

use crate::trouble::Trouble;
use stage::capability::PartialDecoderCapability;
use std::alloc::{AllocError, Global};
use std::fmt;
use std::io::Write;
use text::hex::push_hex;
use text::number::push_number;

#[derive(Drop)]
pub enum Answer {
    Done,
    Commands,
    // how many elements and bytes a form has
    Form(usize, usize),
    // where what a chain decodes is kept, and how many bytes the encoded has
    Chain(Option<usize>, usize),
    // so many bytes at the front of the output buffer, which an answer does not borrow: the session goes on
    Output(usize),
    Bytes(Vec<u8>),
    Singles(Vec<Single>),
    Lengths(Vec<usize>),
    Sum(u32),
    // the most bytes that a cell holds
    Capacity(usize),
    // how many bytes a cell's value has, if it is not absent
    Length(Option<usize>),
}

// What a single can read and decode.
#[derive(Clone, Copy)]
pub struct Single(pub PartialDecoderCapability);

impl Single {
    // Two words; what bool prints is others.
    fn text(&self) -> &'static str
        ensures { result.now ≡ single_text self.now.0 }
    {
        let (read, decode) = (self.0.partial_read, self.0.partial_decode);
        match (read, decode) {
            (true, true) => "yes/yes",
            (true, false) => "yes/no",
            (false, true) => "no/yes",
            (false, false) => "no/no",
        }
    }
}

impl fmt::Display for Single {
    ghost output = { λ s. Some (single_text s.0) };

    fn fmt<W: fmt::Write>(&self, f: &mut fmt::Formatter<W>) -> fmt::Result {
        f.write_str(self.text())
    }
}

const COMMANDS: &str =
    " help out work peek form stages chain singles lengths encode decode undo sum data slot pages length read replace erase dump";

// The line of an answer is pushed part by part, and is not one Display: through a formatter the digits of a large buffer take
// eight times as long. What pushes takes the allocator, if it allocates, and the text, as std's functions do; a struct of the two
// would be taken apart again at each call of them.
fn push_text(out: &mut Vec<u8>, text: &str) -> Result<(), AllocError>
    ensures { OnOk result (out.new.items ≡ out.old.items ++ text.now) }
{
    out.extend_from_slice(text.as_bytes())
}

// What a value prints, which needs no memory but that of the reply.
fn push_shown<T: fmt::Display>(out: &mut Vec<u8>, value: &T) -> Result<(), AllocError>
    requires { IsSome (T.output value.now) }
    ensures { OnOk result (out.new.items ≡ out.old.items ++ shown T.output value.now) }
{
    write!(out, "{value}").map_err(|_| AllocError)
}

// What a list has in it. Words are pushed as they are: through a formatter a list of singles took half as long again.
trait Pushed {
    ghost text: { Self → List ℕ };

    fn push(&self, heap: Global, out: &mut Vec<u8>) -> Result<(), AllocError>
        ensures { OnOk result (out.new.items ≡ out.old.items ++ text self.now) };
}

impl Pushed for usize {
    ghost text = { decimal };

    fn push(&self, heap: Global, out: &mut Vec<u8>) -> Result<(), AllocError> {
        push_number(heap, out, *self as u64)
    }
}

impl Pushed for Single {
    ghost text = { λ s. single_text s.0 };

    fn push(&self, _heap: Global, out: &mut Vec<u8>) -> Result<(), AllocError> {
        push_text(out, self.text())
    }
}

// Values joined by commas, or - for none.
fn push_list<T: Pushed>(heap: Global, out: &mut Vec<u8>, values: &[T]) -> Result<(), AllocError>
    ensures { OnOk result (out.new.items ≡ out.old.items ++ list_text T.Pushed.text values.now) }
{
    let [first, rest @ ..] = values else {
        return push_text(out, "-");
    };
    first.push(heap, out)?;
    for value in rest {
        push_text(out, ",")?;
        value.push(heap, out)?;
    }
    Ok(())
}

// Not by Display: a complaint needs no memory but that of the reply, and no formatter.
fn push_trouble(out: &mut Vec<u8>, trouble: &Trouble) -> Result<(), AllocError>
    ensures { OnOk result (out.new.items ≡ out.old.items ++ trouble_text trouble.now) }
{
    match trouble {
        Trouble::Refused(fault) => push_shown(out, fault),
        Trouble::Error(complaint) => {
            push_text(out, "error: ")?;
            push_text(out, complaint.text())
        }
    }
}

// A number, or a word where there is none.
fn push_number_or(
    heap: Global,
    out: &mut Vec<u8>,
    number: Option<usize>,
    word: &str,
) -> Result<(), AllocError>
    ensures { OnOk result (out.new.items ≡ out.old.items ++ number_or word.now number) }
{
    match number {
        Some(number) => push_number(heap, out, number as u64),
        None => push_text(out, word),
    }
}

// The first n bytes, or all where there are fewer.
fn front(bytes: &[u8], n: usize) -> &[u8]
    ensures { result.now ≡ take n bytes.now }
{
    bytes.get(..n).unwrap_or(bytes)
}

// A blank and the value of an answer that has one; `output` is the output buffer.
fn push_value(
    heap: Global,
    out: &mut Vec<u8>,
    answer: &Answer,
    output: &[u8],
) -> Result<(), AllocError>
    ensures { OnOk result (out.new.items ≡ out.old.items ++ value_text output.now answer.now) }
{
    match answer {
        Answer::Done => Ok(()),
        Answer::Commands => push_text(out, COMMANDS),
        Answer::Form(count, bytes) => {
            push_text(out, " ")?;
            push_number(heap, out, *count as u64)?;
            push_text(out, " ")?;
            push_number(heap, out, *bytes as u64)
        }
        Answer::Chain(place, bytes) => {
            push_text(out, " ")?;
            push_number_or(heap, out, *place, "none")?;
            push_text(out, " ")?;
            push_number(heap, out, *bytes as u64)
        }
        Answer::Output(n) => {
            push_text(out, " ")?;
            push_hex(out, front(output, *n))
        }
        Answer::Bytes(bytes) => {
            push_text(out, " ")?;
            push_hex(out, bytes.as_slice())
        }
        Answer::Singles(singles) => {
            push_text(out, " ")?;
            push_list(heap, out, singles.as_slice())
        }
        Answer::Lengths(lengths) => {
            push_text(out, " ")?;
            push_list(heap, out, lengths.as_slice())
        }
        Answer::Sum(sum) => {
            push_text(out, " 0x")?;
            push_hex(out, &sum.to_be_bytes())
        }
        Answer::Capacity(capacity) => {
            push_text(out, " ")?;
            push_number(heap, out, *capacity as u64)
        }
        Answer::Length(length) => {
            push_text(out, " ")?;
            push_number_or(heap, out, *length, "absent")
        }
    }
}

// An answer, or why there is none.
fn push_outcome(
    heap: Global,
    out: &mut Vec<u8>,
    outcome: &Result<Answer, Trouble>,
    output: &[u8],
) -> Result<(), AllocError>
    ensures { OnOk result (out.new.items ≡ out.old.items ++ outcome_text output.now outcome.now) }
{
    match outcome {
        Ok(answer) => {
            push_text(out, "ok")?;
            push_value(heap, out, answer, output)
        }
        Err(trouble) => push_trouble(out, trouble),
    }
}

// The line that answers a command.
pub fn push_line(
    heap: Global,
    out: &mut Vec<u8>,
    outcome: &Result<Answer, Trouble>,
    output: &[u8],
) -> Result<(), AllocError>
    ensures { OnOk result (out.new.items ≡ out.old.items ++ line_text output.now outcome.now) }
{
    push_outcome(heap, out, outcome, output)?;
    push_text(out, "\n")
}
