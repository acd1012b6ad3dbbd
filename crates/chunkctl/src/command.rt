// The commands, and how a line says one.
ghost use Rattle.std.specs.Prelude.{◌≡◌};
ghost use Rattle.std.specs.List.{list_all};
ghost use Rattle.text.specs.List.{listed, all_said};
ghost use Rattle.text.specs.Number.{number_of};
ghost use Rattle.stage_names.specs.Names.{said_stage, stages_of};
ghost use Rattle.chunkctl.specs.Lists.{ListRead};
ghost use Rattle.chunkctl.specs.Runs.{is_over_arrays, is_over_bytes, run_of};

use crate::trouble::Complaint;
use bytes_codec::bytes_codec::Endianness;
use cells::cell::Mark;
use form::data_type::DataType;
use stage_names::name::StageName;
use stage_names::word::parse_stages;
use std::alloc::Global;
use text::hex::parse_hex;
use text::list::parse_list;
use text::number::parse_size;
use text::words::next_word;

// Stages of one kind, in encode order.
#[derive(Drop)]
pub enum Run {
    ArrayToArray(Vec<StageName>),
    // a bytes stage stands alone
    ArrayToBytes(Option<Endianness>),
    BytesToBytes(Vec<StageName>),
}

// Whether all stages are over arrays.
fn over_arrays(stages: &[StageName]) -> bool
    ensures { result ≡ list_all is_over_arrays stages.now }
{
    stages
        .iter()
        .all(|stage| matches!(stage, StageName::ArrayToArray(_)))
}

// Whether all are over bytes.
fn over_bytes(stages: &[StageName]) -> bool
    ensures { result ≡ list_all is_over_bytes stages.now }
{
    stages
        .iter()
        .all(|stage| matches!(stage, StageName::BytesToBytes(_)))
}

impl Run {
    // The stages as a run of their kind; no stages are a run over bytes.
    fn of(names: Vec<StageName>) -> Result<Run, Complaint>
        ensures { result ≡ run_of names }
    {
        if let [StageName::ArrayToBytes(endian)] = names.as_slice() {
            return Ok(Run::ArrayToBytes(*endian));
        }
        if over_bytes(names.as_slice()) {
            return Ok(Run::BytesToBytes(names));
        }
        if over_arrays(names.as_slice()) {
            return Ok(Run::ArrayToArray(names));
        }
        Err(Complaint::StageKinds)
    }
}

// Where in its buffer a cell's value lies.
#[derive(Drop)]
pub enum Layout {
    Slot,
    Pages(Vec<usize>),
}

#[derive(Drop)]
pub enum Command {
    Help,
    Out(usize),
    Work {
        first: usize,
        second: usize,
    },
    Peek,
    Form {
        shape: Vec<usize>,
        // a number that may name no data type: the library refuses that, and only after the shape
        code: usize,
        fill: Vec<u8>,
    },
    Stages(Run),
    // stages that may be out of order: the library refuses those
    Chain(Vec<StageName>),
    Singles,
    // the decoded length, where the stages are over bytes
    Lengths(Option<usize>),
    Encode(Vec<u8>),
    Decode {
        checks: bool,
        input: Vec<u8>,
    },
    Undo(Undo),
    Sum(Vec<u8>),
    Data(Vec<u8>),
    // a cell over a buffer of so many bytes, the first of which are given
    Cell {
        size: usize,
        layout: Layout,
        mark: Mark,
        front: Vec<u8>,
    },
    Length,
    Read {
        offset: usize,
        count: usize,
    },
    Replace(Vec<u8>),
    Erase,
    Dump,
}

#[derive(Drop)]
pub struct Undo {
    // the decoded length, where the stages are over bytes
    pub decoded: Option<usize>,
    pub from: usize,
    pub to: usize,
    pub checks: bool,
    pub input: Vec<u8>,
}

// The words that are left of a line.
#[derive(Clone, Copy)]
struct Words<'a> {
    heap: Global,
    left: &'a [u8],
}

impl<'a> Words<'a> {
    fn next(&mut self) -> Result<&'a [u8], Complaint> {
        let (word, rest) = next_word(self.left).ok_or(Complaint::WordCount)?;
        self.left = rest;
        Ok(word)
    }

    fn number(&mut self) -> Result<usize, Complaint> {
        parse_size(self.next()?).ok_or(Complaint::Number)
    }

    fn hex(&mut self) -> Result<Vec<u8>, Complaint> {
        parse_hex(self.heap, self.next()?)?.ok_or(Complaint::Hex)
    }

    // A number, or none for the word that says so.
    fn number_or(&mut self, none: &[u8]) -> Result<Option<usize>, Complaint> {
        let word = self.next()?;
        if word == none {
            return Ok(None);
        }
        Ok(Some(parse_size(word).ok_or(Complaint::Number)?))
    }

    fn end(&self) -> Result<(), Complaint> {
        if next_word(self.left).is_some() {
            return Err(Complaint::WordCount);
        }
        Ok(())
    }
}

// The lengths that a word joins by x, or none for `-`.
fn parse_shape(heap: Global, word: &[u8]) -> Result<Vec<usize>, Complaint>
    ensures { ListRead (λ n. n) (all_said number_of (listed 120 word.now)) Complaint.Shape result }
{
    parse_list(heap, word, b'x')?.ok_or(Complaint::Shape)
}

// The pages that a word joins by commas, or none for `-`.
fn parse_pages(heap: Global, word: &[u8]) -> Result<Vec<usize>, Complaint>
    ensures { ListRead (λ n. n) (all_said number_of (listed 44 word.now)) Complaint.Pages result }
{
    parse_list(heap, word, b',')?.ok_or(Complaint::Pages)
}

// The code of a data type, by its name or as a number. Two names have codes that no data type of the library has: it refuses
// them, as it does such a number.
fn parse_type(word: &[u8]) -> Result<usize, Complaint> {
    let data_type = match word {
        b"uint8" => DataType::UInt8,
        b"int8" => DataType::Int8,
        b"uint16" => DataType::UInt16,
        b"int16" => DataType::Int16,
        b"uint32" => DataType::UInt32,
        b"int32" => DataType::Int32,
        b"uint64" => DataType::UInt64,
        b"int64" => DataType::Int64,
        b"float32" => DataType::Float32,
        b"float64" => DataType::Float64,
        b"string" => return Ok(11),
        b"optional" => return Ok(12),
        _ => return parse_size(word).ok_or(Complaint::DataType),
    };
    Ok(usize::from(data_type))
}

// The stages that a word joins by +, or none for `-`.
fn parse_names(heap: Global, word: &[u8]) -> Result<Vec<StageName>, Complaint>
    ensures { ListRead said_stage (stages_of word.now) Complaint.Stage result }
{
    parse_stages(heap, word)?.ok_or(Complaint::Stage)
}

fn parse_switch(word: &[u8]) -> Result<bool, Complaint> {
    match word {
        b"on" => Ok(true),
        b"off" => Ok(false),
        _ => Err(Complaint::Switch),
    }
}

fn parse_undo(words: &mut Words<'_>) -> Result<Undo, Complaint> {
    Ok(Undo {
        decoded: words.number_or(b"-")?,
        from: words.number()?,
        to: words.number()?,
        checks: parse_switch(words.next()?)?,
        input: words.hex()?,
    })
}

// The command with the name, from the words after it.
fn parse_words(name: &[u8], words: &mut Words<'_>) -> Result<Command, Complaint> {
    let command = match name {
        b"help" => Command::Help,
        b"out" => Command::Out(words.number()?),
        b"work" => Command::Work {
            first: words.number()?,
            second: words.number()?,
        },
        b"peek" => Command::Peek,
        b"form" => Command::Form {
            shape: parse_shape(words.heap, words.next()?)?,
            code: parse_type(words.next()?)?,
            fill: words.hex()?,
        },
        b"stages" => Command::Stages(Run::of(parse_names(words.heap, words.next()?)?)?),
        b"chain" => Command::Chain(parse_names(words.heap, words.next()?)?),
        b"singles" => Command::Singles,
        b"lengths" => Command::Lengths(words.number_or(b"-")?),
        b"encode" => Command::Encode(words.hex()?),
        b"decode" => Command::Decode {
            checks: parse_switch(words.next()?)?,
            input: words.hex()?,
        },
        b"undo" => Command::Undo(parse_undo(words)?),
        b"sum" => Command::Sum(words.hex()?),
        b"data" => Command::Data(words.hex()?),
        b"slot" => Command::Cell {
            size: words.number()?,
            layout: Layout::Slot,
            mark: words.number_or(b"absent")?,
            front: words.hex()?,
        },
        b"pages" => Command::Cell {
            size: words.number()?,
            layout: Layout::Pages(parse_pages(words.heap, words.next()?)?),
            mark: words.number_or(b"absent")?,
            front: words.hex()?,
        },
        b"length" => Command::Length,
        b"read" => Command::Read {
            offset: words.number()?,
            count: words.number()?,
        },
        b"replace" => Command::Replace(words.hex()?),
        b"erase" => Command::Erase,
        b"dump" => Command::Dump,
        _ => return Err(Complaint::UnknownCommand),
    };
    Ok(command)
}

// The command that a line says.
pub fn parse(heap: Global, line: &[u8]) -> Result<Command, Complaint> {
    let mut words = Words { heap, left: line };
    let name = words.next()?;
    let command = parse_words(name, &mut words)?;
    words.end()?;
    Ok(command)
}
