// What is kept from line to line, and how a command is carried out.
ghost use Rattle.std.specs.Prelude.{◌≡◌, ◌≤◌, ◌<◌, length, map, replicate, Some, None, Ok, Err, vec_len, vec_items, IfOk, OnErr};
ghost use Rattle.stage_names.specs.Names.{said_stage};
ghost use Rattle.chunkctl.specs.Carried.{NotMade, OutputSet, WorkSet, FormSet, StagesSet, ChainSet, length_of, form_of, SinglesTold, SinglesAnswer, LengthsTold, LengthsAnswer, Kept, EncodesBy, UndoesBy, EncodesWhole, DecodesWhole, Encodes, Decodes, Undoes, BeforeSum};
ghost use Rattle.chunkctl.specs.Celled.{buffer_of, NotFilled, CellSet, LengthTold, Reads, Replaces, Erases, Dumps, CellKept};
ghost use Rattle.chunkctl.specs.Sessions.{Ran};

use crate::answer::{Answer, Single};
use crate::command::{Command, Layout, Run, Undo};
use crate::owned_cell::{OwnedCell, Placed, check_layout, new_cell};
use crate::stages::{Stages, built};
use crate::trouble::{Complaint, Trouble};
use buffers::Buffers;
use cells::cell::{Cell, Mark};
use chain_draft::sealing::FittedSealedChain;
use fletcher32::fletcher32_codec::{data_before_checksum, h5_checksum_fletcher32};
use form::array_form::Form;
use form::settings::{LenientSpan, Settings};
use stage::codec::Codec;
use stage_names::drafting::chain_of;
use stage_names::name::StageName;
use std::alloc::{AllocError, Global};

// What an output buffer is filled with.
const FRESH: u8 = 0xee;

// The longest buffer.
const LARGEST: usize = 1_048_576;

#[derive(Drop)]
pub struct Session {
    pub form: Option<Form>,
    pub stages: Option<Stages>,
    pub buffers: Buffers,
    pub cell: Option<OwnedCell>,
}

// Whether a buffer may have so many bytes.
fn check_size(size: usize) -> Result<(), Complaint>
    ensures { elim result [ Ok u ↦ size ≤ 1048576 | Err c ↦ (1048576 < size) × (c ≡ Complaint.BufferTooLarge) ] }
{
    if size > LARGEST {
        return Err(Complaint::BufferTooLarge);
    }
    Ok(())
}

// A buffer of so many bytes, each with the value.
fn buffer(heap: Global, size: usize, value: u8) -> Result<Vec<u8>, Trouble>
    ensures { elim result [ Ok v ↦ (v.items ≡ replicate size value) × (vec_len v ≡ size) × (size ≤ 1048576) | Err t ↦ NotMade size t ] }
{
    check_size(size)?;
    Ok(vec![in heap; value; size]?)
}

// What a command needs of the session is lent to it part by part, so that its parameters say what it can change.
fn set_output(buffers: &mut Buffers, heap: Global, size: usize) -> Result<Answer, Trouble>
    ensures { OutputSet size buffers.old buffers.new result }
{
    buffers.output = buffer(heap, size, FRESH)?;
    Ok(Answer::Done)
}

fn set_work(
    buffers: &mut Buffers,
    heap: Global,
    first: usize,
    second: usize,
) -> Result<Answer, Trouble>
    ensures { WorkSet first second buffers.old buffers.new result }
{
    let work = buffer(heap, first, 0)?;
    buffers.scratch = buffer(heap, second, 0)?;
    buffers.work = work;
    Ok(Answer::Done)
}

// The code is a number, as in the command: the library refuses one that no type has, after the shape.
fn set_form(
    form: &mut Option<Form>,
    shape: &[usize],
    code: usize,
    fill: &[u8],
) -> Result<Answer, Trouble>
    ensures answer { FormSet shape.now code fill.now form.new result }
    ensures same { OnErr result (form.new ≡ form.old) }
{
    let made = Form::new(shape, code, fill)?;
    *form = Some(made);
    Ok(Answer::Form(made.elements(), made.bytes()))
}

fn set_stages(stages: &mut Option<Stages>, run: &Run) -> Result<Answer, Trouble>
    ensures answer { StagesSet run.now stages.new result }
    ensures same { OnErr result (stages.new ≡ stages.old) }
{
    *stages = Some(built(run)?);
    Ok(Answer::Done)
}

// A chain keeps the form that it is fitted to.
fn set_chain(
    stages: &mut Option<Stages>,
    form: &Option<Form>,
    names: &[StageName],
) -> Result<Answer, Trouble>
    ensures answer { ChainSet (map said_stage names.now) form.now stages.new result }
    ensures same { OnErr result (stages.new ≡ stages.old) }
{
    let form = form_of(None, form)?;
    let chain = chain_of(names, &form)?;
    let answer = Answer::Chain(chain.chain().cache_index(), chain.encoded_len());
    *stages = Some(Stages::Chain(chain));
    Ok(answer)
}

// The stages, once there are any.
fn chosen(stages: &Option<Stages>) -> Result<&Stages, Complaint>
    ensures { elim result [ Ok s ↦ stages.now ≡ Some s.now | Err c ↦ (stages.now ≡ None) × (c ≡ Complaint.NoStages) ] }
{
    stages.as_ref().ok_or(Complaint::NoStages)
}

// The decoded length, which the words have where the stages are over bytes.
fn length_of(decoded: Option<usize>) -> Result<usize, Complaint>
    ensures { result ≡ length_of decoded }
{
    decoded.ok_or(Complaint::ByteLength)
}

// The form of a decoded array, which the session has: the words have no length then.
fn form_of(decoded: Option<usize>, form: &Option<Form>) -> Result<Form, Complaint>
    ensures { result ≡ form_of decoded form.now }
{
    if decoded.is_some() {
        return Err(Complaint::ArrayLength);
    }
    form.ok_or(Complaint::NoForm)
}

// The form that a chain is fitted to; the words have no length then.
fn chain_form(decoded: Option<usize>, chain: &FittedSealedChain) -> Result<Form, Complaint>
    ensures { result ≡ form_of decoded (Some chain.now.form) }
{
    form_of(decoded, &Some(*chain.form()))
}

// How many singles there are, if there is memory for a list of so many.
fn counted<C: Codec>(codec: &C) -> Result<usize, Complaint>
    ensures { elim result [ Ok n ↦ n ≡ length (C.Codec.meaning codec.now).singles | Err c ↦ c ≡ Complaint.NoMemory ] }
{
    codec.singles().ok_or(Complaint::NoMemory)
}

// What each single can read and decode, in decode order.
fn singles_by<C: Codec>(heap: Global, codec: &C) -> Result<Answer, Trouble>
    ensures { SinglesTold (C.Codec.meaning codec.now).singles result }
{
    let mut found = Vec::new(heap);
    for single in 0..counted(codec)? {
        found.push(Single(codec.capability(single)?))?;
    }
    Ok(Answer::Singles(found))
}

fn singles(heap: Global, stages: &Option<Stages>) -> Result<Answer, Trouble>
    ensures { SinglesAnswer stages.now result }
{
    match chosen(stages)? {
        Stages::ArrayToArray(codec) => singles_by(heap, codec),
        Stages::ArrayToBytes(codec) => singles_by(heap, codec),
        Stages::BytesToBytes(codec) => singles_by(heap, codec),
        Stages::Chain(chain) => singles_by(heap, chain.chain().stages()),
    }
}

// The length at every place, if what is decoded is taken.
fn lengths_by<C: Codec>(heap: Global, codec: &C, decoded: &C::Decoded) -> Result<Answer, Trouble>
    ensures { LengthsTold (C.Codec.meaning codec.now) decoded.now result }
{
    let mut lengths = Vec::new(heap);
    lengths.push(codec.size(decoded, 0)?)?;
    for single in 0..counted(codec)? {
        lengths.push(codec.size(decoded, single + 1)?)?;
    }
    Ok(Answer::Lengths(lengths))
}

fn lengths(
    heap: Global,
    stages: &Option<Stages>,
    form: &Option<Form>,
    decoded: Option<usize>,
) -> Result<Answer, Trouble>
    ensures { LengthsAnswer stages.now form.now decoded result }
{
    match chosen(stages)? {
        Stages::ArrayToArray(codec) => lengths_by(heap, codec, &form_of(decoded, form)?),
        Stages::ArrayToBytes(codec) => lengths_by(heap, codec, &form_of(decoded, form)?),
        Stages::BytesToBytes(codec) => lengths_by(heap, codec, &length_of(decoded)?),
        Stages::Chain(chain) => {
            let form = chain_form(decoded, chain)?;
            lengths_by(heap, chain.chain().stages(), &form)
        }
    }
}

fn encode_by<C: Codec>(
    codec: &C,
    decoded: &C::Decoded,
    buffers: &mut Buffers,
    input: &[u8],
) -> Result<Answer, Trouble>
    ensures kept { Kept buffers.old buffers.new result }
    ensures answer { EncodesBy C.Decoded.Representation.weight (C.Codec.meaning codec.now) decoded.now input.now buffers.old buffers.new result }
{
    buffers.output.fill(FRESH);
    let count = buffers.encode(codec, decoded, input)?;
    Ok(Answer::Output(count))
}

// The whole encoding of a chain.
fn encode_whole(
    chain: &FittedSealedChain,
    buffers: &mut Buffers,
    input: &[u8],
) -> Result<Answer, Trouble>
    ensures kept { Kept buffers.old buffers.new result }
    ensures answer { EncodesWhole chain.now.chain.stages chain.now.form input.now buffers.old buffers.new result }
{
    buffers.output.fill(FRESH);
    let count = chain.encode(
        input,
        buffers.output.as_mut_slice(),
        buffers.work.as_mut_slice(),
        buffers.scratch.as_mut_slice(),
    )?;
    Ok(Answer::Output(count))
}

// The whole decoding, with settings.
fn decode_with(
    chain: &FittedSealedChain,
    settings: &Settings,
    buffers: &mut Buffers,
    input: &[u8],
) -> Result<Answer, Trouble>
    ensures kept { Kept buffers.old buffers.new result }
    ensures answer { DecodesWhole chain.now.chain.stages chain.now.form settings.now.checks input.now buffers.old buffers.new result }
{
    buffers.output.fill(FRESH);
    let count = chain.decode(
        settings,
        input,
        buffers.output.as_mut_slice(),
        buffers.work.as_mut_slice(),
        buffers.scratch.as_mut_slice(),
    )?;
    Ok(Answer::Output(count))
}

// The same with checks on, or inside a lenient span.
fn decode_whole(
    chain: &FittedSealedChain,
    buffers: &mut Buffers,
    checks: bool,
    input: &[u8],
) -> Result<Answer, Trouble>
    ensures kept { Kept buffers.old buffers.new result }
    ensures answer { DecodesWhole chain.now.chain.stages chain.now.form checks input.now buffers.old buffers.new result }
{
    let mut settings = Settings::new();
    if checks {
        return decode_with(chain, &settings, buffers, input);
    }
    let span = LenientSpan::new(&mut settings);
    decode_with(chain, span.settings(), buffers, input)
}

fn decode(
    stages: &Option<Stages>,
    buffers: &mut Buffers,
    checks: bool,
    input: &[u8],
) -> Result<Answer, Trouble>
    ensures kept { Kept buffers.old buffers.new result }
    ensures answer { Decodes stages.now checks input.now buffers.old buffers.new result }
{
    match chosen(stages)? {
        Stages::Chain(chain) => decode_whole(chain, buffers, checks, input),
        Stages::ArrayToArray(_) | Stages::ArrayToBytes(_) | Stages::BytesToBytes(_) => {
            Err(Trouble::Error(Complaint::NoChain))
        }
    }
}

fn encode(
    stages: &Option<Stages>,
    form: &Option<Form>,
    buffers: &mut Buffers,
    input: &[u8],
) -> Result<Answer, Trouble>
    ensures kept { Kept buffers.old buffers.new result }
    ensures answer { Encodes stages.now form.now input.now buffers.old buffers.new result }
{
    match chosen(stages)? {
        Stages::ArrayToArray(codec) => encode_by(codec, &form_of(None, form)?, buffers, input),
        Stages::ArrayToBytes(codec) => encode_by(codec, &form_of(None, form)?, buffers, input),
        Stages::BytesToBytes(codec) => encode_by(codec, &input.len(), buffers, input),
        Stages::Chain(chain) => encode_whole(chain, buffers, input),
    }
}

fn undo_by<C: Codec>(
    codec: &C,
    decoded: &C::Decoded,
    buffers: &mut Buffers,
    undo: &Undo,
) -> Result<Answer, Trouble>
    ensures kept { Kept buffers.old buffers.new result }
    ensures answer { UndoesBy C.Decoded.Representation.weight (C.Codec.meaning codec.now) decoded.now undo.now buffers.old buffers.new result }
{
    buffers.output.fill(FRESH);
    let count = buffers.undo(
        codec,
        decoded,
        undo.from,
        undo.to,
        undo.checks,
        undo.input.as_slice(),
    )?;
    Ok(Answer::Output(count))
}

fn undo(
    stages: &Option<Stages>,
    form: &Option<Form>,
    buffers: &mut Buffers,
    undo: &Undo,
) -> Result<Answer, Trouble>
    ensures kept { Kept buffers.old buffers.new result }
    ensures answer { Undoes stages.now form.now undo.now buffers.old buffers.new result }
{
    match chosen(stages)? {
        Stages::ArrayToArray(codec) => {
            undo_by(codec, &form_of(undo.decoded, form)?, buffers, undo)
        }
        Stages::ArrayToBytes(codec) => {
            undo_by(codec, &form_of(undo.decoded, form)?, buffers, undo)
        }
        Stages::BytesToBytes(codec) => undo_by(codec, &length_of(undo.decoded)?, buffers, undo),
        Stages::Chain(chain) => {
            let form = chain_form(undo.decoded, chain)?;
            undo_by(chain.chain().stages(), &form, buffers, undo)
        }
    }
}

// The bytes before the last four.
fn before_checksum(mut bytes: Vec<u8>) -> Result<Answer, Trouble>
    ensures { BeforeSum bytes.items result }
{
    let count = data_before_checksum(bytes.as_slice())?.len();
    bytes.truncate(count);
    Ok(Answer::Bytes(bytes))
}

// A buffer of so many bytes: those given, and zeros behind them.
fn filled(mut front: Vec<u8>, size: usize) -> Result<Vec<u8>, Trouble>
    ensures { elim result [ Ok v ↦ (size ≤ 1048576) × (length front.items ≤ size) × (v.items ≡ buffer_of size front.items) × (vec_len v ≡ size) | Err t ↦ NotFilled size front.items t ] }
{
    check_size(size)?;
    if front.len() > size {
        return Err(Trouble::Error(Complaint::FrontTooLong));
    }
    front.resize(size, 0)?;
    Ok(front)
}

// A cell is made, and takes the place of the earlier one, also where the check refuses it.
fn set_cell(
    cell: &mut Option<OwnedCell>,
    size: usize,
    layout: &Layout,
    mark: Mark,
    front: Vec<u8>,
) -> Result<Answer, Trouble>
    ensures { CellSet ⟦<OwnedCell as Cell>⟧.value ⟦<OwnedCell as Cell>⟧.capacity ⟦<OwnedCell as Cell>⟧.behind ⟦<OwnedCell as Placed>⟧.place size layout.now mark front.items cell.old cell.new result }
{
    let buffer = filled(front, size)?;
    let made = new_cell(buffer, layout, mark);
    let capacity = made.capacity();
    *cell = Some(made);
    check_layout(size, layout, mark)?;
    Ok(Answer::Capacity(capacity))
}

fn length<C: Cell>(cell: &Option<C>) -> Result<Answer, Trouble>
    ensures { LengthTold C.value cell.now result }
{
    let cell = cell.as_ref().ok_or(Complaint::NoCell)?;
    Ok(Answer::Length(cell.length()))
}

fn read<C: Cell>(
    cell: &Option<C>,
    output: &mut Vec<u8>,
    offset: usize,
    count: usize,
) -> Result<Answer, Trouble>
    ensures { Reads C.value cell.now offset count output.old output.new result }
{
    let cell = cell.as_ref().ok_or(Complaint::NoCell)?;
    output.fill(FRESH);
    let count = cell.read(offset, count, output.as_mut_slice())?;
    Ok(Answer::Output(count))
}

fn replace<C: Cell>(cell: &mut Option<C>, bytes: &[u8]) -> Result<Answer, Trouble>
    ensures { Replaces C.value C.capacity C.rewritten bytes.now cell.old cell.new result }
{
    let cell = cell.as_mut().ok_or(Complaint::NoCell)?;
    cell.replace(bytes)?;
    Ok(Answer::Done)
}

fn erase<C: Cell>(cell: &mut Option<C>) -> Result<Answer, Trouble>
    ensures { Erases C.value C.capacity C.rewritten cell.old cell.new result }
{
    let cell = cell.as_mut().ok_or(Complaint::NoCell)?;
    cell.erase();
    Ok(Answer::Done)
}

// The whole buffer behind the cell, copied: the answer does not borrow the session.
fn dump(heap: Global, cell: &Option<OwnedCell>) -> Result<Answer, Trouble>
    ensures { Dumps ⟦<OwnedCell as Cell>⟧.behind cell.now result }
{
    let cell = cell.as_ref().ok_or(Complaint::NoCell)?;
    Ok(Answer::Bytes(Vec::from_slice(heap, cell.buffer().as_slice())?))
}

impl Session {
    // At first there are no form, no stages and no cell, and each buffer has the 4,096 bytes of the largest chunk.
    pub fn new(heap: Global) -> Result<Session, AllocError>
        ensures form { IfOk result (λ s. s.form ≡ None) }
        ensures stages { IfOk result (λ s. s.stages ≡ None) }
        ensures cell { IfOk result (λ s. s.cell ≡ None) }
        ensures output { IfOk result (λ s. vec_items s.buffers.output ≡ replicate 4096 238) }
        ensures work { IfOk result (λ s. vec_len s.buffers.work ≡ 4096) }
        ensures scratch { IfOk result (λ s. vec_len s.buffers.scratch ≡ 4096) }
    {
        let mut buffers = Buffers::new(heap, 4096)?;
        buffers.output.fill(FRESH);
        Ok(Session {
            form: None,
            stages: None,
            buffers,
            cell: None,
        })
    }

    // Carries out a command. Whatever is not accepted leaves the form and the stages as they were, and an error the cell too.
    pub fn run(&mut self, heap: Global, command: Command) -> Result<Answer, Trouble>
        ensures ran { Ran (λ s. s.cell) ⟦<OwnedCell as Cell>⟧.value ⟦<OwnedCell as Cell>⟧.capacity ⟦<OwnedCell as Cell>⟧.behind ⟦<OwnedCell as Placed>⟧.place ⟦<OwnedCell as Cell>⟧.rewritten command self.old self.new result }
        ensures form { OnErr result (self.new.form ≡ self.old.form) }
        ensures stages { OnErr result (self.new.stages ≡ self.old.stages) }
        ensures cell { CellKept self.old.cell self.new.cell result }
    {
        match command {
            Command::Help => Ok(Answer::Commands),
            Command::Out(size) => set_output(&mut self.buffers, heap, size),
            Command::Work { first, second } => set_work(&mut self.buffers, heap, first, second),
            Command::Peek => Ok(Answer::Output(self.buffers.output.len())),
            Command::Form { shape, code, fill } => {
                set_form(&mut self.form, shape.as_slice(), code, fill.as_slice())
            }
            Command::Stages(run) => set_stages(&mut self.stages, &run),
            Command::Chain(names) => set_chain(&mut self.stages, &self.form, names.as_slice()),
            Command::Singles => singles(heap, &self.stages),
            Command::Lengths(decoded) => lengths(heap, &self.stages, &self.form, decoded),
            Command::Encode(input) => {
                encode(
                    &self.stages,
                    &self.form,
                    &mut self.buffers,
                    input.as_slice(),
                )
            }
            Command::Decode { checks, input } => {
                decode(&self.stages, &mut self.buffers, checks, input.as_slice())
            }
            Command::Undo(request) => {
                undo(&self.stages, &self.form, &mut self.buffers, &request)
            }
            Command::Sum(bytes) => Ok(Answer::Sum(h5_checksum_fletcher32(bytes.as_slice()))),
            Command::Data(bytes) => before_checksum(bytes),
            Command::Cell {
                size,
                layout,
                mark,
                front,
            } => set_cell(&mut self.cell, size, &layout, mark, front),
            Command::Length => length(&self.cell),
            Command::Read { offset, count } => {
                read(&self.cell, &mut self.buffers.output, offset, count)
            }
            Command::Replace(bytes) => replace(&mut self.cell, bytes.as_slice()),
            Command::Erase => erase(&mut self.cell),
            Command::Dump => dump(heap, &self.cell),
        }
    }
}
