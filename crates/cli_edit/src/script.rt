//! A script over a volume, done line by line.

ghost use Rattle.std.specs.Prelude.{◌≡◌, ◌≢◌, ◌⊎◌, ◌==◌, ◌<◌, ◌≤◌, ◌+◌, ◌↔◌, ℕ, true, false, length, take, drop};
ghost use Rattle.std.specs.Prelude.{IfOk, IfErr, IfSome, IsSome, Some, None, Err};
ghost use Rattle.std.specs.List.{position};
ghost use Rattle.verity_profile.specs.Profile.{IsBlockCount};
ghost use Rattle.cli_edit.specs.Room.{LacksRoom};
ghost use Rattle.cli_edit.specs.Printed.{AreAnswers, BadLine, EndsAnswers, answers_of, answers_to, told_status};
ghost use Rattle.cli_edit.specs.Keeping.{AreKeptAnswers, IsAnswer, IsAnswerTo, answered_by, left_by};
ghost use Rattle.cli_volume.specs.Kept.{IsLeft};

use cli_arguments::{Refusal, Where, explain_line};
use cli_faults::{DONE, Failure, Fault, REFUSED};
use cli_script::{Line, read_line};
use cli_volume::{Commits, Devices, Edits, committed_line};
use std::alloc::{AllocError, Global};
use std::io::{ErrorKind, Read, Write};
use std::{io, str};
use verity_edit::{Command, Committed, EditFault, Reply, geometry_over};
use verity_profile::is_block_count;
use verity_store::{Block, StoreFault, Which};

/// A script: its bytes, and the path that it is named by.
#[derive(Clone, Copy)]
pub struct Script<'a> {
    pub path: &'a str,
    pub bytes: &'a [u8],
}

/// Does the lines of a script in order and prints one answer line each, but for empty lines: `ok`, `committed ` and the new
/// table line, of these devices, `refused ` and the fault's text, or `bad line`. It goes on after a refusal, and answers status 1
/// if there was one. Edits that are pending at the end are dropped with the editor. Why a line wasn't done goes to `errors`.
///
/// There is no status only for want of memory, where there is no table line, or where the output can't be written.
pub fn run_script<V: Edits, C: Commits<V>, W: Write, E: Write>(
    alloc: Global,
    editor: V,
    commits: &mut C,
    devices: Devices<'_>,
    script: Script<'_>,
    output: &mut W,
    errors: &mut E,
) -> Result<u8, Failure>
    ensures answered { IfOk result (λ status. AreAnswers devices.entry (W.contents output.old) (W.contents output.new)
        (answers_of script.entry.bytes.now) status) }
    ensures kept { IfOk result (λ status. AreKeptAnswers C.holds commits.old commits.new devices.entry (W.contents output.old)
        (W.contents output.new) (answers_of script.entry.bytes.now) status) }
    ensures lasting { C.keeps commits.old commits.new }
    ensures ended { IfErr result EndsAnswers }
{
    let mut status = DONE;
    let mut line: usize = 0;
    let mut editor = editor;
    let mut rest = Some(script.bytes);
    'lines: while let Some(bytes) = rest {
        let (text, behind) = first_line(bytes);
        rest = behind;
        line = line.saturating_add(1);
        let (after, done) = run_line(alloc, editor, commits, devices, text, output);
        editor = after;
        if let Some(refusal) = done? {
            status = REFUSED;
            explain_line(place_of(&editor, script, line), refusal, errors);
        }
    }
    Ok(status)
}

/// The bytes of the first line, and what follows its line feed, where it has one.
fn first_line(bytes: &[u8]) -> (&[u8], Option<&[u8]>)
    ensures last { position (λ b. b == 10) bytes.now ≡ None → (result.0.now ≡ bytes.now) × (result.1 ≡ None) }
    ensures cut { (at : ℕ) → position (λ b. b == 10) bytes.now ≡ Some at → (result.0.now ≡ take at bytes.now)
        × IsSome result.1 × IfSome result.1 (λ behind. behind.now ≡ drop (at + 1) bytes.now) }
    ensures shorter { IfSome result.1 (λ behind. length behind.now < length bytes.now) }
    ensures whole { result.1 ≡ None → answers_of bytes.now ≡ answers_to result.0.now }
    ensures split { IfSome result.1 (λ behind. answers_of bytes.now ≡ answers_to result.0.now + answers_of behind.now) }
{
    match end_of_line(bytes) {
        Some(at) => (&bytes[..at], Some(&bytes[at + 1..])),
        None => (bytes, None),
    }
}

/// Where the first line feed stands.
fn end_of_line(bytes: &[u8]) -> Option<usize>
    ensures place { result ≡ position (λ b. b == 10) bytes.now }
    ensures within { IfSome result (λ at. at < length bytes.now) }
{
    bytes.iter().position(|byte| *byte == b'\n')
}

/// Where a line of a script is done.
fn place_of<'a, V: Edits>(editor: &V, script: Script<'a>, line: usize) -> Where<'a> {
    Where {
        script: script.path,
        line,
        blocks: editor.blocks(),
        size: editor.superblock().data_block_size(),
    }
}

/// Does a line that isn't empty, prints its answer, and tells what of it was refused.
fn run_line<'a, V: Edits, C: Commits<V>, W: Write>(
    alloc: Global,
    editor: V,
    commits: &mut C,
    devices: Devices<'_>,
    text: &'a [u8],
    output: &mut W,
) -> (V, Result<Option<Refusal<'a>>, Failure>)
    ensures answered { IfOk result.1 (λ told.
        AreAnswers devices.entry (W.contents output.old) (W.contents output.new) (answers_to text.now) (told_status told)) }
    ensures kept { IfOk result.1 (λ told. AreKeptAnswers C.holds commits.old commits.new devices.entry (W.contents output.old)
        (W.contents output.new) (answers_to text.now) (told_status told)) }
    ensures lasting { C.keeps commits.old commits.new }
    ensures ended { IfErr result.1 EndsAnswers }
{
    if text.is_empty() {
        return (editor, Ok(None));
    }
    let Some(line) = line_of(text) else {
        return (editor, print_bad(output));
    };
    let (editor, answer) = reply_to(alloc, editor, commits, devices, line);
    match answer {
        Ok(answer) => {
            let told = print_answer(alloc, &editor, devices, line, answer, output);
            (editor, told)
        }
        Err(failure) => (editor, Err(failure)),
    }
}

/// Prints that a line is none.
fn print_bad<'a, W: Write>(output: &mut W) -> Result<Option<Refusal<'a>>, Failure>
    ensures answered { (on : Devices) → IfOk result (λ told. AreAnswers on (W.contents output.old) (W.contents output.new) 1
        (told_status told)) }
    ensures printed { (on : Devices) → IfOk result (λ told. IsAnswer on (W.contents output.old) (W.contents output.new) BadLine
        (told_status told)) }
    ensures ended { IfErr result EndsAnswers }
{
    writeln!(output, "bad line")?;
    Ok(Some(Refusal::BadLine))
}

/// Prints the answer to a line, and tells what of it was refused.
fn print_answer<'a, V: Edits, W: Write>(
    alloc: Global,
    editor: &V,
    devices: Devices<'_>,
    line: Line<'a>,
    answer: Answer,
    output: &mut W,
) -> Result<Option<Refusal<'a>>, Failure>
    ensures answered { IfOk result (λ told. AreAnswers devices.entry (W.contents output.old) (W.contents output.new) 1
        (told_status told)) }
    ensures printed { IfOk result (λ told. IsAnswer devices.entry (W.contents output.old) (W.contents output.new)
        (answered_by (V.volume editor.now) answer) (told_status told)) }
    ensures ended { IfErr result EndsAnswers }
{
    match answer {
        Answer::Done => {
            writeln!(output, "ok")?;
            Ok(None)
        }
        Answer::Committed(committed) => {
            let line = committed_line(alloc, devices, editor.superblock(), committed.root)?;
            writeln!(output, "committed {line}")?;
            Ok(None)
        }
        Answer::Refused(fault) => {
            writeln!(output, "refused {fault}")?;
            Ok(Some(Refusal::Refused(line, fault)))
        }
    }
}

/// What a line asks for. A line that is no text asks for nothing.
fn line_of(text: &[u8]) -> Option<Line<'_>> {
    match str::from_utf8(text) {
        Ok(text) => read_line(text),
        Err(_) => None,
    }
}

/// What is answered to a line.
#[derive(Clone, Copy)]
enum Answer {
    Done,
    Committed(Committed),
    Refused(Fault),
}

/// The answer to a line. Want of memory is a failure of the whole program. Where it isn't a commit, what is kept with the commits stays.
fn reply_to<V: Edits, C: Commits<V>>(
    alloc: Global,
    editor: V,
    commits: &mut C,
    devices: Devices<'_>,
    line: Line<'_>,
) -> (V, Result<Answer, Failure>)
    ensures kept { IfOk result.1 (λ answer. IsLeft C.holds commits.old commits.new (left_by (V.volume result.0) answer)) }
    ensures lasting { C.keeps commits.old commits.new }
    ensures ended { IfErr result.1 (λ e. e ≡ Failure.NoMemory) }
{
    if editor.broken() || commits.is_broken() {
        return (editor, Ok(Answer::Refused(Fault::Edit(EditFault::Broken))));
    }
    if line == Line::Commit {
        let (editor, done) = commit(editor, commits, devices);
        return (editor, answer_of(done));
    }
    let command = match command_of(alloc, &editor, line) {
        Ok(command) => command,
        Err(error) => return (editor, Err(error.into())),
    };
    match editor.answer(&command) {
        (editor, Reply::Done) => (editor, Ok(Answer::Done)),
        (_, Reply::Committed(_)) => unreachable!(),
        (editor, Reply::Refused(fault)) => (editor, answer_of(Err(Fault::Edit(fault)))),
    }
}

/// Want of memory is a failure, and any other fault is answered.
fn answer_of(done: Result<Committed, Fault>) -> Result<Answer, Failure>
    ensures answer { IfOk result (IsAnswerTo done) }
    ensures ended { IfErr result (λ e. e ≡ Failure.NoMemory) }
{
    match done {
        Ok(committed) => Ok(Answer::Committed(committed)),
        Err(fault) => match Failure::from(fault) {
            Failure::Refused(fault) => Ok(Answer::Refused(fault)),
            failure => Err(failure),
        },
    }
}

/// Commits, and brings what was committed to the files. E6 with the store that hasn't room for it, and then nothing is changed. Where a
/// table line is kept with the commits, it is that of this commit then.
pub fn commit<V: Edits, C: Commits<V>>(
    editor: V,
    commits: &mut C,
    devices: Devices<'_>,
) -> (V, Result<Committed, Fault>)
    ensures done { IfOk result.1 (λ committed. (begun : V) × C.stands_for editor begun × V.commits begun result.0 committed) }
    ensures system { IfErr result.1 (λ fault. fault ≡ Fault.Store StoreFault.Device
        → (C.refuses commits.old ≡ true) ⊎ C.fails commits.old) }
    ensures held { IfOk result.1 (λ committed. C.holds commits.new (V.volume result.0) committed.root) }
    ensures lasting { C.keeps commits.old commits.new }
    ensures data_room { devices.entry.data_room < V.count editor → result ≡ (editor, Err (Fault.Edit (EditFault.Store Which.Data))) }
    ensures hash_room { V.count editor ≤ devices.entry.data_room → IsBlockCount (V.count editor)
        → LacksRoom devices.entry (V.volume editor) (V.count editor)
        → result ≡ (editor, Err (Fault.Edit (EditFault.Store Which.Hash))) }
{
    if editor.blocks() > devices.data_room {
        return (editor, Err(Fault::Edit(EditFault::Store(Which::Data))));
    }
    if !has_room(&editor, devices) {
        return (editor, Err(Fault::Edit(EditFault::Store(Which::Hash))));
    }
    commits.commit(editor)
}

/// Whether HASH can hold the tree of the working image.
fn has_room<V: Edits>(editor: &V, devices: Devices<'_>) -> bool
    ensures { (result ≡ false) ↔ (IsBlockCount (V.count editor.now)
        × LacksRoom devices.entry (V.volume editor.now) (V.count editor.now)) }
{
    let blocks = editor.blocks();
    if !is_block_count(blocks) {
        return true;
    }
    let tree = geometry_over(editor.superblock(), blocks);
    tree.total() <= devices.hash_room.saturating_sub(devices.hash_start_block)
}

/// The command that a line asks for.
fn command_of<V: Edits>(alloc: Global, editor: &V, line: Line<'_>) -> Result<Command, AllocError>
    ensures { line.entry ≢ Line.Commit → IfOk result (λ command. command ≢ Command.Commit) }
{
    Ok(match line {
        Line::Write(n, digits) => Command::Write(n, written(alloc, editor, n, digits)?),
        Line::Fill(n, byte) => Command::Write(n, filled(alloc, editor, n, byte)?),
        Line::Grow(blocks) => Command::Grow(blocks),
        Line::Shrink(blocks) => Command::Shrink(blocks),
        Line::Discard => Command::Discard,
        Line::Commit => Command::Commit,
    })
}

/// Whether the editor looks at the bytes of a block that is written here. What it refuses by place or length takes no
/// memory: no bytes are refused like it.
fn is_welcome<V: Edits>(editor: &V, n: u64, size: usize) -> bool {
    n < editor.blocks() && size == editor.superblock().data_block_size()
}

/// The block that these digits spell.
fn written<V: Edits>(alloc: Global, editor: &V, n: u64, digits: &str) -> Result<Block, AllocError> {
    if !is_welcome(editor, n, digits.len() / 2) {
        return Ok(Block::new(Vec::new(alloc)));
    }
    match hex::decode(alloc, digits) {
        Ok(bytes) => Ok(Block::new(bytes)),
        Err(_) => Err(AllocError),
    }
}

/// A block whose every byte is this one.
fn filled<V: Edits>(alloc: Global, editor: &V, n: u64, byte: u8) -> Result<Block, AllocError> {
    let size = editor.superblock().data_block_size();
    if !is_welcome(editor, n, size) {
        return Ok(Block::new(Vec::new(alloc)));
    }
    Ok(Block::new(vec![in alloc; byte; size]?))
}
