//! Look: what a transfer moves now, by what its open file is (read(2), write(2), pipe(7), eventfd(2)). Of each kind one function
//! decides what a look answers; a look and `would_wait` both ask it, and the look then moves what it says.
ghost use Rattle.std.specs.Prelude.{◌≡◌, ◌≤◌, ◌<◌, ◌+◌, ◌-◌, ◌^◌, ◌++◌, ◌==◌, ◌∷◌, [], ℕ, true, false, if◌then◌else◌, IfOk, IfErr, OnOk, length, take, drop, slice_set, Some, None};
ghost use Rattle.std.specs.Option.{option_map};
ghost use Rattle.places.specs.Places.{bytes_of};
ghost use Rattle.kqueue_core.specs.declared.knotes.Filter.TheVariants as filter;
ghost use Rattle.lx_machine.specs.Files.{held_in};
ghost use Rattle.lx_machine.specs.Interests.{side_holds};
ghost use Rattle.lx_machine.specs.Lists.{at_place};
ghost use Rattle.lx_machine.specs.Read.{counted, counted_down, with_counter};
ghost use Rattle.lx_machine.specs.Write.{goes_in, into_console};
ghost use Rattle.lx_machine.specs.declared.files.FileKind.TheVariants as kind;
ghost use Rattle.lx_machine.specs.declared.files.Files.{Files as LxFiles};
ghost use Rattle.lx_machine.specs.declared.files.OpenFile.{OpenFile as LxFile};
ghost use Rattle.bsd_abi.specs.declared.errno.BsdErrno.TheVariants as errno;
ghost use Rattle.open_files.specs.Kinds.{moved, moves, side_out};
ghost use Rattle.open_files.specs.declared.kinds.FileLook.TheVariants.{Moved};
ghost use Rattle.bsd_files.specs.Look.{answers, as_write, bytes_left, counter_read, counter_write, input_look, of_it, plain_look, put, put_out, read_look, stays, taken, waits, write_look, wrote, reads};
ghost use Rattle.bsd_files.specs.Ops.{Arm, each_queue};
ghost use Rattle.open_files.specs.PlainParts.{plain_in};
ghost use Rattle.open_files.specs.Plain.{plain_of};

use crate::queues::Queues;
use bsd_abi::BsdErrno;
use byteorder::{ByteOrder, LittleEndian};
use kqueue_core::Filter;
use lx_machine::files::Input;
use open_files::numbers::{place_at, set_place};
use open_files::rooms::ROOM;
use open_files::{Count, File, FileCall, FileLook, OpenFile, Plain, Side};

/// The most bytes that a write moves all or none of (pipe(7), PIPE_BUF).
const PIPE_BUF: usize = 4096;

// A transfer that has to wait, unless the open file is nonblocking.
fn wait(f: OpenFile) -> FileLook
    ensures { result ≡ waits f }
{
    if f.is_nonblocking() {
        FileLook::Refused(BsdErrno::EAGAIN)
    } else {
        FileLook::Wait
    }
}

// ---- reads

// What a look at a read end answers.
fn read_end_answer(plain: &Plain, len: u32, f: OpenFile, pipe: u32) -> FileLook
    ensures answer { result ≡ (read_look (plain_in plain.now) len f (kind.PipeRead pipe)).answer }
    ensures look { read_look (plain_in plain.now) len f (kind.PipeRead pipe) ≡ answers (plain_in plain.now) result (taken (plain_in plain.now) pipe len) }
{
    if len == 0 {
        return FileLook::Moved(0);
    }
    match plain.pipes.held(pipe) {
        None => FileLook::Wait,
        Some(0) if plain.has_writer(pipe) => wait(f),
        Some(0) => FileLook::Moved(0),
        Some(held) => FileLook::Moved(held.min(len)),
    }
}

// A look at a read end.
fn look_at_read_end(
    plain: &mut Plain,
    queues: &mut Queues,
    len: u32,
    f: OpenFile,
    pipe: u32,
    buffer: &mut [u8],
) -> FileLook
    requires { len ≤ length buffer.old }
    ensures answer { result ≡ (read_look (plain_in plain.old) len f (kind.PipeRead pipe)).answer }
    ensures plain { plain_in plain.new ≡ (read_look (plain_in plain.old) len f (kind.PipeRead pipe)).plain }
    ensures queues { queues.new ≡ each_queue (read_look (plain_in plain.old) len f (kind.PipeRead pipe)).ops queues.old }
    ensures buffer { buffer.new ≡ (read_look (plain_in plain.old) len f (kind.PipeRead pipe)).bytes ++ drop (length (read_look (plain_in plain.old) len f (kind.PipeRead pipe)).bytes) buffer.old }
{
    let answer = read_end_answer(plain, len, f, pipe);
    if answer.moves() {
        plain.pipes.take(pipe, len, buffer);
        queues.activate(File::WriteEnd(pipe), Filter::Write, &plain.files);
    }
    answer
}

// Takes as many first bytes of the input as are left and are asked for, to the front of the buffer.
#[tactic(auto, using(std::proofs::lemmas::List::take_min, std::proofs::lemmas::List::drop_min))]
fn take_input(input: &mut Input, len: u32, buffer: &mut [u8])
    requires { len ≤ length buffer.old }
    ensures buffer { buffer.new ≡ take len input.old ++ drop (length (take len input.old)) buffer.old }
    ensures left { input.new ≡ drop len input.old }
{
    let left = input.left();
    let count = (len as usize).min(left.len());
    buffer[..count].copy_from_slice(&left[..count]);
    input.drop_first(count);
}

// What a look at the input answers.
fn input_answer(plain: &Plain, len: u32) -> FileLook
    ensures { result ≡ (input_look (plain_in plain.now) len).answer }
{
    let left = plain.input.left().len();
    FileLook::Moved((len as usize).min(left) as u32)
}

// A look at the input.
fn look_at_input(plain: &mut Plain, len: u32, buffer: &mut [u8]) -> FileLook
    requires { len ≤ length buffer.old }
    ensures answer { result ≡ (input_look (plain_in plain.old) len).answer }
    ensures plain { plain_in plain.new ≡ (input_look (plain_in plain.old) len).plain }
    ensures buffer { buffer.new ≡ (input_look (plain_in plain.old) len).bytes ++ drop (length (input_look (plain_in plain.old) len).bytes) buffer.old }
{
    let answer = input_answer(plain, len);
    if len > 0 {
        take_input(&mut plain.input, len, buffer);
    }
    answer
}

// The counter of a number where a read takes something of it; the answer where it doesn't.
fn counter_to_read(plain: &Plain, len: u32, f: OpenFile, number: u32) -> Result<Count, FileLook>
    ensures ok { IfOk result (λ n. of_it (plain_in plain.now) (at_place plain.now.counters number) (counter_read (plain_in plain.now) len f number)
        ≡ reads (with_counter (plain_in plain.now) number (counted_down n)) (bytes_of (counted n) 8) (Arm (kind.Counter number) filter.Write plain.now.files ∷ [])) }
    ensures some { IfOk result (λ n. 0 < n.value) }
    ensures room { OnOk result (8 ≤ len) }
    ensures err { IfErr result (λ answer. of_it (plain_in plain.now) (at_place plain.now.counters number) (counter_read (plain_in plain.now) len f number) ≡ stays (plain_in plain.now) answer) }
{
    let Some(count) = place_at(&plain.counters, number) else {
        return Err(FileLook::Wait);
    };
    if len < 8 {
        return Err(FileLook::Refused(BsdErrno::EINVAL));
    }
    if count.value() == 0 {
        return Err(wait(f));
    }
    Ok(count)
}

// A look at a counter that reads.
fn look_at_counter(
    plain: &mut Plain,
    queues: &mut Queues,
    len: u32,
    f: OpenFile,
    number: u32,
    buffer: &mut [u8],
) -> FileLook
    requires { len ≤ length buffer.old }
    ensures answer { result ≡ (read_look (plain_in plain.old) len f (kind.Counter number)).answer }
    ensures plain { plain_in plain.new ≡ (read_look (plain_in plain.old) len f (kind.Counter number)).plain }
    ensures queues { queues.new ≡ each_queue (read_look (plain_in plain.old) len f (kind.Counter number)).ops queues.old }
    ensures buffer { buffer.new ≡ (read_look (plain_in plain.old) len f (kind.Counter number)).bytes ++ drop (length (read_look (plain_in plain.old) len f (kind.Counter number)).bytes) buffer.old }
{
    match counter_to_read(plain, len, f, number) {
        Ok(count) => {
            LittleEndian::write_u64(buffer, count.counted());
            set_place(&mut plain.counters, number, Some(count.counted_down()));
            queues.activate(File::Counter(number), Filter::Write, &plain.files);
            FileLook::Moved(8)
        }
        Err(answer) => answer,
    }
}

// What a look at an open file that reads answers.
fn read_answer(plain: &Plain, len: u32, f: OpenFile) -> FileLook
    ensures { result ≡ (read_look (plain_in plain.now) len f f.kind).answer }
{
    match f.file() {
        File::Input => input_answer(plain, len),
        File::ReadEnd(pipe) => read_end_answer(plain, len, f, pipe),
        File::Counter(number) => match counter_to_read(plain, len, f, number) {
            Ok(_) => FileLook::Moved(8),
            Err(answer) => answer,
        },
        File::Console(_) => FileLook::Wait,
        File::WriteEnd(_) => FileLook::Wait,
        File::Queue(_) => FileLook::Wait,
    }
}

// A look at an open file that reads.
pub(crate) fn look_at_read(
    plain: &mut Plain,
    queues: &mut Queues,
    len: u32,
    f: OpenFile,
    buffer: &mut [u8],
) -> FileLook
    requires { len ≤ length buffer.old }
    ensures answer { result ≡ (read_look (plain_in plain.old) len f f.kind).answer }
    ensures plain { plain_in plain.new ≡ (read_look (plain_in plain.old) len f f.kind).plain }
    ensures queues { queues.new ≡ each_queue (read_look (plain_in plain.old) len f f.kind).ops queues.old }
    ensures buffer { buffer.new ≡ (read_look (plain_in plain.old) len f f.kind).bytes ++ drop (length (read_look (plain_in plain.old) len f f.kind).bytes) buffer.old }
{
    match f.file() {
        File::Input => look_at_input(plain, len, buffer),
        File::ReadEnd(pipe) => look_at_read_end(plain, queues, len, f, pipe, buffer),
        File::Counter(number) => look_at_counter(plain, queues, len, f, number, buffer),
        File::Console(_) => FileLook::Wait,
        File::WriteEnd(_) => FileLook::Wait,
        File::Queue(_) => FileLook::Wait,
    }
}

// ---- writes

// How many bytes of a write, of which so many have gone in before, now go into a room that holds so many: all or none of at most
// 4096, else what fits.
fn goes_in(done: u32, bytes: &[u8], held: u32) -> u32
    ensures value { result ≡ goes_in (as_write done bytes.now) held }
    ensures fits { 0 < result → held + result ≤ 65536 }
    ensures most { result ≤ length bytes.now }
{
    let free = ROOM.saturating_sub(held) as usize;
    let count = if done as usize + bytes.len() > PIPE_BUF {
        free.min(bytes.len())
    } else if bytes.len() <= free {
        bytes.len()
    } else {
        0
    };
    count as u32
}

// What a write answers of which so many bytes now go in.
fn written(count: u32, f: OpenFile) -> FileLook
    ensures { result ≡ (if count == 0 then waits f else Moved count) }
{
    if count == 0 {
        wait(f)
    } else {
        FileLook::Moved(count)
    }
}

// What a look at a write end answers.
fn write_end_answer(plain: &Plain, done: u32, bytes: &[u8], f: OpenFile, pipe: u32) -> FileLook
    ensures answer { result ≡ (write_look (plain_in plain.now) done bytes.now f (kind.PipeWrite pipe)).answer }
    ensures look { write_look (plain_in plain.now) done bytes.now f (kind.PipeWrite pipe) ≡ answers (plain_in plain.now) result (put (plain_in plain.now) pipe bytes.now (moved result)) }
    ensures fits { moves result ≡ true → length (held_in (at_place plain.now.pipes pipe)) + moved result ≤ 65536 }
    ensures most { moved result ≤ length bytes.now }
{
    if done == 0 && bytes.is_empty() {
        return FileLook::Moved(0);
    }
    match plain.pipes.held(pipe) {
        None => FileLook::Wait,
        Some(_) if !plain.has_reader(pipe) => FileLook::Broken,
        Some(held) => written(goes_in(done, bytes, held), f),
    }
}

// A look at a write end.
fn look_at_write_end(
    plain: &mut Plain,
    queues: &mut Queues,
    done: u32,
    bytes: &[u8],
    f: OpenFile,
    pipe: u32,
) -> FileLook
    ensures answer { result ≡ (write_look (plain_in plain.old) done bytes.now f (kind.PipeWrite pipe)).answer }
    ensures plain { plain_in plain.new ≡ (write_look (plain_in plain.old) done bytes.now f (kind.PipeWrite pipe)).plain }
    ensures queues { queues.new ≡ each_queue (write_look (plain_in plain.old) done bytes.now f (kind.PipeWrite pipe)).ops queues.old }
{
    let answer = write_end_answer(plain, done, bytes, f, pipe);
    if let FileLook::Moved(count) = answer
        && count > 0
    {
        plain.pipes.put(pipe, &bytes[..count as usize]);
        queues.activate(File::ReadEnd(pipe), Filter::Read, &plain.files);
    }
    answer
}

// What a look at a console answers.
fn console_answer(plain: &Plain, done: u32, bytes: &[u8], f: OpenFile, side: Side) -> FileLook
    ensures answer { result ≡ (write_look (plain_in plain.now) done bytes.now f (kind.Console (side_out side))).answer }
    ensures look { write_look (plain_in plain.now) done bytes.now f (kind.Console (side_out side)) ≡ answers (plain_in plain.now) result (put_out (plain_in plain.now) (side_out side) bytes.now (moved result)) }
    ensures fits { moves result ≡ true → length (side_holds (plain_in plain.now) (side_out side)) + moved result ≤ 65536 }
    ensures most { moved result ≤ length bytes.now }
{
    if done == 0 && bytes.is_empty() {
        return FileLook::Moved(0);
    }
    written(goes_in(done, bytes, plain.room(side).held()), f)
}

// Puts bytes into a console room. They have to fit.
fn put_into_console(plain: &mut Plain, side: Side, bytes: &[u8])
    requires { length (side_holds (plain_in plain.old) (side_out side)) + length bytes.now ≤ 65536 }
    ensures { plain_in plain.new ≡ plain_of (into_console (plain_in plain.old) (side_out side) bytes.now) }
{
    match side {
        Side::Out => plain.out.put(bytes),
        Side::Err => plain.err.put(bytes),
    }
}

// A look at a console.
fn look_at_console(plain: &mut Plain, done: u32, bytes: &[u8], f: OpenFile, side: Side) -> FileLook
    ensures answer { result ≡ (write_look (plain_in plain.old) done bytes.now f (kind.Console (side_out side))).answer }
    ensures plain { plain_in plain.new ≡ (write_look (plain_in plain.old) done bytes.now f (kind.Console (side_out side))).plain }
    ensures ops { (write_look (plain_in plain.old) done bytes.now f (kind.Console (side_out side))).ops ≡ [] }
{
    let answer = console_answer(plain, done, bytes, f, side);
    if let FileLook::Moved(count) = answer
        && count > 0
    {
        put_into_console(plain, side, &bytes[..count as usize]);
    }
    answer
}

// What a write of these bytes leaves of the counter of a number; the answer where it leaves it as it is.
fn counter_written(plain: &Plain, bytes: &[u8], f: OpenFile, number: u32) -> Result<Count, FileLook>
    ensures ok { IfOk result (λ more. of_it (plain_in plain.now) (at_place plain.now.counters number) (counter_write (plain_in plain.now) bytes.now f number)
        ≡ wrote (with_counter (plain_in plain.now) number more) 8 (Arm (kind.Counter number) filter.Read plain.now.files ∷ [])) }
    ensures err { IfErr result (λ answer. of_it (plain_in plain.now) (at_place plain.now.counters number) (counter_write (plain_in plain.now) bytes.now f number) ≡ stays (plain_in plain.now) answer) }
{
    let Some(count) = place_at(&plain.counters, number) else {
        return Err(FileLook::Wait);
    };
    if bytes.len() < 8 {
        return Err(FileLook::Refused(BsdErrno::EINVAL));
    }
    let added = LittleEndian::read_u64(bytes);
    if added == u64::MAX {
        return Err(FileLook::Refused(BsdErrno::EINVAL));
    }
    match count.added(added) {
        Some(more) => Ok(more),
        None => Err(wait(f)),
    }
}

// A look at a counter that writes.
fn write_to_counter(
    plain: &mut Plain,
    queues: &mut Queues,
    bytes: &[u8],
    f: OpenFile,
    number: u32,
) -> FileLook
    ensures answer { result ≡ (of_it (plain_in plain.old) (at_place plain.old.counters number) (counter_write (plain_in plain.old) bytes.now f number)).answer }
    ensures plain { plain_in plain.new ≡ (of_it (plain_in plain.old) (at_place plain.old.counters number) (counter_write (plain_in plain.old) bytes.now f number)).plain }
    ensures queues { queues.new ≡ each_queue (of_it (plain_in plain.old) (at_place plain.old.counters number) (counter_write (plain_in plain.old) bytes.now f number)).ops queues.old }
{
    match counter_written(plain, bytes, f, number) {
        Ok(more) => {
            set_place(&mut plain.counters, number, Some(more));
            queues.activate(File::Counter(number), Filter::Read, &plain.files);
            FileLook::Moved(8)
        }
        Err(answer) => answer,
    }
}

// What a look at an open file that writes answers.
fn write_answer(plain: &Plain, done: u32, bytes: &[u8], f: OpenFile) -> FileLook
    ensures { result ≡ (write_look (plain_in plain.now) done bytes.now f f.kind).answer }
{
    match f.file() {
        File::Console(side) => console_answer(plain, done, bytes, f, side),
        File::WriteEnd(pipe) => write_end_answer(plain, done, bytes, f, pipe),
        File::Counter(number) => match counter_written(plain, bytes, f, number) {
            Ok(_) => FileLook::Moved(8),
            Err(answer) => answer,
        },
        File::Input => FileLook::Wait,
        File::ReadEnd(_) => FileLook::Wait,
        File::Queue(_) => FileLook::Wait,
    }
}

// A look at an open file that writes.
pub(crate) fn look_at_write(
    plain: &mut Plain,
    queues: &mut Queues,
    done: u32,
    bytes: &[u8],
    f: OpenFile,
) -> FileLook
    ensures answer { result ≡ (write_look (plain_in plain.old) done bytes.now f f.kind).answer }
    ensures plain { plain_in plain.new ≡ (write_look (plain_in plain.old) done bytes.now f f.kind).plain }
    ensures queues { queues.new ≡ each_queue (write_look (plain_in plain.old) done bytes.now f f.kind).ops queues.old }
{
    match f.file() {
        File::Console(side) => look_at_console(plain, done, bytes, f, side),
        File::WriteEnd(pipe) => look_at_write_end(plain, queues, done, bytes, f, pipe),
        File::Counter(number) => write_to_counter(plain, queues, bytes, f, number),
        File::Input => FileLook::Wait,
        File::ReadEnd(_) => FileLook::Wait,
        File::Queue(_) => FileLook::Wait,
    }
}

/// The bytes of a write that are still to be moved.
#[tactic(auto, using(std::proofs::lemmas::List::take_rest))]
pub(crate) fn bytes_left<'a>(call: &FileCall, buffer: &'a [u8]) -> &'a [u8]
    requires len { call.now.len ≤ length buffer.now }
    requires done { call.now.done ≤ call.now.len }
    ensures { result.now ≡ bytes_left call.now buffer.now }
{
    let whole = &buffer[..call.len as usize];
    &whole[call.done as usize..]
}

/// What a look at an open file that is no queue answers.
pub(crate) fn plain_answer(plain: &Plain, call: &FileCall, f: OpenFile, buffer: &[u8]) -> FileLook
    requires len { call.now.len ≤ length buffer.now }
    requires done { call.now.done ≤ call.now.len }
    ensures { result ≡ (plain_look (plain_in plain.now) call.now buffer.now f).answer }
{
    if call.write {
        write_answer(plain, call.done, bytes_left(call, buffer), f)
    } else {
        read_answer(plain, call.len, f)
    }
}
