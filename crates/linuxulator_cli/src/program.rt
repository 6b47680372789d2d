// The top call.
ghost use Rattle.std.specs.Prelude.{◌≡◌, ◌≢◌, ◌⊎◌, ◌↔◌, ◌^◌, ◌-◌, ◌<◌, List, ℕ, None, Some, length, map, string_bytes, IfOk, IfErr};
ghost use Rattle.outside.specs.Shelves.{KeepsFiles, shelf_view};
ghost use Rattle.outside.specs.Sinks.{sink_view};
ghost use Rattle.linuxulator_cli.specs.Lines.{status_of as status_number};
ghost use Rattle.linuxulator_cli.specs.Words.{usage_fault, image_name};
ghost use Rattle.linuxulator_cli.specs.declared.words.UsageFault.{UsageFault};
ghost use Rattle.linuxulator_cli.specs.Outcome.{Cause, IsProgram, IsLoaded, LoadsNone, RefusesExactly, RefusesHeaders, ExitsExactly, SpendsExactly, StopsExactly, IsComplete, outside, end_of as end_after, load_end};

use crate::image::read_program;
use crate::lines::last_line;
use crate::outcome::{End, FUEL, IMAGE_LIMIT, Outcome};
use crate::words::read_words;
use outside::{Failed, LoadFault, Shelf, Sink, put, put_some};
use plain_machine::{RunEnd, run};
use std::alloc::Global;

fn end_of(how: RunEnd) -> End
    ensures { result ≡ end_after how }
{
    match how {
        RunEnd::Exited(code) => End::Exited(code),
        RunEnd::FuelSpent => End::FuelSpent,
        RunEnd::NotBuilt { pc } => End::NotBuilt { pc },
    }
}

fn end_of_load(fault: LoadFault) -> End
    ensures { result ≡ load_end fault }
{
    match fault {
        LoadFault::TooLong { .. } => End::TooLong,
        LoadFault::Failed => End::LoadFault,
        LoadFault::NoMemory => End::NoMemory,
    }
}

// Reads the words, and loads the file that they name.
fn load_image<H: Shelf>(alloc: Global, words: &[String], shelf: &mut H) -> Result<Vec<u8>, End>
    requires { H.loads shelf.old < 2 ^ 64 - 1 }
    ensures loaded { IfOk result (λ file. IsLoaded (map string_bytes words.now)
        (shelf_view H.file H.loads H.saves shelf.old) (shelf_view H.file H.loads H.saves shelf.new) file.items) }
    ensures refused { IfErr result (λ end. LoadsNone (map string_bytes words.now)
        (shelf_view H.file H.loads H.saves shelf.old) (shelf_view H.file H.loads H.saves shelf.new) end) }
    ensures files { KeepsFiles (shelf_view H.file H.loads H.saves shelf.old) (shelf_view H.file H.loads H.saves shelf.new) }
{
    let name = read_words(words).map_err(End::Usage)?;
    match shelf.load(alloc, name, IMAGE_LIMIT) {
        Ok(file) => Ok(file),
        Err(fault) => Err(end_of_load(fault)),
    }
}

/// All that `run_program` does before the last line, with the same arguments: it reads the words, loads
/// and reads the image, runs it, and puts out what the guest wrote.
#[tactic(auto, using(crate::proofs::Runs::cause_of_refusal, crate::proofs::Runs::cause_of_want))]
pub fn run_before_last_line<H: Shelf, O: Sink, E: Sink>(
    alloc: Global,
    words: &[String],
    shelf: &mut H,
    out: &mut O,
    err: &mut E,
) -> Outcome
    requires loads { H.loads shelf.old < 2 ^ 64 - 1 }
    requires out { O.faults out.old < 2 ^ 64 - 1 }
    requires err { E.faults err.old < 2 ^ 64 - 1 }
    ensures status { result.status ≡ status_number result.end }
    ensures cause { Cause (map string_bytes words.now)
        (outside (shelf_view H.file H.loads H.saves shelf.old)
        (sink_view O.taken O.faults out.old) (sink_view E.taken E.faults err.old))
        (outside (shelf_view H.file H.loads H.saves shelf.new)
        (sink_view O.taken O.faults out.new) (sink_view E.taken E.faults err.new))
        result.count result.end }
    ensures write { (result.end ≡ End.WriteFault) ↔ ((O.faults out.old < O.faults out.new) ⊎ (E.faults err.old < E.faults err.new)) }
    ensures files { KeepsFiles (shelf_view H.file H.loads H.saves shelf.old) (shelf_view H.file H.loads H.saves shelf.new) }
{
    let file = match load_image(alloc, words, shelf) {
        Ok(file) => file,
        Err(end) => return end.after(0),
    };
    let program = match read_program(alloc, &file) {
        Ok(program) => program,
        Err(end) => return end.after(0),
    };
    let Ok(ran) = run(alloc, &program, FUEL) else {
        return End::NoMemory.after(0);
    };
    match put(out, ran.machine.out()) {
        Ok(()) => end_of(ran.end).after(ran.count),
        Err(Failed) => End::WriteFault.after(ran.count),
    }
}

/// Runs the program that the words name: `run IMAGE`, the words after the program's own name. It loads
/// the image from the shelf, puts what the guest writes to standard output into `out`, and writes a last
/// line to `err` where the guest didn't exit. What the clauses say stands in `specs/Outcome.antt`.
pub fn run_program<H: Shelf, O: Sink, E: Sink>(
    alloc: Global,
    words: &[String],
    shelf: &mut H,
    out: &mut O,
    err: &mut E,
) -> Outcome
    requires loads { H.loads shelf.old < 2 ^ 64 - 1 }
    requires out { O.faults out.old < 2 ^ 64 - 1 }
    requires err { E.faults err.old < 2 ^ 64 - 1 }
    ensures status { result.status ≡ status_number result.end }

    // Each end with its cause, and then the last line on `err` alone.
    ensures outcome { IsProgram (map string_bytes words.now)
        (outside (shelf_view H.file H.loads H.saves shelf.old)
        (sink_view O.taken O.faults out.old) (sink_view E.taken E.faults err.old))
        (outside (shelf_view H.file H.loads H.saves shelf.new)
        (sink_view O.taken O.faults out.new) (sink_view E.taken E.faults err.new))
        result.count result.end }
    ensures files { KeepsFiles (shelf_view H.file H.loads H.saves shelf.old) (shelf_view H.file H.loads H.saves shelf.new) }

    // Exactly where each end comes.
    ensures usage { (fault : UsageFault) →
        (result.end ≡ End.Usage fault) ↔ (usage_fault (map string_bytes words.now) ≡ Some fault) }
    ensures load { (result.end ≡ End.LoadFault) ↔ (H.loads shelf.old < H.loads shelf.new) }
    ensures long { (file : List ℕ) →
        H.file shelf.old (image_name (map string_bytes words.now)) ≡ Some (Some file) →
        usage_fault (map string_bytes words.now) ≡ None → H.loads shelf.new ≡ H.loads shelf.old →
        (result.end ≡ End.TooLong) ↔ (IMAGE_LIMIT < length file) }
    ensures image { RefusesExactly (map string_bytes words.now)
        (shelf_view H.file H.loads H.saves shelf.old) (shelf_view H.file H.loads H.saves shelf.new) result.end }
    ensures headers { RefusesHeaders (map string_bytes words.now)
        (shelf_view H.file H.loads H.saves shelf.old) (shelf_view H.file H.loads H.saves shelf.new) result.count result.end }
    ensures exited { ExitsExactly (map string_bytes words.now)
        (shelf_view H.file H.loads H.saves shelf.old) result.count result.end }
    ensures fuel { SpendsExactly (map string_bytes words.now)
        (shelf_view H.file H.loads H.saves shelf.old) result.count result.end }
    ensures not_built { StopsExactly (map string_bytes words.now)
        (shelf_view H.file H.loads H.saves shelf.old) (shelf_view H.file H.loads H.saves shelf.new) result.count result.end }
    ensures complete { IsComplete (map string_bytes words.now)
        (outside (shelf_view H.file H.loads H.saves shelf.old)
        (sink_view O.taken O.faults out.old) (sink_view E.taken E.faults err.old))
        (outside (shelf_view H.file H.loads H.saves shelf.new)
        (sink_view O.taken O.faults out.new) (sink_view E.taken E.faults err.new))
        result.count result.end }
{
    let outcome = run_before_last_line(alloc, words, shelf, out, err);
    let line = last_line(outcome.end);
    put_some(err, line.as_bytes());
    outcome
}
