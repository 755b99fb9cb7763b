ghost use Rattle.std.specs.Prelude.{◌≡◌, ◌≤◌, ◌⊎◌, ℕ, List, Option, true, false, None, Some, IsSome, IfOk, IfErr};
ghost use Rattle.inf_ports.specs.Outside.{Rose};
ghost use Rattle.limbo_typed.specs.Typed.{Module};
ghost use Rattle.declared_signs.specs.Declared.{AreToldApart};
ghost use Rattle.inferno_top.specs.declared.cause.SourceFault.TheVariants as SourceFault;
ghost use Rattle.inferno_top.specs.declared.cause.Aim.{Aim as AnyAim};
ghost use Rattle.inferno_top.specs.declared.cause.Aim.TheVariants as Aims;
ghost use Rattle.inferno_top.specs.Built.{IsBuilt, HasObject, is_in};
ghost use Rattle.dis_file.specs.declared.object.Object.{Object as AnyObject};
ghost use Rattle.dis_format.specs.Objects.{Spells};
ghost use Rattle.inferno_top.specs.Compiling.{HasCompiled, IsObjectWritten};
ghost use Rattle.inferno_top.specs.Dumping.{HasDumped, TellsObject, IsListing, IsObjectRefusal};
ghost use Rattle.inferno_top.specs.Closing.{status_of, closing_lines, told_stats, IsWritten};
ghost use Rattle.inferno_top.specs.Outcome.{HasRun, IsRefusal, IsCause, IsRunEnd, IsSinkFault, IsUnrun};
ghost use Rattle.inferno_top.specs.Outcome.{is_run_out, IsSourceRefusal, IsEndUnlessMemory, Tells, TellsProgram, IsUnlessMemory};
ghost use Rattle.inferno_top.specs.Outcome.{AsksFor, TellsSource, TellsOther, IsClashOf};
ghost use Rattle.inferno_top.specs.Running.{IsCompiled, IsRun, NothingRan};
ghost use Rattle.inferno_command.specs.Words.{named_file, dumped_file, compiled_file, limit_of, wants_stats, IsToRun, IsGoOrNone};

use crate::cause::{Aim, Cause, Ended, Left};
use crate::closing::close;
use crate::compiling::compile_file;
use crate::dumping::dump_cause;
use crate::reading::read_source;
use crate::running::{has_risen, run_program};
use declared_signs::clash_or_apart;
use dis_dump::dump_file;
use dis_file::Object;
use inf_ports::{HostTree, Sink};
use inf_text::Text;
use inferno_command::asked;
use inferno_stats::Stats;
use inferno_words::Command;
use source_modules::{fails_or_checked, one_checked};
use std::alloc::Global;

/// Runs the object of the program in the file at the path for at most so many quanta, and says how that ended.
fn carry_out<K: Sink, E: Sink>(
    alloc: Global,
    path: &Text,
    object: Object,
    limit: u64,
    out: &mut K,
    err: &E,
) -> (Cause, Left)
    requires compiled { (m : Module) × IsCompiled m object }
    requires bounded { (1 ≤ limit) × (limit ≤ 10000000) }
    ensures end { IsRunEnd (K.faults out.old) (K.faults out.new) (E.faults err.now) result.0 }
    ensures run { (m : Module) → IsCompiled m object → IsRun limit path.now m result.1.journal result.1.objects.items
        (K.held out.old) (K.held out.new) (K.faults out.old) (K.faults out.new) result.0 }
    ensures later { K.faults out.old ≤ K.faults out.new }
{
    let out_before = out.faults();
    let err_before = err.faults();
    let (cause, left) = run_program(alloc, path, object, limit, out);
    if cause.lacks_memory() {
        return (cause, left);
    }
    let out_now = out.faults();
    let err_now = err.faults();
    if has_risen(out_before, out_now) || has_risen(err_before, err_now) {
        let cause = Cause::SinkFault {
            out: out_now,
            err: err_now,
        };
        return (cause, left);
    }
    (cause, left)
}

/// Compiles the file at the path and runs it for at most so many quanta, up to the lines about the end.
fn compile_and_run<H: HostTree, K: Sink, E: Sink>(
    alloc: Global,
    path: &Text,
    limit: u64,
    files: &mut H,
    out: &mut K,
    err: &E,
) -> (Cause, Left)
    requires bounded { (1 ≤ limit) × (limit ≤ 10000000) }
    ensures cause { (words : List (List ℕ)) → IsToRun words path.now limit → IsCause (record {
      words = words;
      told = H.told files.old;
      files_before = H.faults files.old;
      files_after = H.faults files.new;
      out_before = K.faults out.old;
      out_after = K.faults out.new;
      err_before = E.faults err.now;
      err_after = E.faults err.now;
    }) result.0 }
    ensures ran { (words : List (List ℕ)) → IsToRun words path.now limit
        → HasRun words (H.told files.old) result.1.journal result.1.objects.items
        (K.held out.old) (K.held out.new) (K.faults out.old) (K.faults out.new) result.0
        ⊎ (NothingRan result.1.journal result.1.objects.items (K.held out.old) (K.held out.new)
        × IsRefusal words (H.told files.old) (H.faults files.old) (H.faults files.new) result.0) }
    ensures kept { H.told files.new ≡ H.told files.old }
    ensures later { (H.faults files.old ≤ H.faults files.new) × (K.faults out.old ≤ K.faults out.new) }
{
    match read_source(alloc, Aim::Run, path, files) {
        Ok(object) => carry_out(alloc, path, object, limit, out, err),
        Err(cause) => (cause, Left::nothing(alloc)),
    }
}

/// Lists the object in the file at the path, up to the line about the end.
fn dump<H: HostTree, K: Sink, E: Sink>(
    alloc: Global,
    path: &Text,
    files: &mut H,
    out: &mut K,
    err: &E,
) -> (Cause, Left)
    ensures dumped { HasDumped (H.told files.old) path.now (H.faults files.old) (H.faults files.new) (record {
      old = K.held out.old;
      new = K.held out.new;
      out_before = K.faults out.old;
      out_after = K.faults out.new;
      err_before = E.faults err.now;
      err_after = E.faults err.now;
    }) result.1.journal result.1.objects.items result.0 }
    ensures kept { H.told files.new ≡ H.told files.old }
    ensures later { (H.faults files.old ≤ H.faults files.new) × (K.faults out.old ≤ K.faults out.new) }
{
    let end = dump_file(alloc, path, files, out, err);
    (dump_cause(path, end), Left::nothing(alloc))
}

/// Compiles the file at the path to the other one, up to the line about the end.
fn limbo<H: HostTree, K: Sink>(
    alloc: Global,
    path: &Text,
    to: &Text,
    files: &mut H,
    out: &K,
) -> (Cause, Left)
    ensures compiled { HasCompiled (H.told files.old) (H.told files.new) path.now to.now (H.faults files.old) (H.faults files.new)
        result.1.journal result.1.objects.items (K.held out.now) (K.held out.now) result.0 }
    ensures later { H.faults files.old ≤ H.faults files.new }
{
    let cause = compile_file(alloc, path, to, files);
    (cause, Left::nothing(alloc))
}

/// Does the command's work, up to the lines about its end, and answers what the run took too, where that is to be told.
fn decide<H: HostTree, K: Sink, E: Sink>(
    alloc: Global,
    words: &[Text],
    files: &mut H,
    out: &mut K,
    err: &E,
) -> (Cause, Left, Option<Stats>)
    ensures cause { IsGoOrNone words.now → IsCause (record {
      words = words.now;
      told = H.told files.old;
      files_before = H.faults files.old;
      files_after = H.faults files.new;
      out_before = K.faults out.old;
      out_after = K.faults out.new;
      err_before = E.faults err.now;
      err_after = E.faults err.now;
    }) result.0 }
    ensures ran { IsGoOrNone words.now → HasRun words.now (H.told files.old) result.1.journal result.1.objects.items
        (K.held out.old) (K.held out.new) (K.faults out.old) (K.faults out.new) result.0
        ⊎ (NothingRan result.1.journal result.1.objects.items (K.held out.old) (K.held out.new)
        × IsRefusal words.now (H.told files.old) (H.faults files.old) (H.faults files.new) result.0) }
    ensures dumped { (file : List ℕ) → dumped_file words.now ≡ Some file
        → HasDumped (H.told files.old) file (H.faults files.old) (H.faults files.new) (record {
          old = K.held out.old;
          new = K.held out.new;
          out_before = K.faults out.old;
          out_after = K.faults out.new;
          err_before = E.faults err.now;
          err_after = E.faults err.now;
        }) result.1.journal result.1.objects.items result.0 }
    ensures compiled { (file to : List ℕ) → compiled_file words.now ≡ Some (file, to)
        → HasCompiled (H.told files.old) (H.told files.new) file to (H.faults files.old) (H.faults files.new)
        result.1.journal result.1.objects.items (K.held out.old) (K.held out.new) result.0 }
    ensures took { result.2 ≡ told_stats (wants_stats words.now) result.1.journal }
    ensures kept { compiled_file words.now ≡ None → H.told files.new ≡ H.told files.old }
    ensures later { (H.faults files.old ≤ H.faults files.new) × (K.faults out.old ≤ K.faults out.new) }
{
    match asked(alloc, words) {
        Ok(
            Some(
                Command::Go {
                    file,
                    quanta,
                    stats,
                },
            ),
        ) => {
            let (cause, left) = compile_and_run(alloc, &file, u64::from(quanta), files, out, err);
            let stats = left.stats(stats);
            (cause, left, stats)
        }
        Ok(Some(Command::Dump { file })) => {
            let (cause, left) = dump(alloc, &file, files, out, err);
            (cause, left, None)
        }
        Ok(Some(Command::Limbo { file, out: to })) => {
            let (cause, left) = limbo(alloc, &file, &to, files, out);
            (cause, left, None)
        }
        Ok(None) => (Cause::Usage, Left::nothing(alloc), None),
        Err(_) => (Cause::NoMemory, Left::nothing(alloc), None),
    }
}

/// Carries out the command that the words ask for, and tells on `err` how it ended.
///
/// The words are `go FILE [-q N] [--stats]`, which compiles the file and runs it for at most so many quanta, `limbo FILE -o OUT`, which
/// compiles the file and writes its object, or `dump FILE`, which lists the object in the file. `files` gives the source or the object
/// and takes the object that is written, `out` takes what the program prints or the listing, and `err` the closing lines, the last of
/// which is what the run took, where that is wanted. The status is the cause's number.
pub fn inferno<H: HostTree, K: Sink, E: Sink>(
    alloc: Global,
    words: &[Text],
    files: &mut H,
    out: &mut K,
    err: &mut E,
) -> Ended
    ensures status { result.status ≡ status_of result.cause }
    ensures closing { IsWritten (E.held err.old) (E.held err.new) (E.faults err.old) (E.faults err.new)
        (closing_lines result.cause (told_stats (wants_stats words.now) result.journal)) }

    // What happened, where the words are those of neither `dump` nor `limbo`: a program that the words name was run, and the
    // requests and the bytes on `out` are those of a run of its source's meaning, under the replies that came, for the journal
    // that is answered; how it ended is what the cause says. Or nothing was run, and nothing written.
    ensures ran { IsGoOrNone words.now → HasRun words.now (H.told files.old) result.journal result.objects.items
        (K.held out.old) (K.held out.new) (K.faults out.old) (K.faults out.new) result.cause
        ⊎ (NothingRan result.journal result.objects.items (K.held out.old) (K.held out.new)
        × IsRefusal words.now (H.told files.old) (H.faults files.old) (H.faults files.new) result.cause) }

    // Where each cause comes then.
    ensures cause { IsGoOrNone words.now → IsCause (record {
      words = words.now;
      told = H.told files.old;
      files_before = H.faults files.old;
      files_after = H.faults files.new;
      out_before = K.faults out.old;
      out_after = K.faults out.new;
      err_before = E.faults err.old;
      err_after = E.faults err.new;
    }) result.cause }

    // Words that are of no form are always refused, and so is a file that isn't there, and a source to be compiled that isn't a
    // program, with a refusal that it has.
    ensures usage { IsGoOrNone words.now → named_file words.now ≡ None → IsUnlessMemory result.cause Cause.Usage }
    ensures missing { (aim : AnyAim) (file : List ℕ) → AsksFor aim words.now file → Tells (H.told files.old) file None
        → (Rose (H.faults files.old) (H.faults files.new) → ⊥) → IsUnlessMemory result.cause (Cause.Host file true) }
    ensures refused { (aim : AnyAim) (file source : List ℕ) → AsksFor aim words.now file → Tells (H.told files.old) file (Some source)
        → ((m : Module) → IsBuilt aim (H.told files.old) file source m → ⊥)
        → (Rose (H.faults files.old) (H.faults files.new) → ⊥)
        → IsSourceRefusal aim (H.told files.old) file source result.cause }

    // A checked source to be run is refused as 45 exactly where its module doesn't declare `init` as a first module has to. Else it's
    // refused as 25 where the module is outside of the part that runs, however large its frames and its code are, and by the clash of
    // the functions that it declares where it has an object and signatures don't tell these apart.
    ensures beginless { (m : Module) (t : TellsOther words.now (H.told files.old) m)
        → (Rose (H.faults files.old) (H.faults files.new) → ⊥)
        → IsUnlessMemory result.cause (Cause.BadSource t.file SourceFault.NoInit) }
    ensures outside { (aim : AnyAim) (m : Module) (t : TellsSource aim words.now (H.told files.old) m) → is_in aim m ≡ false
        → (Rose (H.faults files.old) (H.faults files.new) → ⊥)
        → IsUnlessMemory result.cause (Cause.BadSource t.file SourceFault.Unbuilt) }
    ensures clashing { (aim : AnyAim) (m : Module) → TellsSource aim words.now (H.told files.old) m → HasObject aim m
        → (AreToldApart m → ⊥) → (Rose (H.faults files.old) (H.faults files.new) → ⊥) → IsClashOf m result.cause }

    // A program of the part that runs is run until it ends by itself, unless a count rises; and it is that program which is run.
    ensures ends { (m : Module) → TellsProgram Aims.Run words.now (H.told files.old) m
        → (Rose (H.faults files.old) (H.faults files.new) → ⊥)
        → (Rose (K.faults out.old) (K.faults out.new) → ⊥)
        → (Rose (E.faults err.old) (E.faults err.new) → ⊥)
        → IsEndUnlessMemory result.cause }
    ensures told { (m : Module) (t : TellsProgram Aims.Run words.now (H.told files.old) m)
        → (Rose (H.faults files.old) (H.faults files.new) → ⊥)
        → IsRun (limit_of words.now) t.file m result.journal result.objects.items
        (K.held out.old) (K.held out.new) (K.faults out.old) (K.faults out.new) result.cause }
    ensures started { IsGoOrNone words.now → is_run_out result.cause ≡ true → IsSome result.journal }
    ensures quiet { IsUnrun result.cause → NothingRan result.journal result.objects.items (K.held out.old) (K.held out.new) }

    // A write of output that failed is told, unless memory ran out.
    ensures failed { (m : Module) → TellsProgram Aims.Run words.now (H.told files.old) m
        → (Rose (H.faults files.old) (H.faults files.new) → ⊥) → Rose (K.faults out.old) (K.faults out.new)
        → IsSinkFault result.cause ⊎ (result.cause ≡ Cause.NoMemory) }

    // What `limbo FILE -o OUT` does: where the file's source is a program, its object's bytes stand at OUT, and their runs mean what
    // the module means; or any bytes or none stand there, as the write failed or memory ran out. Where there is a cause not to
    // compile it, nothing is written at all.
    ensures compiled { (file to : List ℕ) → compiled_file words.now ≡ Some (file, to)
        → HasCompiled (H.told files.old) (H.told files.new) file to (H.faults files.old) (H.faults files.new)
        result.journal result.objects.items (K.held out.old) (K.held out.new) result.cause }

    // A program that is told is compiled, unless a count rises or memory runs out.
    ensures written { (m : Module) (t : TellsProgram Aims.Write words.now (H.told files.old) m)
        → (Rose (H.faults files.old) (H.faults files.new) → ⊥)
        → IsObjectWritten (H.told files.old) (H.told files.new) t.named.0 m result.cause }

    // What `dump FILE` does: it writes the listing of the object that the file's bytes spell, or a first part of it where a
    // count of `out` rose; or nothing, as the file isn't there, can't be read, or has bytes that spell no object.
    ensures dumped { (file : List ℕ) → dumped_file words.now ≡ Some file
        → HasDumped (H.told files.old) file (H.faults files.old) (H.faults files.new) (record {
          old = K.held out.old;
          new = K.held out.new;
          out_before = K.faults out.old;
          out_after = K.faults out.new;
          err_before = E.faults err.old;
          err_after = E.faults err.new;
        }) result.journal result.objects.items result.cause }

    // An object that is told is listed, and to the end unless a count rises or memory runs out. Bytes that spell none are
    // refused with the fault of their first faulty field, and a file that isn't there as missing.
    ensures listed { (file : List ℕ) (o : AnyObject) → dumped_file words.now ≡ Some file → TellsObject (H.told files.old) file o
        → (Rose (H.faults files.old) (H.faults files.new) → ⊥)
        → IsListing file o (record {
          old = K.held out.old;
          new = K.held out.new;
          out_before = K.faults out.old;
          out_after = K.faults out.new;
          err_before = E.faults err.old;
          err_after = E.faults err.new;
        }) result.cause }
    ensures shown { (file : List ℕ) (o : AnyObject) → dumped_file words.now ≡ Some file → TellsObject (H.told files.old) file o
        → (Rose (H.faults files.old) (H.faults files.new) → ⊥)
        → (Rose (K.faults out.old) (K.faults out.new) → ⊥)
        → (Rose (E.faults err.old) (E.faults err.new) → ⊥)
        → IsUnlessMemory result.cause Cause.Done }
    ensures unspelled { (file bytes : List ℕ) → dumped_file words.now ≡ Some file → Tells (H.told files.old) file (Some bytes)
        → ((o : AnyObject) → Spells o bytes → ⊥)
        → (Rose (H.faults files.old) (H.faults files.new) → ⊥)
        → IsObjectRefusal file bytes result.cause }
    ensures absent { (file : List ℕ) → dumped_file words.now ≡ Some file → Tells (H.told files.old) file None
        → (Rose (H.faults files.old) (H.faults files.new) → ⊥) → IsUnlessMemory result.cause (Cause.Host file true) }

    // What stands afterwards.
    ensures kept { compiled_file words.now ≡ None → H.told files.new ≡ H.told files.old }
    ensures later { (H.faults files.old ≤ H.faults files.new) × (K.faults out.old ≤ K.faults out.new)
        × (E.faults err.old ≤ E.faults err.new) }
{
    // A source is one typed module at most, and none where a refusal holds; its functions don't clash where they're told apart.
    one_checked();
    fails_or_checked();
    clash_or_apart();
    let (cause, left, stats) = decide(alloc, words, files, out, err);
    let cause = close(alloc, cause, stats, err);
    let Left { journal, objects } = left;
    Ended {
        status: cause.status(),
        cause,
        journal,
        objects,
    }
}
