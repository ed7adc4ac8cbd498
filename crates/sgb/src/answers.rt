//! A program's answer: standard input is read where it is wanted, the answer written and passed on, a fault reported.
ghost use Rattle.std.specs.Prelude.{◌≡◌, ◌≢◌, ◌+◌, ◌&&◌, ℕ, Bool, List, [], Result, IfOk, IsOk, IfErr, OnOk, is_err, false};
ghost use Rattle.std.specs.Io.KnownBytes.{Keeps};
ghost use Rattle.sgb_file.specs.Devices.{change};
ghost use Rattle.sgb_vec.specs.declared.panics.Panic.TheVariants.{NoRoom};
ghost use Rattle.sgb_requests.specs.Faults.{status_of};
ghost use Rattle.sgb_requests.specs.declared.faults.Fault.{Fault};
ghost use Rattle.sgb.specs.Inputs.{IsReadFrom, LosesAtMost};
ghost use Rattle.sgb.specs.Runs.{AreUsed, IsAnswerGiven, IsAnswerRun};
ghost use Rattle.sgb_values.specs.Values.{most_input};
ghost use Rattle.sgb.specs.Writing.{IsEnded, IsEndedFrom, effect};
// For the search alone.
ghost use Rattle.std.specs.Prelude.{true};

use crate::input::read_input;
use sgb_file::{Sink, Source};
use sgb_requests::{Fault, report};
use std::alloc::Global;

/// What a program answers: whether it reads standard input, and how the answer is written.
pub trait Answer {
    // Whether it reads standard input.
    ghost reads: { Self → Bool };

    // What an answer is where standard input has these bytes: an output, or the fault that refuses it.
    ghost answers: { Self → List ℕ → Result (List ℕ) Fault → Type 0 };

    // That writing it takes no memory.
    ghost certain: { Self → Type 0 };

    // That all memory for it is taken before something is written.
    ghost prepared: { Self → Type 0 };

    /// Whether it reads standard input. There is an answer to each input.
    fn reads_input(&self) -> bool
        ensures read { result ≡ reads self.now }
        ensures answered { (input : List ℕ) → (a : Result (List ℕ) Fault)
            × answers self.now input a };

    /// Writes the answer where standard input has these bytes, with no flush at its end.
    ///
    /// The fault that refuses it, with `out` left as it was; `Write` where the sink fails, and `Panic(NoRoom)` when out of
    /// memory, with a prefix written.
    fn write<W: Sink>(&self, alloc: Global, input: Vec<u8>, out: &mut W) -> Result<(), Fault>
        requires { W.has_failed out.old ≡ false }
        ensures ended { (a : Result (List ℕ) Fault) → answers self.now input.items a
            → IsEnded a (effect W.written W.has_failed out.old out.new) result }
        ensures memory { certain self.now → IfErr result (λ f. f ≢ Fault.Panic NoRoom) }
        ensures untouched { prepared self.now
            → IfErr result (λ f. f ≡ Fault.Panic NoRoom → out.new ≡ out.old) };
}

/// Gives an answer as `run` gives that of a request: writes its output to `out`, with one flush at its end, or the line of a
/// fault to `errors`, and returns the exit status. What is refused, or whose input fails, leaves `out` as it was.
///
/// `source` is standard input. It is read only if the answer reads it, before all else, and whole, but of more than 2^30
/// bytes only so many and one more.
pub fn run_answer<A: Answer, R: Source, W: Sink, E: Sink>(
    alloc: Global,
    answer: &A,
    source: &mut R,
    out: &mut W,
    errors: &mut E,
) -> u8
    requires { W.has_failed out.old ≡ false }
    ensures answers { IsAnswerRun (A.reads answer.now) (A.answers answer.now)
        (record { bytes = R.remaining source.old; failed = R.has_failed source.new })
        (record {
          out = effect W.written W.has_failed out.old out.new;
          err = change E.written E.has_failed errors.old errors.new;
          status = result;
        }) }
    // What is said of each answer is said of one at least.
    ensures answered { (input : List ℕ) → (a : Result (List ℕ) Fault)
        × A.answers answer.now input a }
    // Where no input is read and writing takes no memory, the answer is never cut off for want of it.
    ensures certain { A.reads answer.now ≡ false → A.certain answer.now
        → IsAnswerGiven (A.answers answer.now)
        (record {
          out = effect W.written W.has_failed out.old out.new;
          err = change E.written E.has_failed errors.old errors.new;
          status = result;
        }) }
    // Where all memory is taken before something is written, a status of 1 leaves the output as it was.
    ensures untouched { A.prepared answer.now → result ≡ 1 → out.new ≡ out.old }
    ensures flushed { result ≡ 0 → W.held out.new ≡ [] }
    ensures unread { A.reads answer.now ≡ false → source.new ≡ source.old }
    ensures bounded { LosesAtMost (most_input + 1) (R.remaining source.old)
        (R.remaining source.new) }
{
    match give(alloc, answer, source, out) {
        Ok(()) => 0,
        Err(fault) => report(&fault, errors),
    }
}

// Reads standard input where the answer does, writes it, and passes the output on.
fn give<A: Answer, R: Source, W: Sink>(
    alloc: Global,
    answer: &A,
    source: &mut R,
    out: &mut W,
) -> Result<(), Fault>
    requires { W.has_failed out.old ≡ false }
    ensures ended { (used : List ℕ)
        × AreUsed (A.reads answer.now) (R.remaining source.old) used
        × ((a : Result (List ℕ) Fault) → A.answers answer.now used a
        → IsEndedFrom (A.reads answer.now && R.has_failed source.new) a
        (effect W.written W.has_failed out.old out.new) result) }
    ensures answered { (input : List ℕ) → (a : Result (List ℕ) Fault)
        × A.answers answer.now input a }
    ensures certain { A.reads answer.now ≡ false → A.certain answer.now
        → IfErr result (λ f. f ≢ Fault.Panic NoRoom) }
    ensures untouched { A.prepared answer.now
        → IfErr result (λ f. status_of f ≡ 1 → out.new ≡ out.old) }
    ensures flushed { OnOk result (W.held out.new ≡ []) }
    ensures unread { A.reads answer.now ≡ false → source.new ≡ source.old }
    ensures bounded { LosesAtMost (most_input + 1) (R.remaining source.old)
        (R.remaining source.new) }
{
    let input = input_for(alloc, answer, source)?;
    answer.write(alloc, input, out)?;
    pass_on(out)
}

// The bytes of standard input that count for an answer: none where it does not read them.
fn input_for<A: Answer, R: Source>(
    alloc: Global,
    answer: &A,
    source: &mut R,
) -> Result<Vec<u8>, Fault>
    ensures used { IfOk result (λ bytes.
        AreUsed (A.reads answer.now) (R.remaining source.old) bytes.items) }
    ensures ended { IsReadFrom (A.reads answer.now && R.has_failed source.new) result }
    ensures answered { (input : List ℕ) → (a : Result (List ℕ) Fault)
        × A.answers answer.now input a }
    ensures unread { A.reads answer.now ≡ false → source.new ≡ source.old }
    ensures none { A.reads answer.now ≡ false → IsOk result }
    ensures bounded { LosesAtMost (most_input + 1) (R.remaining source.old)
        (R.remaining source.new) }
{
    if !answer.reads_input() {
        return Ok(Vec::new(alloc));
    }
    read_input(alloc, source)
}

// Passes on what the sink holds back.
fn pass_on<W: Sink>(out: &mut W) -> Result<(), Fault>
    ensures kept { Keeps (W.written out.old) (W.written out.new) }
    ensures flushed { OnOk result (W.held out.new ≡ []) }
    ensures failed { W.has_failed out.new ≡ is_err result }
    ensures fault { IfErr result (λ f. f ≡ Fault.Write) }
{
    match out.flush() {
        Ok(()) => Ok(()),
        Err(_) => Err(Fault::Write),
    }
}
