//! The whole command line.

ghost use Rattle.std.specs.Prelude.{◌≡◌, ◌≢◌, ◌≤◌, ◌⊎◌, None, Some, true, false, IfOk, IfSome, IsSomeAnd};
ghost use Rattle.bv_base.specs.Outside.{Rose, appended, last_begun};
ghost use Rattle.bst_run.specs.Delivery.{sunk, IsDelivered, TellsOfSinks};
ghost use Rattle.bst_run.specs.FilesBegun.{HasBegun, files_begun, given_of};
ghost use Rattle.bst_run.specs.Forms as forms;
ghost use Rattle.bst_run.specs.Report as report;
ghost use Rattle.bst_run.specs.Stops.{told_of};
ghost use Rattle.bst_run.specs.Top as top;

use crate::answer::Answer;
use crate::check::check;
use crate::deliver::deliver;
use crate::generating::make_and_show;
use crate::inferring::infer;
use crate::outcome::Outcome;
use crate::report::{absent, too_long, unread, usage};
use crate::run::run;
use crate::running::deliver_answer;
use crate::stop::Stop;
use crate::under::run_under;
use crate::words::{Form, MOST_FUNCTIONS, form_of};
use bv_base::files::Files;
use bv_base::memory::NoMemory;
use bv_base::sink::Sink;
use bv_base::status::Status;
use std::alloc::Global;

/// Decides the certificate of the words `check STYLE CERT`, finds one for the words `infer STYLE` or `infer STYLE COND`, takes the
/// first steps of the words `run AUX N` or `run AUX N CERT`, or makes a style and shows it for the words `gen SEED COUNT`, and answers
/// by the status, a text on `out`, and a text on `err` that ends with the last line.
pub fn command<F: Files, O: Sink, E: Sink>(
    alloc: Global,
    words: &[String],
    files: &mut F,
    out: &mut O,
    err: &mut E,
) -> Status
    // Whatever `check` put on `out`, the style is safe: over every entry list that fits it and meets the condition that is printed,
    // no number of steps comes to an execution error, and each call that ends leaves the literal stack empty. Whatever `infer` put on
    // `out` is a front of the text of a certificate of the style in the first file, whose condition is the given or the default one,
    // unchanged, and of which every rule holds: so the style is safe under that condition. Whatever `gen` put on `out`, the style
    // that it made is safe under its default condition.
    ensures safe { O.written out.new ≢ O.written out.old → IfSome (forms.form_of words.now) (λ form. IfSome (F.told files.old) (λ told.
        top.IsPromised told form (sunk ⟦<O as Sink>⟧ out.old out.new))) }
    // Where `check` is done it is safe under the condition of the certificate, whatever `out` tells, and where `infer` is done there is
    // a certificate that shows it safe under the given or the default condition, and where `gen` is done the same of the style that
    // it made.
    ensures done { result ≡ Status.Done → IfSome (forms.form_of words.now) (λ form. IfSome (F.told files.old) (λ told. top.IsDoneWell told form)) }
    // What `gen` answers needs no files, nor that they tell: the outcome of the words is delivered, nothing is begun, and the two
    // clauses before hold.
    ensures made { IfSome (forms.form_of words.now) (λ form. top.Makes form result (sunk ⟦<O as Sink>⟧ out.old out.new) (sunk ⟦<E as Sink>⟧ err.old err.new)) }
    ensures made_unread { IfSome (forms.form_of words.now) (λ form. forms.IsGen form → F.begun files.new ≡ F.begun files.old) }
    // Where a run under a certificate told that the entries meet its condition, the run came to no execution error.
    ensures inside { IfSome (forms.form_of words.now) (λ form. top.IsInside form (sunk ⟦<E as Sink>⟧ err.old err.new) → result ≢ Status.Fault) }
    // The words have none of the forms exactly where the answer is Usage.
    ensures usage { forms.form_of words.now ≡ None →
        IsDelivered report.usage result (sunk ⟦<O as Sink>⟧ out.old out.new) (sunk ⟦<E as Sink>⟧ err.old err.new) }
    ensures usage_silent { forms.form_of words.now ≡ None → O.written out.new ≡ O.written out.old }
    ensures usage_only { result ≡ Status.Usage → forms.form_of words.now ≡ None }
    ensures usage_unread { forms.form_of words.now ≡ None → F.begun files.new ≡ F.begun files.old }
    // Where the files tell, the words and the files decide the answer and its texts.
    ensures answered { IfSome (forms.form_of words.now) (λ form. IfSome (F.told files.old) (λ told.
        top.IsAnswered (top.outcome_in told form) result (sunk ⟦<O as Sink>⟧ out.old out.new) (sunk ⟦<E as Sink>⟧ err.old err.new))) }
    // Where the files tell, those are begun that the words and the `.aux` files name, up to the one that decides, and no other.
    ensures begun { IfSome (forms.form_of words.now) (λ form. IfSome (F.told files.old) (λ told.
        HasBegun ⟦<F as Files>⟧ files.old files.new (files_begun told form) result)) }
    // What the outside did shows in the answer.
    ensures no_file { result ≡ Status.NoFile → IsSomeAnd (last_begun (F.begun files.new)) (λ begun.
        (begun.absent ≡ true) × (E.written err.new ≡ appended (E.written err.old) (report.absent begun.name).err)) }
    ensures read_failed { result ≡ Status.ReadFailed → Rose (F.faults files.old) (F.faults files.new) × IsSomeAnd (last_begun (F.begun files.new)) (λ begun.
        (begun.absent ≡ false) × (E.written err.new ≡ appended (E.written err.old) (report.unread begun.name).err)) }
    ensures write_failed { result ≡ Status.WriteFailed → Rose (O.faults out.old) (O.faults out.new) ⊎ Rose (E.faults err.old) (E.faults err.new) }
    // Where the faults of a sink rose the answer is WriteFailed, and where those of `out` did nothing was put on `err`.
    ensures out_failed { O.faults out.new ≢ O.faults out.old → result ≡ Status.WriteFailed }
    ensures err_failed { E.faults err.new ≢ E.faults err.old → result ≡ Status.WriteFailed }
    ensures out_first { O.faults out.new ≢ O.faults out.old → E.written err.new ≡ E.written err.old }
{
    match form_of(words) {
        Some(form) => carry_out(alloc, form, files, out, err),
        None => refuse(alloc, out, err),
    }
}

/// Says the forms of words.
fn refuse<O: Sink, E: Sink>(alloc: Global, out: &mut O, err: &mut E) -> Status
    ensures usage { IsDelivered report.usage result (sunk ⟦<O as Sink>⟧ out.old out.new) (sunk ⟦<E as Sink>⟧ err.old err.new) }
    ensures silent { O.written out.new ≡ O.written out.old }
    ensures not_absent { result ≢ Status.NoFile }
    ensures not_unread { result ≢ Status.ReadFailed }
    ensures sinks { TellsOfSinks result (sunk ⟦<O as Sink>⟧ out.old out.new) (sunk ⟦<E as Sink>⟧ err.old err.new) }
{
    deliver(usage(alloc), out, err)
}

/// Does what the words of a form ask for.
fn carry_out<F: Files, O: Sink, E: Sink>(
    alloc: Global,
    form: Form<'_>,
    files: &mut F,
    out: &mut O,
    err: &mut E,
) -> Status
    requires within { forms.IsWithin (forms.form_in form) }
    ensures not_usage { result ≢ Status.Usage }
    ensures answered { IfSome (F.told files.old) (λ told. top.IsAnswered (top.outcome_in told (forms.form_in form.entry)) result
        (sunk ⟦<O as Sink>⟧ out.old out.new) (sunk ⟦<E as Sink>⟧ err.old err.new)) }
    ensures no_file { result ≡ Status.NoFile → IsSomeAnd (last_begun (F.begun files.new)) (λ begun.
        (begun.absent ≡ true) × (E.written err.new ≡ appended (E.written err.old) (report.absent begun.name).err)) }
    ensures read_failed { result ≡ Status.ReadFailed → Rose (F.faults files.old) (F.faults files.new) × IsSomeAnd (last_begun (F.begun files.new)) (λ begun.
        (begun.absent ≡ false) × (E.written err.new ≡ appended (E.written err.old) (report.unread begun.name).err)) }
    ensures begun { IfSome (F.told files.old) (λ told. HasBegun ⟦<F as Files>⟧ files.old files.new (files_begun told (forms.form_in form.entry)) result) }
    ensures sinks { TellsOfSinks result (sunk ⟦<O as Sink>⟧ out.old out.new) (sunk ⟦<E as Sink>⟧ err.old err.new) }
    ensures done { result ≡ Status.Done → IfSome (F.told files.old) (λ told. top.IsDoneWell told (forms.form_in form.entry)) }
    ensures inside { top.IsInside (forms.form_in form.entry) (sunk ⟦<E as Sink>⟧ err.old err.new) → result ≢ Status.Fault }
    ensures safe { O.written out.new ≢ O.written out.old → IfSome (F.told files.old) (λ told.
        top.IsPromised told (forms.form_in form.entry) (sunk ⟦<O as Sink>⟧ out.old out.new)) }
    ensures made { top.Makes (forms.form_in form.entry) result (sunk ⟦<O as Sink>⟧ out.old out.new) (sunk ⟦<E as Sink>⟧ err.old err.new) }
    ensures made_unread { forms.IsGen (forms.form_in form.entry) → F.begun files.new ≡ F.begun files.old }
{
    let outcome = answer(alloc, form, files);
    deliver_answer(alloc, outcome, out, err)
}

/// What the words of a form come to.
fn answer<F: Files>(alloc: Global, form: Form<'_>, files: &mut F) -> Result<Answer, NoMemory>
    requires within { forms.IsWithin (forms.form_in form) }
    ensures answer { IfOk result (λ outcome. top.IsAnswer ⟦<F as Files>⟧ files.old files.new (forms.form_in form.entry) outcome) }
    ensures begun { IfSome (F.told files.old) (λ told. HasBegun ⟦<F as Files>⟧ files.old files.new (files_begun told (forms.form_in form.entry)) (given_of result)) }
    ensures made_unread { forms.IsGen (forms.form_in form.entry) → F.begun files.new ≡ F.begun files.old }
{
    match form {
        Form::Check(style, cert) => answer_check(alloc, style, cert, files),
        Form::Infer(style, cond) => answer_infer(alloc, style, cond, files),
        Form::Run(aux, steps) => answer_run(alloc, aux, steps, files),
        Form::RunUnder(aux, steps, cert) => answer_run_under(alloc, aux, steps, cert, files),
        Form::Gen(seed, count) => answer_gen(alloc, seed, count),
    }
}

/// What the words `check STYLE CERT` come to.
fn answer_check<F: Files>(
    alloc: Global,
    style: &str,
    cert: &str,
    files: &mut F,
) -> Result<Answer, NoMemory>
    ensures answer { IfOk result (λ outcome. top.IsAnswer ⟦<F as Files>⟧ files.old files.new (forms.Check style.now cert.now) outcome) }
    ensures begun { IfSome (F.told files.old) (λ told. HasBegun ⟦<F as Files>⟧ files.old files.new (files_begun told (forms.Check style.now cert.now)) (given_of result)) }
{
    told(alloc, made(check(alloc, files, style, cert)))
}

/// What the words `infer STYLE` and `infer STYLE COND` come to.
fn answer_infer<F: Files>(
    alloc: Global,
    style: &str,
    cond: Option<&str>,
    files: &mut F,
) -> Result<Answer, NoMemory>
    ensures answer { IfOk result (λ outcome. top.IsAnswer ⟦<F as Files>⟧ files.old files.new (forms.Infer style.now (forms.name_in cond.entry)) outcome) }
    ensures begun { IfSome (F.told files.old) (λ told.
        HasBegun ⟦<F as Files>⟧ files.old files.new (files_begun told (forms.Infer style.now (forms.name_in cond.entry))) (given_of result)) }
{
    told(alloc, made(infer(alloc, files, style, cond)))
}

/// What the words `run AUX N` come to.
fn answer_run<F: Files>(
    alloc: Global,
    aux: &str,
    steps: u32,
    files: &mut F,
) -> Result<Answer, NoMemory>
    ensures answer { IfOk result (λ outcome. top.IsAnswer ⟦<F as Files>⟧ files.old files.new (forms.Run aux.now steps) outcome) }
    ensures begun { IfSome (F.told files.old) (λ told. HasBegun ⟦<F as Files>⟧ files.old files.new (files_begun told (forms.Run aux.now steps)) (given_of result)) }
{
    told(alloc, run(alloc, files, aux, steps))
}

/// What the words `run AUX N CERT` come to.
fn answer_run_under<F: Files>(
    alloc: Global,
    aux: &str,
    steps: u32,
    cert: &str,
    files: &mut F,
) -> Result<Answer, NoMemory>
    ensures answer { IfOk result (λ outcome. top.IsAnswer ⟦<F as Files>⟧ files.old files.new (forms.RunUnder aux.now steps cert.now) outcome) }
    ensures begun { IfSome (F.told files.old) (λ told.
        HasBegun ⟦<F as Files>⟧ files.old files.new (files_begun told (forms.RunUnder aux.now steps cert.now)) (given_of result)) }
{
    told(alloc, run_under(alloc, files, aux, steps, cert))
}

/// What the words `gen SEED COUNT` come to.
fn answer_gen(alloc: Global, seed: u32, count: u32) -> Result<Answer, NoMemory>
    requires some { 1 ≤ count }
    requires few { count ≤ MOST_FUNCTIONS }
    ensures answer { IfOk result (top.IsMadeOf seed count) }
{
    told(alloc, made(make_and_show(alloc, seed, count)))
}

/// A command's result, where its texts are made.
fn made(found: Result<Outcome, Stop>) -> Result<Answer, Stop>
    ensures { result ≡ found }
{
    match found {
        Ok(outcome) => Ok(Answer::made(outcome)),
        Err(stop) => Err(stop),
    }
}

/// The outcome that a command's result comes to.
fn told(alloc: Global, found: Result<Answer, Stop>) -> Result<Answer, NoMemory>
    ensures { IfOk result (λ outcome. told_of found ≡ Some outcome) }
{
    let outcome = match found {
        Ok(answer) => return Ok(answer),
        Err(Stop::Told(outcome)) => outcome,
        Err(Stop::Absent(name)) => absent(alloc, &name)?,
        Err(Stop::Failed(name)) => unread(alloc, &name)?,
        Err(Stop::TooLong(name)) => too_long(alloc, &name)?,
        Err(Stop::NoMemory) => return Err(NoMemory),
    };
    Ok(Answer::made(outcome))
}
