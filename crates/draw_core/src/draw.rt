//! The top call.
ghost use Rattle.std.specs.Prelude.{◌≡◌, ◌<◌, ◌≤◌, ◌^◌, List, IfOk, OnErr};
ghost use Rattle.draw_core.specs.Asking.{texts_of};
ghost use Rattle.draw_core.specs.Outcomes.{SaidOf, SaidOfPart, Says, SaysOf, IsOutcome, boxes_line, rows_in, help_text, most_read, refused_line};
ghost use Rattle.draw_pictures.specs.Parts.{IsSettled};
ghost use Rattle.draw_pictures.specs.declared.step.Step.{Step};
ghost use Rattle.draw_core.specs.declared.status.Status.TheVariants.{NoPicture, Refused};
ghost use Rattle.work_io.specs.Ends.{TookSome};

use crate::asking::{HELP, Topic, asked, help_of};
use crate::misfit::{Unfit, unfit_alone};
use crate::reading::MOST_DRAWN;
use crate::status::Status;
use crate::walk::StepsError;
use crate::whole::{has_workload, read_page};
use draw_pictures::page::Page;
use draw_pictures::part::{MOST_BOXES, Part};
use draw_pictures::picture::picture;
use std::alloc::Global;
use stm_model::memory::Memory;
use work_faults::trace::{trace_fault, traced_fault, unfit_line};
use work_faults::workload::workload_fault;
use work_io::ends::{Failed, Sink, Source};
use work_io::whole::{ReadError as TakeError, put_all, read_all};
use work_text::parse::Mode;
use work_text::parting::part_at_done;

/// How many bytes are read: one more than a text may have.
const MOST_READ: usize = 134217729;

/// Reads the text that `stm_bench step` writes from `source`, and writes its picture to `sink`, whole once it is made:
/// one box for each line of the trace, in its caller's lane and in the order of the lines, with the line's words, but
/// one box for idle turns of a caller that follow each other. Where the text is a workload and after its line `done`
/// that, a box has what its caller did: the operation as the script has it, and the reply. `words`, the program's name
/// and what follows it, name the lines and callers that are drawn, below what still stands of the rows before them, or
/// call for help; where they are in no form, it writes the usage line. Then it reads nothing. Where no lines are named,
/// a picture has at most 2,000 boxes. Every other end writes one line, or with `Memory` nothing; see [`Status`].
///
/// `Refused` leaves in `why` what is wrong with the text, in a sentence, where memory for it is there.
pub fn draw<S: Source, K: Sink>(
    alloc: Global,
    words: &[&str],
    source: &mut S,
    sink: &mut K,
    why: &mut Option<String>,
) -> Status
    ensures { IsOutcome S.left S.faults source.old source.new (texts_of words.now) K.held K.faults
        sink.old sink.new result }
{
    let Ok(saying) = saying_of_words(alloc, words, source) else {
        return Status::Memory;
    };
    match put_all(sink, saying.text.as_slice()) {
        Ok(()) => {
            *why = saying.why;
            saying.status
        }
        Err(Failed) => Status::WriteFault,
    }
}

/// A status, the whole text that it writes, and what is wrong with a text that was read, in a sentence, where memory
/// for it is there.
#[derive(Drop)]
pub struct Saying {
    pub status: Status,
    pub text: Vec<u8>,
    pub why: Option<String>,
}

/// What is to be written, made whole before any of it is.
fn saying_of_words<S: Source>(
    alloc: Global,
    words: &[&str],
    source: &mut S,
) -> Result<Saying, Memory>
    ensures says { IfOk result (λ s.
        Says S.left S.faults source.old source.new (texts_of words.now) s.status s.text.items) }
    ensures lost { OnErr result (TookSome most_read (S.left source.old) (S.left source.new)) }
    ensures calm { OnErr result (S.faults source.new ≡ S.faults source.old) }
{
    if let Some(topic) = help_of(words) {
        return Ok(Saying {
            status: Status::Help,
            text: help(alloc, topic)?,
            why: None,
        });
    }
    match asked(words) {
        None => Ok(Saying {
            status: Status::Usage,
            text: b"usage: stm_draw [--lines A..B] [--callers N,N..] [FILE [TRACE]]\n".to_vec(
                alloc,
            )?,
            why: None,
        }),
        Some(ask) => saying_of_source(alloc, ask.part, source),
    }
}

/// The help that is asked for.
fn help(alloc: Global, topic: Topic) -> Result<Vec<u8>, Memory>
    ensures { IfOk result (λ t. t.items ≡ help_text topic) }
{
    let text = match topic {
        Topic::All => HELP,
        Topic::Version => "stm_draw 1.0.0\n",
    };
    Ok(text.as_bytes().to_vec(alloc)?)
}

/// What is to be written of a part of what the source has.
fn saying_of_source<S: Source>(alloc: Global, part: Part, source: &mut S) -> Result<Saying, Memory>
    ensures says { IfOk result (λ s.
        SaysOf S.left S.faults source.old source.new part s.status s.text.items) }
    ensures lost { OnErr result (TookSome most_read (S.left source.old) (S.left source.new)) }
    ensures calm { OnErr result (S.faults source.new ≡ S.faults source.old) }
{
    // made before the source is read, so that its fault is never told as want of memory
    let read_fault = b"read fault\n".to_vec(alloc)?;
    match read_all(alloc, source, MOST_READ) {
        Ok(text) => drawn(alloc, text.as_slice(), part),
        Err(TakeError::Failed) => Ok(Saying {
            status: Status::ReadFault,
            text: read_fault,
            why: None,
        }),
        Err(TakeError::Memory) => Err(Memory),
    }
}

/// What is to be written of a part of a text that was read.
pub fn drawn(alloc: Global, text: &[u8], part: Part) -> Result<Saying, Memory>
    ensures { IfOk result (λ s. SaidOf text.now part s.status s.text.items) }
{
    match read_page(alloc, text, part) {
        Ok(made) => drawn_page(alloc, &made),
        Err(StepsError::Workload { line, fault }) => {
            let (head, _) = part_at_done(text);
            refused(
                alloc,
                line,
                workload_fault(alloc, Mode::Step, head, line, fault).ok(),
            )
        }
        Err(StepsError::Trace { line }) => {
            refused(alloc, line, told_trace_fault(alloc, text, line))
        }
        Err(StepsError::Unfit(unfit)) => refused(
            alloc,
            unfit.line,
            told_unfit(alloc, text, unfit).ok(),
        ),
        Err(StepsError::Memory) => Err(Memory),
    }
}

/// The picture of a part, where there is one.
fn drawn_page(alloc: Global, made: &Page) -> Result<Saying, Memory>
    ensures { IfOk result (λ s. (steps : List Step) → IsSettled made.now (rows_in steps)
        → SaidOfPart steps made.now.part s.status s.text.items) }
{
    if !made.fits() {
        return no_picture(alloc, made);
    }
    let mut rows = made.above(alloc)?;
    let leaf = made.leaf(rows.as_slice());
    made.put_own(&mut rows)?;
    Ok(Saying {
        status: Status::Ok,
        text: picture(alloc, leaf, rows.as_slice())?,
        why: None,
    })
}

/// How many boxes the picture would have that isn't drawn.
fn no_picture(alloc: Global, made: &Page) -> Result<Saying, Memory>
    ensures status { IfOk result (λ s. s.status ≡ NoPicture made.now.count) }
    ensures text { IfOk result (λ s. s.text.items ≡ boxes_line made.now.count) }
{
    let boxes = made.count();
    let text = format!(in alloc; "boxes {boxes}\n")?;
    Ok(Saying {
        status: Status::NoPicture { boxes },
        text: text.into_bytes(),
        why: told_boxes(alloc, made).ok(),
    })
}

/// Why there is no picture, and which lines there are.
fn told_boxes(alloc: Global, made: &Page) -> Result<String, Memory> {
    let boxes = made.count();
    let lines = made.lines();
    if boxes == 0 {
        return Ok(format!(in alloc;
            "no box begins with these lines; here stand lines 1 to {lines}"
        )?);
    }
    Ok(format!(in alloc;
        "{boxes} boxes are more than the {MOST_BOXES} of a picture; here stands `--lines A..B`, of lines 1 to {lines}"
    )?)
}

/// Why a line of the trace may not come.
fn told_unfit(alloc: Global, text: &[u8], unfit: Unfit) -> Result<String, Memory> {
    let (why, may) = unfit.told(alloc)?;
    if has_workload(text) {
        unfit_line(alloc, text, unfit.line, why.as_str(), may.as_str())
    } else {
        Ok(unfit_alone(alloc, text, unfit.line, why.as_str(), may.as_str())?)
    }
}

/// What is wrong with the trace's text, which a workload may stand above.
fn told_trace_fault(alloc: Global, text: &[u8], line: usize) -> Option<String> {
    if has_workload(text) {
        traced_fault(alloc, text, line, MOST_DRAWN).ok()
    } else {
        trace_fault(alloc, text, line, MOST_DRAWN).ok()
    }
}

/// The line of a text that is refused.
fn refused(alloc: Global, line: usize, why: Option<String>) -> Result<Saying, Memory>
    ensures status { IfOk result (λ s. s.status ≡ Refused line) }
    ensures text { IfOk result (λ s. s.text.items ≡ refused_line line) }
{
    let text = format!(in alloc; "refused {line}\n")?;
    Ok(Saying {
        status: Status::Refused { line },
        text: text.into_bytes(),
        why,
    })
}
