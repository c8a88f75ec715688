ghost use Rattle.std.specs.Prelude.{◌≡◌, ◌∷◌, [], IfOk, IfErr, length};
ghost use Rattle.mb_isa.specs.Costs.{unit};
ghost use Rattle.mb_isa.specs.Run.{run_of};
ghost use Rattle.pt_trace.specs.Report as report;
ghost use Rattle.pt_trace.specs.Report.{greatest};
ghost use Rattle.pretc_run.specs.Told.{AllEnded};
ghost use Rattle.pretc_run.specs.Counted.{sum_of};
ghost use Rattle.pretc_run.specs.Endings.{line_of};
ghost use Rattle.pretc_run.specs.Writing.{Answers};
ghost use Rattle.pretc_top.specs.Says.{Pushes};
ghost use Rattle.pretc_top.specs.Job.{job_rows, job_ticks, IsJob, JobEnds};
ghost use Rattle.pretc_top.specs.Comes.{Concludes};

use crate::certifying::certify;
use crate::executing::load_machine;
use crate::stages::ending_of;
use mb_isa::unit_costs;
use pc_print::generate;
use pc_rules::judged;
use pretc_run::{COUNTED_TICKS, Ending, Totals, WRITE_FAULT, close, finish, push_line, sum_ticks};
use pt_base::Memory;
use pt_image::Image;
use pt_outside::{Failed, Sink};
use pt_trace::{LineBuffer, bound_line, sum_line, threads_line};
use std::alloc::Global;

// The lines of a job.
#[derive(Drop)]
struct Summary {
    threads: LineBuffer,
    bound: LineBuffer,
    totals: LineBuffer,
}

// The totals of an image at unit costs within a bound.
fn totals_of(alloc: Global, image: &Image, bound: u64) -> Result<Totals, Memory>
    requires ended { AllEnded (run_of image.now unit bound (job_rows image.now)) }
    ensures sum { IfOk result (λ t. t.sum ≡ sum_of (job_ticks image.now bound)) }
    ensures worst { IfOk result (λ t. t.worst ≡ greatest (job_ticks image.now bound)) }
{
    let mut bounded = load_machine(alloc, image, &unit_costs(), bound)?;
    Ok(sum_ticks(
        &mut bounded.machine,
        &mut bounded.row,
        &mut bounded.outputs,
        bound,
    ))
}

// The line of the number of threads.
fn say_threads(threads: u64) -> LineBuffer
    ensures { result ≡ report.threads_line threads }
{
    let mut line = LineBuffer::empty();
    threads_line(threads, &mut line);
    line
}

// The line of the bound.
fn say_bound(bound: u64) -> LineBuffer
    ensures { result ≡ report.bound_line bound }
{
    let mut line = LineBuffer::empty();
    bound_line(bound, &mut line);
    line
}

// The line of the totals.
fn say_totals(totals: Totals) -> LineBuffer
    ensures { result ≡ report.sum_line 1000 totals.sum totals.worst }
{
    let mut line = LineBuffer::empty();
    sum_line(COUNTED_TICKS, totals.sum, totals.worst, &mut line);
    line
}

// The lines of a job of so many threads beside a last one.
fn summarised(alloc: Global, threads: u32) -> Result<Summary, Ending>
    ensures done { IfOk result (λ s. IsJob threads (s.threads ∷ s.bound ∷ s.totals ∷ [])) }
    ensures failed { IfErr result (λ e. JobEnds threads (line_of e ∷ []) e) }
{
    let text = match generate(alloc, threads) {
        Ok(text) => text,
        Err(_) => return Err(Ending::WantOfMemory),
    };
    let accepted = match judged(alloc, &text) {
        Ok(accepted) => accepted,
        Err(refusal) => return Err(ending_of(refusal)),
    };
    let certified = match certify(alloc, &accepted.typed, &unit_costs()) {
        Ok(certified) => certified,
        Err(ending) => return Err(ending),
    };
    let most = certified.cert.bound();
    let counted = match totals_of(alloc, &certified.image, most) {
        Ok(counted) => counted,
        Err(_) => return Err(Ending::WantOfMemory),
    };
    Ok(Summary {
        threads: say_threads(accepted.sizes.threads),
        bound: say_bound(most),
        totals: say_totals(counted),
    })
}

// Pushes the lines, one push a line.
fn push_summary<O: Sink>(summary: &Summary, out: &mut O) -> Result<(), Failed>
    ensures { Pushes (summary.now.threads ∷ summary.now.bound ∷ summary.now.totals ∷ []) (O.told out.old)
        (O.told out.new) result }
{
    match push_line(summary.threads.bytes(), out) {
        Ok(()) => {}
        Err(failed) => return Err(failed),
    }
    match push_line(summary.bound.bytes(), out) {
        Ok(()) => {}
        Err(failed) => return Err(failed),
    }
    match push_line(summary.totals.bytes(), out) {
        Ok(()) => Ok(()),
        Err(failed) => Err(failed),
    }
}

// The end of a job that has these lines to print.
fn finish_job<O: Sink>(summary: &Summary, out: &mut O) -> u8
    ensures answers { Answers (summary.now.threads ∷ summary.now.bound ∷ summary.now.totals ∷ []) 0 (O.told out.old)
        (O.told out.new) result }
{
    match push_summary(summary, out) {
        Ok(()) => close(Ending::Done, out),
        Err(_) => WRITE_FAULT,
    }
}

/// `pretc job`.
pub fn job<O: Sink>(alloc: Global, threads: u32, out: &mut O) -> u8
    ensures concludes { Concludes (JobEnds threads) (O.told out.old) (O.told out.new) result }
{
    match summarised(alloc, threads) {
        Ok(summary) => finish_job(&summary, out),
        Err(ending) => finish(ending, out),
    }
}
