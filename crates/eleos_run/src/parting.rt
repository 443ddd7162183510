// What all callers leave, put together.
ghost use Rattle.std.specs.Prelude.{vec_capacity, ◌≡◌, ◌≤◌, ◌<◌, ◌^◌, ◌∷◌, ◌++◌, [], length};
ghost use Rattle.std.specs.Prelude.{sum_by};
ghost use Rattle.std.specs.Prelude.{if◌then◌else◌};
ghost use Rattle.eleos_report.specs.declared.line.LogLine.TheVariants.{End};
ghost use Rattle.eleos_run.specs.Callers.{lines_of, passes_of};
ghost use Rattle.eleos_run.specs.Lines.{stamps_in};

use crate::clients::Client;
use crate::jobs::Job;
use eleos_host::HostPort;
use eleos_machine::Pass;
use eleos_report::LogLine;

/// How many lines there is room for in all these jobs.
pub(crate) fn line_room<P: HostPort, C: Client>(jobs: &[Job<P, C>]) -> usize
    requires { sum_by (λ job. vec_capacity job.lines) jobs.now < 2 ^ 32 }
    ensures { result ≡ sum_by (λ job. vec_capacity job.lines) jobs.now }
{
    jobs.iter().map(|job| job.lines.capacity()).sum()
}

/// Puts the passes of the jobs in one list, and their lines in another.
pub(crate) fn part<P: HostPort, C: Client>(
    jobs: Vec<Job<P, C>>,
    passes: &mut Vec<Pass>,
    log: &mut Vec<LogLine>,
)
    requires no_passes { passes.old.items ≡ [] }
    requires no_lines { log.old.items ≡ [] }
    requires passes_room { length jobs.items ≤ vec_capacity passes.old }
    requires log_room { length (lines_of jobs.items) ≤ vec_capacity log.old }
    ensures passes { passes.new.items ≡ passes_of jobs.items }
    ensures lines { log.new.items ≡ lines_of jobs.items }
    ensures passes_capacity { vec_capacity passes.old ≤ vec_capacity passes.new }
    ensures log_capacity { vec_capacity log.old ≤ vec_capacity log.new }
{
    for job in jobs {
        let Job {
            actor: _actor,
            pass,
            tap: _tap,
            ring: _ring,
            client: _client,
            names: _names,
            tasks: _tasks,
            lines,
        } = job;
        let mut lines = lines;
        let Ok(()) = passes.push(pass) else {
            unreachable!()
        };
        let Ok(()) = log.append(&mut lines) else {
            unreachable!()
        };
    }
}

/// The lines, and behind them the number of those that have a stamp.
pub(crate) fn with_end(lines: Vec<LogLine>) -> Vec<LogLine>
    requires few { length lines.items < 2 ^ 32 }
    requires room { length lines.items < vec_capacity lines }
    ensures { result.items ≡ lines.items ++ End (length (stamps_in lines.items)) ∷ [] }
{
    let count = count_stamps(&lines);
    let mut lines = lines;
    let Ok(()) = lines.push(LogLine::End { count }) else {
        unreachable!()
    };
    lines
}

/// How many lines have a stamp.
fn count_stamps(lines: &[LogLine]) -> u64
    requires { length lines.now < 2 ^ 32 }
    ensures { result ≡ length (stamps_in lines.now) }
{
    let mut count = 0;
    for line in lines {
        if has_stamp(line) {
            count += 1;
        }
    }
    count
}

fn has_stamp(line: &LogLine) -> bool
    ensures { length (stamps_in (line.now ∷ [])) ≡ (if result then 1 else 0) }
{
    match line {
        LogLine::Said { stamp, .. } => stamp.is_some(),
        LogLine::End { .. } => false,
    }
}
