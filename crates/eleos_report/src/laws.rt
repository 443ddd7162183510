// What holds of every log.
ghost use Rattle.eleos_report.specs.Laws.{ReadsOnlyLogs, ReadsWhatIsPrinted};

/// A log that is printed is read again.
pub fn reads_what_is_printed()
    ensures { ReadsWhatIsPrinted }
{}

/// What is read is a log, spelled as it is printed.
pub fn reads_only_logs()
    ensures { ReadsOnlyLogs }
{}
