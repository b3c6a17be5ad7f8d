//! The law of several workers. It is the contract of a function that does nothing.
ghost use Rattle.workers.specs.Laws.{ComeToLawfulReports};

/// A law: where each cell of a script is opened with a pass for each worker, each worker does its
/// parts as `seats::do_parts` says, and each cell is closed as `interlocked` says, with the logs of
/// its passes merged as `history_merge::merge` says, the report made of that is lawful for the
/// script with so many workers. It does nothing when it runs.
pub fn workers_come_to_lawful_reports()
    ensures { ComeToLawfulReports }
{}
