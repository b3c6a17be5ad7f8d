//! Laws of plain collections and of reports. Each is the contract of a function that does nothing.
ghost use Rattle.plain_model.specs.Plain.{StaysPlain, IsMadePlain, BeginsPlain};
ghost use Rattle.plain_model.specs.Cell.{InstallsPlain};
ghost use Rattle.plain_model.specs.Locals.{RekeysPlain};
ghost use Rattle.plain_model.specs.Lawful.{UpgradeKeepsReports, HasOneReport};

/// What an operation gives of a well-formed collection is one, and so is a new collection, and one
/// under another comparer.
pub fn collections_stay_plain()
    ensures changed { StaysPlain }
    ensures made { IsMadePlain }
    ensures rekeyed { RekeysPlain }
{}

/// What a cell begins with and what a call installs there is well formed.
pub fn cells_stay_plain()
    ensures first { BeginsPlain }
    ensures installed { InstallsPlain }
{}

/// A report is lawful for a script exactly where it is for the upgraded one.
pub fn upgrade_keeps_reports()
    ensures { UpgradeKeepsReports }
{}

/// There is at most one lawful report of a script that one worker does.
pub fn one_lawful_report()
    ensures { HasOneReport }
{}
