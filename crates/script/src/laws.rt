//! Laws of scripts. Each is the contract of a function that does nothing.
ghost use Rattle.script.specs.RoundTrip.{IsReadAgain, IsUpgradedReadAgain};

/// A law: what is printed of a script that some text is says this script again, and so it is with
/// the script in the last version. So `parse` answers the script for what `print` gives of it, and
/// the upgraded one for what `print` gives of that, where the text is not longer than a script may
/// be. It does nothing when it runs.
pub fn printed_scripts_are_read_again()
    ensures printed { IsReadAgain }
    ensures upgraded { IsUpgradedReadAgain }
{}
