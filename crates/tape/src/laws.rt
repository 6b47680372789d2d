//! Laws of the tape file.

ghost use Rattle.tape.specs.TapeLaw.{TextsAreFiles, TextsAreOne, FilesAreTexts, RunsAreLongest, RunsAreOne};

/// The bytes without a fault are the texts of the tapes that a file can keep, and a text is that of one
/// tape alone. So what was written is read again, with its seed, pages, rules and entries.
pub fn files_are_texts()
    ensures texts_are_files { TextsAreFiles }
    ensures texts_are_one { TextsAreOne }
    ensures files_are_texts { FilesAreTexts }
{}

/// The runs that a file keeps of entries are the longest runs of equal ones, and no others are.
pub fn runs_are_longest()
    ensures runs_are_longest { RunsAreLongest }
    ensures runs_are_one { RunsAreOne }
{}
