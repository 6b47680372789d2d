// The grammar of the command line: `run IMAGE`.
ghost use Rattle.std.specs.Prelude.{◌≡◌, MatchResult, None, Some, map, string_bytes};
ghost use Rattle.linuxulator_cli.specs.Words.{usage_fault, image_name, usage_text};

/// What is wrong with the words of the command line, in the order in which kinds at one word count.
#[derive(Clone, Copy, Debug, PartialEq, Eq)]
pub enum UsageKind {
    /// There are no words.
    NoCommand,
    /// The first word isn't a command of this call.
    UnknownCommand,
    /// A word in the image's place begins with `-`.
    UnknownOption,
    /// The image's name is absent or empty.
    MissingName,
    /// A word follows the image's name.
    TooManyWords,
}

/// The first fault of the words from the left, and the word at which it is, counted from 0. A missing
/// word has the number of words.
#[derive(Clone, Copy, Debug, PartialEq, Eq)]
pub struct UsageFault {
    pub kind: UsageKind,
    pub at: u32,
}

impl UsageKind {
    /// The kind in words, as the last line has it.
    pub fn text(self) -> &'static str
        ensures { result.now ≡ usage_text self }
    {
        match self {
            UsageKind::NoCommand => "no command",
            UsageKind::UnknownCommand => "unknown command",
            UsageKind::UnknownOption => "unknown option",
            UsageKind::MissingName => "missing name",
            UsageKind::TooManyWords => "too many words",
        }
    }

    // The fault of this kind at a word.
    fn at(self, at: u32) -> UsageFault
        ensures { result ≡ record { kind = self; at = at } }
    {
        UsageFault { kind: self, at }
    }
}

/// The name of the image, or the first fault of the words: `words` are those after the program's own
/// name.
pub fn read_words<'a>(words: &'a [String]) -> Result<&'a str, UsageFault>
    ensures { MatchResult result
        (λ name. (usage_fault (map string_bytes words.now) ≡ None) × (name.now ≡ image_name (map string_bytes words.now)))
        (λ fault. usage_fault (map string_bytes words.now) ≡ Some fault) }
{
    let Some((command, rest)) = words.split_first() else {
        return Err(UsageKind::NoCommand.at(0));
    };
    if command.as_str() != "run" {
        return Err(UsageKind::UnknownCommand.at(0));
    }
    let Some((image, rest)) = rest.split_first() else {
        return Err(UsageKind::MissingName.at(1));
    };
    let name = image.as_str();
    match name.as_bytes() {
        [] => Err(UsageKind::MissingName.at(1)),
        [b'-', ..] => Err(UsageKind::UnknownOption.at(1)),
        _ if !rest.is_empty() => Err(UsageKind::TooManyWords.at(2)),
        _ => Ok(name),
    }
}
