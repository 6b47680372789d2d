// What the program says of itself.
ghost use Rattle.std.specs.Prelude.{◌≡◌, is_some, map, string_bytes};
ghost use Rattle.linuxulator.specs.About.{asks_about};

const VERSION: &str = "linuxulator 0.1\n";

const HELP: &str = "\
linuxulator runs a static Linux program for arm64 above a modelled FreeBSD kernel.

usage: linuxulator run IMAGE
       linuxulator --help
       linuxulator --version

IMAGE is the name of an ELF file in or below the working folder.

What the guest writes to its standard output comes on standard output. The
status is the guest's own, or one of these, with a line on standard error:

  117  not built: an instruction, a call or an image that isn't supported yet
  119  too long: the image has more than 16 MiB
  120  usage: the words are not as above
  121  image: the image is refused
  122  read failed
  123  write failed
  124  fuel spent: the guest had not ended after 2000000 entries
  126  no memory
";

/// The answer to the one word `--help` or `--version`, and none to any other words.
pub fn about(words: &[String]) -> Option<&'static str>
    ensures { is_some result ≡ asks_about (map string_bytes words.now) }
{
    match words {
        [word] if word.as_str() == "--help" => Some(HELP),
        [word] if word.as_str() == "--version" => Some(VERSION),
        _ => None,
    }
}
