// What the program says at its end, without taking memory.
ghost use Rattle.std.specs.Prelude.{◌≡◌, ◌+◌, ◌≤◌, ◌<◌, ◌%◌, ◌++◌, [], ◌∷◌, length, decimal, false};
ghost use Rattle.std.specs.Fmt.{digits_onto, digit_glyph};
ghost use Rattle.linuxulator_cli.specs.Lines.{hexadecimal, last_line as line_of, status_of as status_number};

use crate::outcome::End;
use arrayvec::ArrayString;
use itoa::Buffer;

/// The last line of a program, or no bytes where there is none.
pub type Line = ArrayString<96>;

/// The status of an end, which the process hands to its caller.
pub fn status_of(end: End) -> u8
    ensures { result ≡ status_number end }
{
    match end {
        End::Exited(code) => code,
        End::NotBuilt { .. } => 117,
        End::TooLong => 119,
        End::Usage(_) => 120,
        End::BadImage(_) => 121,
        End::LoadFault => 122,
        End::WriteFault => 123,
        End::FuelSpent => 124,
        End::NoMemory => 126,
    }
}

fn add(text: &mut Line, more: &str)
    requires { length text.old.bytes + length more.now ≤ 96 }
    ensures { text.new.bytes ≡ text.old.bytes ++ more.now }
{
    let _ = text.try_push_str(more);
}

fn add_number(text: &mut Line, number: u64)
    requires { length text.old.bytes + 20 ≤ 96 }
    ensures bytes { text.new.bytes ≡ text.old.bytes ++ decimal number }
    ensures short { length text.new.bytes ≤ length text.old.bytes + 20 }
{
    let mut buffer = Buffer::new();
    add(text, buffer.format(number));
}

// A hexadecimal digit.
fn digit(value: u64) -> &'static str
    requires { value < 16 }
    ensures { result.now ≡ digit_glyph false value ∷ [] }
{
    match value {
        0 => "0",
        1 => "1",
        2 => "2",
        3 => "3",
        4 => "4",
        5 => "5",
        6 => "6",
        7 => "7",
        8 => "8",
        9 => "9",
        10 => "a",
        11 => "b",
        12 => "c",
        13 => "d",
        14 => "e",
        _ => "f",
    }
}

// Adds the last hexadecimal digit of a number.
fn add_digit(text: &mut Line, number: u64)
    requires { length text.old.bytes + 1 ≤ 96 }
    ensures { text.new.bytes ≡ text.old.bytes ++ digit_glyph false (number % 16) ∷ [] }
{
    add(text, digit(number % 16));
}

// Adds the last digits of a number in plain hexadecimal, as many as there are places or it has.
fn add_digits(text: &mut Line, number: u64, places: u32)
    requires places { 1 ≤ places }
    requires room { length text.old.bytes + places ≤ 96 }
    ensures bytes { text.new.bytes ≡ text.old.bytes ++ digits_onto places 16 false number [] }
    ensures short { length text.new.bytes ≤ length text.old.bytes + places }
{
    if places > 1 && number >= 16 {
        add_digits(text, number / 16, places - 1);
        add_digit(text, number);
    } else {
        add_digit(text, number);
    }
}

// Adds a number in plain hexadecimal.
#[tactic(auto, unfolding(crate::specs::Lines::hexadecimal))]
fn add_hexadecimal(text: &mut Line, number: u64)
    requires { length text.old.bytes + 16 ≤ 96 }
    ensures bytes { text.new.bytes ≡ text.old.bytes ++ hexadecimal number }
    ensures short { length text.new.bytes ≤ length text.old.bytes + 16 }
{
    add_digits(text, number, 16);
}

/// The last line of an end, with its newline, or nothing where the guest exited.
pub fn last_line(end: End) -> Line
    ensures { result.bytes ≡ line_of end }
{
    let mut text = Line::new();
    if let End::Exited(_) = end {
        return text;
    }
    add(&mut text, "linuxulator: ");
    match end {
        End::Exited(_) => {}
        End::Usage(fault) => {
            add(&mut text, "usage: ");
            add(&mut text, fault.kind.text());
            add(&mut text, " at word ");
            add_number(&mut text, u64::from(fault.at));
        }
        End::BadImage(fault) => {
            add(&mut text, "image: ");
            add(&mut text, fault.kind.text());
            add(&mut text, " at ");
            add_number(&mut text, fault.place);
        }
        End::NotBuilt { pc } => {
            add(&mut text, "not built at 0x");
            add_hexadecimal(&mut text, pc);
        }
        End::TooLong => add(&mut text, "too long"),
        End::LoadFault => add(&mut text, "read failed"),
        End::WriteFault => add(&mut text, "write failed"),
        End::FuelSpent => add(&mut text, "fuel spent"),
        End::NoMemory => add(&mut text, "no memory"),
    }
    add(&mut text, "\n");
    text
}
