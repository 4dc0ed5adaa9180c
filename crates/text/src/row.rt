// One register's row of a report.
ghost use Rattle.std.specs.Prelude.{◌≡◌, ◌/◌, ◌%◌, ◌^◌, ◌<◌, true};
ghost use Rattle.std.specs.Fmt.{digit_glyph};
ghost use Rattle.text.specs.Report.{row_text};

// The number of a register in two digits, and its value in eight hexadecimal ones.
pub(crate) fn register_row(number: u8, value: u32) -> [u8; 14]
    requires { number < 100 }
    ensures { result ≡ row_text number value }
{
    [
        b'G',
        b'R',
        b'0' + number / 10,
        b'0' + number % 10,
        b' ',
        hex_digit(value, 28),
        hex_digit(value, 24),
        hex_digit(value, 20),
        hex_digit(value, 16),
        hex_digit(value, 12),
        hex_digit(value, 8),
        hex_digit(value, 4),
        hex_digit(value, 0),
        b'\n',
    ]
}

// The hexadecimal digit that begins so many bits above the lowest.
fn hex_digit(value: u32, above: u32) -> u8
    requires { above < 32 }
    ensures { result ≡ digit_glyph true (value / 2 ^ above % 16) }
{
    let digit = (value >> above) % 16;
    if digit < 10 {
        b'0' + digit as u8
    } else {
        b'A' + (digit - 10) as u8
    }
}
