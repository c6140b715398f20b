//! Numbers in decimal.
ghost use Rattle.std.specs.Prelude.{◌≡◌, ◌+◌, [], ◌∷◌, ◌++◌, length, drop, decimal, OnOk, OnErr};
ghost use Rattle.cbor4ii_rw.specs.Reader.{Failed};
ghost use Rattle.cbor4ii_rw.specs.Writer.{Appends};

use cbor4ii::enc::Write;

// The most digits that a number has.
const MOST_DIGITS: usize = 20;

/// Writes `number` in decimal and a newline, by one push. It fails only where the writer failed.
pub fn write_line<W: Write>(number: u64, writer: &mut W) -> Result<(), W::Error>
    ensures appends { OnOk result (Appends (decimal number ++ 10 ∷ [])
        (W.view writer.old).written (W.view writer.new).written) }
    ensures counts { OnOk result ((W.view writer.new).failures ≡ (W.view writer.old).failures) }
    ensures failed { OnErr result
        (Failed (W.view writer.old).failures (W.view writer.new).failures) }
{
    if number < 10 {
        return writer.push(&[b'0' + number as u8, b'\n']);
    }
    let mut line = [b'\n'; MOST_DIGITS + 1];
    let start = put_digits(number, &mut line);
    writer.push(&line[start..])
}

// Writes the digits of `number` in front of the last byte, and answers where they start.
fn put_digits(number: u64, line: &mut [u8; 21]) -> usize
    ensures start { result + length (decimal number) ≡ 20 }
    ensures digits { drop result line.new ≡ decimal number ++ drop 20 line.old }
{
    let mut start = MOST_DIGITS;
    let mut left = number;
    while left >= 10 {
        start -= 1;
        line[start] = b'0' + (left % 10) as u8;
        left /= 10;
    }
    start -= 1;
    line[start] = b'0' + left as u8;
    start
}
