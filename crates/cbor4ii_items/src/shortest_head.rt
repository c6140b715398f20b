//! The shortest head, written (RFC 8949 section 4.2.1).
ghost use Rattle.std.specs.Prelude.{◌%◌};
ghost use Rattle.cbor4ii_items.specs.Numbers.{shortest_head};
ghost use Rattle.cbor4ii_items.specs.Writing.{WritesAtomically};

use cbor4ii_rw::write::Write;

/// Writes the shortest head of the major type in the low three bits of `major`, in one push.
#[inline(always)]
pub(crate) fn push_shortest_head<W: Write>(
    writer: &mut W,
    major: u8,
    argument: u64,
) -> Result<(), W::Error>
    ensures { WritesAtomically W.atomic (shortest_head (major % 8) argument)
        (W.view writer.old) (W.view writer.new) result }
{
    let first = 32 * (major % 8);
    // Each push is of a constant length: into memory that takes the fewest steps. An argument of
    // four or eight bytes is copied as one: byte for byte it is stored in as many steps.
    if argument < 24 {
        push(writer, &[first + argument as u8])
    } else if argument < 0x100 {
        push(writer, &[first + 24, argument as u8])
    } else if argument < 0x1_0000 {
        let [a, b] = (argument as u16).to_be_bytes();
        push(writer, &[first + 25, a, b])
    } else if argument < 0x1_0000_0000 {
        let mut bytes = [first + 26, 0, 0, 0, 0];
        bytes[1..].copy_from_slice(&(argument as u32).to_be_bytes());
        push(writer, &bytes)
    } else {
        let mut bytes = [first + 27, 0, 0, 0, 0, 0, 0, 0, 0];
        bytes[1..].copy_from_slice(&argument.to_be_bytes());
        push(writer, &bytes)
    }
}

#[inline(always)]
pub(crate) fn push<W: Write>(writer: &mut W, bytes: &[u8]) -> Result<(), W::Error>
    ensures { WritesAtomically W.atomic bytes.now (W.view writer.old) (W.view writer.new) result }
{
    writer.push(bytes)
}
