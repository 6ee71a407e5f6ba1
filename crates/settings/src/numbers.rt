// Decimal numbers up to a greatest, each with the byte that ends it.
ghost use Rattle.std.specs.Prelude.{◌≡◌};
ghost use Rattle.settings.specs.Line.{byte_of, number_text, pair_text, UpTo, PairUpTo};
ghost use Rattle.settings.specs.Reading.{Reads, NumberWrong, PairWrong};

// What ends a number.
#[derive(Clone, Copy, Debug, PartialEq, Eq)]
pub enum Ending {
    Blank,
    Newline,
}

impl Ending {
    fn byte(self) -> u8
        ensures { result ≡ byte_of self }
    {
        match self {
            Ending::Blank => b' ',
            Ending::Newline => b'\n',
        }
    }
}

#[derive(Clone, Copy, Debug, PartialEq, Eq)]
pub enum NumberFault {
    // no number, or something else than the ending after it
    Form,
    // a number above the greatest
    TooLarge,
}

// A number and what ends it, and the rest.
pub fn read_number(bytes: &[u8], end: Ending, greatest: u32) -> Result<(u32, &[u8]), NumberFault>
    ensures { Reads (UpTo greatest) (number_text end) bytes.now (NumberWrong greatest) result }
{
    let end = end.byte();
    let mut number: u64 = 0;
    for (i, b) in bytes.iter().enumerate() {
        if *b == end && i > 0 {
            return Ok((number as u32, &bytes[i + 1..]));
        }
        if !b.is_ascii_digit() || (i > 0 && number == 0) {
            return Err(NumberFault::Form);
        }
        number = number * 10 + u64::from(*b - b'0');
        if number > u64::from(greatest) {
            return Err(NumberFault::TooLarge);
        }
    }
    Err(NumberFault::Form)
}

// Two numbers, a blank between them.
pub(crate) fn read_pair(
    bytes: &[u8],
    end: Ending,
    greatest: u32,
) -> Result<((u32, u32), &[u8]), NumberFault>
    ensures { Reads (PairUpTo greatest) (pair_text end) bytes.now (PairWrong greatest) result }
{
    let (first, rest) = read_number(bytes, Ending::Blank, greatest)?;
    let (second, rest) = read_number(rest, end, greatest)?;
    Ok(((first, second), rest))
}

#[cfg(test)]
mod tests {
    use super::*;
    use std::test::Fail;

    #[test]
    fn numbers_with_what_follows(rt: HostRuntime) -> Result<(), Fail> {
        let (number, rest) = read_number(b"4294967295 7", Ending::Blank, u32::MAX)?;
        assert_eq!(rt; number, 4_294_967_295);
        assert_eq!(rt; rest, b"7".as_slice());
        let ((n, k), rest) = read_pair(b"0 99\n", Ending::Newline, 99)?;
        assert_eq!(rt; n, 0);
        assert_eq!(rt; k, 99);
        assert_eq!(rt; rest, b"".as_slice());
        Ok(())
    }

    #[test]
    fn what_is_wrong(rt: HostRuntime) {
        for (bytes, fault) in [
            (b"100 ", NumberFault::TooLarge),
            (b"100x", NumberFault::TooLarge),
            (b"099 ", NumberFault::Form),
            (b"99  ", NumberFault::Form),
            (b"99x ", NumberFault::Form),
        ] {
            assert_eq!(rt; read_number(bytes, Ending::Newline, 99).err(), Some(fault));
        }
    }
}
