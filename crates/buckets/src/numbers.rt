//! Reading a number from a line.
ghost use Rattle.buckets.specs.Numbers.{NumberRead};

/// The number that the line spells in decimal, if it is at most `most`.
pub fn read_number(line: &[u8], most: u64) -> Option<u64>
    ensures { NumberRead line.now most result }
{
    if line.is_empty() {
        return None;
    }
    // Only 0 itself begins with a zero.
    if line[0] == b'0' && line.len() > 1 {
        return None;
    }
    let mut number: u64 = 0;
    for byte in line {
        let byte = *byte;
        if byte < b'0' || byte > b'9' {
            return None;
        }
        let digit = u64::from(byte - b'0');
        // The digits so far come to more than `most`, and further ones only add to that.
        if number > most / 10 || digit > most - number * 10 {
            return None;
        }
        number = number * 10 + digit;
    }
    Some(number)
}
