//! What is printed of a stream in memory. The expected texts are those of tools/weigh.py.
use crate::weigh;
use crate::weigher::Weigher;

const STREAM: &[u8] = b"a bc\n\xC3\xA9 \n\xE9\nx";

const PRINTED: &str =
    "1: 4 with blanks, 3 without\n2: 2 with blanks, 1 without\n3: refused 15 at 0\n4: 1 with blanks, 1 without\n\
weighed 3 lines: 7 with blanks, 5 without; 1 refused\n";

#[test]
fn a_stream_in_two_pieces(rt: HostRuntime) -> anyhow::Result<()> {
    let mut out = String::new(rt.alloc());
    let mut weigher = Weigher::new();
    // The first piece ends within a character.
    weigher.take_in(&STREAM[..6], &mut out)?;
    weigher.take_in(&STREAM[6..], &mut out)?;
    weigher.finish(&mut out)?;
    assert_eq!(rt; out.as_str(), PRINTED);
    Ok(())
}

#[test]
fn a_stream_through_a_small_buffer(rt: HostRuntime) -> anyhow::Result<()> {
    let mut input = STREAM;
    let mut output = Vec::new(rt.alloc());
    let mut buffer = [0u8; 3];
    weigh(rt.alloc(), &mut input, &mut output, &mut buffer)?;
    assert_eq!(rt; output.as_slice(), PRINTED.as_bytes());
    Ok(())
}
