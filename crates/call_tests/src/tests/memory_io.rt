//! Files and sinks in memory, call by call, and the real ones once.
use sccp_io::{
    Files, IoFault, MemoryFiles, MemorySink, RealFiles, RealSink, Sink, SoundFiles, SoundSink,
};
use std::alloc::{AllocError, Global};
use std::fs;
use std::test::Fail;

/// Two files named `a`, of which the first counts, and an empty one named `b`.
fn files(alloc: Global) -> Result<Vec<(String, Vec<u8>)>, AllocError> {
    let mut files = Vec::new(alloc);
    for (name, octets) in [("a", "12345"), ("a", "9"), ("b", "")] {
        files.push((name.to_string(alloc)?, octets.as_bytes().to_vec(alloc)?))?;
    }
    Ok(files)
}

/// Whether nothing is open at first, an absent name fails, and both places are begun, of which the first one gives octets.
fn begins_both<F: Files>(files: &mut F, buffer: &mut [u8; 3], absent: &str, name: &str) -> bool {
    files.take(buffer) == Ok(0)
        && files.begin(absent) == Err(IoFault::Failed)
        && files.begin(name) == Ok(())
        && files.begin_beside(name) == Ok(())
        && files.take(buffer) == Ok(3)
        && buffer.as_slice() == b"123".as_slice()
}

/// Whether the first place gives the octets that are left and then none, and the second one its first octets.
fn takes_both<F: Files>(files: &mut F, buffer: &mut [u8; 3]) -> bool {
    files.take(buffer) == Ok(2)
        && buffer.as_slice() == b"453".as_slice()
        && files.take(buffer) == Ok(0)
        && files.take_beside(buffer) == Ok(3)
        && buffer.as_slice() == b"123".as_slice()
}

/// Whether a name that is absent changes nothing between the two, and an empty file is begun beside and has no octets.
fn keeps_both(files: &mut SoundFiles, buffer: &mut [u8; 3]) -> bool {
    begins_both(files, buffer, "c", "a")
        && files.begin("c") == Err(IoFault::Failed)
        && takes_both(files, buffer)
        && files.begin_beside("b") == Ok(())
        && files.take_beside(buffer) == Ok(0)
}

#[test]
fn sound_files_keep_two_places(rt: HostRuntime) -> Result<(), Fail> {
    let mut files = SoundFiles::new(files(rt.alloc())?);
    let kept = keeps_both(&mut files, &mut [0u8; 3]);
    drop(files);
    assert!(rt; kept, "each place is kept");
    Ok(())
}

/// Whether calls 0 and 2 fail, and calls 1 and 3 do not.
fn fails_at_first(files: &mut MemoryFiles, buffer: &mut [u8; 4]) -> bool {
    files.begin("a") == Err(IoFault::Failed)
        && files.begin("a") == Ok(())
        && files.take(buffer) == Err(IoFault::Failed)
        && files.take(buffer) == Ok(4)
        && buffer.as_slice() == b"1234".as_slice()
}

/// Whether calls 4, 5 and 7 fail, and calls 6, 8 and 9 do not.
fn fails_beside(files: &mut MemoryFiles, buffer: &mut [u8; 4]) -> bool {
    files.begin_beside("c") == Err(IoFault::Failed)
        && files.begin_beside("a") == Err(IoFault::Failed)
        && files.begin_beside("a") == Ok(())
        && files.take_beside(buffer) == Err(IoFault::Failed)
        && files.take_beside(buffer) == Ok(4)
        && files.take(buffer) == Ok(1)
        && buffer.as_slice() == b"5234".as_slice()
}

#[test]
fn listed_calls_on_files_fail(rt: HostRuntime) -> Result<(), Fail> {
    let failing = vec![in rt.alloc(); 0, 2, 5, 7]?;
    let mut files = MemoryFiles::new(files(rt.alloc())?, failing);
    let mut buffer = [0u8; 4];
    let first = fails_at_first(&mut files, &mut buffer);
    let beside = fails_beside(&mut files, &mut buffer);
    drop(files);
    assert!(rt; first, "calls 0 to 3");
    assert!(rt; beside, "calls 4 to 9");
    Ok(())
}

/// Whether calls 0 and 2 fail and leave what was taken, and calls 1 and 3 do not.
fn fails_in_turn(sink: &mut MemorySink) -> bool {
    sink.put(b"ab") == Err(IoFault::Failed)
        && sink.taken() == b"".as_slice()
        && sink.put(b"ab") == Ok(2)
        && sink.put(b"cd") == Err(IoFault::Failed)
        && sink.put(b"ef") == Ok(2)
        && sink.taken() == b"abef".as_slice()
}

#[test]
fn listed_calls_on_a_sink_fail(rt: HostRuntime) -> Result<(), Fail> {
    let mut sink = MemorySink::new(rt.alloc(), vec![in rt.alloc(); 0, 2]?);
    let failed = fails_in_turn(&mut sink);
    drop(sink);
    assert!(rt; failed, "calls 0 to 3");
    Ok(())
}

/// Whether two pieces are taken whole, one after the other.
fn takes_all(sink: &mut SoundSink) -> bool {
    sink.put(b"ab") == Ok(2) && sink.put(b"c") == Ok(1) && sink.taken() == b"abc".as_slice()
}

#[test]
fn a_sound_sink_takes_all(rt: HostRuntime) {
    let mut sink = SoundSink::new(rt.alloc());
    let taken = takes_all(&mut sink);
    drop(sink);
    assert!(rt; taken, "abc");
}

/// What a real file holds is no matter of proof.
#[test]
fn real_files_are_read(rt: HostRuntime) -> Result<(), Fail> {
    fs::write(&rt, "octets.txt", "12345")?;
    let mut files = RealFiles::new(&rt);
    let mut buffer = [0u8; 3];
    let begun = begins_both(&mut files, &mut buffer, "absent.txt", "octets.txt");
    let taken = takes_both(&mut files, &mut buffer);
    drop(files);
    assert!(rt; begun, "nothing is open, and two places are begun");
    assert!(rt; taken, "each place is read by itself");
    Ok(())
}

#[test]
fn the_real_sink_takes_octets(rt: HostRuntime) {
    let mut sink = RealSink::new(&rt);
    assert_eq!(rt; sink.put(b"octets\n"), Ok(7));
}
