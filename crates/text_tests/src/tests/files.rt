use bv_base::bytes::{is_name_byte, is_white, lower};
use bv_base::files::{BeginAnswer, Failed, Files};
use bv_base::host_files::HostFiles;
use bv_base::host_sink::HostSink;
use bv_base::mem_files::MemFiles;
use bv_base::mem_sink::MemSink;
use bv_base::memory::NoMemory;
use bv_base::packed_texts::PackedTexts;
use bv_base::read_file::{FileAnswer, read_file};
use bv_base::seq::Seq;
use bv_base::sink::{PutAnswer, Sink};
use bv_base::status::Status;
use bv_base::text::Text;
use bv_base::write_all::write_all;
use std::alloc::Global;
use std::process::Abort;
use std::test::Fail;
use std::{env, fs};

#[test]
fn classes_of_bytes(rt: HostRuntime) {
    compare_classes(&rt, b"\t\n\r ", true, false);
    compare_classes(&rt, b"\x0b\x7f\"#%'(),={}", false, false);
    compare_classes(&rt, b"!$&*+-./09:;<>?@AZ[az|~\x80\xff", false, true);
}

/// Asserts of each byte whether it is white space, and whether names may have it.
fn compare_classes(rt: &impl Abort, bytes: &[u8], white: bool, name: bool) {
    for byte in bytes {
        assert_eq!(rt; is_white(*byte), white, "at {byte}");
        assert_eq!(rt; is_name_byte(*byte), name, "at {byte}");
    }
}

#[test]
fn letters_are_lowered(rt: HostRuntime) {
    for (byte, small) in b"@AZ[`az{\xc3".iter().zip(b"@az[`az{\xc3") {
        assert_eq!(rt; lower(*byte), *small, "at {byte}");
    }
}

#[test]
fn statuses_have_their_numbers(rt: HostRuntime) {
    assert_eq!(rt; Status::Refused.number(), 1);
    assert_eq!(rt; Status::Unknown.number(), 13);
}

#[test]
fn lists(rt: HostRuntime) -> Result<(), Fail> {
    let mut seq = Seq::new(rt.alloc());
    seq.push(1u8)?;
    seq.push(2)?;
    assert_eq!(rt; seq.as_slice(), [1, 2].as_slice());
    assert_eq!(rt; seq.pop(), Some(2));
    assert_eq!(rt; Seq::from_vec(seq.into_vec()).pop(), Some(1));
    Ok(())
}

#[test]
fn texts(rt: HostRuntime) -> Result<(), Fail> {
    let text = Text::from_slice(rt.alloc(), b"ab")?;
    assert_eq!(rt; text.as_slice(), b"ab".as_slice());
    let bytes = b"c".to_vec(rt.alloc())?;
    assert_eq!(rt; Text::from_vec(bytes).as_slice(), b"c".as_slice());
    Ok(())
}

/// The name of a file, the limit, the call that fails, and the refusal.
static READINGS: [(&str, u32, u64, Option<FileAnswer>); 7] = [
    ("a", 2, 0, None),
    ("a", 1, 0, Some(FileAnswer::TooLong)),
    ("a", 2, 1, Some(FileAnswer::Failed)),
    ("a", 2, 2, Some(FileAnswer::Failed)),
    ("a", 2, 3, Some(FileAnswer::Failed)),
    ("a", 2, 4, None),
    ("b", 2, 0, Some(FileAnswer::Absent)),
];

#[test]
fn texts_in_one_piece(rt: HostRuntime) -> Result<(), Fail> {
    let mut packed = PackedTexts::with_room(rt.alloc(), 2, 1)?;
    packed.push(Some(b"ab"))?;
    packed.push(None)?;
    packed.push(Some(b""))?;
    packed.push(Some(b"c"))?;
    let copy = packed.copied(rt.alloc())?;
    packed.clear();
    assert_eq!(rt; (packed.len(), copy.len()), (0, 4));
    assert_eq!(rt; (copy.at(0), copy.at(1)), (Some(b"ab".as_slice()), None));
    assert_eq!(rt;
        (copy.at(2), copy.at(3)),
        (Some(b"".as_slice()), Some(b"c".as_slice()))
    );
    assert_eq!(rt; copy.at(4), None);
    Ok(())
}

#[test]
fn files_in_memory(rt: HostRuntime) -> Result<(), Fail> {
    for (name, limit, failing, refusal) in &READINGS {
        let mut files = added_twice(rt.alloc())?;
        files.fail_at(*failing)?;
        compare_read(&rt, rt.alloc(), &mut files, name, *limit, b"xy", *refusal);
    }
    Ok(())
}

/// Files of which the second replaces the first.
fn added_twice(alloc: Global) -> Result<MemFiles, NoMemory> {
    let mut files = MemFiles::new(alloc);
    files.add("a", b"old")?;
    files.add("a", b"xy")?;
    Ok(files)
}

/// Asserts what is read of a file: these bytes, or else the refusal.
fn compare_read<F: Files>(
    rt: &impl Abort,
    alloc: Global,
    files: &mut F,
    name: &str,
    limit: u32,
    wanted: &[u8],
    refusal: Option<FileAnswer>,
) {
    match read_file(alloc, files, name, limit) {
        Ok(bytes) => {
            assert_eq!(rt; refusal, None);
            assert_eq!(rt; bytes.as_slice(), wanted);
        }
        Err(answer) => assert_eq!(rt; Some(answer), refusal),
    }
}

#[test]
fn a_read_fails_and_the_next_goes_on(rt: HostRuntime) -> Result<(), Fail> {
    let mut files = MemFiles::new(rt.alloc());
    files.add("a", b"abc")?;
    files.fail_at(3)?;
    read_on(&rt, &mut files);
    assert_eq!(rt; files.begun().len(), 2);
    Ok(())
}

/// Reads the file whose third call fails, and begins one that isn't there.
fn read_on(rt: &impl Abort, files: &mut MemFiles) {
    let mut into = [0u8; 2];
    assert_eq!(rt; files.begin("a"), Ok(()));
    assert_eq!(rt; files.read(&mut into), Ok(2));
    assert_eq!(rt; files.read(&mut into), Err(Failed));
    assert_eq!(rt; files.read(&mut into), Ok(1));
    assert_eq!(rt; into, *b"cb");
    assert_eq!(rt; files.read(&mut into), Ok(0));
    assert_eq!(rt; files.begin("b"), Err(BeginAnswer::Absent));
}

#[test]
fn a_put_fails_and_the_next_goes_on(rt: HostRuntime) -> Result<(), Fail> {
    let mut sink = MemSink::new(rt.alloc());
    sink.fail_at(2)?;
    write_on(&rt, &mut sink);
    assert_eq!(rt; sink.bytes(), b"abe".as_slice());
    Ok(())
}

/// Writes to the sink whose second call fails.
fn write_on(rt: &impl Abort, sink: &mut MemSink) {
    assert_eq!(rt; write_all(sink, b"ab"), Ok(()));
    assert_eq!(rt; write_all(sink, b"cd"), Err(PutAnswer::Failed));
    assert_eq!(rt; sink.put(b"e"), Ok(1));
    assert_eq!(rt; write_all(sink, b""), Ok(()));
}

/// What stands behind the name of a file of four bytes, and why it can't be read: no such file, a file below a file, and
/// below that.
static NOT_FILES: [(&str, FileAnswer); 3] = [
    ("-none", FileAnswer::Absent),
    ("/below", FileAnswer::Failed),
    ("/below/that", FileAnswer::Failed),
];

#[test]
fn a_file_of_the_machine(rt: HostRuntime) -> Result<(), Fail> {
    let mut name = env::temp_dir(&rt)?.into_string();
    name.push_str("/bv_base-a_file_of_the_machine")?;
    fs::write(&rt, name.as_str(), "text")?;
    let mut files = HostFiles::new(rt.alloc(), &rt);
    compare_read(&rt, rt.alloc(), &mut files, name.as_str(), 4, b"text", None);
    let folder = Some(FileAnswer::Failed);
    compare_read(&rt, rt.alloc(), &mut files, "/", 4, b"", folder);
    for (behind, refusal) in &NOT_FILES {
        let wanted = Some(*refusal);
        let other = format!(in rt.alloc(); "{name}{behind}")?;
        compare_read(&rt, rt.alloc(), &mut files, other.as_str(), 4, b"", wanted);
    }
    Ok(())
}

#[test]
fn a_writer_of_the_machine(rt: HostRuntime) -> Result<(), Fail> {
    let mut bytes = Vec::new(rt.alloc());
    let mut sink = HostSink::new(&mut bytes);
    assert_eq!(rt; write_all(&mut sink, b"text"), Ok(()));
    assert_eq!(rt; bytes.as_slice(), b"text".as_slice());
    Ok(())
}

#[test]
fn a_writer_without_room(rt: HostRuntime) {
    let mut room = [0u8; 2];
    let mut sink = HostSink::new(room.as_mut_slice());
    assert_eq!(rt; write_all(&mut sink, b"text"), Err(PutAnswer::Failed));
    assert_eq!(rt; room, *b"te");
}
