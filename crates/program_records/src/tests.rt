// A frame's line and a whole run, each float as a closure has it that holds a value of its caller's.
// The frame is the first recorded one: its numbers and factors, and so which of them are below 0.5, are the Rust's (tests/frames).
use crate::frames::{quantized_record, write_frame, write_frame_as};
use crate::run::run;
use program_text::Decimal;
use std::alloc::{Allocator, Global};
use std::cell::{RefCell, RefMut};
use std::fmt::Display;
use std::io;
use std::io::{BufRead, ErrorKind, Lines, Write};
use std::test::Fail;

const FRAME: [u8; 64] = [
    217, 51, 57, 190, 213, 78, 168, 190, 175, 234, 232, 190, 44, 150, 80, 191, 143, 104, 87, 191,
    202, 201, 145, 191, 215, 187, 93, 191, 242, 164, 42, 191, 100, 130, 78, 188, 7, 0, 2, 63, 225,
    146, 186, 62, 157, 80, 42, 63, 222, 128, 149, 63, 26, 149, 86, 63, 100, 221, 50, 63, 70, 4,
    136, 63,
];

const SIDES: &str =
    "18 23 0 0 0 0 4901945 121937 0 | low low low low low low low low low high low low high high high high\n";

const DECIMALS: &str =
    "18 23 0 0 0 0 4901945 121937 0 | 0.105536 -0.426035 -0.524618 -0.709625 -0.900760 -0.800022 -0.921512 -0.724998 -0.063338 0.596988 0.409922 0.494171 1.026614 0.907128 0.654351 1.236212\n";

// What is read, and what was written.
#[derive(Drop)]
struct Memory<'a> {
    input: &'a [u8],
    written: RefCell<Vec<u8>>,
    heap: Global,
}

impl<'a> Input for Memory<'a> {
    type Reader = &'a [u8];

    fn read_line<A: Allocator + Clone>(&self, buf: &mut String<A>) -> io::Result<usize> {
        self.reader().read_line(buf)
    }

    fn lines<A: Allocator>(&self, alloc: A) -> Lines<&'a [u8], A> {
        self.input.lines(alloc)
    }

    fn reader(&self) -> &'a [u8] {
        self.input
    }
}

impl<'a> Memory<'a> {
    fn new(heap: Global, input: &'a [u8]) -> Memory<'a> {
        Memory {
            input,
            written: RefCell::new(Vec::new(heap)),
            heap,
        }
    }

    fn writer(&self) -> io::Result<RefMut<'_, Vec<u8>>> {
        match self.written.try_borrow_mut() {
            Ok(written) => Ok(written),
            Err(_) => Err(io::Error::from(ErrorKind::WouldBlock)),
        }
    }
}

impl<'a> Print for Memory<'a> {
    fn print<D: Display + Drop>(&self, value: D) -> io::Result<()> {
        write!(self.writer()?, "{value}")
    }

    fn println<D: Display + Drop>(&self, value: D) -> io::Result<()> {
        writeln!(self.writer()?, "{value}")
    }

    fn write_all(&self, bytes: &[u8]) -> io::Result<()> {
        self.writer()?.write_all(bytes)
    }
}

impl<'a> Alloc for Memory<'a> {
    type A = Global;

    fn alloc(&self) -> Global {
        self.heap
    }
}

#[test]
fn a_line_as_a_closure_has_it(rt: HostRuntime) -> Result<(), Fail> {
    let limit = 0.5f32;
    let quantized = quantized_record(&FRAME).ok().ok_or("refused")?;
    let mut out = Vec::new(rt.alloc());
    write_frame(
        &mut out,
        &quantized,
        &|x| { if x < limit { "low" } else { "high" } },
    )?;
    assert_eq!(rt; out.as_slice(), SIDES.as_bytes());
    Ok(())
}

// A type's constructor is a closure, too.
#[test]
fn a_line_as_a_type_has_it(rt: HostRuntime) -> Result<(), Fail> {
    let quantized = quantized_record(&FRAME).ok().ok_or("refused")?;
    let mut out = Vec::new(rt.alloc());
    write_frame_as::<Decimal>(&mut out, &quantized)?;
    assert_eq!(rt; out.as_slice(), DECIMALS.as_bytes());
    out.clear();
    write_frame(&mut out, &quantized, &Decimal)?;
    assert_eq!(rt; out.as_slice(), DECIMALS.as_bytes());
    Ok(())
}

// A frame, a record that is refused, and three bytes of another.
#[test]
fn a_run_as_a_closure_has_it(rt: HostRuntime) -> Result<(), Fail> {
    let limit = 0.5f32;
    let mut input = Vec::from_slice(rt.alloc(), &FRAME)?;
    input.extend_from_slice(&[255; 67])?;
    let memory = Memory::new(rt.alloc(), input.as_slice());
    run(&memory, |x| if x < limit { "low" } else { "high" })?;
    let out = memory.written.into_inner();
    assert_eq!(rt;
        out.strip_prefix(SIDES.as_bytes()).ok_or("no line")?,
        b"refused 7 at 0\ncut\n2 records, 1 refused, 1 cut\n".as_slice()
    );
    Ok(())
}

#[test]
fn a_run_as_a_type_has_it(rt: HostRuntime) -> Result<(), Fail> {
    let memory = Memory::new(rt.alloc(), &FRAME);
    run(&memory, Decimal)?;
    let out = memory.written.into_inner();
    assert_eq!(rt;
        out.strip_prefix(DECIMALS.as_bytes()).ok_or("no line")?,
        b"1 records, 0 refused\n".as_slice()
    );
    Ok(())
}
