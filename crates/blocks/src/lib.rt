// Standard input and output in blocks, and files, for the programs. A read or a write that fails is told on standard error, in a line that
// begins `failed: ` and ends with the system's words and its number for them.
#![tactic(auto)]

ghost use Rattle.std.specs.Prelude.{ℕ, List, ◌≡◌, ◌≤◌, length, take};
ghost use Rattle.std.specs.Io.KnownBytes.{Consumes, IsAtEnd};
ghost use Rattle.blocks.specs.Conversions.{TakesBlocks, CountsWithin, CallGives};

use std::env::{Env, FillError};
use std::fs::Files;
use std::io::{Error, Input, Read};
use std::process::ExitCode;
use std::{fs, str};

// Whether the program was started without words, for one that takes none. Words are told, as a failure.
pub fn without_words(rt: &(impl Env + Eprint)) -> bool {
    let mut first = [0u8; 1];
    if let Err(FillError::NotPresent) = rt.arg(1, &mut first) {
        return true;
    }
    let _ = eprintln!(rt;
        "failed: this program takes no words; it reads standard input and writes standard output"
    );
    false
}

// Room for `N` bytes. A proof takes its length from here: computed, a long literal's would go a step deep for each byte.
pub fn room<const N: usize>() -> [u8; N]
    ensures { N ≡ length result }
{
    [0; N]
}

// Room for a block of input, large enough that a long input takes few calls.
pub fn input_block() -> [u8; 131072]
    ensures { 131072 ≡ length result }
{
    room()
}

// What follows a block of input: more may, nothing does, or a read failed.
#[derive(Clone, Copy, PartialEq, Eq)]
pub enum Then {
    More,
    End,
    Failed,
}

// A block of input: its bytes, and what follows them.
#[derive(Clone, Copy)]
pub struct Block<'a> {
    pub bytes: &'a [u8],
    pub then: Then,
}

// Reads standard input into `block` until it is full, the input ends or a read fails.
pub fn read_block<'a>(rt: &(impl Input + Eprint), block: &'a mut [u8]) -> Block<'a>
    ensures { length result.bytes.now ≤ length block.old }
{
    let mut input = rt.reader();
    read_from(rt, "reading standard input", &mut input, block)
}

// Reads the file that the program's word number `word` names into `block` until it is full, the file ends or a read fails. A file
// that cannot be opened is told, and has failed.
pub fn read_file<'a>(
    rt: &(impl Env + Files + Eprint),
    word: usize,
    block: &'a mut [u8],
) -> Block<'a>
    ensures { length result.bytes.now ≤ length block.old }
{
    let mut name = [0u8; 4096];
    match rt.arg(word, &mut name) {
        Ok(n) => read_named(rt, &name[..n], block),
        Err(FillError::NotPresent) => not_named(rt, INVALID, block),
        Err(FillError::TooLong) => not_named(rt, TOO_LONG, block),
    }
}

// The system's numbers for a word that is not there, for one that is too long, and for one that is no UTF-8.
const INVALID: i32 = 22;

const TOO_LONG: i32 = 36;

const NOT_UTF8: i32 = 84;

// A path is UTF-8 to the library.
fn read_named<'a>(rt: &(impl Files + Eprint), name: &[u8], block: &'a mut [u8]) -> Block<'a>
    ensures { length result.bytes.now ≤ length block.old }
{
    let Ok(path) = str::from_utf8(name) else {
        return not_named(rt, NOT_UTF8, block);
    };
    match fs::open(rt, path) {
        Ok(mut file) => read_from(rt, path, &mut file, block),
        Err(e) => not_read(rt, path, e, block),
    }
}

// There is no file to read, for a reason that the system has a number for.
fn not_named<'a>(rt: &impl Eprint, code: i32, block: &'a mut [u8]) -> Block<'a>
    ensures { length result.bytes.now ≤ length block.old }
{
    not_read(
        rt,
        "the name of a file",
        Error::from_raw_os_error(code),
        block,
    )
}

// Nothing was read, for a reason that the system has.
fn not_read<'a>(rt: &impl Eprint, what: &str, why: Error, block: &'a mut [u8]) -> Block<'a>
    ensures { length result.bytes.now ≤ length block.old }
{
    tell(rt, what, why);
    Block {
        bytes: &block[..0],
        then: Then::Failed,
    }
}

// A failure in a line on standard error, with the system's words.
fn tell(rt: &impl Eprint, what: &str, why: Error) {
    let _ = eprintln!(rt; "failed: {what}: {why}");
}

// What a reader has, as far as the block has room for it.
fn read_from<'a, R: Read>(
    rt: &impl Eprint,
    what: &str,
    reader: &mut R,
    block: &'a mut [u8],
) -> Block<'a>
    ensures within { length result.bytes.now ≤ length block.old }
    ensures bytes { Consumes (R.remaining reader.old) (R.remaining reader.new) result.bytes.now }
    ensures more { result.then ≡ Then.More → length result.bytes.now ≡ length block.old }
    ensures end { result.then ≡ Then.End → IsAtEnd (R.remaining reader.new) }
{
    let mut count: usize = 0;
    let then = loop {
        if count == block.len() {
            break Then::More;
        }
        match reader.read(&mut block[count..]) {
            Ok(0) => break Then::End,
            Ok(more) => count += more,
            Err(e) => {
                tell(rt, what, e);
                break Then::Failed;
            }
        }
    };
    Block {
        bytes: &block[..count],
        then,
    }
}

// Writes all of `block` to standard output, in one call where the system takes it whole, and answers whether it did.
pub fn write_block(rt: &(impl Print + Eprint), block: &[u8]) -> bool {
    match rt.write_all(block) {
        Ok(()) => true,
        Err(e) => {
            tell(rt, "writing standard output", e);
            false
        }
    }
}

// A block of input as a conversion takes it, with no more bytes than `input_block` has room for.
#[derive(Clone, Copy)]
pub struct Whole<'a> {
    pub bytes: &'a [u8],
    ghost in_block: { length bytes.now ≤ 131072 },
}

// What a block of input becomes, in room for `ROOM` bytes.
pub trait Conversion<const ROOM: usize> {
    ghost gives: { List ℕ → List ℕ };

    // Puts what the block becomes into the first bytes of `output`, and answers how many that is.
    fn convert(&self, block: Whole, output: &mut [u8; ROOM]) -> usize
        ensures within { result ≤ ROOM }
        ensures output_after { take result output.new ≡ gives block.entry.bytes.now };
}

// What the block becomes.
fn converted<'a, const ROOM: usize, C: Conversion<ROOM>>(
    conversion: &C,
    block: Whole,
    output: &'a mut [u8; ROOM],
) -> &'a [u8]
    ensures { result.now ≡ C.gives block.entry.bytes.now }
{
    let written = conversion.convert(block, output);
    &output[..written]
}

// Converts standard input: for each block, what `conversion` puts into the first bytes of `output` goes to standard output. It ends
// with the input, or at the first read or write that fails. A proved loop has to end, and nothing says that the input does: no run
// uses up its turns.
pub fn convert_input<const ROOM: usize>(
    rt: &(impl Env + Input + Print + Eprint),
    output: &mut [u8; ROOM],
    conversion: &impl Conversion<ROOM>,
) -> ExitCode {
    if !without_words(rt) {
        return ExitCode::FAILURE;
    }
    let mut input = input_block();
    for _ in 0..u64::MAX {
        let block = read_block(rt, &mut input);
        let whole = Whole { bytes: block.bytes };
        if !write_block(rt, converted(conversion, whole, output)) {
            return ExitCode::FAILURE;
        }
        match block.then {
            Then::More => {}
            Then::End => break,
            Then::Failed => return ExitCode::FAILURE,
        }
    }
    ExitCode::SUCCESS
}

// What converts blocks in room of its own, of any length.
pub trait Converter {
    // What the block becomes.
    fn convert(&mut self, block: Whole) -> &[u8];
}

// A function that converts, and the room that it is lent at each block.
#[derive(Drop)]
pub struct ByFunction<'a> {
    pub output: &'a mut [u8],
    pub convert: fn(&[u8], &mut [u8]) -> usize,
    ghost callable: { TakesBlocks (length output.now) (pre convert) },
    ghost within: { CountsWithin (post convert) },
}

impl<'a> Converter for ByFunction<'a> {
    fn convert(&mut self, block: Whole) -> &[u8]
        ensures { CallGives (post self.old.convert) block.entry.bytes self.old.output.now result.now }
    {
        let written = (self.convert)(block.bytes, self.output);
        &self.output[..written]
    }
}

// Converts standard input as `convert_input` does, where the conversion is a converter of any kind.
pub fn convert_input_by(
    rt: &(impl Env + Input + Print + Eprint),
    converter: &mut impl Converter,
) -> ExitCode {
    if !without_words(rt) {
        return ExitCode::FAILURE;
    }
    let mut input = input_block();
    for _ in 0..u64::MAX {
        let block = read_block(rt, &mut input);
        let whole = Whole { bytes: block.bytes };
        if !write_block(rt, converter.convert(whole)) {
            return ExitCode::FAILURE;
        }
        match block.then {
            Then::More => {}
            Then::End => break,
            Then::Failed => return ExitCode::FAILURE,
        }
    }
    ExitCode::SUCCESS
}
