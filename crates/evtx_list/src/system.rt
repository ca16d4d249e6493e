// What the programs ask of the system beside the reads of an input and the writes of a listing: their arguments, files by their names, lines on
// standard output, and what they say of themselves.
ghost use Rattle.std.specs.Prelude.{◌≡◌};
ghost use Rattle.std.specs.Io.{ReadsAtMost};
ghost use Rattle.evtx_list.specs.Inputs.{opened_at};

use arguments::Program;
use std::env::{Env, FillError};
use std::fs::File;
use std::io;
use std::io::{Error, ErrorKind, IsTerminal, Read, Stderr, Stdout, Write};
use std::os::fd::AsRawFd;
use std::process::ExitCode;

// Standard output, and whether it is a pipe that nobody reads any more, as the last write that failed said.
#[derive(Drop)]
pub(crate) struct Output {
    to: Stdout,
    unread: bool,
}

impl Write for Output {
    fn write(&mut self, buf: &[u8]) -> io::Result<usize> {
        match self.to.write(buf) {
            Ok(count) => Ok(count),
            Err(reason) => {
                self.unread = reason.kind() == ErrorKind::BrokenPipe;
                Err(reason)
            }
        }
    }

    fn flush(&mut self) -> io::Result<()> {
        self.to.flush()
    }
}

// Standard output and standard error.
type Console = reads::Console<'static, Output, Stderr>;

// How many arguments there are, the program's own name among them. Each is asked for with room for no byte.
pub(crate) fn argument_count(rt: &HostRuntime) -> usize {
    let mut none = [0u8; 0];
    for i in 0..usize::MAX {
        if let Err(FillError::NotPresent) = rt.arg(i, &mut none) {
            return i;
        }
    }
    usize::MAX
}

// Puts an argument at the front of the memory and answers its length. Where it does not fit, the memory has its first bytes.
pub(crate) fn argument(rt: &HostRuntime, i: usize, memory: &mut [u8]) -> Result<usize, FillError>
    ensures { ReadsAtMost result memory.new }
{
    rt.arg(i, memory)
}

// The system's number for what is wrong with an argument.
fn number_of(refusal: FillError) -> i32 {
    match refusal {
        // EINVAL
        FillError::NotPresent => 22,
        // ENAMETOOLONG
        FillError::TooLong => 36,
    }
}

// The program's name as it stands before what is said on standard error.
fn name_of(program: Program) -> &'static [u8] {
    match program {
        Program::List => b"evtx_list: ",
        Program::Carve => b"evtx_carve: ",
        Program::Index => b"evtx_index: ",
    }
}

// Whether someone would have to type a log.
pub(crate) fn is_terminal(rt: &HostRuntime) -> bool {
    rt.stdin().is_terminal()
}

// The input with a descriptor; none has one below 0.
fn opened_at(descriptor: i32) -> Option<u64>
    ensures { result ≡ opened_at descriptor }
{
    u64::try_from(descriptor).ok()
}

// Opens a file by its name. A name that is no text the library cannot hand to the system: it is refused with EILSEQ.
fn open_named(rt: &HostRuntime, name: &[u8]) -> io::Result<File> {
    match std::str::from_utf8(name) {
        Ok(path) => File::open(rt, path),
        Err(_) => Err(Error::from_raw_os_error(84)),
    }
}

fn usage_of(program: Program) -> &'static [u8] {
    match program {
        Program::List => b"usage: evtx_list [--help | --version | FILE..]\n",
        Program::Carve => b"usage: evtx_carve [--help | --version | FILE..]\n",
        Program::Index => b"usage: evtx_index [--help | --version | [NUMBER] [FILE..]]\n",
    }
}

fn version_of(program: Program) -> &'static [u8] {
    match program {
        Program::List => b"evtx_list 0.6.0\n",
        Program::Carve => b"evtx_carve 0.6.0\n",
        Program::Index => b"evtx_index 0.6.0\n",
    }
}

const HELP_OF_LIST: &[u8] = b"\
usage: evtx_list [--help | --version | FILE..]

Lists Windows XML event logs (EVTX): a line for the file header, one for each
chunk, and one for each record, with its offset in the chunk, its number, and
its text or the number of its refusal.

  FILE       a log; - is standard input, which is also listed without a FILE
  --help     writes this help
  --version  writes the version

Where there are several, the listing of each begins with the line FILE: .
What cannot be read or written is told on standard error. The manual page
evtx_list(1) says what the numbers mean.
";

const HELP_OF_CARVE: &[u8] = b"\
usage: evtx_carve [--help | --version | FILE..]

Finds the whole records of Windows XML event logs (EVTX) in bytes of any size
and origin, as a disk image or what a power cut left: a line for each record,
with its place in the input and its size, as soon as later bytes cannot undo it.

  FILE       what is searched; - is standard input, which is also searched
             without a FILE
  --help     writes this help
  --version  writes the version

Where there are several, the lines of each begin with the line FILE: .
What cannot be read or written is told on standard error. The manual page
evtx_carve(1) says what a whole record is.
";

const HELP_OF_INDEX: &[u8] = b"\
usage: evtx_index [--help | --version | [NUMBER] [FILE..]]

Builds the index of each chunk of Windows XML event logs (EVTX): a line for each
index, and one for each entry, with the number of the chunk and the record's
offset in it, size and number, and the number of its text's refusal or 0.

  NUMBER     only the entries of records with this number are written
  FILE       a log; - is standard input, which is also read without a FILE
  --help     writes this help
  --version  writes the version

Where there are several, the lines of each begin with the line FILE: .
What cannot be read or written is told on standard error, and so is, where a
NUMBER is given, a chunk that has no index. The manual page evtx_index(1) says
what the numbers mean.
";

fn help_of(program: Program) -> &'static [u8] {
    match program {
        Program::List => HELP_OF_LIST,
        Program::Carve => HELP_OF_CARVE,
        Program::Index => HELP_OF_INDEX,
    }
}

// A run of a program: which one it is, the record number that is asked of an index, if any, and where it writes. Only the indexing program looks
// at that number.
#[derive(Drop)]
pub(crate) struct Run<'a> {
    pub(crate) rt: &'a HostRuntime,
    pub(crate) program: Program,
    pub(crate) asked: Option<u64>,
    pub(crate) console: Console,
}

impl<'a> Run<'a> {
    pub(crate) fn new(rt: &'a HostRuntime, program: Program, asked: Option<u64>) -> Self {
        Run {
            rt,
            program,
            asked,
            console: Console {
                output: Output {
                    to: rt.stdout(),
                    unread: false,
                },
                errors: rt.stderr(),
                program: name_of(program),
            },
        }
    }

    // The status of a program: where nobody reads its pipe any more, the one that a shell gives to a program that the signal of it ended, which the
    // start of a program turns off; else 0.
    pub(crate) fn status(self) -> ExitCode {
        if self.console.output.unread {
            ExitCode::from(141)
        } else {
            ExitCode::SUCCESS
        }
    }

    // Says on standard error what the system gave as the reason that something failed, after the program's name.
    fn tell(&mut self, what: &[u8], reason: &Error) {
        reads::tell(&mut self.console, what, reason);
    }

    // Says that an argument is not whole in the memory.
    pub(crate) fn not_whole(&mut self, refusal: FillError) {
        let reason = Error::from_raw_os_error(number_of(refusal));
        self.tell(b"an argument", &reason);
    }

    // Whether an input can be read, and by which descriptor. That is asked by a read of no bytes: a directory, and an input that is closed, are no
    // empty log. Where it cannot be read, that is told.
    pub(crate) fn input_of<R: Read + AsRawFd>(
        &mut self,
        source: &mut R,
        name: &[u8],
    ) -> Option<u64> {
        let mut none = [0u8; 0];
        match source.read(&mut none) {
            Ok(_) => opened_at(source.as_raw_fd()),
            Err(reason) => {
                self.tell(name, &reason);
                None
            }
        }
    }

    // Opens a file to be read. Where that fails, it is told.
    pub(crate) fn open(&mut self, name: &[u8]) -> Option<File> {
        match open_named(self.rt, name) {
            Ok(file) => Some(file),
            Err(reason) => {
                self.tell(name, &reason);
                None
            }
        }
    }

    // Writes to standard error. Where that fails, nobody can be told.
    fn complain(&mut self, text: &[u8]) {
        let _ = self.console.errors.write_all(text);
    }

    // Says on standard error that an input is longer than a stream may be.
    pub(crate) fn too_long(&mut self, name: &[u8]) {
        self.complain(name_of(self.program));
        self.complain(name);
        self.complain(b": longer than 1,099,511,627,776 bytes\n");
    }

    // Says on standard error that a chunk of an input has no index, with the number of the refusal.
    pub(crate) fn no_index(&mut self, name: &[u8], k: u64, number: u32) {
        let mut memory = [0u8; 64];
        let end = line::index_line(&mut memory, 0, k, number);
        self.complain(name_of(self.program));
        self.complain(name);
        self.complain(b": ");
        self.complain(&memory[..end]);
    }

    // Writes lines to standard output, and answers whether that was done. Where it was not, that is told, but not that nobody reads a pipe any more.
    pub(crate) fn say(&mut self, text: &[u8]) -> bool {
        reads::say(&mut self.console, text)
    }

    // The line above the listing of one file among several.
    pub(crate) fn head(&mut self, name: &[u8]) -> bool {
        self.say(name) && self.say(b":\n")
    }

    pub(crate) fn usage(&mut self) {
        self.complain(usage_of(self.program));
    }

    pub(crate) fn version(&mut self) {
        self.say(version_of(self.program));
    }

    pub(crate) fn help(&mut self) {
        self.say(help_of(self.program));
    }
}
