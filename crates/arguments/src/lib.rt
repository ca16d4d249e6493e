// What the words of a command line ask for, as the programs here read them.
#![tactic(auto)]

ghost use Rattle.std.specs.Prelude.{◌≡◌, ◌≤◌};
ghost use Rattle.arguments.specs.Words.{asked, is_named, called as calledBy};
ghost use Rattle.arguments.specs.Numbers.{with_digit, number_in};

// Standard input, the help, the version, something that no program here knows, or a file by its name.
#[derive(Clone, Copy)]
pub enum Word {
    Input,
    Help,
    Version,
    Unknown,
    File,
}

// The program that lists logs, the one that carves records out of any bytes, or the one that builds the indexes of logs.
#[derive(Clone, Copy)]
pub enum Program {
    List,
    Carve,
    Index,
}

// What a word asks for: `-` is standard input, and any other word that begins so is an option.
pub fn asks_for(bytes: &[u8]) -> Word
    ensures { result ≡ asked bytes.now }
{
    if bytes == b"-".as_slice() {
        return Word::Input;
    }
    if bytes == b"--help".as_slice() {
        return Word::Help;
    }
    if bytes == b"--version".as_slice() {
        return Word::Version;
    }
    if bytes.starts_with(b"-") {
        return Word::Unknown;
    }
    Word::File
}

// Whether a name is the known one, or a path that ends in it: that end comes with its slash.
fn is_named(name: &[u8], known: &[u8], path: &[u8]) -> bool
    ensures { result ≡ is_named known.now path.now name.now }
{
    name == known || name.ends_with(path)
}

// The program that is called by a name, which may be a path.
#[tactic(auto, unfolding(crate::specs::Words::called))]
pub fn called(name: &[u8]) -> Program
    ensures { result ≡ calledBy name.now }
{
    if is_named(name, b"evtx_carve", b"/evtx_carve") {
        return Program::Carve;
    }
    if is_named(name, b"evtx_index", b"/evtx_index") {
        return Program::Index;
    }
    Program::List
}

// The number with one digit more at its end; the largest of 64 bits where it is larger than that.
fn with_digit(number: u64, digit: u8) -> u64
    requires { 48 ≤ digit }
    ensures { result ≡ with_digit number digit }
{
    let d = u64::from(digit - b'0');
    number.saturating_mul(10).saturating_add(d)
}

// The record number that a word of digits stands for; the largest of 64 bits, which no entry of an index has, for any that is larger.
pub fn number_in(word: &[u8]) -> Option<u64>
    ensures { result ≡ number_in word.now }
{
    if word.is_empty() {
        return None;
    }
    let mut number: u64 = 0;
    for &digit in word {
        if !digit.is_ascii_digit() {
            return None;
        }
        number = with_digit(number, digit);
    }
    Some(number)
}
