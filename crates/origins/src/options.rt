//! Reads the command-line arguments.
use rpki_base::Asn;
use rpki_base::memory::OrMemory;
use std::alloc::Global;
use std::fmt;
use std::str::FromStr;

/// The file name that stands for the standard input.
pub const STANDARD_INPUT: &str = "-";

/// The files that give a task its VRPs.
#[derive(Debug, Drop)]
pub struct Input<'a> {
    /// The VRP files, in the order of the arguments. There is at least one.
    pub files: Vec<&'a str>,
    /// The SLURM file, if one was passed.
    pub slurm: Option<&'a str>,
    /// The time in seconds since 1970-01-01 UTC, if one was passed. VRPs that have expired at this time are left out.
    pub time: Option<u64>,
}

impl<'a> Input<'a> {
    /// Returns the name of the file at `index`: a VRP file, or the SLURM file after them.
    pub fn name_of(&self, index: usize) -> &'a str {
        match self.files.get(index) {
            Some(name) => *name,
            None => self.slurm.unwrap_or(STANDARD_INPUT),
        }
    }

    /// Returns the name of the file at `index` as messages have it.
    pub fn shown_name(&self, index: usize) -> &'a str {
        shown(self.name_of(index))
    }
}

/// Returns a file name as messages have it.
pub fn shown(name: &str) -> &str {
    if name == STANDARD_INPUT {
        "standard input"
    } else {
        name
    }
}

/// How routes are answered.
#[derive(Clone, Copy, Debug)]
pub struct Answers {
    /// Whether to print the VRPs that cover a route.
    pub why: bool,
    /// Whether each answer is an object of JSON.
    pub json: bool,
    /// Whether the exit status reports an invalid route or a faulty line.
    pub check: bool,
    /// Whether each answer is written as soon as it is known.
    pub line_buffered: bool,
}

/// A task of the program.
#[derive(Debug, Drop)]
pub enum Task<'a> {
    /// Answer routes by VRPs.
    Answer {
        /// The files. None of them is the standard input.
        input: Input<'a>,
        /// The form of the answers.
        answers: Answers,
    },
    /// Print VRPs.
    Table {
        /// The files. At most one of them may be the standard input.
        input: Input<'a>,
        /// The AS whose VRPs alone are printed, if one is requested.
        of: Option<u32>,
    },
    /// Print the changes from one file to another. The standard input may be one of them.
    Changes {
        /// The old VRP file.
        old: &'a str,
        /// The new VRP file.
        new: &'a str,
    },
    /// Print the help text.
    Help,
    /// Print the version.
    Version,
}

/// The reason why the arguments are not a task.
#[derive(Clone, Copy, Debug)]
pub enum Misuse<'a> {
    /// The option is unknown.
    UnknownOption(&'a str),
    /// The word after `--of` is not an AS number.
    NoAsn(&'a str),
    /// There are two AS numbers. The field is the second.
    SecondAsn(&'a str),
    /// The word after `--now` is not a time.
    NoTime(&'a str),
    /// There are two times. The field is the second.
    SecondTime(&'a str),
    /// The last word is an option that needs a value. The fields are its name and the value.
    WithoutValue(&'static str, &'static str),
    /// The first option needs the second one. The fields are their names.
    Needs(&'static str, &'static str),
    /// Two options that exclude each other. The fields are their names.
    Options(&'static str, &'static str),
    /// There are two SLURM files. The field is the second.
    SecondSlurm(&'a str),
    /// A file name is missing.
    TooFewNames,
    /// There are too many file names. The field is one that is too many.
    TooManyNames(&'a str),
    /// A file is to come from the standard input, which has the routes.
    RoutesAreThere,
    /// Both files of `--diff` are the standard input.
    BothAreThere,
    /// More than one of the files of `--table` is the standard input.
    SeveralAreThere,
}

impl fmt::Display for Misuse<'_> {
    fn fmt<W: fmt::Write>(&self, f: &mut fmt::Formatter<W>) -> fmt::Result {
        match self {
            Misuse::UnknownOption(word) => write!(f, "unknown option: {word}"),
            Misuse::NoAsn(word) => write!(f, "invalid AS number: {word}"),
            Misuse::SecondAsn(word) => write!(f, "too many AS numbers: {word}"),
            Misuse::NoTime(word) => write!(
                f,
                "invalid time: {word}, where seconds since 1970 are expected"
            ),
            Misuse::SecondTime(word) => write!(f, "too many times: {word}"),
            Misuse::WithoutValue(option, value) => write!(f, "{option} needs {value}"),
            Misuse::Needs(option, other) => write!(f, "{option} needs {other}"),
            Misuse::Options(one, other) => write!(f, "{one} does not go with {other}"),
            Misuse::SecondSlurm(name) => write!(f, "too many SLURM files: {name}"),
            Misuse::TooFewNames => f.write_str("too few file names"),
            Misuse::TooManyNames(name) => write!(f, "too many file names: {name}"),
            Misuse::RoutesAreThere => f.write_str(
                "- needs --table or --diff: the standard input has the routes",
            ),
            Misuse::BothAreThere => f.write_str("- can be only one of the two files"),
            Misuse::SeveralAreThere => f.write_str("- can be only one of the files"),
        }
    }
}

/// A task, without its operands.
#[derive(Clone, Copy, Debug, PartialEq, Eq)]
enum Kind {
    Routes,
    Table,
    Diff,
}

/// The value of an option: the word after its name.
#[derive(Clone, Copy, Debug)]
enum Value {
    Nothing,
    Asn,
    Vrps,
    Slurm,
    Time,
}

impl Value {
    /// Returns the value as messages have it.
    fn shown(self) -> &'static str {
        match self {
            Value::Nothing => "no value",
            Value::Asn => "an AS number",
            Value::Vrps | Value::Slurm => "a file name",
            Value::Time => "a time",
        }
    }
}

/// The options: the name, the value, and the tasks that allow the option. If several options are refused, the first one
/// is reported.
const OPTIONS: [(&str, Value, &[Kind]); 10] = [
    ("--table", Value::Nothing, &[Kind::Table]),
    ("--diff", Value::Nothing, &[Kind::Diff]),
    ("--why", Value::Nothing, &[Kind::Routes]),
    ("--check", Value::Nothing, &[Kind::Routes]),
    ("--of", Value::Asn, &[Kind::Table]),
    ("--json", Value::Nothing, &[Kind::Routes]),
    ("--line-buffered", Value::Nothing, &[Kind::Routes]),
    ("--vrps", Value::Vrps, &[Kind::Routes, Kind::Table]),
    ("--slurm", Value::Slurm, &[Kind::Routes, Kind::Table]),
    ("--now", Value::Time, &[Kind::Routes, Kind::Table]),
];

/// The file names that were read so far, without those of options.
#[derive(Clone, Copy, Debug)]
enum Names<'a> {
    None,
    One(&'a str),
    Two(&'a str, &'a str),
    /// More than two names; this is the third.
    More(&'a str),
}

/// The meaning of the next word, after the words that were read so far.
#[derive(Clone, Copy, Debug)]
enum Next {
    /// An option or a file name.
    Word,
    /// A file name, because `--` was read.
    Name,
    /// The value of the option with this name.
    Value(&'static str, Value),
}

/// The words that were read so far.
#[derive(Debug, Drop)]
struct Read<'a> {
    /// The names of the options.
    options: Vec<&'static str>,
    of: Option<u32>,
    slurm: Option<&'a str>,
    now: Option<u64>,
    names: Names<'a>,
    /// The VRP files, with those of `--vrps`, in the order of the words.
    files: Vec<&'a str>,
    next: Next,
}

impl Read<'_> {
    /// Returns whether the option was passed.
    fn has(&self, option: &str) -> bool {
        self.options.iter().any(|name| *name == option)
    }
}

/// Returns the task of the command line. Its first word is the program's name.
///
/// # Errors
///
/// - `Refused` with the first [`Misuse`] of the words, or of the options and file names together.
/// - [`OrMemory::Memory`]: an allocation failed.
pub fn parse(alloc: Global, words: &[String]) -> Result<Task<'_>, OrMemory<Misuse<'_>>> {
    let mut read = Read {
        options: Vec::new(alloc),
        of: None,
        slurm: None,
        now: None,
        names: Names::None,
        files: Vec::new(alloc),
        next: Next::Word,
    };
    for word in words.iter().skip(1) {
        let word = word.as_str();
        match read.next {
            Next::Word if word == "-h" || word == "--help" => return Ok(Task::Help),
            Next::Word if word == "--version" => return Ok(Task::Version),
            _ => take(&mut read, word)?,
        }
    }
    match task_of(read) {
        Ok(task) => Ok(task),
        Err(misuse) => Err(OrMemory::Refused(misuse)),
    }
}

/// Reads a word that is neither `--help` nor `--version`.
fn take<'a>(read: &mut Read<'a>, word: &'a str) -> Result<(), OrMemory<Misuse<'a>>> {
    match read.next {
        Next::Value(_, value) => take_value(read, value, word),
        Next::Name => take_name(read, word),
        Next::Word => if !word.starts_with('-') || word == STANDARD_INPUT {
            take_name(read, word)
        } else {
            take_option(read, word)
        },
    }
}

/// Reads the value of an option.
fn take_value<'a>(
    read: &mut Read<'a>,
    value: Value,
    word: &'a str,
) -> Result<(), OrMemory<Misuse<'a>>> {
    match value {
        Value::Nothing => {}
        Value::Asn => read.of = Some(asn_after(read.of, word)?),
        Value::Vrps => read.files.push(word)?,
        Value::Slurm => match read.slurm {
            None => read.slurm = Some(word),
            Some(_) => return Err(OrMemory::Refused(Misuse::SecondSlurm(word))),
        },
        Value::Time => read.now = Some(time_after(read.now, word)?),
    }
    read.next = Next::Word;
    Ok(())
}

/// Returns the AS number of `--of`. `before` is that of an earlier `--of`.
fn asn_after<'a>(before: Option<u32>, word: &'a str) -> Result<u32, OrMemory<Misuse<'a>>> {
    match (before, Asn::from_str(word)) {
        (Some(_), _) => Err(OrMemory::Refused(Misuse::SecondAsn(word))),
        (None, Ok(asn)) => Ok(asn.into_u32()),
        (None, Err(_)) => Err(OrMemory::Refused(Misuse::NoAsn(word))),
    }
}

/// Returns the time of `--now`. `before` is that of an earlier `--now`.
fn time_after<'a>(before: Option<u64>, word: &'a str) -> Result<u64, OrMemory<Misuse<'a>>> {
    match (before, u64::from_str(word)) {
        (Some(_), _) => Err(OrMemory::Refused(Misuse::SecondTime(word))),
        (None, Ok(time)) => Ok(time),
        (None, Err(_)) => Err(OrMemory::Refused(Misuse::NoTime(word))),
    }
}

/// Reads a file name that belongs to no option.
fn take_name<'a>(read: &mut Read<'a>, name: &'a str) -> Result<(), OrMemory<Misuse<'a>>> {
    read.names = with_name(read.names, name);
    read.files.push(name)?;
    Ok(())
}

/// Reads an option.
fn take_option<'a>(read: &mut Read<'a>, word: &'a str) -> Result<(), OrMemory<Misuse<'a>>> {
    if word == "--" {
        read.next = Next::Name;
        return Ok(());
    }
    for (name, value, _) in OPTIONS {
        if name == word {
            read.options.push(name)?;
            read.next = match value {
                Value::Nothing => Next::Word,
                _ => Next::Value(name, value),
            };
            return Ok(());
        }
    }
    Err(OrMemory::Refused(Misuse::UnknownOption(word)))
}

/// Returns the file names after one more.
fn with_name<'a>(names: Names<'a>, name: &'a str) -> Names<'a> {
    match names {
        Names::None => Names::One(name),
        Names::One(first) => Names::Two(first, name),
        Names::Two(_, _) => Names::More(name),
        Names::More(third) => Names::More(third),
    }
}

/// Returns the task of all words, or the reason why they are not a task.
fn task_of(read: Read<'_>) -> Result<Task<'_>, Misuse<'_>> {
    if let Next::Value(name, value) = read.next {
        return Err(Misuse::WithoutValue(name, value.shown()));
    }
    let kind = kind_of(&read)?;
    check_options(&read, kind)?;
    if kind == Kind::Diff {
        return changes(read.names);
    }
    match read.names {
        Names::Two(_, name) | Names::More(name) => return Err(Misuse::TooManyNames(name)),
        Names::None | Names::One(_) => {}
    }
    let answers = Answers {
        why: read.has("--why"),
        json: read.has("--json"),
        check: read.has("--check"),
        line_buffered: read.has("--line-buffered"),
    };
    let Read {
        of,
        slurm,
        now,
        files,
        ..
    } = read;
    let input = Input {
        files,
        slurm,
        time: now,
    };
    check_input(kind, &input)?;
    if kind == Kind::Table {
        return Ok(Task::Table { input, of });
    }
    Ok(Task::Answer { input, answers })
}

/// Returns the task that the options name.
fn kind_of<'a>(read: &Read<'a>) -> Result<Kind, Misuse<'a>> {
    match (read.has("--table"), read.has("--diff")) {
        (true, true) => Err(Misuse::Options("--table", "--diff")),
        (true, false) => Ok(Kind::Table),
        (false, true) => Ok(Kind::Diff),
        (false, false) => Ok(Kind::Routes),
    }
}

/// Returns the first option that the task does not allow as an error.
fn check_options<'a>(read: &Read<'a>, kind: Kind) -> Result<(), Misuse<'a>> {
    let of_kind = if kind == Kind::Diff {
        "--diff"
    } else {
        "--table"
    };
    for (name, _, kinds) in OPTIONS {
        if kinds.contains(&kind) || !read.has(name) {
            continue;
        }
        if kinds.contains(&Kind::Routes) {
            return Err(Misuse::Options(name, of_kind));
        }
        return Err(Misuse::Needs(name, "--table"));
    }
    Ok(())
}

/// Returns the task of `--diff`, or the reason why the file names are not those of one.
fn changes<'a>(names: Names<'a>) -> Result<Task<'a>, Misuse<'a>> {
    match names {
        Names::Two(STANDARD_INPUT, STANDARD_INPUT) => Err(Misuse::BothAreThere),
        Names::Two(old, new) => Ok(Task::Changes { old, new }),
        Names::None | Names::One(_) => Err(Misuse::TooFewNames),
        Names::More(name) => Err(Misuse::TooManyNames(name)),
    }
}

/// Returns an error if there is no VRP file, or if the standard input can't be each file that it stands for.
fn check_input<'a>(kind: Kind, input: &Input<'a>) -> Result<(), Misuse<'a>> {
    if input.files.is_empty() {
        return Err(Misuse::TooFewNames);
    }
    let of_vrps = input
        .files
        .iter()
        .filter(|name| **name == STANDARD_INPUT)
        .count();
    let is_slurm = input.slurm == Some(STANDARD_INPUT);
    if kind == Kind::Routes && (of_vrps > 0 || is_slurm) {
        return Err(Misuse::RoutesAreThere);
    }
    if of_vrps > 1 || (of_vrps > 0 && is_slurm) {
        return Err(Misuse::SeveralAreThere);
    }
    Ok(())
}
