//! Reads the command-line arguments.
use std::fmt;

/// The options of a task that answers lines.
#[derive(Clone, Copy, Debug)]
pub struct Options {
    /// Whether the exit status reports an answer that is an error or a refusal.
    pub check: bool,
    /// Whether a position follows an answer that is an error or a refusal.
    pub places: bool,
}

/// A task of the program.
#[derive(Debug, Drop)]
pub enum Task<'a> {
    /// Answer lines.
    Answer {
        /// The options of the answers.
        options: Options,
        /// The names of the files, in order. Without a name, the standard input is answered.
        names: Vec<&'a str>,
    },
    /// Print the help text.
    Help,
    /// Print the version.
    Version,
}

/// The reason why the arguments are not a task.
#[derive(Clone, Copy, Debug)]
pub enum Misuse<'a> {
    /// The option is unknown.
    UnknownOption(&'a str),
    /// An allocation failed.
    Memory,
}

impl fmt::Display for Misuse<'_> {
    fn fmt<W: fmt::Write>(&self, f: &mut fmt::Formatter<W>) -> fmt::Result {
        match self {
            Misuse::UnknownOption(word) => write!(f, "unknown option: {word}"),
            Misuse::Memory => f.write_str("out of memory"),
        }
    }
}

/// Returns the task of the command line. Its first word is the program's name.
///
/// `-` is the name of the standard input. Each word after `--` is a name.
///
/// # Errors
///
/// - [`Misuse::UnknownOption`]: the first word that begins with `-` and is no option.
/// - [`Misuse::Memory`]: an allocation failed.
pub fn parse<'a>(rt: &HostRuntime, words: &'a [String]) -> Result<Task<'a>, Misuse<'a>> {
    let mut options = Options {
        check: false,
        places: false,
    };
    let mut names = Vec::new(rt.alloc());
    let mut ended = false;
    for word in words.iter().skip(1) {
        let word = word.as_str();
        if ended || !word.starts_with('-') || word == "-" {
            if names.push(word).is_err() {
                return Err(Misuse::Memory);
            }
            continue;
        }
        match word {
            "-h" | "--help" => return Ok(Task::Help),
            "--version" => return Ok(Task::Version),
            "--check" => options.check = true,
            "--where" => options.places = true,
            "--" => ended = true,
            _ => return Err(Misuse::UnknownOption(word)),
        }
    }
    Ok(Task::Answer { options, names })
}
