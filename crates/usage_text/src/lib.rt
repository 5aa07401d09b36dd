//! The usage of the program, rendered by `clap`: its commands with their options, the limits of these, an example of
//! each, and what the numbers mean with which a call ends.
//!
//! The text plays no part in how words are read.
#![tactic(auto)]

use clap::{Arg, ArgAction, Command};
use std::alloc::{AllocError, Global};

/// The version of the program.
pub const VERSION: &str = "0.10";

const KEY: &str = "The founding officer's key: + and 8 to 32 of A to Z, a to z, 0 to 9 and -";

const STATUSES: &str = concat!(
    "A call ends with the number of its status:\n",
    "  0  Done: the job is done\n",
    "  2  Usage: the words are none of the above\n",
    "  3  BadFrame: from this offset on the input is no frame\n",
    "  4  DiskFault: the disk failed while the journal was opened, or at the end\n",
    "  5  Damaged: file 2, desk.journal2, 1, desk.journal, or 3, desk.comets, is damaged at this offset\n",
    "  6  ReadFault: the input failed\n",
    "  7  WriteFault: the output failed\n",
    "  8  NoMemory: memory was refused\n",
    "  9  DoorFault: the port failed\n",
    " 10  MirrorFault: the mirror failed\n",
    " 11  TooMany: the catalogue has too many observations or objects for a mirror",
);

/// An option that a command must be given: its name, the name of its value, and what that is.
type Given = (&'static str, &'static str, &'static str);

/// A command: its name, the one that it is called by, what it does, an example, and its options.
struct Form {
    name: &'static str,
    called: &'static str,
    about: &'static str,
    example: &'static str,
    options: &'static [Given],
}

/// The commands, in the order in which they are told.
const FORMS: &[Form] = &[
    Form {
        name: "run",
        called: "mpc_cli run",
        about: "Answers the request frames of standard input on standard output",
        example: "Example: mpc_cli run --key +founder-1",
        options: &[("key", "K", KEY)],
    },
    Form {
        name: "serve",
        called: "mpc_cli serve",
        about: "Attends connections at port 8017 of this machine",
        example: "Example: mpc_cli serve --key +founder-1 --connections 100",
        options: &[
            ("key", "K", KEY),
            (
                "connections",
                "N",
                "How many connections are attended, 1 to 1000",
            ),
        ],
    },
    Form {
        name: "export",
        called: "mpc_cli export",
        about: "Writes the catalogue of the journal to standard output",
        example: "Example: mpc_cli export",
        options: &[],
    },
    Form {
        name: "workload",
        called: "mpc_cli workload",
        about: "Runs made-up requests on an office in memory, and writes a summary of it to standard output",
        example: "Example: mpc_cli workload --seed 7 --count 3",
        options: &[
            (
                "seed",
                "S",
                "The number that starts the requests, 0 to 18446744073709551615",
            ),
            ("count", "M", "How many objects the office gets, 1 to 20000"),
        ],
    },
    Form {
        name: "mirror",
        called: "mpc_cli mirror",
        about: "Copies the catalogue of the journal into its mirror, and writes how much it copied to standard output",
        example: "Example: mpc_cli mirror",
        options: &[],
    },
    Form {
        name: "look",
        called: "mpc_cli look",
        about: "Writes what the mirror holds to standard output: its objects, and its observations of some days",
        example: "Example: mpc_cli look --from 2024-03-16 --to 2024-03-17",
        options: &[
            (
                "from",
                "A",
                "The first of the days, as YYYY-MM-DD, of the years 1800 to 2199",
            ),
            (
                "to",
                "B",
                "The day after the last of them, as YYYY-MM-DD, of the years 1800 to 2199",
            ),
        ],
    },
    Form {
        name: "comets",
        called: "mpc_cli comets",
        about: "Answers the request frames of standard input by the register of comets, which is kept in desk.comets",
        example: "Example: mpc_cli comets --key +founder-1",
        options: &[("key", "K", KEY)],
    },
];

/// The commands. Each further use of the constant itself would be dear to prove.
fn forms() -> &'static [Form] {
    FORMS
}

/// Whether a command of the program has this name.
pub fn is_command(name: &str) -> bool {
    for form in forms() {
        if form.name == name {
            return true;
        }
    }
    false
}

/// An option with a value.
fn option<'a>(alloc: Global, given: &Given) -> Arg<'a> {
    let (name, value, help) = *given;
    Arg::new(alloc, name)
        .long(name)
        .value_name(value)
        .required(true)
        .action(ArgAction::Set)
        .help(help)
}

/// A command without its options; nothing asks it for help.
fn command<'a>(alloc: Global, name: &'a str, about: &'a str, after: &'a str) -> Command<'a> {
    Command::new(alloc, name)
        .about(about)
        .disable_help_flag(true)
        .disable_help_subcommand(true)
        .after_help(after)
}

/// A command with its options.
fn command_of<'a>(alloc: Global, form: &Form) -> Result<Command<'a>, AllocError> {
    let mut command = command(alloc, form.name, form.about, form.example);
    for given in form.options {
        command = command.arg(option(alloc, given))?;
    }
    Ok(command)
}

/// The commands with their options.
fn commands<'a>(alloc: Global) -> Result<Vec<Command<'a>>, AllocError> {
    let mut commands = Vec::new(alloc);
    for form in forms() {
        commands.push(command_of(alloc, form)?)?;
    }
    Ok(commands)
}

/// The program, with what its commands do.
fn program<'a>(alloc: Global) -> Result<Command<'a>, AllocError> {
    let about =
        "A clearing house for minor planet astrometry, on the journal desk.journal2 of the current folder";
    let commands = commands(alloc)?;
    command(alloc, "mpc_cli", about, STATUSES).subcommands(commands)
}

/// The help of a command, where memory was there for the command.
fn help_of(command: Result<Command<'_>, AllocError>) -> Result<String, AllocError> {
    let mut command = command?;
    command.render_help()
}

/// The help of a command of the program under the name that it is called by.
fn command_help(alloc: Global, form: &Form) -> Result<String, AllocError> {
    help_of(command_of(alloc, form)?.bin_name(form.called))
}

/// Writes a text on a line of its own, after others; where memory was refused for the text, nothing.
fn push_text(out: &mut String, text: Result<String, AllocError>) -> Result<(), AllocError> {
    let text = text?;
    out.push_str("\n")?;
    out.push_str(text.as_str())
}

/// Writes the line with the version, after an empty one.
fn push_version(out: &mut String) -> Result<(), AllocError> {
    out.push_str("\nmpc_cli ")?;
    out.push_str(VERSION)?;
    out.push_str("\n")
}

/// The usage of the program, and its version in the last line. It takes memory.
///
/// # Errors
///
/// Memory was refused.
pub fn usage_text(alloc: Global) -> Result<String, AllocError> {
    let mut text = help_of(program(alloc))?;
    for form in forms() {
        push_text(&mut text, command_help(alloc, form))?;
    }
    push_version(&mut text)?;
    Ok(text)
}
