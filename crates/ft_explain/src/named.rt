//! The files that a command names.
use ft_command::Command;

/// What a command expects its file to be.
#[derive(Clone, Copy, Debug, PartialEq, Eq)]
pub(crate) enum Holds {
    /// An object.
    Object,
    /// A source.
    Source,
    /// An assembly text.
    Text,
    /// A link map.
    Map,
}

/// The files that a command names, and whether it reads a script.
#[derive(Clone, Copy)]
pub(crate) struct Named<'w> {
    pub file: &'w str,
    pub holds: Holds,
    pub list: Option<&'w str>,
    pub takes_script: bool,
}

/// A file of this kind, with nothing else to read.
fn alone<'w>(file: &'w str, holds: Holds) -> Named<'w> {
    Named {
        file,
        holds,
        list: None,
        takes_script: false,
    }
}

/// The files that a command names; `None` if it names none.
pub(crate) fn files_of<'w>(command: &Command<'w>) -> Option<Named<'w>> {
    let named = match command {
        Command::Usage | Command::Demo(_) => return None,
        Command::Check(name)
        | Command::Upgrade(name)
        | Command::Disassemble(name)
        | Command::Schedule(name) => alone(name, Holds::Object),
        Command::Compile(name) => alone(name, Holds::Source),
        Command::Assemble(name) => alone(name, Holds::Text),
        Command::Link(name) => alone(name, Holds::Map),
        Command::Run(run) | Command::Trial(run) | Command::Recover(run) => {
            alone(run.object, Holds::Object)
        }
        Command::Campaign(asked) | Command::Survey(asked) => Named {
            list: Some(asked.faults),
            ..alone(asked.object, Holds::Object)
        },
        Command::Exec(asked) => alone(asked.source, Holds::Source),
        Command::Mean(asked) => alone(asked.source, Holds::Source),
        Command::Debug(asked) => Named {
            takes_script: true,
            ..alone(asked.object, Holds::Object)
        },
    };
    Some(named)
}
