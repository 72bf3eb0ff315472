// The words of the command line.
use command::words::{Words, is_option};

// Where the events come from: a file, or turns in rotation.
#[derive(Drop)]
pub enum Source {
    Events(String),
    Turns(u64),
}

#[derive(Drop)]
pub struct Options {
    pub memory: String,
    pub source: Source,
    pub save: Option<String>,
}

// What the words ask for; none where they ask for help.
pub(crate) fn read(rt: &HostRuntime) -> anyhow::Result<Option<Options>> {
    let mut memory: Option<String> = None;
    let mut source: Option<Source> = None;
    let mut save: Option<String> = None;
    let mut words = Words::new(rt, "manual")?;
    while let Some(word) = words.next() {
        match word.as_str() {
            "--help" => return Ok(None),
            "--turns" => {
                let turns = words.after("--turns", "a number is missing after")?;
                if source.is_some() {
                    return Err(words.wrong("events are given already before", "--turns"));
                }
                let turns = words.number(turns.as_str(), "not a number of turns")?;
                source = Some(Source::Turns(turns));
            }
            "--memory" => save = Some(words.file("--memory")?),
            other if is_option(other) => return Err(words.wrong("no such option", other)),
            _ if memory.is_none() => memory = Some(word),
            _ if source.is_none() => source = Some(Source::Events(word)),
            other => return Err(words.wrong("one file too many", other)),
        }
    }
    let Some(memory) = memory else {
        return Err(words.lacks("a memory is missing"));
    };
    let Some(source) = source else {
        return Err(words.lacks("events, or --turns N, are missing"));
    };
    Ok(Some(Options {
        memory,
        source,
        save,
    }))
}
