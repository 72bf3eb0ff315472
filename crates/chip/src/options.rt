// The words of the command line.
ghost use Rattle.std.specs.Prelude.{◌≤◌};
ghost use Rattle.command.specs.CommandLine.{words_left};

use command::words::{Words, is_option};

// What the board does: choices from a file, or each line after so many cycles.
#[derive(Drop)]
pub enum Outside {
    Choices(String),
    Steady(u32),
}

#[derive(Drop)]
pub struct Options {
    pub memory: String,
    pub outside: Outside,
    pub cycles: u64,
    pub events: Option<String>,
    pub save: Option<String>,
}

// The number after an option.
fn number(words: &mut Words, option: &str) -> anyhow::Result<u64>
    ensures { words_left words.new ≤ words_left words.old }
{
    let word = words.after(option, "a number is missing after")?;
    words.number(word.as_str(), "not a number")
}

// The cycles after `--steady`.
fn late(words: &mut Words) -> anyhow::Result<u32>
    ensures { words_left words.new ≤ words_left words.old }
{
    let late = number(words, "--steady")?;
    u32::try_from(late).map_err(|_| words.wrong("too large a number after", "--steady"))
}

// What the words ask for; none where they ask for help.
pub(crate) fn read(rt: &HostRuntime) -> anyhow::Result<Option<Options>> {
    let mut memory: Option<String> = None;
    let mut outside: Option<Outside> = None;
    let mut cycles: u64 = 1 << 32;
    let mut events: Option<String> = None;
    let mut save: Option<String> = None;
    let mut words = Words::new(rt, "chip")?;
    while let Some(word) = words.next() {
        match word.as_str() {
            "--help" => return Ok(None),
            "--steady" => {
                if outside.is_some() {
                    return Err(words.wrong("choices are given already before", "--steady"));
                }
                outside = Some(Outside::Steady(late(&mut words)?));
            }
            "--cycles" => cycles = number(&mut words, "--cycles")?,
            "--events" => events = Some(words.file("--events")?),
            "--memory" => save = Some(words.file("--memory")?),
            other if is_option(other) => return Err(words.wrong("no such option", other)),
            _ if memory.is_none() => memory = Some(word),
            _ if outside.is_none() => outside = Some(Outside::Choices(word)),
            other => return Err(words.wrong("one file too many", other)),
        }
    }
    let Some(memory) = memory else {
        return Err(words.lacks("a memory is missing"));
    };
    let Some(outside) = outside else {
        return Err(words.lacks("choices, or --steady L, are missing"));
    };
    Ok(Some(Options {
        memory,
        outside,
        cycles,
        events,
        save,
    }))
}
