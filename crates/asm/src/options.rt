// The words of the command line.
use command::words::{Words, is_option};

#[derive(Drop)]
pub enum Options {
    Write { source: String, image: String },
    Print(Vec<String>),
}

// What the words ask for; none where they ask for help.
pub(crate) fn read(rt: &HostRuntime) -> anyhow::Result<Option<Options>> {
    let mut files: Vec<String> = Vec::new(rt.alloc());
    let mut print = false;
    let mut words = Words::new(rt, "asm")?;
    while let Some(word) = words.next() {
        match word.as_str() {
            "--help" => return Ok(None),
            "--print" => print = true,
            other if is_option(other) => return Err(words.lacks("no such option")),
            _ => files.push(word)?,
        }
    }
    if print {
        return Ok(Some(Options::Print(files)));
    }
    let (Some(image), Some(source), None) = (files.pop(), files.pop(), files.pop()) else {
        return Err(words.lacks("a source and an image are wanted"));
    };
    Ok(Some(Options::Write { source, image }))
}
