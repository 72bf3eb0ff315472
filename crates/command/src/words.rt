// The words of a command line, and what is wrong with them.
ghost use Rattle.std.specs.Prelude.{◌≡◌, ◌+◌, ◌≤◌, ◌++◌, ◌⊎◌, IfNone, OnErr, OnOk, OnSome, Some};
ghost use Rattle.anyhow.specs.Error.{HasMessage};
ghost use Rattle.command.specs.CommandLine.{blame, names_option, see_help, words_left};
ghost use lib.Chars.{codes};

use anyhow::anyhow;
use std::alloc::Global;
use std::env;

// Whether a word names an option.
pub fn is_option(word: &str) -> bool
    ensures { result ≡ names_option word.now }
{
    word.as_bytes().first() == Some(&b'-')
}

// The words after the name of a program, which errors send to its help.
#[derive(Drop)]
pub struct Words {
    program: &'static str,
    heap: Global,
    words: env::Args<Global>,
}

impl Words {
    // The words that this program was called with.
    pub fn new(rt: &HostRuntime, program: &'static str) -> anyhow::Result<Words> {
        let mut words = env::args(rt)?;
        let _ = words.next();
        Ok(Words {
            program,
            heap: rt.alloc(),
            words,
        })
    }

    // The next word.
    pub fn next(&mut self) -> Option<String>
        ensures some { OnSome result (words_left self.new + 1 ≡ words_left self.old) }
        ensures none { IfNone result (words_left self.old ≡ 0) }
        ensures fewer { words_left self.new ≤ words_left self.old }
    {
        self.words.next()
    }

    // The word after an option.
    pub fn after(&mut self, option: &str, what: &str) -> anyhow::Result<String>
        ensures ok { OnOk result (words_left self.new + 1 ≡ words_left self.old) }
        ensures err { OnErr result (words_left self.old ≡ 0) }
        ensures fewer { words_left self.new ≤ words_left self.old }
    {
        match self.next() {
            Some(word) => Ok(word),
            None => Err(self.wrong(what, option)),
        }
    }

    // The file after an option.
    pub fn file(&mut self, option: &str) -> anyhow::Result<String>
        ensures ok { OnOk result (words_left self.new + 1 ≡ words_left self.old) }
        ensures err { OnErr result (words_left self.old ≡ 0) }
        ensures fewer { words_left self.new ≤ words_left self.old }
    {
        self.after(option, "a file is missing after")
    }

    // A word as a number, or what it is not.
    pub fn number(&self, word: &str, what: &str) -> anyhow::Result<u64> {
        word.parse().map_err(|_| self.wrong(what, word))
    }

    // An error that says what is wrong with a word; or, where memory for that text is refused, that the arguments are wrong.
    pub fn wrong(&self, what: &str, word: &str) -> anyhow::Error
        ensures { HasMessage (Some (blame what.now word.now self.now.program.now)) result ⊎ HasMessage (Some (codes "wrong arguments" ++ see_help self.now.program.now)) result }
    {
        let program = self.program;
        match format!(in self.heap; "{what}: {word} (see {program} --help)") {
            Ok(text) => anyhow!("{text}"),
            Err(_) => anyhow!("wrong arguments (see {program} --help)"),
        }
    }

    // An error that says what is missing or wrong where no word is to blame, for which no memory is needed.
    pub fn lacks(&self, what: &str) -> anyhow::Error
        ensures { HasMessage (Some (what.now ++ see_help self.now.program.now)) result }
    {
        let program = self.program;
        anyhow!("{what} (see {program} --help)")
    }
}
